//! What the program promises.

ghost use Rattle.std.specs.Prelude.{◌≡◌, ◌≢◌, ◌<◌, ◌≤◌, ◌^◌, ◌↔◌, ◌⊎◌, ℕ, List, IfSome, Some, length, map};
ghost use Rattle.pg_program.specs.Ending as ending;
ghost use Rattle.pg_program.specs.Outside as outside;
ghost use Rattle.pangaea.specs.Promises as laws;
ghost use Rattle.pg_program.specs.Written as written;
ghost use Rattle.pg_command.specs.Words as wording;
ghost use Rattle.pg_command.specs.declared.command.Command.{Command};
ghost use Rattle.pg_command.specs.declared.command.Help.{Help};
ghost use Rattle.pg_command.specs.declared.command.Numbers.{Numbers};

use crate::citing::laws_of_runs;
use law_shows::shows_are_states;
use law_steps::refused_steps_change_nothing;
use pg_disk::Disk;
use pg_event::Status;
use pg_io::{Sink, Source};
use pg_meter::Meter;
use pg_net::{Clock, Net};
use pg_program::{heed, journals_are_alike, lines_are_events};
use std::alloc::Global;

/// Does what the words ask for. Word 0 is the program's name.
pub fn run<S: Source, K: Sink, N: Net, D: Disk, C: Clock>(
    alloc: Global,
    words: &Vec<String>,
    source: &mut S,
    sink: &mut K,
    net: &mut N,
    disk: &mut D,
    clock: &mut C,
    meters: Vec<Box<dyn Meter>>,
) -> Status
    // What is written: of a schedule that is read the spelling of the lines of its run, each of
    // them a line of a journal; so it is read again. Of made schedules their text, and what came of
    // their run.
    ensures done { (command : Command) → wording.Asks words.now command → result ≡ Status.Done
        → written.Writes command (map (λ m. written.reading (counts m) (counted m)) meters.items)
        (S.remaining source.old) (K.contents sink.old) (K.contents sink.new) }
    ensures whole { wording.AsksForReplay words.now → result ≡ Status.Done
        → ending.IsAtEnd (S.remaining source.new) }
    ensures whole_first { wording.AsksForReplay words.now → result ≡ Status.WriteFault
        → ending.IsAtEnd (S.remaining source.new) }
    ensures prefix { (command : Command) → wording.Asks words.now command
        → result ≡ Status.WriteFault
        → written.WritesFront command
        (map (λ m. written.reading (counts m) (counted m)) meters.items)
        (S.remaining source.old) (K.contents sink.old) (K.contents sink.new) }
    ensures unread { ¬ (wording.AsksForReplay words.now) → source.new ≡ source.old }
    ensures untouched { ¬ (wording.AsksForCall words.now) → result ≢ Status.Done
        → result ≢ Status.WriteFault → sink.new ≡ sink.old }

    // What a node and a call do: a node takes up what the log of its name keeps, and sends what its
    // server sends behind the inputs that it took, with the moments and words that the clock gave,
    // each appended before its packets go; a call sends one packet, and writes the first reply to
    // it among ten takes. A node writes nothing; no other command touches the net, and none the
    // disk or the clock.
    ensures does { (command : Command) → wording.Asks words.now command
        → outside.Does N.tells C.tells D.tells command result (N.told net.old) (N.told net.new)
        (N.takes net.old) (N.takes net.new) (C.told clock.old) (C.told clock.new)
        (D.told disk.old) (D.told disk.new) (K.contents sink.old) (K.contents sink.new) }
    ensures silent { wording.AsksForNode words.now → sink.new ≡ sink.old }
    ensures same_net { ¬ (wording.AsksForNode words.now) → ¬ (wording.AsksForCall words.now)
        → net.new ≡ net.old }
    ensures same_disk { ¬ (wording.AsksForNode words.now) → disk.new ≡ disk.old }
    ensures same_clock { ¬ (wording.AsksForNode words.now) → clock.new ≡ clock.old }

    // A node that is stopped at any moment, within a write too, has all inputs of its old log and
    // the first of its own; and as it ends, with whatever status, those of which a packet was sent.
    ensures crash { (command : Command) → wording.Asks words.now command
        → outside.IsSafe N.tells D.tells command (N.told net.old) (N.told net.new)
        (D.told disk.old) (D.told disk.new) }

    // Meters change nothing of a journal but their own lines, and which lines are void for want of
    // one.
    ensures alike { (servers : ℕ) → laws.JournalsAreAlike servers }

    // What each server took is what it made, what was delivered to it, and what was there from the
    // start on; places and flags are so by replica. What it holds is the state of exactly that:
    // contents, and names. And so is what it shows.
    ensures took { (servers : ℕ) → laws.TakesWhatCame servers }
    ensures took_by { (servers : ℕ) → laws.ReplicasTookWhatCame servers }
    ensures merge { (servers : ℕ) → servers < 2 ^ 32 → laws.HoldsWhatItTook servers }
    ensures names { (servers : ℕ) → servers < 2 ^ 32 → laws.NamesMerge servers }
    ensures shows { (servers : ℕ) → servers < 2 ^ 32 → laws.ShowsAreStates servers }
    ensures heads { (servers : ℕ) → servers < 2 ^ 32 → laws.StateIsItsHeads servers }
    ensures determined { (servers : ℕ) → servers < 2 ^ 32 → laws.StateIsDetermined servers }
    ensures determined_names { (servers : ℕ) → servers < 2 ^ 32 → laws.NamesAreDetermined servers }

    // The versions of a file are a history, whose ancestors vectors tell, and which messages carry.
    // Of one stamp there is one version, and one place of a thing; and no two versions or places
    // that were made have one. Clocks end before other numbers do.
    ensures histories { (servers : ℕ) → servers < 2 ^ 32 → laws.MakesHistories servers }
    ensures one_version_a_stamp { (servers : ℕ) → servers < 2 ^ 32 → laws.OneVersionAStamp servers }
    ensures one_place { (servers : ℕ) → laws.OnePlaceAStamp servers }
    ensures one_stamp { (servers : ℕ) → servers < 2 ^ 32 → laws.OneStampEach servers }
    ensures ancestry { (servers : ℕ) → servers < 2 ^ 32 → laws.AncestryByVectors servers }
    ensures carried { (servers : ℕ) → servers < 2 ^ 32 → laws.CarriesHistory servers }
    ensures clock { (servers : ℕ) → servers < 2 ^ 32 → laws.ClockEndsFirst servers }
    // More than 1,024 bytes of a body go only to who asked for them; one server is asked at a time.
    // Who hears of a version first asks its sender for all of the body, and tells the peers of all
    // other edges. A replica keeps the latest of the deltas that it made or took, and a Want is
    // given the change that these lead to, where one does and is worth it.
    ensures bodies { (servers : ℕ) → servers < 2 ^ 32 → laws.BodiesAnswerWants servers }
    ensures one_asked { (servers : ℕ) → servers < 2 ^ 32 → laws.OneIsAskedAtATime servers }
    ensures one_in_each { (servers : ℕ) → laws.AnEventAsksOne servers }
    ensures first_harbingers { (servers : ℕ) → laws.FirstHarbingersAsk servers }
    ensures kept_deltas { (servers : ℕ) → servers < 2 ^ 32 → laws.KeepsWhatItMadeOrTook servers }
    ensures given { (servers : ℕ) → servers < 2 ^ 32 → laws.WantsGetTheShortestChange servers }

    // Behind every event names are as the house rules ask, which go by single steps, and each
    // server intends what it is to; a Confirm begins where a place came of which nobody was sure,
    // and for no other reason but a further view, and stands until it was told. Each line is events
    // of the run, those of a settling among them. A tick sends what is owed and the walk that its
    // word chooses, and is refused exactly at the clock's end.
    ensures order { (servers : ℕ) → laws.HouseIsInOrder servers }
    ensures by_steps { (servers : ℕ) → laws.RulesGoBySteps servers }
    ensures events { (servers : ℕ) → laws.LinesAreEvents servers }
    ensures intends { (servers : ℕ) → laws.IntentionsAreInOrder servers }
    ensures confirms { (servers : ℕ) → servers < 2 ^ 32 → laws.ConfirmsBeginAndStay servers }
    ensures confirms_only { (servers : ℕ) → laws.ConfirmsBeginOnly servers }
    ensures in_turn { (servers : ℕ) → laws.IntentionsBeginInTurn servers }
    ensures owed { (servers : ℕ) → laws.TicksSendWhatIsOwed servers }
    // A refused call changes nothing, but that what is not here yet is asked for: a wish may be
    // kept, and its Fetch be sent.
    ensures refused { (servers : ℕ) → laws.RefusalsChangeNothing servers }
    ensures refused_steps { laws.RefusedStepsChangeNothing }

    // What a server knows of removals is the first of them, in their order, and never its own; it
    // has no edge to who is removed so. A message is of a view that its sender had, and in which it
    // was live.
    ensures views { (servers : ℕ) → laws.ViewsArePrefixes servers }
    ensures messages_of_views { (servers : ℕ) → laws.MessagesAreOfViews servers }

    // A server that is not live takes nothing more, whatever follows: it stays as it was, and no
    // entry tells of an effect of it. No message to a removed one is under way.
    ensures rests { (servers : ℕ) → laws.RemovedServersRest servers }
    ensures none_to_removed { (servers : ℕ) → laws.NoneIsUnderWayToRemoved servers }

    // After every event each full replica sees a live gold. A gold replica names with an edge each
    // other live gold that it sees, or seeks one; any other replica names one, or seeks one.
    ensures golds { (servers : ℕ) → laws.FullReplicasSeeGold servers }
    ensures golds_are_linked { (servers : ℕ) → laws.ReplicasNameGolds servers }

    // A server has one birth of a thing at a time, which was given out for nothing else, and
    // whoever names one names one that was given out. The greater has the edge; who accepts a
    // message that links its sender lists it; and what is acknowledged is had.
    ensures known { (servers : ℕ) → laws.BirthsAreKnown servers }
    ensures one_birth_at_a_time { (servers : ℕ) → laws.BirthsAreAlone servers }
    ensures births_of_one_thing { (servers : ℕ) → laws.BirthsAreOfOneThing servers }
    ensures edges { (servers : ℕ) → laws.GreaterBirthsReplaceEdges servers }
    ensures linked { (servers : ℕ) → laws.LinksNameTheSender servers }
    ensures asked_linked { (servers : ℕ) → laws.AsksLinkTheAsker servers }
    ensures acked_is_had { (servers : ℕ) → servers < 2 ^ 32 → laws.AcknowledgedKeysAreHad servers }

    // Whoever lets a replica go leaves its whole state with another server that holds the thing,
    // and is not removed in its view. Of what went the birth is over; an edge that its peer heard
    // of is named back, or a Bye is owed, unless the edge's server is removed in the peer's view.
    // Each peer is told of a replica that goes.
    ensures drops { (servers : ℕ) → servers < 2 ^ 32 → laws.DropsAreSafe servers }
    ensures gone_is_over { (servers : ℕ) → servers < 2 ^ 32 → laws.WhatWentIsOver servers }
    ensures heard { (servers : ℕ) → servers < 2 ^ 32 → laws.HeardEdgesAreKnown servers }
    ensures byes { (servers : ℕ) → servers < 2 ^ 32 → laws.ByesAreOver servers }
    ensures told { (servers : ℕ) → laws.EachPeerIsTold servers }

    // Quiet is told exactly where no message is under way, each live server has entered the last
    // removal, and none owes anything. There live servers that are joined agree, and where all are,
    // all do, and the names form one tree, in which each survivor is listed where it stands and
    // nowhere else, in no dead directory.
    ensures quiet { laws.QuietIsTold }
    ensures joined { (servers : ℕ) → servers < 2 ^ 32 → laws.QuietJoinedServersAgree servers }
    ensures agree { (servers : ℕ) → servers < 2 ^ 32 → laws.QuietServersAgree servers }
    ensures tree { (servers : ℕ) → servers < 2 ^ 32 → laws.QuietNamesFormATree servers }
    ensures listed { (servers : ℕ) → servers < 2 ^ 32
        → laws.QuietThingsAreListedOnlyWhereTheyStand servers }
    ensures no_dead_parent { (servers : ℕ) → servers < 2 ^ 32
        → laws.QuietDirectoriesAreBroughtBack servers }

    // So it is, with no premise on graphs, of what was kept: where between each two neighbouring
    // moments of a thing, its creation and the quiet ends of events, one replica of a live server
    // stayed gold, and none forgot the thing.
    ensures kept { (servers : ℕ) → servers < 2 ^ 32 → laws.KeptThingsAreConnected servers }
    ensures kept_agree { (servers : ℕ) → servers < 2 ^ 32 → laws.KeptServersAgree servers }
    ensures kept_tree { (servers : ℕ) → servers < 2 ^ 32 → laws.KeptNamesFormATree servers }
    ensures kept_listed { (servers : ℕ) → servers < 2 ^ 32
        → laws.KeptThingsAreListedOnlyWhereTheyStand servers }
    ensures kept_back { (servers : ℕ) → servers < 2 ^ 32
        → laws.KeptDirectoriesAreBroughtBack servers }

    // Where a directory comes back, whoever removed it in an earlier event had not heard of the
    // places that it lists, unless it is removed in the view of who brings the directory back. It
    // lists a child then; and in the event of an rmdir or a forget no rule brings back what was
    // removed.
    ensures justified { (servers : ℕ) → servers < 2 ^ 32 → laws.ReturnsAreJustified servers }
    ensures returns_list { (servers : ℕ) → servers < 2 ^ 32 → laws.ReturnsList servers }
    ensures removal_stays { (servers : ℕ) → laws.RemovalsStay servers }
    ensures forget_stays { (servers : ℕ) → laws.ForgetsStay servers }

    // When it ends how.
    ensures usage { (n : ℕ) → result ≡ Status.Usage n ↔ wording.IsFault words.now n }
    ensures read { result ≡ Status.ReadFault
        → ending.Rose (S.faults source.old) (S.faults source.new) }
    ensures write { result ≡ Status.WriteFault
        → ending.Rose (K.faults sink.old) (K.faults sink.new) }
    ensures end { wording.AsksForNode words.now
        → outside.IsEnd (N.faults net.old) (N.faults net.new)
        (D.faults disk.old) (D.faults disk.new) result }
    ensures net { result ≡ Status.NetFault → ending.Rose (N.faults net.old) (N.faults net.new) }
    ensures disk { result ≡ Status.DiskFault → ending.Rose (D.faults disk.old) (D.faults disk.new) }
    // A node ends so by the log of its name, exactly where this is bad, or good and another's.
    ensures log { (command : Command) → wording.Asks words.now command → D.tells
        → outside.Answers command (N.faults net.old) (N.faults net.new) (D.faults disk.old)
        (D.faults disk.new) (D.told disk.old) result }
    ensures bad_log { (place : ℕ) → result ≡ Status.BadLog place → wording.AsksForNode words.now }
    ensures other_log { (server servers : ℕ) → result ≡ Status.OtherLog server servers
        → wording.AsksForNode words.now }
    ensures spent { result ≡ Status.TurnsSpent → ¬ (wording.AsksForCall words.now)
        → wording.AsksForNode words.now }
    ensures refused_call { (n : ℕ) → result ≡ Status.Refused n → wording.AsksForCall words.now }
    ensures limit { written.most_input ≡ 2 ^ 26 }
    ensures long { result ≡ Status.InputLong → IfSome (S.remaining source.old) written.IsTooLong }
    ensures short { (input : List ℕ) → wording.AsksForReplay words.now
        → S.remaining source.old ≡ Some input
        → written.IsTooLong input
        → ¬ (ending.Rose (S.faults source.old) (S.faults source.new))
        → ending.EndsOnly result Status.InputLong }
    ensures bad { (n : ℕ) (f : ending.Fault) → result ≡ Status.BadLine n f
        → ending.FirstBadIs (S.remaining source.old) n f }
    ensures whole_bad { (n : ℕ) (f : ending.Fault) → result ≡ Status.BadLine n f
        → ending.IsAtEnd (S.remaining source.new) }
    ensures first_bad { (input : List ℕ) (n : ℕ) (f : ending.Fault)
        → wording.AsksForReplay words.now
        → S.remaining source.old ≡ Some input → length input ≤ written.most_input
        → ending.IsFirstBad input n f
        → ¬ (ending.Rose (S.faults source.old) (S.faults source.new))
        → ending.EndsOnly result (Status.BadLine n f) }
    ensures complete { wording.AsksForReplay words.now
        → written.IsGoodInput (S.remaining source.old)
        → ¬ (ending.Rose (S.faults source.old) (S.faults source.new))
        → ¬ (ending.Rose (K.faults sink.old) (K.faults sink.new))
        → ending.EndsOnly result Status.Done }
    ensures complete_made { (numbers : Numbers)
        → wording.Asks words.now (Command.Make numbers) ⊎ wording.Asks words.now (Command.Soak
        numbers)
        → ¬ (ending.Rose (K.faults sink.old) (K.faults sink.new))
        → ending.EndsOnly result Status.Done }
    ensures complete_help { (help : Help) → wording.Asks words.now (Command.Help help)
        → ¬ (ending.Rose (K.faults sink.old) (K.faults sink.new))
        → ending.EndsOnly result Status.Done }
{
    // The laws of every run: these calls say what holds, and do nothing.
    laws_of_runs();
    refused_steps_change_nothing();
    lines_are_events();
    journals_are_alike();
    shows_are_states();

    heed(alloc, words, source, sink, net, disk, clock, meters)
}
