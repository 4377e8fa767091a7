//! What an input does to what a server holds, and what comes of it.

ghost use Rattle.std.specs.Prelude.{◌≡◌, ◌≤◌, ◌^◌, ◌++◌, OnOk, IfOk};
ghost use Rattle.pg_calls.specs.pg_pieces.Done.{idle};
ghost use Rattle.pg_server.specs.Local.{closed, effect, effect_of, finished, is_heard, out_of, receive, without_sources, without_volatile};

use crate::input::{Input, Out};
use pg_base::Items;
use pg_calls::call::{Call, Refusal, Reply};
use pg_calls::cells::{ack, cell, finish, settle, tick};
use pg_calls::do_call;
use pg_calls::graph::{bye, bye_ok, here, leave, leave_ok, seek, walk, walk_of_tick};
use pg_calls::intentions::{ask_all, ask_begun, begin_end};
use pg_calls::msg::{Message, Packet, Sent, Work};
use pg_calls::repair::{
    confirm, fetch, full, gone, grant, invite, no_grant, none_here, place_is, tell, tell_ok,
};
use pg_calls::store::{LATEST_TIME, Store};
use pg_transfer::{delta, harbinger, later, piece, want};
use std::alloc::AllocError;

/// Puts the others behind these messages.
fn joined(sent: Items<Sent>, others: Items<Sent>) -> Result<Items<Sent>, AllocError>
    ensures { IfOk result (λ all. all ≡ sent ++ others) }
{
    let mut all = sent.into_vec();
    let mut others = others.into_vec();
    all.append(&mut others)?;
    Ok(Items::from_vec(all))
}

/// What comes of an event: the reply to a client, what was made, and what is sent.
fn out_of(reply: Option<Reply>, work: Work) -> Result<Out, AllocError>
    ensures { IfOk result (λ out. out ≡ out_of reply work) }
{
    let Work {
        made,
        sent,
        tail,
        ..
    } = work;
    let sent = joined(sent, tail)?;
    Ok(Out { reply, made, sent })
}

/// Takes an input, and says what comes of it. Where memory ran out the store may be changed in
/// part.
pub(crate) fn effect(store: &mut Store, input: Input) -> Result<Out, AllocError>
    ensures store { OnOk result (store.new ≡ (effect_of store.old input).store) }
    ensures out { IfOk result (λ out. out ≡ (effect_of store.old input).out) }
{
    match input {
        Input::Call { moment, call } => call_effect(store, moment, &call),
        Input::Tick { moment, word } => tick_effect(store, moment, word),
        Input::Arrival(packet) => arrival_effect(store, packet),
        Input::Restart => restart_effect(store),
    }
}

/// The end of an event at which nothing changed names: what was touched is sent.
fn finished(reply: Option<Reply>, store: &Store, mut work: Work) -> Result<Out, AllocError>
    ensures { IfOk result (λ out. out ≡ (finished reply (idle store.now work)).out) }
{
    finish(store, &mut work)?;
    ask_begun(store, &mut work)?;
    out_of(reply, work)
}

/// The end of an event: the house rules run, intentions end and begin, and what was touched is
/// sent, and the messages of the intentions that began behind it.
fn closed(reply: Option<Reply>, store: &mut Store, mut work: Work) -> Result<Out, AllocError>
    ensures store { OnOk result (store.new ≡ (closed reply (idle store.old work)).store) }
    ensures out { IfOk result (λ out. out ≡ (closed reply (idle store.old work)).out) }
{
    if store.names.last() > LATEST_TIME {
        return Err(AllocError);
    }
    settle(store, &mut work)?;
    begin_end(store, &mut work)?;
    Ok(finished(reply, store, work)?)
}

/// A client calls the server. At the end of the clock no house rule runs.
fn call_effect(store: &mut Store, moment: u64, call: &Call) -> Result<Out, AllocError>
    ensures store { OnOk result
        (store.new ≡ (effect store.old (Input.Call moment call.now)).store) }
    ensures out { IfOk result (λ out. out ≡ (effect store.old (Input.Call moment call.now)).out) }
{
    let mut work = Work::new(store.allocator(), moment, 0);
    let goes = store.is_before_clock_end();
    let reply = do_call(store, call, &mut work)?;
    if goes {
        Ok(closed(Some(reply), store, work)?)
    } else {
        Ok(finished(Some(reply), store, work)?)
    }
}

/// No server is asked for any version any more. What is not acknowledged is sent again, and last a
/// walk, if the word chooses one. At the end of the clock it is refused.
fn tick_effect(store: &mut Store, moment: u64, word: u64) -> Result<Out, AllocError>
    ensures store { OnOk result (store.new ≡ (effect store.old (Input.Tick moment word)).store) }
    ensures out { IfOk result (λ out. out ≡ (effect store.old (Input.Tick moment word)).out) }
{
    let mut work = Work::new(store.allocator(), moment, 0);
    if store.is_before_clock_end() {
        lose_sources(store);
        tick(store, &mut work)?;
        ask_all(store, &mut work)?;
        walk_of_tick(store, word, &mut work)?;
        Ok(closed(Some(Reply::Done), store, work)?)
    } else {
        let reply = Reply::Refused(Refusal::ClockEnd);
        Ok(finished(Some(reply), store, work)?)
    }
}

/// No server is asked for any version any more.
fn lose_sources(store: &mut Store)
    ensures { store.new ≡ without_sources store.old }
{
    store.announced.release();
}

/// A restart loses the wishes and what is noted of versions, and nothing else: there is no reply,
/// nothing is made, and nothing begins. At the end of the clock no house rule runs.
fn restart_effect(store: &mut Store) -> Result<Out, AllocError>
    ensures store { OnOk result (store.new ≡ (effect store.old Input.Restart).store) }
    ensures out { IfOk result (λ out. out ≡ (effect store.old Input.Restart).out) }
{
    let work = Work::new(store.allocator(), 0, 0);
    let goes = store.is_before_clock_end();
    lose_volatile(store);
    if goes {
        Ok(closed(None, store, work)?)
    } else {
        Ok(finished(None, store, work)?)
    }
}

/// The wishes and what is noted of versions go.
fn lose_volatile(store: &mut Store)
    ensures { store.new ≡ without_volatile store.old }
{
    store.announced.clear();
    store.wishes.clear();
}

/// Whether a message is heard: it comes from another live server in the same view, has no number
/// out of range, and the clock is not at its end.
fn is_heard(store: &Store, packet: &Packet) -> bool
    ensures { result ≡ is_heard store.now packet.now }
{
    store.is_before_clock_end()
        && packet.view == store.view()
        && store.is_live_other(packet.from)
        && packet.message.is_in_range()
}

/// Takes a message that is heard.
fn arrival_effect(store: &mut Store, packet: Packet) -> Result<Out, AllocError>
    ensures store { OnOk result (store.new ≡ (effect store.old (Input.Arrival packet)).store) }
    ensures out { IfOk result (λ out. out ≡ (effect store.old (Input.Arrival packet)).out) }
{
    let mut work = Work::new(store.allocator(), 0, packet.from);
    if is_heard(store, &packet) {
        receive(store, packet.message, &mut work)?;
        Ok(closed(None, store, work)?)
    } else {
        Ok(finished(None, store, work)?)
    }
}

/// Each kind of message goes to its handler, which does nothing where the message is not accepted.
fn receive(store: &mut Store, message: Message, work: &mut Work) -> Result<(), AllocError>
    requires { store.old.tags ≤ 2 ^ 62 }
    ensures store { OnOk result (store.new ≡ (receive store.old message work.old).store) }
    ensures work { OnOk result (work.new ≡ (receive store.old message work.old).work) }
{
    match message {
        Message::Cell {
            ends,
            tag,
            cell: received,
        } => cell(store, ends, tag, received, work),
        Message::Ack { ends, key, tag } => {
            ack(store, ends, key, tag, work);
            Ok(())
        }
        Message::Harbinger { ends, tag, head } => harbinger(store, ends, tag, &head, work),
        Message::Want { ends, wanted } => want(store, ends, wanted.get(), work),
        Message::Delta {
            ends,
            delta: received,
        } => delta(store, ends, received.get(), work),
        Message::Piece {
            ends,
            piece: received,
        } => piece(store, ends, received.get(), work),
        Message::Later { ends, stamp } => later(store, ends, stamp, work),
        Message::Fetch { file, birth } => fetch(store, file, birth, work),
        Message::Grant { ends, granted } => grant(store, ends, granted.get(), work),
        Message::NoGrant { file, birth } => {
            no_grant(store, file, birth, work);
            Ok(())
        }
        Message::Full { ends } => full(store, ends, work),
        Message::Seek { file, birth } => seek(store, file, birth, work),
        Message::Greet { ends, .. } => here(store, ends, work),
        Message::NoneHere { ask, file, child } => {
            none_here(store, ask, file, child, work);
            Ok(())
        }
        Message::Gone { file, birth } => {
            gone(store, file, birth, work);
            Ok(())
        }
        Message::Bye { ends } => bye(store, ends, work),
        Message::ByeOk { file, birth } => {
            bye_ok(store, file, birth, work);
            Ok(())
        }
        Message::Confirm { dir, entry } => confirm(store, dir, entry.get(), work),
        Message::PlaceIs { dir, entry } => place_is(store, dir, entry.get(), work),
        Message::Tell { dir, entry } => tell(store, dir, entry.get(), work),
        Message::TellOk { dir, child, stamp } => {
            tell_ok(store, dir, child, stamp, work);
            Ok(())
        }
        Message::Leave { ends, stamp } => leave(store, ends, stamp, work),
        Message::LeaveOk { ends, stamp } => leave_ok(store, ends, stamp, work),
        Message::Invite { ends } => invite(store, ends, work),
        Message::Walk {
            ends,
            origin,
            birth,
            hops,
            word,
        } => walk(store, ends, origin, birth, hops, word, work),
    }
}
