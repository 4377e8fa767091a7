//! What is written of a run, and a whole journal.

ghost use Rattle.std.specs.Prelude.{◌≡◌, ◌++◌, OnOk, map};
ghost use Rattle.std.specs.List.{AllByRecursion, flat_map};
ghost use Rattle.pg_msg.specs.Sent.{summary};
ghost use Rattle.pg_msg.specs.Text.{IsSummary};
ghost use Rattle.pg_msg.specs.UpdateText.{IsUpdate};
ghost use Rattle.pg_sched.specs.Line.{IsLine};
ghost use Rattle.pg_trace.specs.declared.journal_line.JournalLine.TheVariants as printed;
ghost use Rattle.pg_trace.specs.JournalLine.{printed_text, journal_spelling, ArePrinted, IsPrinted};
ghost use Rattle.pg_trace.specs.Suited.{Answers, IsSuited, SuitsKind, SuitsQuiet, SuitsReplica, SuitsUpdate};
ghost use Rattle.pg_trace.specs.Text.{told_lines, tick_lines, done_lines, entry_lines, entry_text, head_lines, head_text, quiet_text};

use crate::fitting::{quiet_fits, replica_fits, reply_fits, summary_fits, update_fits};
use crate::journal_line::{AskedAt, JournalLine};
use crate::replica::ShownReplica;
use pg_base::{Bytes, NodeId};
use pg_call::Reply;
use pg_event::{Entry, Event, Quiet};
use pg_msg::{Sent, Update};
use pg_sched::{Form, Line};
use std::alloc::AllocError;

fn write_line(line: &JournalLine, out: &mut Bytes) -> Result<(), AllocError>
    ensures { OnOk result (out.new ≡ out.old ++ printed_text line.now) }
{
    write!(out, "{line}\n")
}

/// Writes a whole journal at the end.
pub fn write(journal: &[JournalLine], out: &mut Bytes) -> Result<(), AllocError>
    ensures { OnOk result (out.new ≡ out.old ++ journal_spelling journal.now) }
{
    for line in journal {
        write_line(line, out)?;
    }
    Ok(())
}

/// Writes what stands in front of the output of the line with this number: in full form the line,
/// in short form nothing.
pub fn write_head(line: u64, form: Form, what: &Line, out: &mut Bytes) -> Result<(), AllocError>
    ensures text { OnOk result (out.new ≡ out.old ++ head_text line form what.now) }
    ensures spelled { IsLine what.now → ArePrinted (head_lines line form what.now) }
{
    match form {
        Form::Full => write!(out, "event {line} {what}\n"),
        Form::Short => Ok(()),
    }
}

/// Writes what comes of an event on the line with this number. Where its parts suit each other this
/// is lines of a journal, that is, it is read again: the numbers and bytes of an entry are in their
/// ranges by its type.
pub fn write_entry(line: u64, form: Form, entry: &Entry, out: &mut Bytes) -> Result<(), AllocError>
    ensures text { OnOk result (out.new ≡ out.old ++ entry_text line form entry.now) }
    ensures spelled { OnOk result (IsSuited entry.now
        → ArePrinted (entry_lines line form entry.now)) }
{
    match entry.void {
        Some(cause) => write_line(&JournalLine::Void { line, cause }, out),
        None => {
            write_told(form, &entry.event, &entry.reply, out)?;
            write_done(form, entry.made.as_slice(), entry.sent.as_slice(), out)?;
            Ok(())
        }
    }
}

fn write_told(
    form: Form,
    event: &Event,
    reply: &Option<Reply>,
    out: &mut Bytes,
) -> Result<(), AllocError>
    ensures text { OnOk result (out.new ≡ out.old
        ++ flat_map printed_text (told_lines form event.now reply.now)) }
    ensures spelled { Answers event.now reply.now
        → ArePrinted (told_lines form event.now reply.now) }
{
    reply_fits(event, reply);
    match (event, reply) {
        (Event::Call { server, call, .. }, Some(reply)) => {
            let kind = call.kind();
            write!(out, "call {server} {kind} -> {reply}\n")
        }
        (Event::Tick { server, .. }, Some(reply)) => write_tick(form, *server, reply, out),
        _ => Ok(()),
    }
}

fn write_tick(form: Form, server: NodeId, reply: &Reply, out: &mut Bytes) -> Result<(), AllocError>
    ensures { OnOk result (out.new ≡ out.old
        ++ flat_map printed_text (tick_lines form server reply.now)) }
{
    match (form, reply) {
        (Form::Full, reply) => write!(out, "tick {server} -> {reply}\n"),
        (Form::Short, Reply::Refused(refusal)) => write!(out, "tick {server} -> {refusal}\n"),
        (Form::Short, _) => Ok(()),
    }
}

fn write_done(form: Form, made: &[Update], sent: &[Sent], out: &mut Bytes) -> Result<(), AllocError>
    ensures text { OnOk result (out.new ≡ out.old
        ++ flat_map printed_text (done_lines form made.now sent.now)) }
    ensures spelled { OnOk result (AllByRecursion SuitsUpdate made.now
        → AllByRecursion (λ m. SuitsKind (summary m)) sent.now
        → ArePrinted (done_lines form made.now sent.now)) }
{
    match form {
        Form::Full => {
            write_made(made, out)?;
            write_sent(sent, out)?;
            Ok(())
        }
        Form::Short => Ok(()),
    }
}

fn write_update(update: &Update, out: &mut Bytes) -> Result<(), AllocError>
    ensures text { OnOk result (out.new ≡ out.old ++ printed_text (printed.Made update.now)) }
    ensures fits { SuitsUpdate update.now → IsUpdate update.now }
{
    update_fits(update);
    write!(out, "made {update}\n")
}

fn write_made(made: &[Update], out: &mut Bytes) -> Result<(), AllocError>
    ensures text { OnOk result (out.new ≡ out.old
        ++ flat_map printed_text (map printed.Made made.now)) }
    ensures fit { OnOk result (AllByRecursion (λ u. SuitsUpdate u → IsUpdate u) made.now) }
{
    for update in made {
        write_update(update, out)?;
    }
    Ok(())
}

fn write_message(message: &Sent, out: &mut Bytes) -> Result<(), AllocError>
    ensures text { OnOk result (out.new ≡ out.old
        ++ printed_text (printed.Sent (summary message.now))) }
    ensures fits { SuitsKind (summary message.now) → IsSummary (summary message.now) }
{
    let summary = message.summary();
    summary_fits(summary);
    write_line(&JournalLine::Sent(summary), out)
}

fn write_sent(sent: &[Sent], out: &mut Bytes) -> Result<(), AllocError>
    ensures text { OnOk result (out.new ≡ out.old
        ++ flat_map printed_text (map (λ m. printed.Sent (summary m)) sent.now)) }
    ensures fit { OnOk result
        (AllByRecursion (λ m. SuitsKind (summary m) → IsSummary (summary m)) sent.now) }
{
    for message in sent {
        write_message(message, out)?;
    }
    Ok(())
}

/// Writes a replica that a server holds.
pub fn write_replica(replica: &ShownReplica, out: &mut Bytes) -> Result<(), AllocError>
    ensures text { OnOk result (out.new ≡ out.old ++ printed_text (printed.Replica replica.now)) }
    ensures spelled { SuitsReplica replica.now → IsPrinted (printed.Replica replica.now) }
{
    replica_fits(replica);
    write!(out, "{replica}\n")
}

/// Writes whether all is done, behind this word.
pub fn write_quiet(word: AskedAt, quiet: &Quiet, out: &mut Bytes) -> Result<(), AllocError>
    ensures text { OnOk result (out.new ≡ out.old ++ quiet_text word quiet.now) }
    ensures spelled { SuitsQuiet quiet.now → IsPrinted (printed.Asked word quiet.now) }
{
    quiet_fits(*quiet);
    write!(out, "{word} {quiet}\n")
}
