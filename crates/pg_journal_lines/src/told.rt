//! What servers told, in a journal's lines.

ghost use Rattle.std.specs.Prelude.{◌≡◌, ◌<◌, ◌^◌, ◌↔◌, ℕ, map, IfOk, IfSome, IfNone, IsTrue};
ghost use Rattle.pg_call.specs.Reply.{IsReply, IsTickReply};
ghost use Rattle.pg_call.specs.declared.reply.Reply.{Reply};
ghost use Rattle.pg_journal_lines.specs.Reading.{answer_words, told_words};

use crate::reply::read_reply;
use pg_base::{NodeId, number_u32};
use pg_call::{Refusal, Reply};
use pg_words::{first_word, is_same};
use std::alloc::{AllocError, Global};

/// The reply behind an arrow.
pub(crate) fn read_answer(alloc: Global, words: &[&[u8]]) -> Result<Option<Reply>, AllocError>
    ensures found { IfOk result (λ o. IfSome o (λ r. IsReply r
        × (map (λ w. w.now) words.now ≡ answer_words r))) }
    ensures none { IfOk result (λ o. IfNone o ((r : Reply) → IsReply r
        → map (λ w. w.now) words.now ≡ answer_words r → ⊥)) }
{
    let Some((arrow, told)) = first_word(words) else {
        return Ok(None);
    };
    if !is_same(arrow, b"->") {
        return Ok(None);
    }
    read_reply(alloc, told)
}

/// A server, and what it told.
pub(crate) fn read_server_reply(
    alloc: Global,
    words: &[&[u8]],
) -> Result<Option<(NodeId, Reply)>, AllocError>
    ensures found { IfOk result (λ o. IfSome o (λ x. IsReply x.1
        × (map (λ w. w.now) words.now ≡ told_words x.0 x.1))) }
    ensures none { IfOk result (λ o. IfNone o ((s : ℕ) (r : Reply) → s < 2 ^ 32 → IsReply r
        → map (λ w. w.now) words.now ≡ told_words s r → ⊥)) }
{
    let Some((server, told)) = first_word(words) else {
        return Ok(None);
    };
    let Some(server) = number_u32(server) else {
        return Ok(None);
    };
    match read_answer(alloc, told)? {
        Some(reply) => Ok(Some((server, reply))),
        None => Ok(None),
    }
}

/// Whether it is what can come of a tick.
pub(crate) fn is_tick_reply(reply: &Reply) -> bool
    ensures { IsTrue result ↔ IsTickReply reply.now }
{
    match reply {
        Reply::Done => true,
        Reply::Refused(refusal) => *refusal == Refusal::ClockEnd,
        _ => false,
    }
}
