//! Calls, refusals, replies, and what a run waits for: each is read from its words, of which there
//! is room for one more than the longest has.

use crate::row::Spelled;
use pg_base::Bytes;
use pg_call::{Call, Refusal, Reply, read_call};
use pg_event::{Quiet, read_quiet};
use pg_journal_lines::{read_refusal, read_reply};
use pg_rows::Answer;
use pg_trace::{AskedAt, write_quiet};
use pg_words::first_words;
use std::alloc::{AllocError, Global};

impl Spelled for Call {
    fn read(alloc: Global, text: &[u8], out: &mut Answer) -> Result<Option<Call>, AllocError> {
        let mut room = [b"".as_slice(); 5];
        let count = first_words(text, &mut room);
        let call = read_call(alloc, &room[..count])?;
        if call.is_none() {
            out.put(b"no call");
        }
        Ok(call)
    }

    fn print(&self, _alloc: Global, out: &mut Bytes) -> Result<(), AllocError> {
        write!(out, "{}", self.copy()?)
    }
}

impl Spelled for Refusal {
    fn read(_alloc: Global, text: &[u8], out: &mut Answer) -> Result<Option<Refusal>, AllocError> {
        let mut room = [b"".as_slice(); 7];
        let count = first_words(text, &mut room);
        let refusal = read_refusal(&room[..count]);
        if refusal.is_none() {
            out.put(b"no refusal");
        }
        Ok(refusal)
    }

    fn print(&self, _alloc: Global, out: &mut Bytes) -> Result<(), AllocError> {
        write!(out, "{self}")
    }
}

impl Spelled for Reply {
    fn read(alloc: Global, text: &[u8], out: &mut Answer) -> Result<Option<Reply>, AllocError> {
        let mut room = [b"".as_slice(); 103];
        let count = first_words(text, &mut room);
        let reply = read_reply(alloc, &room[..count])?;
        if reply.is_none() {
            out.put(b"no reply");
        }
        Ok(reply)
    }

    fn print(&self, alloc: Global, out: &mut Bytes) -> Result<(), AllocError> {
        write!(out, "{}", self.copy(alloc)?)
    }
}

impl Spelled for Quiet {
    fn read(_alloc: Global, text: &[u8], out: &mut Answer) -> Result<Option<Quiet>, AllocError> {
        let mut room = [b"".as_slice(); 8];
        let count = first_words(text, &mut room);
        let quiet = read_quiet(&room[..count]);
        if quiet.is_none() {
            out.put(b"neither quiet nor waiting");
        }
        Ok(quiet)
    }

    /// As a journal tells it at the end.
    fn print(&self, _alloc: Global, out: &mut Bytes) -> Result<(), AllocError> {
        write_quiet(AskedAt::End, self, out)
    }
}
