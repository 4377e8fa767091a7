//! Gold flags.

use pg_base::{cut_at, number, number_u32};
use pg_register::{Flag, GoldFlags, is_removed};
use pg_rows::{Answer, Stage, narrow, play, servers, wide, word, words_from};
use std::alloc::{AllocError, Global};

/// The text of a flag's number, and whether the flag is raised.
fn count_of(word: &[u8]) -> Option<(&[u8], bool)> {
    if let Some((count, _)) = cut_at(word, b'+') {
        return Some((count, true));
    }
    let (count, _) = cut_at(word, b'-')?;
    Some((count, false))
}

/// `NUMBER+`, or with `-` a flag that was taken down.
fn flag_of(server: u32, birth: u64, word: &[u8]) -> Option<Flag> {
    let (count, raised) = count_of(word)?;
    Some(Flag {
        server,
        birth,
        number: number(count)?,
        raised,
    })
}

/// `BIRTH.NUMBER+`, or with `-` a flag that was taken down.
fn flag_on(server: u32, word: &[u8]) -> Option<Flag> {
    let (birth, rest) = cut_at(word, b'.')?;
    flag_of(server, number(birth)?, rest)
}

/// `SERVER.BIRTH.NUMBER+`, or with `-` a flag that was taken down.
fn flag(word: &[u8]) -> Option<Flag> {
    let (server, rest) = cut_at(word, b'.')?;
    flag_on(number_u32(server)?, rest)
}

fn show_flag(flag: &Flag, out: &mut Answer) {
    write!(out, " {}.{}.{}", flag.server, flag.birth, flag.number);
    out.push(if flag.raised { b'+' } else { b'-' });
}

/// Shows all flags, by index.
fn show(flags: &GoldFlags, out: &mut Answer) {
    write!(out, "{}:", flags.len());
    for index in 0..flags.len() {
        if let Some(flag) = flags.at(index) {
            show_flag(flag, out);
        }
    }
}

/// Joins the flags from index 1 on.
fn join_words(flags: &mut GoldFlags, words: &[&[u8]]) -> Result<(), AllocError> {
    for word in words_from(words, 1) {
        if let Some(flag) = flag(word) {
            flags.join(flag)?;
        }
    }
    Ok(())
}

/// The server at the end, or `none`.
fn show_server(server: Option<u32>, out: &mut Answer) {
    match server {
        Some(server) => write!(out, "{}", server),
        None => out.put(b"none"),
    }
}

#[derive(Drop)]
struct Joined {
    alloc: Global,
    flags: GoldFlags,
}

impl Joined {
    /// `join FLAG..`: of each whether it was known or is news.
    fn join(&mut self, words: &[&[u8]], out: &mut Answer) -> Result<(), AllocError> {
        for word in words_from(words, 1) {
            if let Some(flag) = flag(word) {
                let is_known = self.flags.covers(&flag);
                let is_news = self.flags.join(flag)?;
                out.put(if is_known { b"known" } else { b"" });
                out.put(if is_news { b"news" } else { b"" });
                out.push(b' ');
            }
        }
        show(&self.flags, out);
        Ok(())
    }

    /// `with FLAG..`: whether these cover a copy with these flags too, whether that covers these,
    /// and whether it is news.
    fn with(&mut self, words: &[&[u8]], out: &mut Answer) -> Result<(), AllocError> {
        let mut more = self.flags.copy()?;
        join_words(&mut more, words)?;
        out.tell(self.flags.covers_all(&more));
        out.push(b' ');
        out.tell(more.covers_all(&self.flags));
        out.push(b' ');
        out.tell(self.flags.join_all(&more)?);
        Ok(())
    }

    /// `but SERVER..`: what is said of the golds but those on removed servers.
    fn but(&self, words: &[&[u8]], out: &mut Answer) -> Result<(), AllocError> {
        let removed = servers(self.alloc, words, 1)?;
        write!(out, "{} live, least ", self.flags.live_golds(&removed));
        show_server(self.flags.least_gold(&removed), out);
        Ok(())
    }

    /// `other SERVER REMOVED..`: the least other gold.
    fn other(&self, words: &[&[u8]], out: &mut Answer) -> Result<(), AllocError> {
        let removed = servers(self.alloc, words, 2)?;
        show_server(self.flags.least_other_gold(narrow(words, 1), &removed), out);
        Ok(())
    }

    /// `removed SERVER REMOVED..`: whether the server is removed.
    fn removed(&self, words: &[&[u8]], out: &mut Answer) -> Result<(), AllocError> {
        let removed = servers(self.alloc, words, 2)?;
        out.tell(is_removed(&removed, narrow(words, 1)));
        Ok(())
    }

    /// `next SERVER BIRTH`: the server's number, and the next flag, taken down.
    fn next(&self, words: &[&[u8]], out: &mut Answer) {
        let server = narrow(words, 1);
        let last = self.flags.number(server);
        if last >= 1 << 63 {
            out.unread();
            return;
        }
        write!(out, "{} then", last);
        show_flag(&self.flags.next(server, wide(words, 2), false), out);
    }
}

impl Stage for Joined {
    fn step(&mut self, words: &[&[u8]], out: &mut Answer) -> Result<(), AllocError> {
        match word(words, 0) {
            b"join" => self.join(words, out)?,
            b"with" => self.with(words, out)?,
            b"but" => self.but(words, out)?,
            b"other" => self.other(words, out)?,
            b"next" => self.next(words, out),
            b"raised" => out.tell(self.flags.is_raised(narrow(words, 1), wide(words, 2))),
            b"removed" => self.removed(words, out)?,
            _ => out.unread(),
        }
        Ok(())
    }
}

/// `flags join FLAG..|..`: gold flags that are joined, and what is asked of them.
pub fn flags(alloc: Global, row: &[u8], out: &mut Answer) -> Result<(), AllocError> {
    let mut flags = Joined {
        alloc,
        flags: GoldFlags::new(alloc),
    };
    play(alloc, &mut flags, row, out)
}
