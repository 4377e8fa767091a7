//! Contents of a file.

ghost use Rattle.std.specs.Prelude.{◌<◌};

use crate::base::{lone_version, version_of};
use crate::patch::change;
use pg_base::{Actor, Policy, Stamp, Vector, Version};
use pg_content::{Content, WriteError};
use pg_patch::Ranges;
use pg_rows::{Answer, Stage, actor, narrow, play, stamp, wide, word, words_from};
use std::alloc::{AllocError, Global};

/// `ok`, or why a write is refused.
fn tell_written(answer: Result<(), WriteError>, out: &mut Answer) {
    match answer {
        Ok(()) => out.put(b"ok"),
        Err(error) => write!(out, "{}", error),
    }
}

/// What was written over the content.
fn written(content: &mut Content, stamp: Stamp, ranges: &Ranges) -> Option<Result<(), WriteError>> {
    let actor = actor(stamp.server);
    if content.can_write(actor, stamp) {
        Some(content.write(actor, stamp, ranges))
    } else {
        None
    }
}

/// Whether a write would be refused, and nothing is written.
fn tried(content: &Content, stamp: Stamp, ranges: &Ranges) -> Option<Result<(), WriteError>> {
    let actor = actor(stamp.server);
    if content.can_write(actor, stamp) {
        Some(content.next_version(actor, stamp, ranges).map(|_| ()))
    } else {
        None
    }
}

/// A vector that knows one of those of so many replicas of server 1 whose births have this rest,
/// and birth 2.
fn share(alloc: Global, actors: u64, rest: u64, divisor: u64) -> Result<Vector, AllocError>
    requires { 0 < divisor }
{
    let mut vector = Vector::new(alloc);
    for birth in 0..actors {
        if birth == 2 || birth % divisor == rest {
            vector.raise(Actor { server: 1, birth }, 1)?;
        }
    }
    Ok(vector)
}

#[derive(Drop)]
struct Shown {
    alloc: Global,
    content: Content,
}

impl Shown {
    /// The version `STAMP NUMBER TEXT` from index 1 on.
    fn version(&self, words: &[&[u8]]) -> Result<Option<Version>, AllocError> {
        lone_version(self.alloc, stamp(words, 1), wide(words, 2), word(words, 3))
    }

    /// `join VERSION`: whether it is news. `head VERSION`: whether it takes the place of a head,
    /// and it is one, whatever is known. `alone VERSION`: the content has this head and no other.
    /// `of VERSION`: the content is made of this head.
    fn bring(&mut self, words: &[&[u8]], out: &mut Answer) -> Result<(), AllocError> {
        let Some(version) = self.version(words)? else {
            out.unread();
            return Ok(());
        };
        match word(words, 0) {
            b"join" => out.tell(self.content.join_version(version)?),
            b"head" => {
                out.tell(self.content.replaces(&version));
                self.content.put_head(version)?;
            }
            b"alone" => self.content.put_alone(version)?,
            _ => {
                let mut heads = Vec::new(self.alloc);
                heads.push(version)?;
                self.content = Content::from_parts(self.content.policy(), heads);
            }
        }
        Ok(())
    }

    /// `change STAMP CHANGE` writes, and `try STAMP CHANGE` only asks.
    fn change(&mut self, words: &[&[u8]], out: &mut Answer) {
        let stamp = stamp(words, 1);
        let Ok(ranges) = change(self.alloc, words_from(words, 2)) else {
            out.unread();
            return;
        };
        let answer = if word(words, 0) == b"try".as_slice() {
            tried(&self.content, stamp, &ranges)
        } else {
            written(&mut self.content, stamp, &ranges)
        };
        match answer {
            Some(answer) => tell_written(answer, out),
            None => out.put(b"no room"),
        }
        if self.content.is_too_long(&ranges) {
            out.put(b", long");
        }
    }

    /// `beside STAMP CHANGE`: joins what this makes of a content of its own. Whether each version
    /// is news.
    fn beside(&mut self, words: &[&[u8]], out: &mut Answer) -> Result<(), AllocError> {
        let Ok(ranges) = change(self.alloc, words_from(words, 2)) else {
            out.unread();
            return Ok(());
        };
        let mut other = Content::new(self.alloc, self.content.policy());
        let _ = written(&mut other, stamp(words, 1), &ranges);
        for version in other.heads() {
            out.tell(self.content.join_version(version.copy()?)?);
        }
        Ok(())
    }

    /// `many TIME COUNT`: a version `x` of each of the servers 1 to COUNT at this time. How many
    /// are news.
    fn many(&mut self, words: &[&[u8]], out: &mut Answer) -> Result<(), AllocError> {
        let mut news = 0u64;
        for server in 0..narrow(words, 2) {
            let stamp = Stamp {
                time: wide(words, 1),
                server: server + 1,
            };
            if let Some(version) = lone_version(self.alloc, stamp, 1, b"x")? {
                if self.content.join_version(version)? {
                    news = news.saturating_add(1);
                }
            }
        }
        write!(out, "{} news", news);
        Ok(())
    }

    /// `actors HEADS COUNT`: so many empty heads. Each knows its share of so many replicas of
    /// server 1, and they share one.
    fn actors(&mut self, words: &[&[u8]], out: &mut Answer) -> Result<(), AllocError> {
        let heads = narrow(words, 1);
        if heads > 100 {
            out.unread();
            return Ok(());
        }
        for head in 0..heads {
            let (rest, divisor) = (u64::from(head), u64::from(heads));
            let vector = share(self.alloc, wide(words, 2), rest, divisor)?;
            let stamp = Stamp {
                time: 5,
                server: 10 + head,
            };
            if let Some(version) = version_of(self.alloc, stamp, 1, vector, b"")? {
                self.content.put_head(version)?;
            }
        }
        Ok(())
    }

    /// `crowd STAMP COUNT TEXT`: joins a version that knows so many replicas of its server, from
    /// birth 2 on.
    fn crowd(&mut self, words: &[&[u8]], out: &mut Answer) -> Result<(), AllocError> {
        let stamp = stamp(words, 1);
        let mut vector = Vector::new(self.alloc);
        for more in 0..narrow(words, 2) {
            let birth = u64::from(more) + 2;
            vector.raise(
                Actor {
                    server: stamp.server,
                    birth,
                },
                1,
            )?;
        }
        match version_of(self.alloc, stamp, 1, vector, word(words, 3))? {
            Some(version) => out.tell(self.content.join_version(version)?),
            None => out.unread(),
        }
        Ok(())
    }

    /// `view OFFSET COUNT`
    fn view(&self, words: &[&[u8]], out: &mut Answer) -> Result<(), AllocError> {
        let view = self.content.view(wide(words, 1), narrow(words, 2))?;
        out.show(view.as_slice());
        Ok(())
    }

    fn ask(&self, words: &[&[u8]], out: &mut Answer) -> Result<(), AllocError> {
        match word(words, 0) {
            b"covers" => {
                let is_covered = self.content.covers(actor(narrow(words, 1)), wide(words, 2));
                out.tell(is_covered);
            }
            b"view" => self.view(words, out)?,
            b"at" => match self.content.at(stamp(words, 1)) {
                Some(version) => out.show(version.body().as_slice()),
                None => out.put(b"none"),
            },
            b"show" => {
                let heads = self.content.heads().len();
                let length = self.content.copy()?.length();
                write!(out, "{} heads {} bytes", heads, length);
            }
            _ => out.unread(),
        }
        Ok(())
    }
}

impl Stage for Shown {
    fn step(&mut self, words: &[&[u8]], out: &mut Answer) -> Result<(), AllocError> {
        match word(words, 0) {
            b"last" => {
                self.content = Content::new(self.alloc, Policy::Last);
            }
            b"join" | b"head" | b"alone" | b"of" => self.bring(words, out)?,
            b"change" | b"try" => self.change(words, out),
            b"beside" => self.beside(words, out)?,
            b"many" => self.many(words, out)?,
            b"actors" => self.actors(words, out)?,
            b"crowd" => self.crowd(words, out)?,
            _ => self.ask(words, out)?,
        }
        Ok(())
    }
}

/// `content join VERSION|..`: heads of a file that are joined, or with `last` in front those of one
/// whose last is shown.
pub fn content(alloc: Global, row: &[u8], out: &mut Answer) -> Result<(), AllocError> {
    let mut shown = Shown {
        alloc,
        content: Content::new(alloc, Policy::Join),
    };
    play(alloc, &mut shown, row, out)
}
