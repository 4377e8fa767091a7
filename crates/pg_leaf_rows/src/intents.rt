//! What a server intends.

use crate::entries::entry;
use pg_intent::{Intent, IntentKey, Intents, next_target};
use pg_rows::{Answer, Stage, id, narrow, play, servers, wide, word, words_from};
use std::alloc::{AllocError, Global};

/// `bye FILE BIRTH PEER BIRTH`, `seek FILE TARGET`, `fill FILE BIRTH TARGET`, `confirm DIR CHILD
/// TARGET`, `leave FILE PEER BIRTH` or `patch DIR CHILD STAMP NAME TARGET`.
fn intent(alloc: Global, words: &[&[u8]]) -> Result<Intent, AllocError> {
    let file = id(words, 1);
    Ok(match word(words, 0) {
        b"bye" => Intent::Bye {
            file,
            birth: wide(words, 2),
            peer: narrow(words, 3),
            peer_birth: wide(words, 4),
        },
        b"fill" => Intent::Fill {
            file,
            birth: wide(words, 2),
            target: narrow(words, 3),
        },
        b"confirm" => Intent::Confirm {
            dir: file,
            child: id(words, 2),
            target: narrow(words, 3),
        },
        b"leave" => Intent::Leave {
            file,
            peer: narrow(words, 2),
            peer_birth: wide(words, 3),
        },
        b"patch" => Intent::Patch {
            dir: file,
            entry: entry(alloc, words, 2)?,
            target: narrow(words, 5),
        },
        _ => Intent::Seek {
            file,
            target: narrow(words, 2),
        },
    })
}

/// The kind and the target, and of a Patch when the place was made.
fn show(intent: Option<&Intent>, out: &mut Answer) {
    let Some(intent) = intent else {
        out.put(b"none");
        return;
    };
    write!(
        out,
        "{} {} {}",
        intent.kind(),
        intent.file(),
        intent.target()
    );
    if let Intent::Patch { entry, .. } = intent {
        write!(out, " of {}", entry.place.stamp);
    }
}

#[derive(Drop)]
struct Intended {
    alloc: Global,
    intents: Intents,
}

impl Intended {
    /// The key of the intention with the words from index 1 on.
    fn key(&self, words: &[&[u8]]) -> Result<IntentKey, AllocError> {
        Ok(intent(self.alloc, words_from(words, 1))?.key())
    }

    /// `aim TARGET`: each is to ask this server.
    fn aim(&mut self, words: &[&[u8]]) {
        for index in 0..self.intents.len() {
            if let Some(intent) = self.intents.at(index) {
                let key = intent.key();
                self.intents.aim(&key, narrow(words, 1));
            }
        }
    }

    /// Shows all intentions, by index.
    fn show(&self, out: &mut Answer) {
        write!(out, "{}", self.intents.len());
        if self.intents.is_empty() {
            out.put(b" (empty)");
        }
        for index in 0..self.intents.len() {
            out.put(b", ");
            show(self.intents.at(index), out);
        }
    }
}

impl Stage for Intended {
    fn step(&mut self, words: &[&[u8]], out: &mut Answer) -> Result<(), AllocError> {
        match word(words, 0) {
            b"end" => {
                let key = self.key(words)?;
                out.tell(self.intents.end(&key));
            }
            b"get" => {
                let key = self.key(words)?;
                show(self.intents.get(&key), out);
            }
            b"take" => {
                let key = self.key(words)?;
                let taken = self.intents.take(&key);
                show(taken.as_ref(), out);
            }
            b"about" => show(self.intents.first_about(id(words, 1)), out),
            b"aim" => self.aim(words),
            b"show" => self.show(out),
            _ => {
                let intent = intent(self.alloc, words)?;
                out.tell(self.intents.begin(intent.copy()?)?);
            }
        }
        Ok(())
    }
}

/// `intents INTENTION|..`: whether each intention is new, and what is asked of them.
pub fn intents(alloc: Global, row: &[u8], out: &mut Answer) -> Result<(), AllocError> {
    let mut intended = Intended {
        alloc,
        intents: Intents::new(alloc),
    };
    play(alloc, &mut intended, row, out)
}

#[derive(Drop)]
struct Ordered {
    alloc: Global,
    last: Option<IntentKey>,
}

impl Stage for Ordered {
    fn step(&mut self, words: &[&[u8]], out: &mut Answer) -> Result<(), AllocError> {
        let key = intent(self.alloc, words)?.key();
        if let Some(last) = self.last {
            out.tell(last.compare(&key).is_lt());
            if key.is_same(&last) {
                out.put(b" the same");
            }
        }
        self.last = Some(key);
        Ok(())
    }
}

/// `kinds INTENTION|..`: of each but the first whether it begins behind the one before.
pub fn kinds(alloc: Global, row: &[u8], out: &mut Answer) -> Result<(), AllocError> {
    let mut ordered = Ordered { alloc, last: None };
    play(alloc, &mut ordered, row, out)
}

/// `target SERVERS SERVER TARGET REMOVED..`: whom the server asks next.
pub fn target(alloc: Global, words: &[&[u8]], out: &mut Answer) -> Result<(), AllocError> {
    let removed = servers(alloc, words, 3)?;
    let next = next_target(
        narrow(words, 0),
        narrow(words, 1),
        &removed,
        narrow(words, 2),
    );
    write!(out, "{}", next);
    Ok(())
}
