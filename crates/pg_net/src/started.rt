//! What a spawner in memory keeps.

ghost use Rattle.std.specs.Prelude.{◌≡◌, map, string_bytes, IfOk};

use std::alloc::{AllocError, Global};
use std::marker::Model;

/// A program that was started: its name and its words, and the child's number.
#[derive(Debug, Drop)]
pub struct Started {
    words: Vec<String>,
    child: u32,
}

impl Model for Started {
    ghost use Rattle.std.specs.Prelude.{map, string_bytes};
    ghost use Rattle.pg_net.specs.Spawner.{Started as Seen};

    ghost Value = { Seen };

    ghost view = { λ s. record { words = map string_bytes s.words.items; child = s.child } };
}

impl Started {
    /// With a copy of the words.
    pub fn new(alloc: Global, words: &[String], child: u32) -> Result<Self, AllocError>
        ensures { IfOk result (λ s.
            s ≡ record { words = map string_bytes words.now; child = child }) }
    {
        Ok(Started {
            words: copied(alloc, words)?,
            child,
        })
    }

    /// The program's name, and its words behind it.
    pub fn words(&self) -> &[String]
        ensures { map string_bytes result.now ≡ self.now.words }
    {
        self.words.as_slice()
    }

    pub fn child(&self) -> u32
        ensures { result ≡ self.now.child }
    {
        self.child
    }
}

/// A wait for a child, and the status that it gave.
#[derive(Clone, Copy, Debug, PartialEq, Eq)]
pub struct Waited {
    pub child: u32,
    pub status: i32,
}

fn copied(alloc: Global, words: &[String]) -> Result<Vec<String>, AllocError>
    ensures { IfOk result (λ copy. map string_bytes copy.items ≡ map string_bytes words.now) }
{
    let mut copy = Vec::new(alloc);
    for word in words {
        copy.push(String::from_str(alloc, word.as_str())?)?;
    }
    Ok(copy)
}
