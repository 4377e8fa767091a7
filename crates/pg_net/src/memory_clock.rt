//! A clock in memory.

ghost use Rattle.std.specs.Prelude.{◌≡◌, ◌<◌, ◌^◌, [], ◌∷◌};
ghost use Rattle.pg_net.specs.Clock.{AreNoted, fresh, item_at, moved, told_of};

use crate::clock::Clock;
use std::marker::Model;

/// Numbers that are given in order. Behind the end the last is given again, or 0 if there is none.
#[derive(Debug, Drop)]
struct Numbers {
    items: Vec<u64>,
    made: u64,
}

impl Model for Numbers {
    ghost use Rattle.std.specs.Prelude.{◌<◌, ◌^◌};
    ghost use Rattle.pg_net.specs.Clock.{Numbers as Seen};

    ghost Value = { Seen };

    ghost view = { λ n. record { items = n.items.items; made = n.made } };

    ghost invariant = { λ n. n.made < 2 ^ 64 };
}

impl Numbers {
    fn new(items: Vec<u64>) -> Self
        ensures { result ≡ record { items = items.items; made = 0 } }
    {
        Numbers { items, made: 0 }
    }

    fn next(&mut self) -> u64
        ensures given { result ≡ item_at self.old.items self.old.made }
        ensures moved { self.new ≡ moved self.old }
        ensures bound { self.old.made < 2 ^ 64 }
    {
        let last = self.items.len().saturating_sub(1);
        let at = (self.made as usize).min(last);
        self.made = self.made.saturating_add(1);
        self.items.get(at).copied().unwrap_or(0)
    }
}

/// Moments and words in memory.
#[derive(Debug, Drop)]
pub struct MemoryClock {
    moments: Numbers,
    words: Numbers,
}

impl Model for MemoryClock {
    ghost use Rattle.pg_net.specs.Clock.{Remembered};

    ghost Value = { Remembered };

    ghost view = { λ c. record { moments = c.moments; words = c.words } };
}

impl MemoryClock {
    /// It gives these moments and these words, in order. Behind the end of a list its last number
    /// is given again, or 0 if there is none.
    pub fn new(moments: Vec<u64>, words: Vec<u64>) -> Self
        ensures { result ≡ fresh moments.items words.items }
    {
        MemoryClock {
            moments: Numbers::new(moments),
            words: Numbers::new(words),
        }
    }
}

impl Clock for MemoryClock {
    ghost tells = { Unit {0} };

    ghost told = { told_of };

    fn now(&mut self) -> u64
        ensures given { Unit {0}
            → AreNoted (told_of self.old).moments (told_of self.new).moments (result ∷ []) }
        ensures words { Unit {0} → (told_of self.new).words ≡ (told_of self.old).words }
        ensures exact { result ≡ item_at self.old.moments.items self.old.moments.made }
        ensures moved { self.new.moments ≡ moved self.old.moments }
        ensures same { self.new.words ≡ self.old.words }
    {
        self.moments.next()
    }

    fn word(&mut self) -> u64
        ensures given { Unit {0}
            → AreNoted (told_of self.old).words (told_of self.new).words (result ∷ []) }
        ensures moments { Unit {0} → (told_of self.new).moments ≡ (told_of self.old).moments }
        ensures exact { result ≡ item_at self.old.words.items self.old.words.made }
        ensures moved { self.new.words ≡ moved self.old.words }
        ensures same { self.new.moments ≡ self.old.moments }
    {
        self.words.next()
    }
}
