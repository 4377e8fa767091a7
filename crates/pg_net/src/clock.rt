//! What tells the time.

ghost use Rattle.std.specs.Prelude.{◌≡◌, [], ◌∷◌};
ghost use Rattle.pg_net.specs.Clock.{Told, AreNoted};

/// What gives moments, in milliseconds, and words that choose at random. Its calls do not fail.
pub trait Clock {
    /// That it tells what it gave.
    ghost tells: { Type 0 };

    /// What it gave so far.
    ghost told: { Self → Told };

    /// This moment. A clock may go back.
    fn now(&mut self) -> u64
        ensures given { tells
            → AreNoted (told self.old).moments (told self.new).moments (result ∷ []) }
        ensures words { tells → (told self.new).words ≡ (told self.old).words };

    /// A word, of which nothing is promised.
    fn word(&mut self) -> u64
        ensures given { tells → AreNoted (told self.old).words (told self.new).words (result ∷ []) }
        ensures moments { tells → (told self.new).moments ≡ (told self.old).moments };
}
