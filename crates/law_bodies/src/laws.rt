//! What holds of bodies in all runs. Each law is a clause of a function that does nothing.

ghost use Rattle.std.specs.Prelude.{ℕ};
ghost use Rattle.law_bodies.specs.Premises.{StandOn};
ghost use Rattle.law_ticks.specs.Given.{TidinessIsGiven};
ghost use Rattle.pg_run.specs.Bodies.{BodiesAnswerWants, FirstHarbingersAsk};

/// A message that holds more than 1,024 bytes of a version's body is sent where a Want for that
/// version comes, and goes to who sent the Want.
pub fn bodies_answer_wants()
    ensures { (servers : ℕ) → StandOn servers → BodiesAnswerWants servers }
{}

/// Where a harbinger comes of a version that is neither covered nor announced, and no other server
/// is asked for one that covers it, its sender is asked for all of the body, and the peer of each
/// other edge hears of it, under no tag. Nothing else is sent but what tells of the keys of the
/// edge that the harbinger made, where it made one, and the message of a Seek that began by it.
pub fn first_harbingers_ask()
    ensures { (servers : ℕ) → TidinessIsGiven servers → FirstHarbingersAsk servers }
{}
