//! Words that tell which of two things holds.

ghost use Rattle.std.specs.Prelude.{◌≡◌, Bool, IfSome, IfNone};
ghost use Rattle.pg_words.specs.ChoiceWord.{full_word, gold_word, life_word, raised_word};

use std::fmt;

/// `live` or `dead`.
#[derive(Clone, Copy, Debug)]
pub struct LifeWord(pub bool);

/// `raised` or `lowered`.
#[derive(Clone, Copy, Debug)]
pub struct RaisedWord(pub bool);

/// `gold` or `bronze`.
#[derive(Clone, Copy, Debug)]
pub struct GoldWord(pub bool);

/// `full` or `filling`.
#[derive(Clone, Copy, Debug)]
pub struct FullWord(pub bool);

impl fmt::Display for LifeWord {
    ghost use Rattle.std.specs.Prelude.{Some};
    ghost use Rattle.pg_words.specs.ChoiceWord.{life_word};

    ghost output = { λ w. Some (life_word w.0) };

    fn fmt<W: fmt::Write>(&self, f: &mut fmt::Formatter<W>) -> fmt::Result {
        if self.0 {
            f.write_str("live")
        } else {
            f.write_str("dead")
        }
    }
}

impl fmt::Display for RaisedWord {
    ghost use Rattle.std.specs.Prelude.{Some};
    ghost use Rattle.pg_words.specs.ChoiceWord.{raised_word};

    ghost output = { λ w. Some (raised_word w.0) };

    fn fmt<W: fmt::Write>(&self, f: &mut fmt::Formatter<W>) -> fmt::Result {
        if self.0 {
            f.write_str("raised")
        } else {
            f.write_str("lowered")
        }
    }
}

impl fmt::Display for GoldWord {
    ghost use Rattle.std.specs.Prelude.{Some};
    ghost use Rattle.pg_words.specs.ChoiceWord.{gold_word};

    ghost output = { λ w. Some (gold_word w.0) };

    fn fmt<W: fmt::Write>(&self, f: &mut fmt::Formatter<W>) -> fmt::Result {
        if self.0 {
            f.write_str("gold")
        } else {
            f.write_str("bronze")
        }
    }
}

impl fmt::Display for FullWord {
    ghost use Rattle.std.specs.Prelude.{Some};
    ghost use Rattle.pg_words.specs.ChoiceWord.{full_word};

    ghost output = { λ w. Some (full_word w.0) };

    fn fmt<W: fmt::Write>(&self, f: &mut fmt::Formatter<W>) -> fmt::Result {
        if self.0 {
            f.write_str("full")
        } else {
            f.write_str("filling")
        }
    }
}

/// Whether the word is `live`, and not `dead`.
pub fn read_life(word: &[u8]) -> Option<bool>
    ensures found { IfSome result (λ b. word.now ≡ life_word b) }
    ensures none { IfNone result ((b : Bool) → word.now ≡ life_word b → ⊥) }
{
    match word {
        b"live" => Some(true),
        b"dead" => Some(false),
        _ => None,
    }
}

/// Whether the word is `raised`, and not `lowered`.
pub fn read_raised(word: &[u8]) -> Option<bool>
    ensures found { IfSome result (λ b. word.now ≡ raised_word b) }
    ensures none { IfNone result ((b : Bool) → word.now ≡ raised_word b → ⊥) }
{
    match word {
        b"raised" => Some(true),
        b"lowered" => Some(false),
        _ => None,
    }
}

/// Whether the word is `gold`, and not `bronze`.
pub fn read_gold(word: &[u8]) -> Option<bool>
    ensures found { IfSome result (λ b. word.now ≡ gold_word b) }
    ensures none { IfNone result ((b : Bool) → word.now ≡ gold_word b → ⊥) }
{
    match word {
        b"gold" => Some(true),
        b"bronze" => Some(false),
        _ => None,
    }
}

/// Whether the word is `full`, and not `filling`.
pub fn read_full(word: &[u8]) -> Option<bool>
    ensures found { IfSome result (λ b. word.now ≡ full_word b) }
    ensures none { IfNone result ((b : Bool) → word.now ≡ full_word b → ⊥) }
{
    match word {
        b"full" => Some(true),
        b"filling" => Some(false),
        _ => None,
    }
}

/// No two choices have one word.
pub fn one_choice_spelling()
    ensures life { (a b : Bool) → life_word a ≡ life_word b → a ≡ b }
    ensures raised { (a b : Bool) → raised_word a ≡ raised_word b → a ≡ b }
    ensures gold { (a b : Bool) → gold_word a ≡ gold_word b → a ≡ b }
    ensures full { (a b : Bool) → full_word a ≡ full_word b → a ≡ b }
{}
