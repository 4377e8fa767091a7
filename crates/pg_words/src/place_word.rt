//! Places as words.

ghost use Rattle.std.specs.Prelude.{◌≡◌, ◌↔◌, ◌∷◌, [], ℕ, List, IfOk, IfSome, IfNone, IsTrue};
ghost use Rattle.pg_register.specs.Place.{IsPlaceName};
ghost use Rattle.pg_register.specs.declared.place.Place.{Place};
ghost use Rattle.pg_words.specs.PlaceWords.{IsPlace, name_word, place_words};

use crate::choice_word::{LifeWord, read_life};
use crate::stamp_word::read_stamp;
use crate::text_word::TextWord;
use crate::word::{is_same, read_directory};
use pg_base::SharedBytes;
use pg_register::{Place, is_place_name};
use std::alloc::{AllocError, Global};
use std::fmt;

/// A name as it stands, and a slash for the empty one, which is the root's.
#[derive(Clone, Copy, Debug)]
pub struct NameWord<'a>(pub &'a [u8]);

impl fmt::Display for NameWord<'_> {
    ghost use Rattle.std.specs.Prelude.{Some};
    ghost use Rattle.pg_words.specs.PlaceWords.{name_word};

    ghost output = { λ w. Some (name_word w.0.now) };

    fn fmt<W: fmt::Write>(&self, f: &mut fmt::Formatter<W>) -> fmt::Result {
        if self.0.is_empty() {
            return f.write_str("/");
        }
        let word = TextWord(self.0);
        write!(f, "{word}")
    }
}

/// A place: its stamp, the directory, the name in it, and whether it is live.
#[derive(Clone, Copy, Debug)]
pub struct PlaceWords<'a>(pub &'a Place);

impl fmt::Display for PlaceWords<'_> {
    ghost use Rattle.std.specs.Prelude.{Some};
    ghost use Rattle.std.specs.List.{join_with_byte};
    ghost use Rattle.pg_words.specs.PlaceWords.{place_words};

    ghost output = { λ w. Some (join_with_byte 32 (place_words w.0.now)) };

    fn fmt<W: fmt::Write>(&self, f: &mut fmt::Formatter<W>) -> fmt::Result {
        let stamp = self.0.stamp;
        let parent = self.0.parent;
        let name = NameWord(self.0.name.as_slice());
        let life = LifeWord(self.0.live);
        write!(f, "{stamp} {parent} {name} {life}")
    }
}

/// The bytes of the name that the word stands for.
fn name_of(word: &[u8]) -> Option<&[u8]>
    ensures found { IfSome result (λ n. IsPlaceName n.now × (word.now ≡ name_word n.now)) }
    ensures none { IfNone result ((n : List ℕ) → IsPlaceName n → word.now ≡ name_word n → ⊥) }
{
    if is_same(word, b"/") {
        return Some(b"");
    }
    if word.is_empty() || !is_place_name(word) {
        return None;
    }
    Some(word)
}

/// The place of these words for its stamp, its directory, its name and its life.
pub fn read_place(
    alloc: Global,
    stamp: &[u8],
    parent: &[u8],
    name: &[u8],
    life: &[u8],
) -> Result<Option<Place>, AllocError>
    ensures found { IfOk result (λ o. IfSome o (λ p. IsPlace p
        × (stamp.now ∷ parent.now ∷ name.now ∷ life.now ∷ [] ≡ place_words p))) }
    ensures none { IfOk result (λ o. IfNone o ((p : Place) → IsPlace p
        → stamp.now ∷ parent.now ∷ name.now ∷ life.now ∷ [] ≡ place_words p → ⊥)) }
{
    let Some(stamp) = read_stamp(stamp) else {
        return Ok(None);
    };
    let Some(parent) = read_directory(parent) else {
        return Ok(None);
    };
    let Some(name) = name_of(name) else {
        return Ok(None);
    };
    let Some(live) = read_life(life) else {
        return Ok(None);
    };
    Ok(Some(Place {
        stamp,
        parent,
        name: SharedBytes::from_slice(alloc, name)?,
        live,
    }))
}

/// No two places have the same words.
pub fn one_place_spelling()
    ensures { (a b : Place) → IsPlace a → IsPlace b → place_words a ≡ place_words b → a ≡ b }
{}
