//! What servers make.

ghost use Rattle.std.specs.Prelude.{◌≡◌, ◌↔◌, ◌∷◌, [], List, ℕ, map, codes, IfOk, IfSome, IfNone, IsTrue};
ghost use Rattle.pg_base.specs.Id.{Fits};
ghost use Rattle.pg_base.specs.declared.id.FileId.{FileId};
ghost use Rattle.pg_msg.specs.UpdateText.{IsFlag, IsMadeVersion, IsUpdate, flag_words, update_spelling, version_spelling, version_words};
ghost use Rattle.pg_msg.specs.VersionWords.{spelled_version};
ghost use Rattle.pg_msg.specs.declared.update.MadeVersion.{MadeVersion};
ghost use Rattle.pg_msg.specs.declared.update.Update.{Update};
ghost use Rattle.pg_msg.specs.declared.update.Update.TheVariants as update;
ghost use Rattle.pg_register.specs.declared.flag.Flag.{Flag};
ghost use Rattle.pg_register.specs.declared.place.Place.{Place};
ghost use Rattle.pg_words.specs.PlaceWords.{IsPlace};

use crate::ranges_word::{KeepWord, PartsWord, ranges_of};
use pg_base::{FileId, Items, Stamp, number, number_u32};
use pg_patch::Ranges;
use pg_register::{Flag, Place};
use pg_words::{
    PlaceWords, RaisedWord, StampsWord, is_same, read_file, read_id, read_place, read_raised,
    read_stamp, read_stamps,
};
use std::alloc::{AllocError, Global};
use std::fmt;

/// A version of a file that was made: on which versions it is based, and what it makes of what they
/// show.
#[derive(Debug, Drop)]
pub struct MadeVersion {
    pub file: FileId,
    pub stamp: Stamp,
    /// The stamps of the heads that its maker had, in their order.
    pub bases: Items<Stamp>,
    pub ranges: Ranges,
}

/// What a server makes: a version of a file, a place of a file or directory, or its own flag of it.
#[derive(Debug, Drop)]
pub enum Update {
    Version(MadeVersion),
    Place { id: FileId, place: Place },
    Flag { id: FileId, flag: Flag },
}

impl Update {
    /// Copies the update. The bytes are shared.
    pub fn copy(&self) -> Result<Update, AllocError>
        ensures { IfOk result (λ u. u ≡ self.now) }
    {
        Ok(match self {
            Update::Version(made) => Update::Version(made.copy()?),
            Update::Place { id, place } => Update::Place {
                id: *id,
                place: place.copy()?,
            },
            Update::Flag { id, flag } => Update::Flag {
                id: *id,
                flag: *flag,
            },
        })
    }
}

impl fmt::Display for Update {
    ghost use Rattle.std.specs.Prelude.{Some};
    ghost use Rattle.std.specs.List.{join_with_byte};
    ghost use Rattle.pg_msg.specs.UpdateText.{update_spelling};

    ghost output = { λ u. Some (join_with_byte 32 (update_spelling u)) };

    fn fmt<W: fmt::Write>(&self, f: &mut fmt::Formatter<W>) -> fmt::Result {
        match self {
            Update::Version(made) => write!(f, "{made}"),
            Update::Place { id, place } => {
                let words = PlaceWords(place);
                write!(f, "place {id} {words}")
            }
            Update::Flag { id, flag } => {
                let server = flag.server;
                let birth = flag.birth;
                let number = flag.number;
                let raised = RaisedWord(flag.raised);
                write!(f, "flag {id} {server} {birth} {number} {raised}")
            }
        }
    }
}

impl MadeVersion {
    /// Copies the version. The bytes are shared.
    pub fn copy(&self) -> Result<MadeVersion, AllocError>
        ensures { IfOk result (λ u. u ≡ self.now) }
    {
        Ok(MadeVersion {
            file: self.file,
            stamp: self.stamp,
            bases: self.bases.copy()?,
            ranges: self.ranges.copy()?,
        })
    }
}

impl fmt::Display for MadeVersion {
    ghost use Rattle.std.specs.Prelude.{Some};
    ghost use Rattle.std.specs.List.{join_with_byte};
    ghost use Rattle.pg_msg.specs.UpdateText.{version_spelling};

    ghost output = { λ u. Some (join_with_byte 32 (version_spelling u)) };

    fn fmt<W: fmt::Write>(&self, f: &mut fmt::Formatter<W>) -> fmt::Result {
        let file = self.file;
        let stamp = self.stamp;
        let bases = StampsWord(self.bases.as_slice());
        let keep = KeepWord(self.ranges.keep());
        let least = self.ranges.least();
        let parts = PartsWord(self.ranges.parts());
        write!(
            f,
            "version {file} {stamp} from {bases} keep {keep} least {least} parts {parts}"
        )
    }
}

/// The words of a version that was made, without those that stand in each such line.
#[derive(Clone, Copy, Debug)]
struct VersionWords<'a> {
    file: &'a [u8],
    stamp: &'a [u8],
    bases: &'a [u8],
    keep: &'a [u8],
    least: &'a [u8],
    parts: &'a [u8],
}

/// The version of these words.
fn version_of(alloc: Global, words: &VersionWords) -> Result<Option<MadeVersion>, AllocError>
    ensures found { IfOk result (λ o. IfSome o (λ u. IsMadeVersion u
        × (spelled_version words.now ≡ version_spelling u))) }
    ensures none { IfOk result (λ o. IfNone o ((u : MadeVersion) → IsMadeVersion u
        → spelled_version words.now ≡ version_spelling u → ⊥)) }
{
    let Some(file) = read_file(words.file) else {
        return Ok(None);
    };
    let Some(stamp) = read_stamp(words.stamp) else {
        return Ok(None);
    };
    let Some(bases) = read_stamps(alloc, words.bases)? else {
        return Ok(None);
    };
    let Some(ranges) = ranges_of(alloc, words.keep, words.least, words.parts)? else {
        return Ok(None);
    };
    Ok(Some(MadeVersion {
        file,
        stamp,
        bases,
        ranges,
    }))
}

/// Whether the words in front of what stays stand where they do in each line.
fn is_version(version: &[u8], from: &[u8]) -> bool
    ensures { IsTrue result ↔ ((version.now ≡ codes "version") × (from.now ≡ codes "from")) }
{
    is_same(version, b"version") && is_same(from, b"from")
}

/// Whether the words of ranges stand where they do in each line.
fn are_ranges(keep: &[u8], least: &[u8], parts: &[u8]) -> bool
    ensures { IsTrue result ↔ ((keep.now ≡ codes "keep") × (least.now ≡ codes "least")
        × (parts.now ≡ codes "parts")) }
{
    is_same(keep, b"keep") && is_same(least, b"least") && is_same(parts, b"parts")
}

/// The words that tell of a version, where the others stand between them as they do in each line.
fn version_words<'a>(words: &[&'a [u8]]) -> Option<VersionWords<'a>>
    ensures found { IfSome result (λ x. map (λ w. w.now) words.now ≡ spelled_version x) }
    ensures none { IfNone result ((f s b k l p : List ℕ)
        → map (λ w. w.now) words.now ≡ version_words f s b k l p → ⊥) }
{
    let [
        version,
        file,
        stamp,
        from,
        bases,
        keep_name,
        keep,
        least_name,
        least,
        parts_name,
        parts,
    ] = words
    else {
        return None;
    };
    if !is_version(version, from) {
        return None;
    }
    if !are_ranges(keep_name, least_name, parts_name) {
        return None;
    }
    Some(VersionWords {
        file: *file,
        stamp: *stamp,
        bases: *bases,
        keep: *keep,
        least: *least,
        parts: *parts,
    })
}

/// The version that the words tell of.
fn read_version(alloc: Global, words: &[&[u8]]) -> Result<Option<MadeVersion>, AllocError>
    ensures found { IfOk result (λ o. IfSome o (λ u. IsMadeVersion u
        × (map (λ w. w.now) words.now ≡ version_spelling u))) }
    ensures none { IfOk result (λ o. IfNone o ((u : MadeVersion) → IsMadeVersion u
        → map (λ w. w.now) words.now ≡ version_spelling u → ⊥)) }
{
    let Some(words) = version_words(words) else {
        return Ok(None);
    };
    let found = version_of(alloc, &words)?;
    Ok(found)
}

/// The place that the words tell of.
fn read_place_update(alloc: Global, words: &[&[u8]]) -> Result<Option<Update>, AllocError>
    ensures found { IfOk result (λ o. IfSome o (λ u. IsUpdate u
        × (map (λ w. w.now) words.now ≡ update_spelling u))) }
    ensures none { IfOk result (λ o. IfNone o ((f : FileId) (p : Place) → Fits f → IsPlace p
        → map (λ w. w.now) words.now ≡ update_spelling (update.Place f p) → ⊥)) }
{
    let [name, id, stamp, parent, place_name, life] = words else {
        return Ok(None);
    };
    if !is_same(name, b"place") {
        return Ok(None);
    }
    let Some(id) = read_id(id) else {
        return Ok(None);
    };
    match read_place(alloc, stamp, parent, place_name, life)? {
        Some(place) => Ok(Some(Update::Place { id, place })),
        None => Ok(None),
    }
}

/// The flag of these words for its server, its birth, its number and whether it is raised.
fn flag_of(server: &[u8], birth: &[u8], number_word: &[u8], raised: &[u8]) -> Option<Flag>
    ensures found { IfSome result (λ flag. IsFlag flag
        × (server.now ∷ birth.now ∷ number_word.now ∷ raised.now ∷ [] ≡ flag_words flag)) }
    ensures none { IfNone result ((flag : Flag) → IsFlag flag
        → server.now ∷ birth.now ∷ number_word.now ∷ raised.now ∷ [] ≡ flag_words flag → ⊥) }
{
    let server = number_u32(server)?;
    let birth = number(birth)?;
    let number = number(number_word)?;
    let raised = read_raised(raised)?;
    Some(Flag {
        server,
        birth,
        number,
        raised,
    })
}

/// The flag that the words tell of.
fn read_flag_update(words: &[&[u8]]) -> Option<Update>
    ensures found { IfSome result (λ u. IsUpdate u
        × (map (λ w. w.now) words.now ≡ update_spelling u)) }
    ensures none { IfNone result ((f : FileId) (flag : Flag) → Fits f → IsFlag flag
        → map (λ w. w.now) words.now ≡ update_spelling (update.Flag f flag) → ⊥) }
{
    let [name, id, server, birth, number_word, raised] = words else {
        return None;
    };
    if !is_same(name, b"flag") {
        return None;
    }
    let id = read_id(id)?;
    let flag = flag_of(server, birth, number_word, raised)?;
    Some(Update::Flag { id, flag })
}

/// The update that the words tell of.
pub fn read_update(alloc: Global, words: &[&[u8]]) -> Result<Option<Update>, AllocError>
    ensures found { IfOk result (λ o. IfSome o (λ u. IsUpdate u
        × (map (λ w. w.now) words.now ≡ update_spelling u))) }
    ensures none { IfOk result (λ o. IfNone o ((u : Update) → IsUpdate u
        → map (λ w. w.now) words.now ≡ update_spelling u → ⊥)) }
{
    if let Some(made) = read_version(alloc, words)? {
        return Ok(Some(Update::Version(made)));
    }
    if let Some(update) = read_flag_update(words) {
        return Ok(Some(update));
    }
    let found = read_place_update(alloc, words)?;
    Ok(found)
}

/// No two updates have the same words.
pub fn one_update_spelling()
    ensures { (a b : Update) → IsUpdate a → IsUpdate b
        → update_spelling a ≡ update_spelling b → a ≡ b }
{}
