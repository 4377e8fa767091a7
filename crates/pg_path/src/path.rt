//! Paths: how to come to a file or directory from the root.

ghost use Rattle.std.specs.Prelude.{◌≡◌, ◌≢◌, ◌+◌, ◌<◌, ◌≤◌, ◌==◌, ◌↔◌, ◌++◌, ℕ, List, length, All, IsTrue, IfOk, IfSome, IfNone, OnOk, OnErr, IsOkUnless, slice_get, slice_index};
ghost use Rattle.pg_path.specs.First.{IsFirstWithout};
ghost use Rattle.pg_path.specs.Name.{IsClientName};
ghost use Rattle.pg_path.specs.Path.{IsComponent, IsPath, cut_at_slashes, path_text, parts_of, IsLong, IsTooDeep, HasBadName, AreCuts};

use crate::bytes::is_component_byte;
use crate::error::BadPath;
use pg_base::{Bytes, cut_at};
use std::alloc::{AllocError, Global};
use std::marker::Model;

/// The components of a path, from the root on. `/` has none.
#[derive(Debug, Drop)]
pub struct Path {
    text: Bytes,
    cuts: Vec<(usize, usize)>,
}

impl Model for Path {
    ghost use Rattle.std.specs.Prelude.{List, ℕ, ◌≡◌};
    ghost use Rattle.pg_path.specs.Path.{IsPath, path_text, parts_of, AreCuts};

    ghost Value = { List (List ℕ) };

    ghost view = { λ p. parts_of p.text };

    ghost invariant = { λ p.
        IsPath (parts_of p.text) × (p.text ≡ path_text (parts_of p.text))
        × AreCuts p.text p.cuts.items };
}

/// The most bytes of a component.
const MOST_PART: usize = 288;

/// The most components of a path.
const MOST_PARTS: usize = 64;

/// The most bytes of a path.
const MOST_BYTES: usize = 4096;

/// Whether the bytes are a component of a path.
pub fn is_component(part: &[u8]) -> bool
    ensures { IsTrue result ↔ IsComponent part.now }
{
    !part.is_empty() && part.len() <= MOST_PART && part.iter().all(|byte| is_component_byte(*byte))
}

/// How many parts a text has between its slashes.
fn count_parts(text: &[u8]) -> usize
    requires { length text.now ≤ 4096 }
    ensures { result ≡ length (cut_at_slashes text.now) }
{
    text.iter().filter(|byte| **byte == b'/').count() + 1
}

/// The index of the first part between slashes that is no component.
fn first_bad_part(text: &[u8]) -> Option<usize>
    ensures found { IfSome result (IsFirstWithout IsComponent (cut_at_slashes text.now)) }
    ensures none { IfNone result (All IsComponent (cut_at_slashes text.now)) }
{
    text.split(|byte| *byte == b'/')
        .position(|part| !is_component(part))
}

/// Where the components of a path stand in its text.
fn cuts_of(alloc: Global, text: &[u8]) -> Result<Vec<(usize, usize)>, AllocError>
    requires { length text.now ≤ 4096 }
    ensures { IfOk result (λ v. AreCuts text.now v.items) }
{
    let mut cuts = Vec::new(alloc);
    if text.len() <= 1 {
        return Ok(cuts);
    }
    let mut start = 1;
    let mut rest = &text[1..];
    while let Some((part, behind)) = cut_at(rest, b'/') {
        let end = start + part.len();
        cuts.push((start, end))?;
        start = end + 1;
        rest = behind;
    }
    cuts.push((start, text.len()))?;
    Ok(cuts)
}

/// Whether the text is a path, before any memory is taken.
fn check(text: &[u8]) -> Result<(), BadPath>
    ensures found { OnOk result (
        (length text.now ≤ 4096) × IsPath (parts_of text.now)
        × (text.now ≡ path_text (parts_of text.now))) }
    ensures no_slash { (result ≡ Err BadPath.NoSlash) ↔ (slice_index text.now 0 ≢ 47) }
    ensures long { (result ≡ Err BadPath.Long) ↔ IsLong text.now }
    ensures deep { (result ≡ Err BadPath.TooDeep) ↔ IsTooDeep text.now }
    ensures bad { (k : ℕ) → (result ≡ Err (BadPath.BadName k)) ↔ HasBadName text.now k }
{
    let [b'/', rest @ ..] = text else {
        return Err(BadPath::NoSlash);
    };
    if text.len() > MOST_BYTES {
        return Err(BadPath::Long);
    }
    if rest.is_empty() {
        return Ok(());
    }
    if count_parts(rest) > MOST_PARTS {
        return Err(BadPath::TooDeep);
    }
    match first_bad_part(rest) {
        Some(index) => Err(BadPath::BadName(index as u64 + 1)),
        None => Ok(()),
    }
}

impl Path {
    /// The path of this text. Whether it is one is told before any memory is taken.
    pub fn read(alloc: Global, bytes: &[u8]) -> Result<Path, BadPath>
        ensures found { IfOk result (λ p. IsPath p × (bytes.now ≡ path_text p)) }
        ensures spelled { (p : List (List ℕ)) → IsPath p → bytes.now ≡ path_text p
            → IsOkUnless result BadPath.OutOfMemory }
        ensures parts { IfOk result (λ p. p ≡ parts_of bytes.now) }
        ensures no_slash { (result ≡ Err BadPath.NoSlash) ↔ (slice_index bytes.now 0 ≢ 47) }
        ensures long { (result ≡ Err BadPath.Long) ↔ IsLong bytes.now }
        ensures deep { (result ≡ Err BadPath.TooDeep) ↔ IsTooDeep bytes.now }
        ensures bad { (k : ℕ) → (result ≡ Err (BadPath.BadName k)) ↔ HasBadName bytes.now k }
    {
        check(bytes)?;
        let cuts = cuts_of(alloc, bytes)?;
        let text = Bytes::from_slice(alloc, bytes)?;
        Ok(Path { text, cuts })
    }

    /// How many components the path has.
    pub fn len(&self) -> usize
        ensures count { result ≡ length self.now }
        ensures kept { IsPath self.now }
    {
        self.cuts.len()
    }

    /// Whether it is the path of the root.
    pub fn is_empty(&self) -> bool
        ensures { result ≡ (length self.now == 0) }
    {
        self.cuts.is_empty()
    }

    /// The component at this index, counted from 0: the bytes between two slashes.
    pub fn part(&self, k: usize) -> &[u8]
        requires { k < length self.now }
        ensures bytes { slice_get self.now k ≡ Some result.now }
        ensures kept { IsComponent result.now }
    {
        let (start, end) = self.cuts[k];
        &self.text.as_slice()[start..end]
    }

    /// Writes the text of the path at the end.
    pub fn write(&self, out: &mut Bytes) -> Result<(), AllocError>
        ensures ok { OnOk result (out.new ≡ out.old ++ path_text self.now) }
        ensures err { OnErr result (out.new ≡ out.old) }
    {
        out.extend(self.text.as_slice())
    }
}

/// No two paths have one text, so what was written is read again.
pub fn one_spelling()
    ensures { (a b : List (List ℕ)) → IsPath a → IsPath b → path_text a ≡ path_text b → a ≡ b }
{}

/// Each client name can stand in a path.
pub fn name_is_component()
    ensures { (name : List ℕ) → IsClientName name → IsComponent name }
{}
