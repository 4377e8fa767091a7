//! A whole schedule.

ghost use Rattle.std.specs.Prelude.{◌≡◌, ◌++◌, ◌∷◌, ◌+◌, ◌<◌, ◌≤◌, ℕ, List, All, IfOk, IfErr, IsErrAnd, MatchResult, ◌⊎◌, OnOk, OnErr, length, IfSome, IfNone, decimal, codes};
ghost use Rattle.pg_sched.specs.Cause.{Unless, IsPrintable, IsCutCause, IsCause};
ghost use Rattle.pg_sched.specs.Schedule.{spelling, header, line_text, lines_text, IsCount, AreLines, LacksHeader, StopsAfter, IsFirstBad};
ghost use Rattle.pg_sched.specs.Line.{IsLine};
ghost use Rattle.pg_call.specs.declared.error.WordsError.TheVariants.{Bad};
ghost use Rattle.pg_sched.specs.declared.error.ReadError.TheVariants.{BadLine, OutOfMemory};
ghost use Rattle.pg_call.specs.declared.fault.Fault.{Fault};
ghost use Rattle.pg_call.specs.declared.fault.Fault.TheVariants.{Byte, Long};
ghost use Rattle.pg_sched.specs.declared.line.Line.{Line};

use crate::error::ReadError;
use crate::leaves::are_printable;
use crate::line::{Line, MOST_IN_LINE};
use crate::reading::spelled_line;
use pg_base::{Bytes, Items, cut_at, number_u32};
use pg_call::{Fault, WordsError};
use std::alloc::{AllocError, Global};

/// The servers of a run, and what happens in it.
#[derive(Debug, Drop)]
pub struct Schedule {
    pub servers: u32,
    pub lines: Items<Line>,
}

/// Whether the bytes can be a line at all, its line feed not counted.
fn check(line: &[u8]) -> Result<(), Fault>
    ensures printable { OnOk result (All IsPrintable line.now) }
    ensures short { OnOk result (length line.now ≤ 70000) }
    ensures bad { IfErr result (λ f. Unless (All IsPrintable line.now) (f
        ≡ Byte) ((70000 < length line.now) × (f ≡ Long))) }
{
    if !are_printable(line) {
        return Err(Fault::Byte);
    }
    if line.len() > MOST_IN_LINE {
        return Err(Fault::Long);
    }
    Ok(())
}

/// The first line of a text, and what stands behind it.
fn cut_line(text: &[u8]) -> Result<(&[u8], &[u8]), Fault>
    requires some { 0 < length text.now }
    ensures whole { IfOk result (λ x. text.now ≡ x.0.now ++ 10 ∷ x.1.now) }
    ensures first { IfOk result (λ x. All IsPrintable x.0.now) }
    ensures short { IfOk result (λ x. length x.0.now ≤ 70000) }
    ensures bad { IfErr result (λ f. IsCutCause text.now f) }
{
    match cut_at(text, b'\n') {
        Some((line, rest)) => {
            check(line)?;
            Ok((line, rest))
        }
        None => {
            check(text)?;
            Err(Fault::End)
        }
    }
}

/// The first line of a text, and what stands behind it.
fn first_line(alloc: Global, text: &[u8]) -> Result<(Line, &[u8]), WordsError>
    requires some { 0 < length text.now }
    ensures found { IfOk result (λ x. IsLine x.0 × (text.now ≡ line_text x.0 ++ x.1.now)) }
    ensures bad { IfErr result (λ e. (f : Fault) → e ≡ Bad f → (n : ℕ) → 2 ≤ n
        → IsCause n text.now f) }
{
    let (line, rest) = match cut_line(text) {
        Ok(cut) => cut,
        Err(fault) => return Err(WordsError::Bad(fault)),
    };
    let line = spelled_line(alloc, line)?;
    Ok((line, rest))
}

/// The servers that a first line names.
fn count_in(line: &[u8]) -> Option<u32>
    ensures found { IfSome result (λ n. IsCount n × (line.now ≡ codes "pangaea 1 " ++ decimal n)) }
    ensures none { IfNone result ((n : ℕ) → IsCount n
        → line.now ≡ codes "pangaea 1 " ++ decimal n → ⊥) }
{
    let word = line.strip_prefix(b"pangaea 1 ")?;
    let servers = number_u32(word)?;
    if servers == 0 || servers > 64 {
        return None;
    }
    Some(servers)
}

/// The servers that the first line names, and what stands behind it.
fn servers_of(text: &[u8]) -> Result<(u32, &[u8]), Fault>
    ensures found { IfOk result (λ x. IsCount x.0 × (text.now ≡ header x.0 ++ x.1.now)) }
    ensures none { OnErr result (LacksHeader text.now) }
    ensures cause { IfErr result (λ f. IsCause 1 text.now f) }
{
    if text.is_empty() {
        return Err(Fault::Header);
    }
    let (line, rest) = cut_line(text)?;
    match count_in(line) {
        Some(servers) => Ok((servers, rest)),
        None => Err(Fault::Header),
    }
}

/// The lines that a text behind the header spells.
fn lines_of(alloc: Global, text: &[u8]) -> Result<Vec<Line>, ReadError>
    ensures found { IfOk result (λ v. AreLines v.items × (text.now ≡ lines_text v.items)) }
    ensures bad { IfErr result (λ e. (n : ℕ) (f : Fault) → e ≡ BadLine n f
        → (count : ℕ) × StopsAfter text.now count f × (n ≡ count + 2)) }
{
    let mut lines = Vec::new(alloc);
    let mut rest = text;
    while !rest.is_empty() {
        let (line, after) = match first_line(alloc, rest) {
            Ok(found) => found,
            Err(e) => return Err(ReadError::at(lines.len() as u64 + 2, e)),
        };
        lines.push(line)?;
        rest = after;
    }
    Ok(lines)
}

/// The schedule that the text spells, or its first bad line and why that is bad. `OutOfMemory` can
/// come in place of either; only good lines, and the bytes that a bad one's words spell, take
/// memory.
pub fn read(alloc: Global, text: &[u8]) -> Result<Schedule, ReadError>
    ensures found { IfOk result (λ s. IsCount s.servers × AreLines s.lines
        × (text.now ≡ spelling s.servers s.lines)) }
    ensures bad { IfErr result (λ e. (n : ℕ) (f : Fault) → e ≡ BadLine n f
        → IsFirstBad text.now n f) }
    ensures complete { (servers : ℕ) (lines : List Line) → IsCount servers → AreLines lines
        → text.now ≡ spelling servers lines
        → MatchResult result (λ s. (s.servers ≡ servers)
        × (s.lines ≡ lines)) (λ e. e ≡ OutOfMemory) }
    ensures first { (n : ℕ) (f : Fault) → IsFirstBad text.now n f
        → IsErrAnd result (λ e. (e ≡ BadLine n f) ⊎ (e ≡ OutOfMemory)) }
{
    let (servers, rest) = match servers_of(text) {
        Ok(found) => found,
        Err(fault) => return Err(ReadError::BadLine(1, fault)),
    };
    let lines = lines_of(alloc, rest)?;
    Ok(Schedule {
        servers,
        lines: Items::from_vec(lines),
    })
}

/// Writes the schedule at the end, as `read` reads it.
pub fn write(schedule: &Schedule, out: &mut Bytes) -> Result<(), AllocError>
    ensures ok { OnOk result (out.new ≡ out.old
        ++ spelling schedule.now.servers schedule.now.lines) }
{
    let servers = schedule.servers;
    write!(out, "pangaea 1 {servers}\n")?;
    for line in schedule.lines.as_slice() {
        write!(out, "{line}\n")?;
    }
    Ok(())
}

/// No two schedules have one spelling, so what was written is read again.
pub fn one_spelling()
    ensures { (n m : ℕ) (xs ys : List Line) → IsCount n → IsCount m → AreLines xs → AreLines ys
        → spelling n xs ≡ spelling m ys → (n ≡ m) × (xs ≡ ys) }
{}
