//! The picture of a journal.

ghost use Rattle.std.specs.Prelude.{◌≡◌, ◌≤◌, ◌<◌, ◌+◌, ◌++◌, ◌^◌, ℕ, List, length, IfOk, IfErr, OnOk};
ghost use Rattle.pg_picture.specs.Counts.{IsWholePicture};
ghost use Rattle.pg_picture.specs.declared.lack.Lack.{Lack};
ghost use Rattle.pg_picture.specs.declared.lack.NoPicture.TheVariants as no_picture;
ghost use Rattle.pg_picture.specs.Picture.{draw, hung};
ghost use Rattle.pg_picture.specs.Sketch.{hanging};
ghost use Rattle.pg_picture.specs.declared.mark.LegEnd.TheVariants.{UnderWay};
ghost use Rattle.pg_picture.specs.Picture.Drawing.{Drawn, Lacking};
ghost use Rattle.pg_picture.specs.declared.sketch.Sketch.{Sketch};
ghost use Rattle.pg_trace.specs.declared.journal_line.JournalLine.{JournalLine};

use crate::course::Course;
use crate::lack::{Lack, NoPicture};
use crate::mark::{Leg, LegEnd};
use crate::messages::Message;
use crate::part::is_ended;
use crate::sketch::Sketch;
use pg_base::Items;
use pg_trace::JournalLine;
use std::alloc::{AllocError, Global};

/// Draws the ways of what is still under way, each a line lower than the one before, from this
/// height on.
fn hang_each(bag: &[Message], height: u32, legs: &mut Items<Leg>) -> Result<(), AllocError>
    requires { height + length bag.now < 2 ^ 32 }
    ensures { OnOk result (legs.new ≡ legs.old ++ hanging UnderWay height bag.now) }
{
    let mut until = height;
    for message in bag {
        until += 1;
        legs.push(Leg {
            message: *message,
            until,
            end: LegEnd::UnderWay,
        })?;
    }
    Ok(())
}

/// Draws what is still under way at the end.
fn hang(sketch: &mut Sketch) -> Result<(), AllocError>
    requires { sketch.old.height + 1 + length sketch.old.bag < 2 ^ 32 }
    ensures { OnOk result (sketch.new ≡ hung sketch.old) }
{
    let height = sketch.height + 1;
    let count = sketch.bag.as_slice().len() as u32;
    hang_each(sketch.bag.as_slice(), height, &mut sketch.legs)?;
    sketch.height = height + count;
    Ok(())
}

/// The picture of a full journal. The error names the first line that lacks something.
pub fn draw(alloc: Global, journal: &[JournalLine]) -> Result<Sketch, NoPicture>
    requires { length journal.now ≤ 2 ^ 26 }
    ensures drawn { IfOk result (λ s. draw journal.now ≡ Drawn s) }
    ensures lacks { IfErr result (λ e. (n : ℕ) (l : Lack) → e ≡ no_picture.Lacks n l
        → draw journal.now ≡ Lacking n l) }
{
    let mut course = Course::START;
    let mut sketch = Sketch::new(alloc);
    let mut rest = journal;
    while let Some((line, behind)) = rest.split_first() {
        let next = behind.first();
        if let Some(lack) = course.lack_of(&sketch.bag, line, next) {
            let number = (journal.len() - rest.len()) as u64 + 1;
            return Err(NoPicture::Lacks(number, lack));
        }
        sketch.take(alloc, line, next)?;
        course = course.after(line);
        rest = behind;
    }
    if !is_ended(course.before) {
        return Err(NoPicture::Lacks(journal.len() as u64 + 1, Lack::End));
    }
    hang(&mut sketch)?;
    Ok(sketch)
}

/// Whatever journal is drawn, there is one mark for each event, one arrow for each message that was
/// delivered, one cross for each that was lost and for each whose receiver is removed, one fork for
/// each that was repeated, and one open end for each that is still under way.
pub fn pictures_are_whole()
    ensures { (journal : List JournalLine) (s : Sketch) → draw journal ≡ Drawn s
        → IsWholePicture journal s }
{}
