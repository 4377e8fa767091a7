//! Schedules, single lines of them, and journals.

use crate::row::Spelled;
use pg_base::{Bytes, Items};
use pg_journal::read_journal;
use pg_rows::Answer;
use pg_sched::{Line, Schedule, read, read_line, write};
use pg_trace::JournalLine;
use std::alloc::{AllocError, Global};

/// Of a text that is none, its first bad line and why that is bad.
impl Spelled for Schedule {
    fn read(alloc: Global, text: &[u8], out: &mut Answer) -> Result<Option<Schedule>, AllocError> {
        match read(alloc, text) {
            Ok(schedule) => Ok(Some(schedule)),
            Err(error) => {
                write!(out, "{error}");
                Ok(None)
            }
        }
    }

    fn print(&self, _alloc: Global, out: &mut Bytes) -> Result<(), AllocError> {
        write(self, out)
    }
}

impl Spelled for Line {
    fn read(alloc: Global, text: &[u8], out: &mut Answer) -> Result<Option<Line>, AllocError> {
        let line = read_line(alloc, text)?;
        if line.is_none() {
            out.put(b"no line");
        }
        Ok(line)
    }

    fn print(&self, _alloc: Global, out: &mut Bytes) -> Result<(), AllocError> {
        write!(out, "{self}")
    }
}

/// The lines of a journal.
#[derive(Drop)]
pub struct Journal {
    lines: Items<JournalLine>,
}

/// Of a text that is none, its first line that is none of a journal.
impl Spelled for Journal {
    fn read(alloc: Global, text: &[u8], out: &mut Answer) -> Result<Option<Journal>, AllocError> {
        match read_journal(alloc, text) {
            Ok(lines) => Ok(Some(Journal { lines })),
            Err(error) => {
                write!(out, "{error}");
                Ok(None)
            }
        }
    }

    /// Copies of the lines, written, and the lines as they are printed, where that differs.
    fn print(&self, alloc: Global, out: &mut Bytes) -> Result<(), AllocError> {
        let mut printed = Bytes::new(alloc);
        for line in self.lines.as_slice() {
            pg_trace::write(&[line.copy(alloc)?], out)?;
            write!(printed, "{line}\n")?;
        }
        if out.as_slice() != printed.as_slice() {
            out.extend(b", printed as ")?;
            out.extend(printed.as_slice())?;
        }
        Ok(())
    }
}
