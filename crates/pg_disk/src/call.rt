//! The calls that changed files of a disk in memory.

ghost use Rattle.std.specs.Prelude.{◌≡◌, ◌∷◌, [], IfOk, OnOk, OnErr};
ghost use Rattle.pg_disk.specs.Told.{given_of};
ghost use Rattle.pg_disk.specs.Memory.{change_of, step_of, with_calls, behind_call};

use crate::edit::{Edit, edited};
use std::alloc::{AllocError, Global};

/// A call: the file that it spoke of, and whether the change was done.
#[derive(Debug, Drop)]
pub struct Call {
    pub name: String,
    pub file: u8,
    pub edit: Edit,
    pub is_done: bool,
}

/// Adds a call behind those that were made.
pub fn add(
    alloc: Global,
    calls: &mut Vec<Call>,
    name: &str,
    file: u8,
    edit: Edit,
    is_done: bool,
) -> Result<(), AllocError>
    ensures ok { OnOk result (with_calls [] calls.new.items
        ≡ record {
          name = name.now;
          file = file;
          step = step_of is_done (change_of edit)
              (given_of name.now file (with_calls [] calls.old.items));
        } ∷ with_calls [] calls.old.items) }
    ensures err { OnErr result (calls.new.items ≡ calls.old.items) }
{
    let call = Call {
        name: String::from_str(alloc, name)?,
        file,
        edit,
        is_done,
    };
    calls.push(call)?;
    Ok(())
}

/// What these calls make of an empty file.
pub fn replayed(alloc: Global, calls: &[Call], name: &str, file: u8) -> Result<Vec<u8>, AllocError>
    ensures { IfOk result (λ bytes.
        bytes.items ≡ given_of name.now file (with_calls [] calls.now)) }
{
    let mut bytes = Vec::new(alloc);
    for call in calls {
        bytes = behind(alloc, bytes, call, name, file)?;
    }
    Ok(bytes)
}

/// What one call makes of a file.
fn behind(
    alloc: Global,
    bytes: Vec<u8>,
    call: &Call,
    name: &str,
    file: u8,
) -> Result<Vec<u8>, AllocError>
    ensures { IfOk result (λ new. new.items ≡ behind_call call.now name.now file bytes.items) }
{
    if call.name.as_str() == name && call.file == file && call.is_done {
        return edited(alloc, bytes, &call.edit);
    }
    Ok(bytes)
}
