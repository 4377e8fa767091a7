//! The house rules, run until none applies.

ghost use Rattle.std.specs.Prelude.{◌≡◌, ◌+◌, ◌≤◌, ◌<◌, ◌^◌, length, IfOk, OnOk};
ghost use Rattle.pg_names.specs.Names.{directories};
ghost use Rattle.pg_house.specs.Work.{State, state_of};
ghost use Rattle.pg_house.specs.Passing.{pass_all};
ghost use Rattle.pg_house.specs.House.{house, house_with, is_movable, movable};

use crate::changes::dirty_things;
use crate::cycles::break_all;
use crate::passing::pass_all;
use crate::returning::return_all;
use pg_base::{FileId, Items};
use pg_msg::Work;
use pg_names::{Names, is_root};
use std::alloc::AllocError;
use std::mem::size_of_val;

/// Whether the thing is held, and not the root.
fn is_movable(names: &Names, file: &FileId) -> bool
    ensures { result ≡ is_movable names.now file.now }
{
    !is_root(file) && names.is_held(file)
}

/// The things for which passing may change something, by id: what is dirty. All others have passed.
fn to_pass(names: &Names) -> Result<Items<FileId>, AllocError>
    ensures { IfOk result (λ files. (st : State) → st.names ≡ names.now
        → pass_all st (directories st.names) files
        ≡ pass_all st (directories st.names) (movable st.names)) }
{
    Ok(Items::from_vec(
        dirty_things(names)
            .as_slice()
            .iter()
            .copied()
            .filter(|file| is_movable(names, file))
            .collect(names.allocator())?,
    ))
}

/// There are no more directories than memory has room for the ids of, of 16 bytes each.
fn are_few(names: &Names)
    ensures { length (directories names.now) < 2 ^ 60 }
{
    let _bytes = size_of_val(names.dirs().as_slice());
}

/// Runs the house rules until none applies: all things pass, dead directories that list a child
/// come back, and cycles break. `moment` is the clock at this event. It looks at what changed since
/// it last ran, and at what was to be done even then. After out of memory a part may be done.
pub fn house(names: &mut Names, work: &mut Work, moment: u64) -> Result<(), AllocError>
    requires { names.old.last ≤ 2 ^ 62 + 2 ^ 40 }
    ensures { OnOk result (state_of names.new work.new
        ≡ house moment (state_of names.old work.old)) }
{
    let files = to_pass(names)?;
    are_few(names);
    run(names, work, moment, files.as_slice())?;
    names.settle()?;
    Ok(())
}

/// Runs the house rules, where these things are to pass.
fn run(names: &mut Names, work: &mut Work, moment: u64, files: &[FileId]) -> Result<(), AllocError>
    requires last { names.old.last ≤ 2 ^ 62 + 2 ^ 40 }
    requires few { length (directories names.old) < 2 ^ 60 }
    ensures { OnOk result (state_of names.new work.new
        ≡ house_with moment (directories names.old) files.now (state_of names.old work.old)) }
{
    pass_all(names, work, files)?;
    return_all(names, work, moment)?;
    break_all(names, work, moment)?;
    Ok(())
}
