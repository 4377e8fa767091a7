//! The texts of paths that clients give.

ghost use Rattle.std.specs.Prelude.{◌≡◌, ◌<◌, ◌||◌, length};
ghost use Rattle.pg_checks.specs.Answer.{Tells};
ghost use Rattle.pg_path.specs.Tested.{is_client_name};
ghost use Rattle.pg_checks.specs.Paths.{is_none, last_of, new_path_of, path_of, paths_of};

use crate::call_error::CallError;
use pg_path::{BadPath, Path, is_client_name};
use pg_pieces::call::Refusal;
use std::alloc::Global;

/// The paths of a move. The first is walked to its end, the second to the parent of its last
/// component.
#[derive(Debug, Drop)]
pub struct Paths {
    /// Where the thing stands.
    pub from: Path,
    /// Where it is to go.
    pub to: Path,
}

/// The path of a text. Where it is none the component at fault is told.
pub(crate) fn path_of(alloc: Global, text: &[u8]) -> Result<Path, CallError>
    ensures { Tells result (path_of text.now) }
{
    match Path::read(alloc, text) {
        Ok(path) => Ok(path),
        Err(BadPath::NoSlash) => Err(CallError::refused(Refusal::BadPath(0))),
        Err(BadPath::Long) => Err(CallError::refused(Refusal::BadPath(66))),
        Err(BadPath::TooDeep) => Err(CallError::refused(Refusal::BadPath(65))),
        Err(BadPath::BadName(component)) => Err(CallError::refused(Refusal::BadPath(
            component as u8,
        ))),
        Err(BadPath::OutOfMemory) => Err(CallError::OutOfMemory),
    }
}

/// The path of a text, whose last component is to be a new name: it has to be one that a client may
/// give.
pub(crate) fn new_path_of(alloc: Global, text: &[u8]) -> Result<Path, CallError>
    ensures { Tells result (new_path_of text.now) }
{
    let path = path_of(alloc, text)?;
    if !ends_in_name(&path) {
        return Err(CallError::refused(Refusal::BadPath(path.len() as u8)));
    }
    Ok(path)
}

/// The paths of two texts: the last component of the second is to be a new name.
pub(crate) fn paths_of(alloc: Global, from: &[u8], to: &[u8]) -> Result<Paths, CallError>
    ensures { Tells result (paths_of from.now to.now) }
{
    let from = path_of(alloc, from)?;
    let to = new_path_of(alloc, to)?;
    Ok(Paths { from, to })
}

/// Whether the last component is a client name, or there is none.
fn ends_in_name(path: &Path) -> bool
    ensures { result ≡ (is_none path.now || is_client_name (last_of path.now)) }
{
    path.is_empty() || is_client_name(last_of(path))
}

/// The last component.
pub(crate) fn last_of(path: &Path) -> &[u8]
    requires { 0 < length path.now }
    ensures { result.now ≡ last_of path.now }
{
    path.part(path.len() - 1)
}
