//! What stands above a directory.

ghost use Rattle.std.specs.Prelude.{◌≡◌, ◌-◌, length};
ghost use Rattle.pg_lookup.specs.Chain.{is_above, is_above_within};

use crate::paths::ROOT;
use pg_base::FileId;
use pg_names::Names;

/// Whether the thing is the directory, or on its chain of held parents, by their own places: then
/// it can not move into the directory.
pub fn is_above(names: &Names, thing: FileId, dir: FileId) -> bool
    ensures { result ≡ is_above names.now thing dir }
{
    let mut at = dir;
    for _member in 0..names.as_map().len() {
        let Some(own) = names.own(&at) else {
            return false;
        };
        if at.compare(&thing).is_eq() {
            return true;
        }
        if at.compare(&ROOT).is_eq() {
            return false;
        }
        at = own.place.parent;
    }
    false
}
