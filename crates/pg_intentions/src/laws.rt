//! What is to be filled, and what stands behind the end of an event. Each law is a clause of a
//! function that does nothing.

ghost use Rattle.pg_base.specs.declared.id.FileId.{FileId};
ghost use Rattle.pg_graph.specs.pg_msg.declared.work.Work.{Work};
ghost use Rattle.pg_graph.specs.pg_names.Names.{NamesValue};
ghost use Rattle.pg_graph.specs.pg_store.declared.store.Store.{Store};
ghost use Rattle.pg_intentions.specs.Needed.{HasItsFill, HasItsSeek, IsConfirmedInDoubt, IsPatched, IsWhatIsToFill, LeavesNothing};

/// A thing is to be filled exactly where it is held and filling, or is not held and is the parent
/// in the live place of something held that is not the root.
pub fn what_is_to_fill()
    ensures { (names : NamesValue) (file : FileId) → IsWhatIsToFill names file }
{}

/// Whatever stood before, behind the end of an event a Fill stands of each thing that is to be
/// filled and of no other, a Seek of each thing that seeks and of no other, and a Confirm only of a
/// child that a directory lists and that is not held. Then nothing is left to do.
pub fn intentions_follow_what_is_held()
    ensures fills { (store : Store) (work : Work) (file : FileId) → HasItsFill store work file }
    ensures seeks { (store : Store) (work : Work) (file : FileId) → HasItsSeek store work file }
    ensures confirms { (store : Store) (work : Work) (dir child : FileId)
        → IsConfirmedInDoubt store work dir child }
    ensures rest { (store : Store) (work : Work) → LeavesNothing store work }
{}

/// A directory that is not held has to hear of each child whose live place in it was replaced in
/// the event: a Patch for it begins, or the one that stands begins again, with the place and the
/// flags that the child has now. All other Patches are as they were.
pub fn patches_follow_what_was_left()
    ensures { (store : Store) (work : Work) (dir child : FileId) → IsPatched store work dir child }
{}
