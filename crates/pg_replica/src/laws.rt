//! What holds of the keys on the edges of a replica.

ghost use Rattle.std.specs.Prelude.{ℕ, ◌≡◌, [], All};
ghost use Rattle.pg_base.specs.declared.stamp.Stamp.{Stamp};
ghost use Rattle.pg_base.specs.declared.vector.Actor.{Actor};
ghost use Rattle.pg_patch.specs.Ranges.{RangesValue};
ghost use Rattle.pg_edges.specs.declared.key.Key.{Key};
ghost use Rattle.pg_base.specs.Version.{VersionValue};
ghost use Rattle.pg_replica.specs.declared.replica.Replica.{Replica};
ghost use Rattle.pg_replica.specs.Replica.{with_ack, with_version, with_write};
ghost use Rattle.pg_replica.specs.Laws.{KeysAreHeads};

/// No key stands on an edge but a head's: so it is where no key stands on an edge at all, and
/// joins, writes and answers keep it so.
pub fn keys_are_heads()
    ensures start { (x : Replica) → All (λ e. e.keys ≡ []) x.edges → KeysAreHeads x }
    ensures join { (x : Replica) → KeysAreHeads x → (v : VersionValue) (tags : ℕ)
        → KeysAreHeads (with_version x v tags) }
    ensures write { (x : Replica) → KeysAreHeads x
        → (actor : Actor) (stamp : Stamp) (ranges : RangesValue) (tags : ℕ)
        → KeysAreHeads (with_write x actor stamp ranges tags) }
    ensures answer { (x : Replica) → KeysAreHeads x → (peer birth : ℕ) (k : Key) (tag : ℕ)
        → KeysAreHeads (with_ack x peer birth k tag) }
{}
