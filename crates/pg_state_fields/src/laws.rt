//! What was written is read again, whatever follows it, and nothing else is read.

ghost use Rattle.pg_codec.specs.Laws.{IsField};
ghost use Rattle.pg_packet_write.specs.Fields.{entry_bytes, listed, version_bytes};
ghost use Rattle.pg_state.specs.Spelling.{edge_bytes, intent_bytes, kept_bytes};
ghost use Rattle.pg_state_fields.specs.Contents.{AreDeltas, AreHeads, deltas_at, heads_at};
ghost use Rattle.pg_state_fields.specs.Edges.{AreEdges, edges_at};
ghost use Rattle.pg_state_fields.specs.Flags.{AreEntries, IsOwn, entries_at, own_at};
ghost use Rattle.pg_state_fields.specs.Intents.{AreIntents, all_intents_at};
ghost use Rattle.pg_state_fields.specs.Replicas.{AreHeld, all_held_at};
ghost use Rattle.pg_state_fields.specs.Spelling.{held_spelling, own_bytes};

/// Each field is read exactly where its spelling stands, and has one spelling.
pub fn fields_read_back()
    ensures own { IsField IsOwn own_bytes own_at }
    ensures entries { IsField AreEntries (listed 4 entry_bytes) entries_at }
    ensures edges { IsField AreEdges (listed 1 edge_bytes) edges_at }
    ensures heads { IsField AreHeads (listed 2 version_bytes) heads_at }
    ensures deltas { IsField AreDeltas (listed 1 kept_bytes) deltas_at }
    ensures intents { IsField AreIntents (listed 4 intent_bytes) all_intents_at }
    ensures held { IsField AreHeld (listed 4 held_spelling) all_held_at }
{}
