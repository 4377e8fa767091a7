//! What was written is read again, whatever follows it, and nothing else is read.

ghost use Rattle.pg_codec.specs.Laws.{Any, IsField};
ghost use Rattle.pg_codec.specs.Spelling.{file_bytes, number_bytes};
ghost use Rattle.pg_packet_write.specs.Calls.{text_bytes};
ghost use Rattle.pg_words.specs.FileWord.{IsDirectory};
ghost use Rattle.pg_packet_write.specs.Fits.{IsServer};
ghost use Rattle.pg_packet_write.specs.Fields.{ask_bytes, cell_bytes, counted, ends_bytes, entry_bytes, gold_bytes, golds_bytes, head_bytes, key_bytes, place_bytes, policy_bytes, ranges_bytes, stamps_bytes, vector_bytes, version_bytes};
ghost use Rattle.pg_packet_fields.specs.Cells.{IsWholeCell, cell_at};
ghost use Rattle.pg_packet_fields.specs.Heads.{AreKnown, IsHead, IsWholeVersion, head_at, vector_at, version_at};
ghost use Rattle.pg_packet_fields.specs.Patches.{IsBlock, IsWholeRanges, block_at, ranges_at};
ghost use Rattle.pg_packet_fields.specs.Lists.{AreStamps, stamps_at};
ghost use Rattle.pg_packet_fields.specs.Names.{name_at};
ghost use Rattle.pg_packet_fields.specs.Places.{AreGolds, IsGold, IsName, IsWholeEntry, IsWholePlace, entry_at, gold_at, golds_at, place_at};
ghost use Rattle.pg_packet_fields.specs.Reading.{ask_at, dir_at, ends_at, key_at, policy_at, server_at, text_at};
ghost use Rattle.pg_packet_fields.specs.Values.{AreEnds, IsKey, IsShortText};

/// Each field is read exactly where its spelling stands, and has one spelling.
pub fn fields_read_back()
    ensures server { IsField IsServer (number_bytes 4) server_at }
    ensures policy { IsField Any policy_bytes policy_at }
    ensures ask { IsField Any ask_bytes ask_at }
    ensures ends { IsField AreEnds ends_bytes ends_at }
    ensures key { IsField IsKey key_bytes key_at }
    ensures directory { IsField IsDirectory file_bytes dir_at }
    ensures stamps { IsField AreStamps stamps_bytes stamps_at }
    ensures text { IsField IsShortText text_bytes text_at }
    ensures name { IsField IsName (counted 1) name_at }
    ensures place { IsField IsWholePlace place_bytes place_at }
    ensures gold { IsField (IsGold 0) gold_bytes (gold_at 0) }
    ensures golds { IsField AreGolds golds_bytes golds_at }
    ensures entry { IsField IsWholeEntry entry_bytes entry_at }
    ensures vector { IsField AreKnown vector_bytes vector_at }
    ensures head { IsField IsHead head_bytes head_at }
    ensures version { IsField IsWholeVersion version_bytes version_at }
    ensures ranges { IsField IsWholeRanges ranges_bytes ranges_at }
    ensures block { IsField IsBlock (counted 4) block_at }
    ensures cell { IsField IsWholeCell cell_bytes cell_at }
{}
