//! What was written is read again, whatever follows it, and nothing else is read.

ghost use Rattle.pg_base.specs.Id.{Fits};
ghost use Rattle.pg_codec.specs.Laws.{Any, HasStampWidth, HasWidth, IsField};
ghost use Rattle.pg_codec.specs.Reading.{file_at, flag_at, number_at, stamp_at};
ghost use Rattle.pg_codec.specs.Spelling.{file_bytes, flag_bytes, number_bytes, stamp_bytes};

/// Each field is read exactly where its spelling stands, and has one spelling.
pub fn fields_read_back()
    ensures byte { IsField (HasWidth 1) (number_bytes 1) (number_at 1) }
    ensures short { IsField (HasWidth 2) (number_bytes 2) (number_at 2) }
    ensures narrow { IsField (HasWidth 4) (number_bytes 4) (number_at 4) }
    ensures wide { IsField (HasWidth 8) (number_bytes 8) (number_at 8) }
    ensures flag { IsField Any flag_bytes flag_at }
    ensures file { IsField Fits file_bytes file_at }
    ensures stamp { IsField HasStampWidth stamp_bytes stamp_at }
{}
