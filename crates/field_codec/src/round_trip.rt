//! Laws on what `Writer` and `Reader` say of the same field. The functions do nothing: their
//! contracts are what is proved.

ghost use Rattle.std.specs.Prelude.{ℕ, List, ◌<◌, ◌^◌, length};
ghost use Rattle.field_grammar.specs.Grammar.{IsBytes};
ghost use Rattle.field_grammar.specs.Fields.{number, number_bytes, raw, pad, pad_bytes, padded};
ghost use Rattle.field_grammar.specs.Fields.{padded_text, short, short_text};
ghost use Rattle.field_grammar.specs.Spelling.{IsReadBack};

/// A field that was written is read again, wherever it stands: its value is the one that was
/// written, and the reader is then after it.
pub fn what_is_written_is_read()
    ensures u8 { (value : ℕ) → value < 2 ^ 8 → IsReadBack (number 1) (number_bytes 1 value) value }
    ensures u16 { (value : ℕ) → value < 2 ^ 16
        → IsReadBack (number 2) (number_bytes 2 value) value }
    ensures u32 { (value : ℕ) → value < 2 ^ 32
        → IsReadBack (number 4) (number_bytes 4 value) value }
    ensures u64 { (value : ℕ) → value < 2 ^ 64
        → IsReadBack (number 8) (number_bytes 8 value) value }
    ensures raw { (bytes : List ℕ) → IsBytes bytes → IsReadBack (raw (length bytes)) bytes bytes }
    ensures pad { (size : ℕ) → IsReadBack (pad size) (pad_bytes size) tt }
    ensures padded { (text : List ℕ) → IsBytes text → length text < 2 ^ 16
        → IsReadBack padded (padded_text text) text }
    ensures short { (text : List ℕ) → IsBytes text → length text < 2 ^ 8
        → IsReadBack short (short_text text) text }
{}
