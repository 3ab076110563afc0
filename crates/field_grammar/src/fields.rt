ghost use Rattle.std.specs.Prelude.{ℕ, List};
ghost use Rattle.field_grammar.specs.Grammar.{IsBytes, IsDecidedAtStart};
ghost use Rattle.field_grammar.specs.Fields.{raw, number, pad, padded_parts, padded, short_parts};
ghost use Rattle.field_grammar.specs.Fields.{short};

/// Whatever the bytes, each field begins them and has one value, or is refused with one fault.
pub fn fields_are_decided()
    ensures raw { (n : ℕ) (bytes : List ℕ) → IsBytes bytes → IsDecidedAtStart (raw n) bytes }
    ensures number { (n : ℕ) (bytes : List ℕ) → IsBytes bytes → IsDecidedAtStart (number n) bytes }
    ensures pad { (n : ℕ) (bytes : List ℕ) → IsBytes bytes → IsDecidedAtStart (pad n) bytes }
    ensures padded_parts { (bytes : List ℕ) → IsBytes bytes → IsDecidedAtStart padded_parts bytes }
    ensures padded { (bytes : List ℕ) → IsBytes bytes → IsDecidedAtStart padded bytes }
    ensures short_parts { (bytes : List ℕ) → IsBytes bytes → IsDecidedAtStart short_parts bytes }
    ensures short { (bytes : List ℕ) → IsBytes bytes → IsDecidedAtStart short bytes }
{}
