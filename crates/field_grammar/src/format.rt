ghost use Rattle.std.specs.Prelude.{◌≡◌, ℕ, List, length};
ghost use Rattle.field_grammar.specs.Cursor.{Cursor, at, past};
ghost use Rattle.field_grammar.specs.Grammar.{IsBytes, EndsTheBytes, IsDecided, IsDecidedAtStart};
ghost use Rattle.field_grammar.specs.Grammar.{Follows, Stops, Took, Stopped, MovesOn, read};

/// A format whose bytes say values of one type, or are refused with faults of another. It has no
/// code: the laws that hold of all formats are stated over it.
pub trait Format {
    ghost use Rattle.field_grammar.specs.Grammar.{Grammar};

    type Value;

    type Fault;

    ghost grammar: { Grammar Self.Fault Self.Value };
}

/// Reading gives a value exactly where fields stand that follow the format and say it, and a fault
/// exactly where the fields stop at it.
pub fn reading_is_exact<G: Format>()
    // What follows the format is read.
    ensures follows { (before : List ℕ) (fields : List (List ℕ)) (rest : List ℕ) (value : G.Value)
        → Follows G.grammar before fields (length rest) value
        → read G.grammar (at before fields rest) ≡ Ok (value, past before fields rest) }
    // What is read follows it.
    ensures read { (from to : Cursor) (value : G.Value) → IsBytes from.rest
        → read G.grammar from ≡ Ok (value, to) → Took G.grammar from to value }
    // Reading goes on in the same bytes.
    ensures moves { (from to : Cursor) (value : G.Value)
        → read G.grammar from ≡ Ok (value, to) → MovesOn from to }
    // What stops is refused.
    ensures stops { (before : List ℕ) (fields : List (List ℕ)) (rest : List ℕ) (fault : G.Fault)
        → Stops G.grammar before fields rest fault
        → read G.grammar (at before fields rest) ≡ Err fault }
    // What is refused stops there.
    ensures refused { (from : Cursor) (fault : G.Fault) → IsBytes from.rest
        → read G.grammar from ≡ Err fault → Stopped G.grammar from fault }
{}

/// Whatever the bytes, they begin with a spelling of one value in the format, or fail it with one
/// fault.
pub fn prefix_is_decided<G: Format>()
    ensures { (bytes : List ℕ) → IsBytes bytes → IsDecidedAtStart G.grammar bytes }
{}

/// Whatever the bytes, they spell one value in the format, or fail it with one fault, where the
/// format tests that nothing is left.
pub fn whole_is_decided<G: Format>()
    requires { EndsTheBytes G.grammar }
    ensures { (bytes : List ℕ) → IsBytes bytes → IsDecided G.grammar bytes }
{}
