//! What holds of the format of load headers.
ghost use Rattle.std.specs.Prelude.{◌≡◌, ◌↔◌, ◌-◌, ◌++◌, ℕ, List, length, take};
ghost use Rattle.field_grammar.specs.Grammar.{IsBytes, IsDecided, Spelled};
ghost use Rattle.load_header.specs.Header.{header, HeaderView};
ghost use Rattle.field_grammar.specs.Fields.{number_bytes};
ghost use Rattle.load_header.specs.HeaderFields.{header_size, IsHeader, HeaderSpells};
ghost use Rattle.load_header.specs.HeaderChanges.{HaveSameTexts, HasNumbers, with_load_crc};

/// Laws of the format of load headers, a clause each, for callers that compare headers and their
/// bytes.
pub fn header_laws()
    // Whatever the bytes, they spell one header, or fail with one fault, and never both.
    ensures decided { (bytes : List ℕ) → IsBytes bytes → IsDecided header bytes }
    // The format as a tree and the list of fields agree on which bytes spell a value.
    ensures spelled { (h : HeaderView) (bytes : List ℕ)
        → Spelled header bytes h ↔ HeaderSpells h bytes }
    // Bytes spell one header, and a header has one spelling.
    ensures one_header { (g h : HeaderView) (bytes : List ℕ) → HeaderSpells g bytes
        → HeaderSpells h bytes → g ≡ h }
    ensures one_spelling { (h : HeaderView) (bytes others : List ℕ) → HeaderSpells h bytes
        → HeaderSpells h others → bytes ≡ others }

    // The length of its bytes, which depends on none of its numbers; other numbers that fit their
    // fields keep it a header.
    ensures length { (h : HeaderView) (bytes : List ℕ) → HeaderSpells h bytes
        → length bytes ≡ header_size h }
    ensures same_size { (g h : HeaderView) → HaveSameTexts g h → header_size g ≡ header_size h }
    ensures still_header { (g h : HeaderView) → IsHeader g → HaveSameTexts g h → HasNumbers h
        → IsHeader h }

    // The last 4 bytes are the load CRC, and the bytes before them don't depend on it.
    ensures ends_in_load_crc { (h : HeaderView) (bytes : List ℕ) → HeaderSpells h bytes
        → bytes ≡ take (length bytes - 4) bytes ++ number_bytes 4 h.load_crc }
    ensures before_load_crc { (h : HeaderView) (crc : ℕ) (bytes others : List ℕ)
        → HeaderSpells h bytes → HeaderSpells (with_load_crc h crc) others
        → take (length bytes - 4) bytes ≡ take (length others - 4) others }
{}
