//! What holds of the formats of media lists.
ghost use Rattle.std.specs.Prelude.{◌≡◌, ◌↔◌, ℕ, List, Some, None};
ghost use Rattle.field_grammar.specs.Grammar.{IsBytes, IsDecided, Spelled};
ghost use Rattle.media_lists.specs.Files.{files_list, FilesListView, FilesSpells};
ghost use Rattle.media_lists.specs.Loads.{loads_list, LoadsListView, LoadsSpells};
ghost use Rattle.media_lists.specs.Paths.{path_fault_of, IsPath, IsLongestPrefix};

/// Laws of the format of lists of files, for callers that compare lists and their bytes.
pub fn files_list_laws()
    // Whatever the bytes, they spell one list, or fail with one fault, and never both.
    ensures decided { (bytes : List ℕ) → IsBytes bytes → IsDecided files_list bytes }
    // The format as a tree and the list of fields agree on which bytes spell a value.
    ensures spelled { (v : FilesListView) (bytes : List ℕ)
        → Spelled files_list bytes v ↔ FilesSpells v bytes }
    // Bytes spell one list, and a list has one spelling.
    ensures one_list { (v w : FilesListView) (bytes : List ℕ) → FilesSpells v bytes
        → FilesSpells w bytes → v ≡ w }
    ensures one_spelling { (v : FilesListView) (bytes others : List ℕ) → FilesSpells v bytes
        → FilesSpells v others → bytes ≡ others }
{}

/// The same laws of the format of lists of loads.
pub fn loads_list_laws()
    ensures decided { (bytes : List ℕ) → IsBytes bytes → IsDecided loads_list bytes }
    ensures spelled { (v : LoadsListView) (bytes : List ℕ)
        → Spelled loads_list bytes v ↔ LoadsSpells v bytes }
    ensures one_list { (v w : LoadsListView) (bytes : List ℕ) → LoadsSpells v bytes
        → LoadsSpells w bytes → v ≡ w }
    ensures one_spelling { (v : LoadsListView) (bytes others : List ℕ) → LoadsSpells v bytes
        → LoadsSpells v others → bytes ≡ others }
{}

/// Laws of the paths of listed files.
pub fn path_laws()
    // Bytes without a fault are a path.
    ensures no_fault { (bytes : List ℕ) → (path_fault_of bytes ≡ None) ↔ IsPath bytes }
    // The fault of others is the length of their longest prefix that is a prefix of some path.
    ensures fault { (bytes : List ℕ) (count : ℕ) → path_fault_of bytes ≡ Some count
        → IsLongestPrefix bytes count }
{}
