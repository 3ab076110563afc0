//! What holds of the formats of lists of batches and of batches.
ghost use Rattle.std.specs.Prelude.{◌≡◌, ◌↔◌, ◌≤◌, ℕ, List, length, Ok};
ghost use Rattle.field_grammar.specs.Grammar.{Fault, IsBytes, IsDecided, Spelled};
ghost use Rattle.field_grammar.specs.Answers.{answer};
ghost use Rattle.batch_lists.specs.Batch.{batch, BatchView};
ghost use Rattle.batch_lists.specs.BatchFields.{batch_size, IsBatch, BatchSpells};
ghost use Rattle.batch_lists.specs.Batches.{batches_list, BatchesListView, BatchesSpells};
ghost use Rattle.batch_lists.specs.declared.fault.BatchFault.TheVariants as faults;
ghost use Rattle.batch_lists.specs.declared.fault.BatchesFault.TheVariants as lists;

/// Laws of the format of lists of batches, for callers that compare lists and their bytes.
pub fn batches_list_laws()
    // Whatever the bytes, they spell one list, or fail with one fault, and never both.
    ensures decided { (bytes : List ℕ) → IsBytes bytes → IsDecided batches_list bytes }
    // The format as a tree and the list of fields agree on which bytes spell a value.
    ensures spelled { (v : BatchesListView) (bytes : List ℕ)
        → Spelled batches_list bytes v ↔ BatchesSpells v bytes }
    // Bytes spell one list, and a list has one spelling, which is read as that list.
    ensures one_list { (v w : BatchesListView) (bytes : List ℕ) → BatchesSpells v bytes
        → BatchesSpells w bytes → v ≡ w }
    ensures one_spelling { (v : BatchesListView) (bytes others : List ℕ) → BatchesSpells v bytes
        → BatchesSpells v others → bytes ≡ others }
    ensures read_again { (v : BatchesListView) (bytes : List ℕ) → BatchesSpells v bytes
        → answer batches_list bytes ≡ Ok v }
    // No bytes fail with out of memory.
    ensures never_memory { (bytes : List ℕ) → ¬ Fault batches_list bytes lists.Memory }
{}

/// The same laws of the format of batches, whose bytes depend on their fields alone.
pub fn batch_laws()
    ensures decided { (bytes : List ℕ) → IsBytes bytes → IsDecided batch bytes }
    ensures spelled { (v : BatchView) (bytes : List ℕ)
        → Spelled batch bytes v ↔ BatchSpells v bytes }
    ensures one_batch { (v w : BatchView) (bytes : List ℕ) → BatchSpells v bytes
        → BatchSpells w bytes → v ≡ w }
    ensures one_spelling { (v : BatchView) (bytes others : List ℕ) → BatchSpells v bytes
        → BatchSpells v others → bytes ≡ others }
    ensures read_again { (v : BatchView) (bytes : List ℕ) → BatchSpells v bytes
        → answer batch bytes ≡ Ok v }
    ensures never_memory { (bytes : List ℕ) → ¬ Fault batch bytes faults.Memory }

    // How many bytes there are.
    ensures length { (v : BatchView) (bytes : List ℕ) → BatchSpells v bytes
        → length bytes ≡ batch_size v }
    ensures small { (v : BatchView) → IsBatch v → batch_size v ≤ 39838 }
{}
