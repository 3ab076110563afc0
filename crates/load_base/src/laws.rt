//! What holds of texts, their faults and comparisons.
ghost use Rattle.std.specs.Prelude.{◌≡◌, ◌≢◌, ℕ, List as Items};
ghost use Rattle.std.specs.Bool.{Decides};
ghost use Rattle.load_base.specs.Ident.{IsIdent, IsIdentFault};
ghost use Rattle.load_base.specs.Listed.{Listed};
ghost use Rattle.load_base.specs.Name.{IsName, IsNameFault};
ghost use Rattle.load_base.specs.PartText.{IsPartText, IsPartTextFault};
ghost use Rattle.load_base.specs.Text.{IsText, IsTextFault};
ghost use Rattle.load_base.specs.Verdicts.{TellsFaults, name_fault_of, text_fault_of};
ghost use Rattle.load_base.specs.Verdicts.{ident_fault_of, part_text_fault_of};
ghost use Rattle.load_base.specs.declared.text.TextFault.TheVariants.{Memory};

use crate::{Ident, List, Name, PartText, Text};

/// Bytes are such a text or have one first fault, which a function computes from them. Out of
/// memory is no fault of a text. A name, an Ident and a part number are texts.
/// `proofs/VerdictLemmas.antt` and `proofs/TextLemmas.antt` say the same to proofs.
#[tactic(auto, using(crate::proofs::VerdictLemmas::name_faults, crate::proofs::VerdictLemmas::text_faults, crate::proofs::VerdictLemmas::ident_faults, crate::proofs::VerdictLemmas::part_text_faults, crate::proofs::TextLemmas::name_is_text, crate::proofs::TextLemmas::ident_is_text, crate::proofs::TextLemmas::part_text_is_text))]
pub fn text_laws()
    ensures names { TellsFaults name_fault_of IsName IsNameFault }
    ensures texts { TellsFaults text_fault_of IsText (λ bytes fault.
        (fault ≢ Memory) × IsTextFault bytes fault) }
    ensures idents { TellsFaults ident_fault_of IsIdent IsIdentFault }
    ensures part_texts { TellsFaults part_text_fault_of IsPartText IsPartTextFault }
    ensures name_is_text { (bytes : Items ℕ) → IsName bytes → IsText bytes }
    ensures ident_is_text { (bytes : Items ℕ) → IsIdent bytes → IsText bytes }
    ensures part_text_is_text { (bytes : Items ℕ) → IsPartText bytes → IsText bytes }
{}

/// Names, Idents, part texts and texts are equal where their bytes are.
#[tactic(auto, using(crate::proofs::EqualityLemmas::equal_bytes))]
pub fn equality_laws()
    ensures names { (one other : Items ℕ)
        → Decides (⟦<Name as PartialEq>⟧.eq one other) (one ≡ other) }
    ensures idents { (one other : Items ℕ)
        → Decides (⟦<Ident as PartialEq>⟧.eq one other) (one ≡ other) }
    ensures part_texts { (one other : Items ℕ)
        → Decides (⟦<PartText as PartialEq>⟧.eq one other) (one ≡ other) }
    ensures texts { (one other : Items ℕ)
        → Decides (⟦<Text as PartialEq>⟧.eq one other) (one ≡ other) }
{}

/// Two lists are equal where their members are the same, if members are equal where they are the
/// same. Their spare capacity may differ.
#[tactic(auto, using(crate::proofs::EqualityLemmas::equal_lists))]
pub fn list_equality_law<T: PartialEq>()
    ensures { ((x y : T) → Decides (T.eq x y) (x ≡ y))
        → (one other : Listed T)
        → Decides (⟦<List<T> as PartialEq>⟧.eq one other) (one.items ≡ other.items) }
{}
