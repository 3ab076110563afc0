//! What an interlock asks.
ghost use Rattle.std.specs.Prelude.{◌≡◌};

use crate::{KeptLoad, is_kept};
use load_header::LoadHeader;

/// A rule of the maker of a unit: whether it accepts a load with this header beside the loads that
/// are kept.
pub trait Rule {
    ghost use Rattle.std.specs.Prelude.{Bool, List};
    ghost use Rattle.load_header.specs.declared.header.LoadHeader.{LoadHeader};
    ghost use Rattle.accept_rules.specs.declared.kept.KeptLoad.{KeptLoad};
    ghost use Rattle.accept_rules.specs.Interlocks.{FollowsAccepts};
    ghost use Rattle.accept_rules.specs.Permissions.{Accepts};

    /// It may be asked of this header beside these loads.
    ghost may_ask: { Self → LoadHeader → List KeptLoad → Type 0 };

    /// It may give this answer on this header beside these loads.
    ghost may_say: { Self → LoadHeader → List KeptLoad → Bool → Type 0 };

    /// What it accepts, by the fields of a header.
    ghost accepts: { Self → Accepts };

    /// Whether it accepts a load with this header beside these loads. It takes no memory.
    fn ask(&self, header: &LoadHeader, kept: &[KeptLoad]) -> bool
        requires { may_ask self.now header.now kept.now }
        ensures { may_say self.now header.now kept.now result };

    /// Each answer that it may give says what it accepts.
    ghost follows: { (rule : Self) → FollowsAccepts may_say rule (accepts rule) };
}

/// The rule that accepts each load that a rule may accept: one whose type id isn't 0, and whose
/// part number no kept load has.
#[derive(Clone, Copy)]
pub struct PermitsAll;

impl Rule for PermitsAll {
    ghost use Rattle.std.specs.Prelude.{⊤};
    ghost use Rattle.load_header.specs.Header.{header_view};
    ghost use Rattle.accept_rules.specs.Laws.{a_function_is_followed};
    ghost use Rattle.accept_rules.specs.Permissions.{permits};

    ghost may_ask = { λ _ _ _. ⊤ };

    ghost may_say = { λ _ header kept answer. answer ≡ permits (header_view header) kept };

    ghost accepts = { λ _. permits };

    ghost follows = { a_function_is_followed (λ _. permits) };

    fn ask(&self, header: &LoadHeader, kept: &[KeptLoad]) -> bool {
        header.type_id != 0 && !is_kept(header.part.as_slice(), kept)
    }
}
