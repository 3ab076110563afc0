//! A maker's rule on which loads its unit accepts.
ghost use Rattle.std.specs.Prelude.{◌≡◌};

use accept_rules::{Interlock, KeptLoad, Rule, is_kept};
use load_header::LoadHeader;

/// The least type id that is a maker's own. All makers share those from 1 up to it.
pub const OWN_TYPES: u16 = 0x8000;

/// Accepts each type that all makers share, and of the maker's own the one of this number; but no
/// load beside a kept one of its part number.
#[derive(Clone, Copy)]
pub struct OwnTypes {
    pub own: u16,
}

impl Rule for OwnTypes {
    ghost use Rattle.std.specs.Prelude.{⊤};
    ghost use Rattle.load_header.specs.Header.{header_view};
    ghost use Rattle.accept_rules.specs.Laws.{a_function_is_followed};
    ghost use Rattle.own_unit.specs.OwnTypes.{own_types};

    ghost may_ask = { λ _ _ _. ⊤ };

    ghost may_say = { λ rule header kept answer. answer ≡ own_types rule.own
        (header_view header) kept };

    ghost accepts = { λ rule. own_types rule.own };

    ghost follows = { a_function_is_followed (λ rule. own_types rule.own) };

    fn ask(&self, header: &LoadHeader, kept: &[KeptLoad]) -> bool {
        let id = header.type_id;
        id != 0 && (id < OWN_TYPES || id == self.own) && !is_kept(header.part.as_slice(), kept)
    }
}

/// The interlock of a unit that takes this type of its maker's besides the shared ones.
pub fn interlock(own: u16) -> Interlock<OwnTypes>
    ensures { result.own ≡ own }
{
    Interlock::new(OwnTypes { own })
}
