//! The interlock.
ghost use Rattle.std.specs.Prelude.{◌≡◌, true, false};
ghost use Rattle.load_header.specs.Header.{header_view};
ghost use Rattle.accept_rules.specs.Interlocks.{IsInterlock, MaySayOf};
ghost use Rattle.accept_rules.specs.Permissions.{Grants, Permits};

use crate::{KeptLoad, Rule};
use load_header::LoadHeader;
use std::marker::Model;

/// A rule that keeps four facts: it may be asked of each header beside whichever loads are kept;
/// what it accepts has a type id other than 0 and a part number that no kept load has; it accepts
/// each such header with a type id from 1 to 0x7FFF; and it never gives both answers on one header
/// beside the same loads. From 0x8000 on types are the maker's own, and a rule may accept or refuse
/// them as it likes.
#[derive(Drop)]
pub struct Interlock<R: Rule> {
    rule: R,
}

impl<R: Rule> Model for Interlock<R> {
    ghost use Rattle.accept_rules.specs.Interlocks.{IsInterlock};

    ghost Value = { R };

    ghost coded = { R.code };

    ghost view = { λ interlock. interlock.rule };

    ghost invariant = { λ interlock. IsInterlock R.may_ask R.may_say interlock.rule };
}

impl<R: Rule> Interlock<R> {
    /// The interlock of this rule.
    pub fn new(rule: R) -> Interlock<R>
        requires { IsInterlock R.may_ask R.may_say rule }
        ensures { result ≡ rule }
    {
        Interlock { rule }
    }

    /// Whether it accepts a load with this header beside these, which stay on the unit. It takes no
    /// memory.
    pub fn admits(&self, header: &LoadHeader, kept: &[KeptLoad]) -> bool
        ensures says { MaySayOf R.may_say self.now (header_view header.now) kept.now result }
        ensures accepts { result ≡ R.accepts self.now (header_view header.now) kept.now }
        ensures yes { result ≡ true → Permits (header_view header.now) kept.now }
        ensures no { result ≡ false → ¬ Grants (header_view header.now) kept.now }
    {
        self.rule.ask(header, kept)
    }
}
