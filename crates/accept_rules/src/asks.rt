//! Closures as rules.
use crate::{KeptLoad, Rule};
use load_header::LoadHeader;

/// A value that says which loads a closure accepts, as a function. The contract of a closure says
/// no more than which answers it may give.
pub trait KnownRule {
    ghost use Rattle.accept_rules.specs.Permissions.{Accepts};

    /// What the closure accepts, by the fields of a header.
    ghost accepts: { Self → Accepts };
}

/// The rule that a closure is, beside the value that says what it accepts. It may be asked where
/// each answer that the closure may give is the one that is known.
#[derive(Drop)]
pub struct Asks<F: Fn(&LoadHeader, &[KeptLoad]) -> bool, A: KnownRule> {
    pub rule: F,
    pub known: A,
}

impl<F: Fn(&LoadHeader, &[KeptLoad]) -> bool, A: KnownRule> Rule for Asks<F, A> {
    ghost use Rattle.accept_rules.specs.Closures.{MayAsk, SaysKnown, known_is_followed};

    ghost may_ask = { λ asks header kept. MayAsk F.Fn asks.rule (A.accepts asks.known) header kept };

    ghost may_say = { λ asks header kept answer.
        SaysKnown F.Fn asks.rule (A.accepts asks.known) header kept answer };

    ghost accepts = { λ asks. A.accepts asks.known };

    ghost follows = { λ asks. known_is_followed F.Fn (λ a. a.rule) (λ a. A.accepts a.known) asks };

    fn ask(&self, header: &LoadHeader, kept: &[KeptLoad]) -> bool {
        (self.rule)(header, kept)
    }
}
