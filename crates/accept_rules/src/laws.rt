//! What holds of each rule. These functions do nothing; their clauses are the law.
ghost use Rattle.accept_rules.specs.Interlocks.{FollowsAccepts};

use crate::{Interlock, Rule};

/// Each rule answers as a unit does that accepts what it accepts, and so does each interlock. So
/// what is said of whatever a rule follows is said of every rule.
pub fn a_rule_follows_what_it_accepts<R: Rule>(rule: &R)
    ensures { FollowsAccepts R.may_say rule.now (R.accepts rule.now) }
{}

/// The same of an interlock, which contracts see as its rule.
pub fn an_interlock_follows_what_it_accepts<R: Rule>(interlock: &Interlock<R>)
    ensures { FollowsAccepts R.may_say interlock.now (R.accepts interlock.now) }
{}
