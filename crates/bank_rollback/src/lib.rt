//! Makes the configuration active again that was active before, in one step that no loss of power
//! leaves half done.
#![tactic(auto)]

mod fault;
mod rolling_back;

pub use fault::RollbackFault;
pub use rolling_back::rollback;
