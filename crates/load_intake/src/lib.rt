//! How a target takes in the loads of an upload: file by file, each tested before the next is asked
//! for, and written to the bank that isn't active as its bytes arrive (docs/EXCHANGE.md, "Upload").
//!
//! Start from [`Intake`]. It asks for nothing itself:
//!
//! ```text
//! let mut intake = Intake::begin(alloc, request, buffer, &mut store, &mut disk)?;
//! // until the upload ends: the file `intake.next_name()` is asked for, and as its bytes come
//! intake.take_bytes(&mut store, &mut disk, bytes)?;
//! // when it is whole: what it comes to
//! match intake.finish(interlock, identity, active, &mut store, &mut disk)? { .. }
//! ```
#![tactic(auto)]

mod arriving;
mod down;
mod ended;
mod finished;
mod intake;
mod judging;
mod keeping;
mod next;
mod open_load;
mod place;
mod request;
mod storing;
mod sums;
mod whole;

pub use down::Down;
pub use ended::{NewLoads, UploadEnd};
pub use finished::Finished;
pub use intake::Intake;
pub use request::{Request, read_request};
