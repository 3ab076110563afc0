//! Formats as trees of fields, what it means that bytes are in a format or fail it, and the laws
//! between the two. Decoders and encoders state their contracts over these definitions.
#![tactic(auto)]

mod fault;
mod fields;
mod format;

pub use fault::FieldFault;
pub use fields::fields_are_decided;
pub use format::{Format, prefix_is_decided, reading_is_exact, whole_is_decided};
