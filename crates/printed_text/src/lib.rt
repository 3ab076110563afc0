//! How what people read is printed (docs/FORMATS.md, "Printed text"): numbers, lines, and the texts
//! of faults.
//!
//! A call that puts something extends `out`. Where it is out of memory, `out` is as it was.
#![tactic(auto)]

mod faults;
mod lines;
mod numbers;

pub use faults::{Printed, coded, nested};
pub use lines::{put_field, put_line, put_number_field};
pub use numbers::{put_hex, put_hex_16, put_number};
