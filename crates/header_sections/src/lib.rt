//! The pieces that load headers and the lists of a media set have in common: where a section
//! begins, padded texts, user data, entries after their distances, and the check sum at the end
//! (docs/FORMATS.md).
//!
//! A decoder reads a piece by a function of this crate, which needs a
//! [`Reader`](field_codec::Reader) and refuses with a [`SectionFault`]; `?` makes the format's own
//! fault of it by `From`. In the format's tree the piece is `renamed` by the same function of
//! faults.
//!
//! ```text
//! unfoldable pub type_name : Grammar HeaderFault (List ℕ)
//! type_name = do
//!   shared (section_at 2 said)
//!   shared text
//! ```
#![tactic(auto)]

mod entries;
mod fault;
mod measuring;
mod reading;
mod writing;

pub use entries::{Entry, entries_size, is_distance, put_entries};
pub use fault::SectionFault;
pub use measuring::{name_size, part_size, text_size, texts_size, user_size};
pub use reading::{
    read_name, read_part, read_start, read_text, read_texts, read_user_data, test_end, test_section,
};
pub use writing::{put_text, put_texts, put_user, with_check_sum};
