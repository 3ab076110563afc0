//! Fields of files and packets: read from left to right out of bytes, and written back to back.
//!
//! All numbers are unsigned, the highest byte first. A padded text is a length in two bytes, that
//! many bytes, and one zero byte where the length is odd. A short text is a length in one byte, and
//! that many bytes (docs/FORMATS.md).
//!
//! # A decoder
//!
//! A format is written once, in `specs/`, as a tree of fields. Here it is a count in one byte, so
//! many short texts, and nothing after them; `named` makes this crate's fault of a `FieldFault`.
//!
//! ```text
//! unfoldable pub text : Grammar SampleFault (List ℕ)
//! text = renamed named short
//!
//! unfoldable pub texts : Grammar SampleFault (List (List ℕ))
//! texts = do
//!   n ← renamed named (number 1)
//!   list ← times n text
//!   ended Rest
//!   give list
//! ```
//!
//! Each part of the decoder says which part of the format it reads, and needs no proof file, but
//! for the invariant of a loop. `?` makes the crate's fault of a field's by
//! `impl From<FieldFault>`, whose ghost member is `from_gives = { λ f e. e ≡ named f }`.
//!
//! ```text
//! #[tactic(auto, unfolding(crate::specs::Sample::text))]
//! fn text_of(alloc: Global, reader: &mut Reader) -> Result<Bytes, SampleFault>
//!     ensures { Decodes Memory (λ t. t.items) text reader.old result reader.new }
//! {
//!     let text = reader.take_short()?;
//!     let mut bytes = Bytes::new(alloc);
//!     bytes.extend(text)?;
//!     Ok(bytes)
//! }
//! ```
//!
//! The whole is a function that `AnswersAs Memory view result (answer texts bytes.now)`, and the
//! public call's four clauses follow from that by `found`, `only`, `refused` and `faulty` of
//! `field_grammar`'s `proofs/DecoderLemmas.antt`, one line each.
#![tactic(auto)]

mod reader;
mod round_trip;
mod writer;

pub use field_grammar::FieldFault;
pub use reader::Reader;
pub use round_trip::what_is_written_is_read;
pub use writer::Writer;
