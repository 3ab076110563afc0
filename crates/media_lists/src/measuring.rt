//! How many bytes the parts of a list take.
ghost use Rattle.std.specs.Prelude.{◌≡◌, ◌+◌, ◌<◌, ◌≤◌, ◌^◌, length};
ghost use Rattle.field_grammar.specs.Spelling.{spelled_length};
ghost use Rattle.media_lists.specs.Loads.{load_entry_view, load_body_fields, HasWords};

use crate::lists::LoadEntry;
use header_sections::{name_size, part_size, texts_size};

/// The bytes of an entry of a list of loads, without its distance.
#[tactic(auto, using(crate::proofs::Sizes::size_load))]
pub(crate) fn load_body_size(load: &LoadEntry) -> u64
    requires { length load.now.hardware.items ≤ 1024 }
    ensures size { result ≡ spelled_length (load_body_fields (load_entry_view load.now)) }
    ensures small { result ≤ 300000 }
    ensures words { HasWords (load_entry_view load.now) }
{
    part_size(&load.part) + name_size(&load.header_name) + 2 + texts_size(load.hardware.as_slice())
}

/// The bytes of a list, from those of its section of entries and of its user data.
pub fn list_size(entries: u64, user: usize) -> u64
    requires entries { entries < 2 ^ 50 }
    requires user { user ≤ 131070 }
    ensures { result ≡ 44 + entries + user }
{
    44 + entries + user as u64
}
