//! How many bytes the pieces take.
ghost use Rattle.std.specs.Prelude.{◌≡◌, ◌+◌, ◌*◌, ◌%◌, ◌<◌, ◌≤◌, ◌^◌, length};
ghost use Rattle.std.specs.List.{AllByRecursion};
ghost use Rattle.load_base.specs.Name.{IsName};
ghost use Rattle.load_base.specs.Text.{IsText};
ghost use Rattle.part_number.specs.PartNumber.{IsPartNumberText};
ghost use Rattle.field_grammar.specs.Grammar.{IsBytes};
ghost use Rattle.field_grammar.specs.Spelling.{spelled_length};
ghost use Rattle.field_grammar.specs.Fields.{padded_fields};
ghost use Rattle.header_sections.specs.SectionFields.{texts_fields, user_fields};

use load_base::{Name, Text};
use part_number::PartNumber;

fn padded_size(length: usize) -> u64
    requires { length ≤ 65536 }
    ensures { result ≡ 2 + length + length % 2 }
{
    let length = length as u64;
    2 + length + length % 2
}

/// The bytes of a padded text, at most 258.
#[tactic(auto, using(field_grammar::proofs::SectionLemmas::size_padded))]
pub fn text_size(text: &Text) -> u64
    ensures size { result ≡ spelled_length (padded_fields text.now) }
    ensures small { result ≤ 258 }
    ensures text { IsText text.now }
{
    padded_size(text.as_slice().len())
}

/// The bytes of a padded file name, at most 66.
#[tactic(auto, using(field_grammar::proofs::SectionLemmas::size_padded))]
pub fn name_size(name: &Name) -> u64
    ensures size { result ≡ spelled_length (padded_fields name.now) }
    ensures small { result ≤ 66 }
    ensures name { IsName name.now }
{
    padded_size(name.as_slice().len())
}

/// The bytes of a padded part number, which are 18.
#[tactic(auto, using(field_grammar::proofs::SectionLemmas::size_padded, part_number::proofs::VerdictLemmas::part_size))]
pub fn part_size(part: &PartNumber) -> u64
    ensures size { result ≡ spelled_length (padded_fields part.now) }
    ensures small { result ≡ 18 }
    ensures part { IsPartNumberText part.now }
{
    padded_size(part.as_slice().len())
}

/// The bytes of a count, 2 bytes, and that many padded texts.
#[tactic(auto, using(crate::proofs::SizeLemmas::all_texts))]
pub fn texts_size(texts: &[Text]) -> u64
    requires { length texts.now < 65536 }
    ensures size { result ≡ spelled_length (texts_fields texts.now) }
    ensures small { result ≤ 2 + 258 * length texts.now }
    ensures texts { AllByRecursion IsText texts.now }
{
    let mut size = 2;
    for text in texts {
        size += text_size(text);
    }
    size
}

/// The bytes of the section of user data: its length in words, 2 bytes, and the bytes.
#[tactic(auto, using(crate::proofs::SizeLemmas::size_user))]
pub fn user_size(user: &[u8]) -> u64
    requires { length user.now < 2 ^ 32 }
    ensures size { result ≡ spelled_length (user_fields user.now) }
    ensures exact { result ≡ 2 + length user.now }
    ensures bytes { IsBytes user.now }
{
    2 + user.len() as u64
}
