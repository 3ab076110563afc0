//! The words of what is left of a line.
ghost use Rattle.std.specs.Prelude.{◌≡◌, ◌==◌, length, option_map, option_copied};
ghost use Rattle.text_words.specs.Words.{four_of, one_of, two_of};
ghost use Rattle.link_net.specs.Reading.{more_than_two, words_in, words_of};

use text_words::{Pieces, cut};

/// The only word of what is left of a line.
pub fn only_word_in(rest: Option<&[u8]>) -> Option<&[u8]>
    ensures { option_copied result ≡ one_of (words_of (option_copied rest.entry)) }
{
    Pieces::left(rest, b' ').one()
}

/// The only two words of what is left of a line.
pub fn only_two_in(rest: Option<&[u8]>) -> Option<(&[u8], &[u8])>
    ensures { option_map (λ words. (words.0.now, words.1.now)) result
        ≡ two_of (words_of (option_copied rest.entry)) }
{
    Pieces::left(rest, b' ').two()
}

/// The only four words of what is left of a line.
pub fn only_four_in(rest: Option<&[u8]>) -> Option<(&[u8], &[u8], &[u8], &[u8])>
    ensures { option_map (λ words. (words.0.now, words.1.now, words.2.now, words.3.now)) result
        ≡ four_of (words_of (option_copied rest.entry)) }
{
    Pieces::left(rest, b' ').four()
}

/// The first two words of what is left of a line, and what stands after them.
#[tactic(auto, using(crate::proofs::Parts::third_word))]
pub fn more_than_two_in(rest: Option<&[u8]>) -> Option<(&[u8], &[u8], &[u8])>
    ensures { option_map (λ words. (words.0.now, words.1.now, words_in words.2.now)) result
        ≡ more_than_two (words_of (option_copied rest.entry)) }
{
    let (first, rest) = cut(rest?, b' ');
    let (second, rest) = cut(rest?, b' ');
    Some((first, second, rest?))
}

/// How many words a text has.
pub fn word_count(text: &[u8]) -> usize
    ensures { result ≡ length (words_in text.now) }
{
    Pieces::new(text, b' ').count()
}
