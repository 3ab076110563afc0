//! Decimal numbers.
ghost use Rattle.std.specs.Prelude.{◌≡◌, ◌≤◌, IfSome};
ghost use Rattle.std.specs.Char.{is_ascii_digit};
ghost use Rattle.std.specs.List.{list_all};
ghost use Rattle.text_words.specs.Words.{decimal_between, is_decimal as is_decimal_word};

/// The number that a word writes in decimal digits, without a sign or a leading zero; `None` where
/// it writes none, or one outside the range from `low` to `high` (docs/FORMATS.md, "Script").
#[tactic(auto, unfolding(crate::specs::Words::decimal_between))]
pub fn decimal_in(word: &[u8], low: u32, high: u32) -> Option<u32>
    ensures said { result ≡ decimal_between low high word.now }
    ensures within { IfSome result (λ number. number ≤ high) }
{
    if !is_decimal(word) {
        return None;
    }
    let mut number: u64 = 0;
    for byte in word {
        number = number * 10 + byte.saturating_sub(b'0') as u64;
        if number > high as u64 {
            return None;
        }
    }
    if number < low as u64 {
        return None;
    }
    Some(number as u32)
}

fn is_decimal(word: &[u8]) -> bool
    ensures { result ≡ is_decimal_word word.now }
{
    all_digits(word) && (!word.is_empty() && (word.len() == 1 || word[0] != b'0'))
}

fn all_digits(word: &[u8]) -> bool
    ensures { result ≡ list_all is_ascii_digit word.now }
{
    word.iter().all(|byte| byte.is_ascii_digit())
}
