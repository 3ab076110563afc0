//! Lines of a script.
ghost use Rattle.std.specs.Prelude.{◌≡◌, ◌==◌, option_map, option_copied};
ghost use Rattle.std.specs.List.{slice_split};
ghost use Rattle.exchange_trace.specs.Scripts as scripts;
ghost use Rattle.exchange_trace.specs.declared.fault.ScriptFault.TheVariants.{Memory};
ghost use Rattle.field_grammar.specs.Answers.{AnswersAs};
ghost use Rattle.link_net.specs.Lines.{line_view};
ghost use Rattle.link_net.specs.Reading.{count_of as only_count, keyword_view};
ghost use Rattle.link_net.specs.Reading.{words_of};
ghost use Rattle.text_words.specs.Words.{one_of};

use crate::number::{any_number_in, count_in, port_in, size_in};
use crate::values::{ident_in, parts_in, payload_in, side_in};
use crate::words::{more_than_two_in, only_four_in, only_two_in, only_word_in, word_count};
use exchange_trace::{Datagram, ScriptFault, Side};
use load_base::{Ident, List, PartText};
use std::alloc::Global;
use text_words::cut;

/// The most parts of an upload.
const MOST_PARTS_OF_A_LINE: usize = 64;

/// What a line says (docs/FORMATS.md, "Script").
#[derive(Drop)]
pub enum Line {
    /// An information session is started with this target.
    Info {
        hw: Ident,
        pos: Ident,
    },
    /// An upload of these parts to this target is started.
    Upload {
        hw: Ident,
        pos: Ident,
        parts: List<PartText>,
    },
    /// The datagram of this number is delivered, if it was posted.
    Give(u32),
    /// The datagram of this number is lost, if it was posted and not delivered.
    Lose(u32),
    /// This many undelivered datagrams are delivered, the least numbers first.
    Next(u32),
    /// The side's timer expires.
    Tick(Side),
    /// This datagram, which nobody posted, is delivered to the other side than it names.
    Inject(Datagram),
    /// The disk loses power at the call of this number, or at once at 0, as the second number
    /// picks.
    Power {
        calls: u32,
        pick: u32,
    },
    /// The target is switched off and on.
    Boot,
    /// Requests ask for this block size from now on, or for none.
    Blksize(Option<u16>),
    /// Datagrams are delivered, and timers expire, until nothing is undelivered and neither side
    /// waits.
    Finish,
}

/// The first words of lines.
#[derive(Clone, Copy, PartialEq, Eq)]
pub enum Keyword {
    Info,
    Upload,
    Give,
    Lose,
    Next,
    Tick,
    Inject,
    Power,
    Boot,
    Blksize,
    Finish,
}

/// What the line of this number says, or the first fault in it.
pub fn read_line(alloc: Global, line: u64, text: &[u8]) -> Result<Line, ScriptFault>
    ensures { AnswersAs Memory line_view result
        (scripts.words_said line (slice_split (λ byte. byte == 32) text.now)) }
{
    let (first, rest) = cut(text, b' ');
    match keyword_of(first) {
        Some(keyword) => line_of(alloc, line, keyword, rest),
        None => Err(ScriptFault::Word(line)),
    }
}

/// What the words after a keyword say.
#[tactic(auto, using(crate::proofs::Parts::give_words, crate::proofs::Parts::lose_words, crate::proofs::Parts::next_words))]
pub fn line_of(
    alloc: Global,
    line: u64,
    keyword: Keyword,
    rest: Option<&[u8]>,
) -> Result<Line, ScriptFault>
    ensures { AnswersAs Memory line_view result (scripts.by_keyword line (Some
        (keyword_view keyword))
        (words_of (option_copied rest.entry))) }
{
    match keyword {
        Keyword::Info => info_of(line, rest),
        Keyword::Upload => upload_of(alloc, line, rest),
        Keyword::Give => Ok(Line::Give(count_of(line, rest)?)),
        Keyword::Lose => Ok(Line::Lose(count_of(line, rest)?)),
        Keyword::Next => Ok(Line::Next(count_of(line, rest)?)),
        Keyword::Tick => tick_of(line, rest),
        Keyword::Inject => inject_of(alloc, line, rest),
        Keyword::Power => power_of(line, rest),
        Keyword::Boot => boot_of(line, rest),
        Keyword::Blksize => blksize_of(line, rest),
        Keyword::Finish => finish_of(line, rest),
    }
}

#[tactic(auto, using(crate::proofs::Parts::info_words))]
fn info_of(line: u64, rest: Option<&[u8]>) -> Result<Line, ScriptFault>
    ensures { AnswersAs Memory line_view result
        (scripts.line_said line scripts.info (words_of (option_copied rest.entry))) }
{
    let Some((hw, pos)) = only_two_in(rest) else {
        return Err(ScriptFault::Word(line));
    };
    let hw = ident_in(line, hw)?;
    let pos = ident_in(line, pos)?;
    Ok(Line::Info { hw, pos })
}

/// The number of words is tested before any of them.
#[tactic(auto, using(crate::proofs::Parts::upload_words))]
fn upload_of(alloc: Global, line: u64, rest: Option<&[u8]>) -> Result<Line, ScriptFault>
    ensures { AnswersAs Memory line_view result
        (scripts.line_said line scripts.upload (words_of (option_copied rest.entry))) }
{
    let Some((hw, pos, parts)) = more_than_two_in(rest) else {
        return Err(ScriptFault::Word(line));
    };
    if word_count(parts) > MOST_PARTS_OF_A_LINE {
        return Err(ScriptFault::Word(line));
    }
    let hw = ident_in(line, hw)?;
    let pos = ident_in(line, pos)?;
    let parts = parts_in(alloc, line, parts)?;
    Ok(Line::Upload { hw, pos, parts })
}

/// The number that the only word of what is left of a line writes: a datagram's number, or how many
/// are delivered.
pub fn count_of(line: u64, rest: Option<&[u8]>) -> Result<u32, ScriptFault>
    ensures { result ≡ only_count line (one_of (words_of (option_copied rest.entry))) }
{
    match only_word_in(rest) {
        Some(word) => count_in(line, word),
        None => Err(ScriptFault::Word(line)),
    }
}

#[tactic(auto, using(crate::proofs::Parts::tick_words))]
fn tick_of(line: u64, rest: Option<&[u8]>) -> Result<Line, ScriptFault>
    ensures { AnswersAs Memory line_view result
        (scripts.line_said line scripts.tick (words_of (option_copied rest.entry))) }
{
    match only_word_in(rest) {
        Some(word) => Ok(Line::Tick(side_in(line, word)?)),
        None => Err(ScriptFault::Word(line)),
    }
}

/// The datagram seems to come from the side that doesn't get it.
#[tactic(auto, using(crate::proofs::Parts::inject_words))]
fn inject_of(alloc: Global, line: u64, rest: Option<&[u8]>) -> Result<Line, ScriptFault>
    ensures { AnswersAs Memory line_view result
        (scripts.line_said line scripts.inject (words_of (option_copied rest.entry))) }
{
    let Some((side, from, to, payload)) = only_four_in(rest) else {
        return Err(ScriptFault::Word(line));
    };
    let reached = side_in(line, side)?;
    let from = port_in(line, from)?;
    let to = port_in(line, to)?;
    let bytes = payload_in(alloc, line, payload)?;
    Ok(Line::Inject(Datagram {
        from_side: reached.other(),
        from,
        to,
        bytes,
    }))
}

#[tactic(auto, using(crate::proofs::Parts::power_words))]
fn power_of(line: u64, rest: Option<&[u8]>) -> Result<Line, ScriptFault>
    ensures { AnswersAs Memory line_view result
        (scripts.line_said line scripts.power (words_of (option_copied rest.entry))) }
{
    let Some((calls, pick)) = only_two_in(rest) else {
        return Err(ScriptFault::Word(line));
    };
    let calls = any_number_in(line, calls)?;
    let pick = any_number_in(line, pick)?;
    Ok(Line::Power { calls, pick })
}

#[tactic(auto, using(crate::proofs::Parts::boot_words))]
fn boot_of(line: u64, rest: Option<&[u8]>) -> Result<Line, ScriptFault>
    ensures { AnswersAs Memory line_view result
        (scripts.line_said line scripts.boot (words_of (option_copied rest.entry))) }
{
    match rest {
        Some(_) => Err(ScriptFault::Word(line)),
        None => Ok(Line::Boot),
    }
}

#[tactic(auto, using(crate::proofs::Parts::blksize_words))]
fn blksize_of(line: u64, rest: Option<&[u8]>) -> Result<Line, ScriptFault>
    ensures { AnswersAs Memory line_view result
        (scripts.line_said line scripts.blksize (words_of (option_copied rest.entry))) }
{
    match only_word_in(rest) {
        Some(word) => Ok(Line::Blksize(size_in(line, word)?)),
        None => Err(ScriptFault::Word(line)),
    }
}

#[tactic(auto, using(crate::proofs::Parts::finish_words))]
fn finish_of(line: u64, rest: Option<&[u8]>) -> Result<Line, ScriptFault>
    ensures { AnswersAs Memory line_view result
        (scripts.line_said line scripts.finish (words_of (option_copied rest.entry))) }
{
    match rest {
        Some(_) => Err(ScriptFault::Word(line)),
        None => Ok(Line::Finish),
    }
}

/// Which keyword a word is.
pub fn keyword_of(word: &[u8]) -> Option<Keyword>
    ensures { option_map keyword_view result ≡ scripts.found_in scripts.keywords word.now }
{
    if word == b"info".as_slice() {
        Some(Keyword::Info)
    } else if word == b"upload".as_slice() {
        Some(Keyword::Upload)
    } else if word == b"give".as_slice() {
        Some(Keyword::Give)
    } else if word == b"lose".as_slice() {
        Some(Keyword::Lose)
    } else if word == b"next".as_slice() {
        Some(Keyword::Next)
    } else if word == b"tick".as_slice() {
        Some(Keyword::Tick)
    } else if word == b"inject".as_slice() {
        Some(Keyword::Inject)
    } else if word == b"power".as_slice() {
        Some(Keyword::Power)
    } else if word == b"boot".as_slice() {
        Some(Keyword::Boot)
    } else if word == b"blksize".as_slice() {
        Some(Keyword::Blksize)
    } else if word == b"finish".as_slice() {
        Some(Keyword::Finish)
    } else {
        None
    }
}
