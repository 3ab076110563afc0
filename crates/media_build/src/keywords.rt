//! The first words of the lines of a recipe, and where the lines may stand.
ghost use Rattle.std.specs.Prelude.{◌≡◌};
ghost use Rattle.media_build.specs.Lines.{keyword_of as keyword_in, may_stand as may_stand_after};
ghost use Rattle.media_build.specs.Lines.{is_among_loads as is_among, is_whole as is_whole_at};

/// The first word of a line.
#[derive(Clone, Copy, Debug, PartialEq, Eq)]
pub enum Keyword {
    Set,
    Members,
    Load,
    Hardware,
    Position,
    Data,
    Support,
    User,
    Batch,
    Target,
}

/// What the lines of a recipe so far end with.
#[derive(Clone, Copy, Debug, PartialEq, Eq)]
pub enum Stage {
    /// Lines of loads, or what stands before them.
    Loads,
    /// A batch, which has no target yet.
    Batch,
    /// A target.
    Targets,
}

/// The keyword that this word is; `None` where it is none.
#[tactic(auto, unfolding(crate::specs::Lines::keyword_of))]
pub(crate) fn keyword_of(word: &[u8]) -> Option<Keyword>
    ensures { result ≡ keyword_in word.now }
{
    if word == b"set".as_slice() {
        Some(Keyword::Set)
    } else if word == b"members".as_slice() {
        Some(Keyword::Members)
    } else if word == b"load".as_slice() {
        Some(Keyword::Load)
    } else if word == b"hardware".as_slice() {
        Some(Keyword::Hardware)
    } else if word == b"position".as_slice() {
        Some(Keyword::Position)
    } else if word == b"data".as_slice() {
        Some(Keyword::Data)
    } else if word == b"support".as_slice() {
        Some(Keyword::Support)
    } else if word == b"user".as_slice() {
        Some(Keyword::User)
    } else if word == b"batch".as_slice() {
        Some(Keyword::Batch)
    } else if word == b"target".as_slice() {
        Some(Keyword::Target)
    } else {
        None
    }
}

/// Whether a line with this keyword may stand after this many lines, which end so.
#[tactic(auto, unfolding(crate::specs::Lines::may_stand))]
pub(crate) fn may_stand(before: usize, stage: Stage, keyword: Keyword) -> bool
    ensures { result ≡ may_stand_after before stage keyword }
{
    match keyword {
        Keyword::Set => before == 0,
        Keyword::Members => before == 1,
        Keyword::Load => before >= 2 && is_among_loads(stage),
        Keyword::Batch => before >= 3 && is_whole(stage),
        Keyword::Target => !is_among_loads(stage),
        _ => before >= 3 && is_among_loads(stage),
    }
}

/// No batch has begun.
fn is_among_loads(stage: Stage) -> bool
    ensures { result ≡ is_among stage }
{
    matches!(stage, Stage::Loads)
}

/// No batch is left without a target.
pub(crate) fn is_whole(stage: Stage) -> bool
    ensures { result ≡ is_whole_at stage }
{
    !matches!(stage, Stage::Batch)
}
