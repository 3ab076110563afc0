//! What is counted of the lines of a recipe so far.
ghost use Rattle.std.specs.Prelude.{◌≡◌, ◌≤◌};
ghost use Rattle.media_build.specs.Lines.{given, members_in, stage_after as stage_said};
ghost use Rattle.media_build.specs.Partials.{count_files, count_targets, counts_after};
ghost use Rattle.media_build.specs.Partials.{keeps_user};

use crate::keywords::Stage;
use crate::statements::Statement;

/// What of the lines so far the next line is tested against, but for names and part numbers.
#[derive(Clone, Copy)]
pub(crate) struct Counts {
    /// How many members the set has.
    pub(crate) members: u8,
    /// How many data and support files the last load has, and whether it has user data.
    pub(crate) files: usize,
    pub(crate) has_user: bool,
    /// What the lines end with.
    pub(crate) stage: Stage,
    /// How many targets the last batch has.
    pub(crate) targets: usize,
}

impl Counts {
    /// The same after one more line.
    pub(crate) fn after(self, statement: &Statement) -> Counts
        requires files { self.files ≤ 255 }
        requires targets { self.targets ≤ 64 }
        ensures { result ≡ counts_after statement.now self }
    {
        Counts {
            members: members_after(statement, self.members),
            files: files_after(statement, self.files),
            has_user: has_user_after(statement, self.has_user),
            stage: stage_after(statement),
            targets: targets_after(statement, self.targets),
        }
    }
}

/// How many members there are after this line.
fn members_after(statement: &Statement, members: u8) -> u8
    ensures { result ≡ given (members_in statement.now) members }
{
    match statement {
        Statement::Members(count) => *count,
        _ => members,
    }
}

/// How many files the last load has after this line.
fn files_after(statement: &Statement, files: usize) -> usize
    requires { files ≤ 255 }
    ensures { result ≡ count_files statement.now files }
{
    match statement {
        Statement::Load(_) => 0,
        Statement::Data(_) => files + 1,
        Statement::Support(_) => files + 1,
        _ => files,
    }
}

/// Whether the last load has user data after this line.
fn has_user_after(statement: &Statement, has_user: bool) -> bool
    ensures { result ≡ keeps_user statement.now has_user }
{
    match statement {
        Statement::Load(_) => false,
        Statement::User(_) => true,
        _ => has_user,
    }
}

/// What lines end with whose last one says this.
fn stage_after(statement: &Statement) -> Stage
    ensures { result ≡ stage_said statement.now }
{
    match statement {
        Statement::Batch(_) => Stage::Batch,
        Statement::Target(_) => Stage::Targets,
        _ => Stage::Loads,
    }
}

/// How many targets the last batch has after this line.
fn targets_after(statement: &Statement, targets: usize) -> usize
    requires { targets ≤ 64 }
    ensures { result ≡ count_targets statement.now targets }
{
    match statement {
        Statement::Target(_) => targets + 1,
        _ => 0,
    }
}
