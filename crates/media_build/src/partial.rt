//! The lines of a recipe that were read so far, and what the next line is tested against.
ghost use Rattle.std.specs.Prelude.{◌≡◌, ◌<◌, ◌∷◌, ◌++◌, [], length, false, None, Some, IfOk, OnOk};
ghost use Rattle.std.specs.Prelude.{MatchOption};
ghost use Rattle.field_grammar.specs.Answers.{AnswersAs};
ghost use Rattle.media_build.specs.Lines.{is_used, is_whole as is_whole_at, names_in, stage_of};
ghost use Rattle.media_build.specs.Lines.{target_count, target_of};
ghost use Rattle.media_build.specs.Partials.{MayFollow, IsNewFile, IsNewName, with_parts};
ghost use Rattle.media_build.specs.Recipes.{new_place, placed_words, type_words, load_said};
ghost use Rattle.media_build.specs.Recipes.{source_words, file_said, set_line as set_words};
ghost use Rattle.media_build.specs.Recipes.{members_line as members_words, load_line as load_words};
ghost use Rattle.media_build.specs.Recipes.{hardware_line as hardware_words};
ghost use Rattle.media_build.specs.Recipes.{position_line as position_words};
ghost use Rattle.media_build.specs.Recipes.{file_line as file_words, user_line as user_words};
ghost use Rattle.media_build.specs.Recipes.{batch_line as batch_words, batch_said};
ghost use Rattle.media_build.specs.Recipes.{target_line as target_words, target_said};
ghost use Rattle.media_build.specs.Recipes.{load_part_word, load_part_words, place_words};
ghost use Rattle.media_build.specs.Recipes.{statement_said, keyword_said, words_said};
ghost use Rattle.media_build.specs.Recipes.{is_header_name as is_header, is_body_name as is_body};
ghost use Rattle.media_build.specs.Recipes.{is_batch_name as is_batch};
ghost use Rattle.media_build.specs.Recipes.{has_room as has_room_for_file};
ghost use Rattle.media_build.specs.declared.fault.RecipeFault.TheVariants.{Memory};

use crate::fault::RecipeFault;
use crate::keywords::{Keyword, Stage, is_whole, keyword_of, may_stand};
use crate::line_counts::Counts;
use crate::load_parts::LoadParts;
use crate::statements::{
    BatchLine, FileLine, LoadLine, RecipeLine, Statement, TargetLine, TargetParts, UserData,
};
use crate::words::{
    LONGEST_SOURCE, LONGEST_TEXT, ident, is_batch_name, is_body_name, is_header_name, name, number,
    part, text, user,
};
use batch_lists::{MOST_PARTS_OF_A_TARGET, MOST_TARGETS};
use indexmap::IndexSet;
use load_base::{Ident, List, Name, NoMemory, Text};
use part_number::PartNumber;
use std::alloc::Global;
use std::marker::Model;
use text_words::Pieces;

/// The most files of a set, headers too.
const MOST_FILES: usize = 1024;

/// The most data and support files of a load.
const MOST_FILES_OF_LOAD: usize = 255;

/// The lines so far. A contract sees it as their list.
#[derive(Drop)]
pub(crate) struct PartialRecipe {
    lines: List<RecipeLine>,
    // The names of all files, headers too.
    names: IndexSet<Name>,
    // The part numbers of all loads.
    parts: LoadParts,
    counts: Counts,
}

impl Model for PartialRecipe {
    ghost use Rattle.std.specs.Prelude.{List};
    ghost use Rattle.media_build.specs.declared.statements.RecipeLine.{RecipeLine};
    ghost use Rattle.media_build.specs.Partials.{KeepsCount};

    ghost Value = { List RecipeLine };

    ghost view = { λ partial. partial.lines.items };

    ghost invariant = { λ partial. KeepsCount partial.lines.items partial.names.keys partial.parts
        partial.counts };
}

impl PartialRecipe {
    /// No lines yet.
    #[tactic(auto, unfolding(crate::specs::Lines::names_of, crate::specs::Lines::members_of, crate::specs::Lines::lines_of_load, crate::specs::Lines::is_loaded, crate::specs::Lines::stage_of, crate::specs::Lines::targets_of_batch))]
    pub(crate) fn new(alloc: Global) -> PartialRecipe
        ensures { result ≡ [] }
    {
        PartialRecipe {
            lines: List::new(alloc),
            names: IndexSet::new(alloc),
            parts: LoadParts::new(alloc),
            counts: Counts {
                members: 0,
                files: 0,
                has_user: false,
                stage: Stage::Loads,
                targets: 0,
            },
        }
    }

    /// How many lines there are.
    pub(crate) fn len(&self) -> usize
        ensures { result ≡ length self.now }
    {
        self.lines.len()
    }

    /// Whether no batch is left without a target.
    pub(crate) fn is_whole(&self) -> bool
        ensures { result ≡ is_whole_at (stage_of self.now) }
    {
        is_whole(self.counts.stage)
    }

    /// The lines.
    pub(crate) fn into_lines(self) -> List<RecipeLine>
        ensures { result.items ≡ self }
    {
        self.lines
    }

    /// Reads the words of a line after those before it.
    #[tactic(auto, unfolding(crate::specs::Recipes::words_said))]
    pub(crate) fn read(
        &self,
        alloc: Global,
        line: u64,
        words: &mut Pieces,
    ) -> Result<Statement, RecipeFault>
        ensures said { AnswersAs Memory (λ statement. statement) result
            (words_said line self.now words.old) }
        ensures new { IfOk result (MayFollow self.now) }
    {
        let Some(word) = words.next() else {
            return Err(RecipeFault::Word(line));
        };
        let keyword = self.keyword(line, word)?;
        self.statement(alloc, line, keyword, words)
    }

    #[tactic(auto, unfolding(crate::specs::Recipes::keyword_said))]
    fn keyword(&self, line: u64, word: &[u8]) -> Result<Keyword, RecipeFault>
        ensures { AnswersAs Memory (λ keyword. keyword) result
            (keyword_said line self.now word.now) }
    {
        let Some(keyword) = keyword_of(word) else {
            return Err(RecipeFault::Word(line));
        };
        if may_stand(self.len(), self.counts.stage, keyword) {
            Ok(keyword)
        } else {
            Err(RecipeFault::Order(line))
        }
    }

    fn statement(
        &self,
        alloc: Global,
        line: u64,
        keyword: Keyword,
        words: &mut Pieces,
    ) -> Result<Statement, RecipeFault>
        ensures said { AnswersAs Memory (λ statement. statement) result
            (statement_said line self.now keyword words.old) }
        ensures new { IfOk result (MayFollow self.now) }
    {
        match keyword {
            Keyword::Set => Ok(Statement::Set(set_line(line, words)?)),
            Keyword::Members => Ok(Statement::Members(members_line(line, words)?)),
            Keyword::Load => Ok(Statement::Load(self.load_line(alloc, line, words)?)),
            Keyword::Hardware => Ok(Statement::Hardware(hardware_line(alloc, line, words)?)),
            Keyword::Position => {
                let (hardware, position) = position_line(alloc, line, words)?;
                Ok(Statement::Position { hardware, position })
            }
            Keyword::Data => Ok(Statement::Data(self.file_line(alloc, line, words)?)),
            Keyword::Support => Ok(Statement::Support(self.file_line(alloc, line, words)?)),
            Keyword::User => Ok(Statement::User(self.user_line(alloc, line, words)?)),
            Keyword::Batch => Ok(Statement::Batch(self.batch_line(line, words)?)),
            Keyword::Target => Ok(Statement::Target(self.target_line(alloc, line, words)?)),
        }
    }

    #[tactic(auto, unfolding(crate::specs::Recipes::load_line))]
    fn load_line(
        &self,
        alloc: Global,
        line: u64,
        words: &mut Pieces,
    ) -> Result<LoadLine, RecipeFault>
        ensures said { AnswersAs Memory (λ load. load) result (load_words line self.now words.old) }
        ensures new { IfOk result (λ load. is_used self.now load.name ≡ false) }
    {
        let Some((part, (name, member, type_id, type_name))) = words.five() else {
            return Err(RecipeFault::Word(line));
        };
        self.load(alloc, line, part, name, member, type_id, type_name)
    }

    #[tactic(auto, unfolding(crate::specs::Recipes::load_said))]
    fn load(
        &self,
        alloc: Global,
        line: u64,
        part_word: &[u8],
        name_word: &[u8],
        member_word: &[u8],
        id_word: &[u8],
        type_word: &[u8],
    ) -> Result<LoadLine, RecipeFault>
        ensures said { AnswersAs Memory (λ load. load) result (load_said line self.now part_word.now
            name_word.now member_word.now id_word.now type_word.now) }
        ensures new { IfOk result (λ load. is_used self.now load.name ≡ false) }
    {
        let part = part(line, part_word)?;
        let (name, member) = self.header_place(line, name_word, member_word)?;
        let (type_id, type_name) = type_of(alloc, line, id_word, type_word)?;
        if !self.has_room() {
            return Err(RecipeFault::Limit(line));
        }
        Ok(LoadLine {
            part,
            name,
            member,
            type_id,
            type_name,
        })
    }

    #[tactic(auto, unfolding(crate::specs::Recipes::file_line))]
    fn file_line(
        &self,
        alloc: Global,
        line: u64,
        words: &mut Pieces,
    ) -> Result<FileLine, RecipeFault>
        ensures said { AnswersAs Memory (λ file. file) result (file_words line self.now words.old) }
        ensures new { IfOk result (IsNewFile self.now) }
    {
        let Some((name, member, source, part)) = words.four() else {
            return Err(RecipeFault::Word(line));
        };
        self.file(alloc, line, name, member, source, part)
    }

    #[tactic(auto, unfolding(crate::specs::Recipes::file_said))]
    fn file(
        &self,
        alloc: Global,
        line: u64,
        name_word: &[u8],
        member_word: &[u8],
        source_word: &[u8],
        part_word: &[u8],
    ) -> Result<FileLine, RecipeFault>
        ensures said { AnswersAs Memory (λ file. file) result (file_said line self.now name_word.now
            member_word.now source_word.now part_word.now) }
        ensures new { IfOk result (IsNewFile self.now) }
    {
        let (name, member) = self.body_place(line, name_word, member_word)?;
        let (source, part) = source_of(alloc, line, source_word, part_word)?;
        if self.counts.files >= MOST_FILES_OF_LOAD || !self.has_room() {
            return Err(RecipeFault::Limit(line));
        }
        Ok(FileLine {
            name,
            member,
            source,
            part,
        })
    }

    #[tactic(auto, unfolding(crate::specs::Recipes::user_line))]
    fn user_line(
        &self,
        alloc: Global,
        line: u64,
        words: &mut Pieces,
    ) -> Result<UserData, RecipeFault>
        ensures { AnswersAs Memory (λ user. user) result (user_words line self.now words.old) }
    {
        let Some(word) = words.one() else {
            return Err(RecipeFault::Word(line));
        };
        let bytes = user(alloc, line, word)?;
        if self.counts.has_user {
            return Err(RecipeFault::Limit(line));
        }
        Ok(bytes)
    }

    #[tactic(auto, unfolding(crate::specs::Recipes::batch_line))]
    fn batch_line(&self, line: u64, words: &mut Pieces) -> Result<BatchLine, RecipeFault>
        ensures said { AnswersAs Memory (λ batch. batch) result
            (batch_words line self.now words.old) }
        ensures new { IfOk result (λ batch. is_used self.now batch.name ≡ false) }
    {
        let Some((part, name, member)) = words.three() else {
            return Err(RecipeFault::Word(line));
        };
        self.batch(line, part, name, member)
    }

    #[tactic(auto, unfolding(crate::specs::Recipes::batch_said))]
    fn batch(
        &self,
        line: u64,
        part_word: &[u8],
        name_word: &[u8],
        member_word: &[u8],
    ) -> Result<BatchLine, RecipeFault>
        ensures said { AnswersAs Memory (λ batch. batch) result
            (batch_said line self.now part_word.now name_word.now member_word.now) }
        ensures new { IfOk result (λ batch. is_used self.now batch.name ≡ false) }
    {
        let part = part(line, part_word)?;
        let (name, member) = self.batch_place(line, name_word, member_word)?;
        if !self.has_room() {
            return Err(RecipeFault::Limit(line));
        }
        Ok(BatchLine { part, name, member })
    }

    #[tactic(auto, unfolding(crate::specs::Recipes::target_line))]
    fn target_line(
        &self,
        alloc: Global,
        line: u64,
        words: &mut Pieces,
    ) -> Result<TargetLine, RecipeFault>
        ensures said { AnswersAs Memory (λ target. target) result
            (target_words line self.now words.old) }
        ensures new { IfOk result (λ target. target_count self.now < 64) }
    {
        let Some((hw, pos)) = two_before_few(words) else {
            return Err(RecipeFault::Word(line));
        };
        self.target(alloc, line, hw, pos, words)
    }

    /// The words behind the first two are the parts.
    #[tactic(auto, unfolding(crate::specs::Recipes::target_said))]
    fn target(
        &self,
        alloc: Global,
        line: u64,
        hw_word: &[u8],
        pos_word: &[u8],
        words: &mut Pieces,
    ) -> Result<TargetLine, RecipeFault>
        ensures said { AnswersAs Memory (λ target. target) result
            (target_said line self.now hw_word.now pos_word.now words.old) }
        ensures new { IfOk result (λ target. target_count self.now < 64) }
    {
        let (hw, pos) = place_of(line, hw_word, pos_word)?;
        let parts = self.load_parts(alloc, line, words)?;
        if self.counts.targets >= usize::from(MOST_TARGETS) {
            return Err(RecipeFault::Limit(line));
        }
        Ok(TargetLine { hw, pos, parts })
    }

    /// All words that are left, each the part number of a load.
    fn load_parts(
        &self,
        alloc: Global,
        line: u64,
        words: &mut Pieces,
    ) -> Result<TargetParts, RecipeFault>
        ensures { AnswersAs Memory (λ parts. parts) result
            (load_part_words line self.now words.old) }
    {
        let mut parts = TargetParts::new(alloc);
        while let Some(word) = words.next() {
            let part = self.load_part(line, word)?;
            parts = parts.with(part)?;
        }
        Ok(parts)
    }

    #[tactic(auto, unfolding(crate::specs::Recipes::load_part_word))]
    fn load_part(&self, line: u64, word: &[u8]) -> Result<PartNumber, RecipeFault>
        ensures { AnswersAs Memory (λ part. part) result (load_part_word line self.now word.now) }
    {
        let part = part(line, word)?;
        if !self.parts.contains(part) {
            return Err(RecipeFault::NotInRecipe(line));
        }
        Ok(part)
    }

    /// The name and the member of a header.
    #[tactic(auto, unfolding(crate::specs::Recipes::placed_words))]
    fn header_place(
        &self,
        line: u64,
        name_word: &[u8],
        member_word: &[u8],
    ) -> Result<(Name, u8), RecipeFault>
        ensures said { AnswersAs Memory (λ place. place) result
            (placed_words line self.now is_header name_word.now member_word.now) }
        ensures new { IfOk result (λ place. is_used self.now place.0 ≡ false) }
    {
        let name = name(line, name_word)?;
        if !is_header_name(name.as_slice()) {
            return Err(RecipeFault::Name(line));
        }
        self.place(line, name, member_word)
    }

    /// The name and the member of a data or support file.
    #[tactic(auto, unfolding(crate::specs::Recipes::placed_words))]
    fn body_place(
        &self,
        line: u64,
        name_word: &[u8],
        member_word: &[u8],
    ) -> Result<(Name, u8), RecipeFault>
        ensures said { AnswersAs Memory (λ place. place) result
            (placed_words line self.now is_body name_word.now member_word.now) }
        ensures new { IfOk result (λ place. is_used self.now place.0 ≡ false) }
    {
        let name = name(line, name_word)?;
        if !is_body_name(name.as_slice()) {
            return Err(RecipeFault::Name(line));
        }
        self.place(line, name, member_word)
    }

    /// The name and the member of a batch's file.
    #[tactic(auto, unfolding(crate::specs::Recipes::placed_words))]
    fn batch_place(
        &self,
        line: u64,
        name_word: &[u8],
        member_word: &[u8],
    ) -> Result<(Name, u8), RecipeFault>
        ensures said { AnswersAs Memory (λ place. place) result
            (placed_words line self.now is_batch name_word.now member_word.now) }
        ensures new { IfOk result (λ place. is_used self.now place.0 ≡ false) }
    {
        let name = name(line, name_word)?;
        if !is_batch_name(name.as_slice()) {
            return Err(RecipeFault::Name(line));
        }
        self.place(line, name, member_word)
    }

    /// A name, unless it is used, and the member.
    #[tactic(auto, unfolding(crate::specs::Recipes::new_place))]
    fn place(&self, line: u64, name: Name, member_word: &[u8]) -> Result<(Name, u8), RecipeFault>
        ensures said { AnswersAs Memory (λ place. place) result
            (new_place line self.now name member_word.now) }
        ensures new { IfOk result (λ place. is_used self.now place.0 ≡ false) }
    {
        if self.names.contains(&name) {
            return Err(RecipeFault::Repeated(line));
        }
        let member = number(line, member_word, 1, u16::from(self.counts.members))?;
        Ok((name, member as u8))
    }

    /// Whether the set may have one more file.
    fn has_room(&self) -> bool
        ensures { result ≡ has_room_for_file self.now }
    {
        self.names.len() < MOST_FILES
    }

    /// The lines with one more, which may follow them.
    #[tactic(auto, using(crate::proofs::Counts::new_names))]
    pub(crate) fn with(self, line: u64, statement: Statement) -> Result<PartialRecipe, NoMemory>
        requires { MayFollow self statement }
        ensures { IfOk result (λ more.
            more ≡ self ++ record { number = line; statement = statement } ∷ []) }
    {
        let PartialRecipe {
            mut lines,
            mut names,
            mut parts,
            counts,
        } = self;
        insert_name(&mut names, &statement)?;
        insert_part(&mut parts, &statement)?;
        let counts = counts.after(&statement);
        lines.push(RecipeLine {
            number: line,
            statement,
        })?;
        Ok(PartialRecipe {
            lines,
            names,
            parts,
            counts,
        })
    }
}

/// Adds the name that a line gives to a file, which is new.
fn insert_name(names: &mut IndexSet<Name>, statement: &Statement) -> Result<(), NoMemory>
    requires { IsNewName names.old.keys statement.now }
    ensures { OnOk result (names.new.keys ≡ names.old.keys ++ names_in statement.now) }
{
    match statement {
        Statement::Load(load) => {
            names.insert(load.name)?;
        }
        Statement::Data(file) => {
            names.insert(file.name)?;
        }
        Statement::Support(file) => {
            names.insert(file.name)?;
        }
        Statement::Batch(batch) => {
            names.insert(batch.name)?;
        }
        _ => {}
    }
    Ok(())
}

/// Adds the part number that a line gives to a load.
fn insert_part(parts: &mut LoadParts, statement: &Statement) -> Result<(), NoMemory>
    ensures { OnOk result (parts.new ≡ with_parts statement.now parts.old) }
{
    if let Statement::Load(load) = statement {
        parts.add(load.part)?;
    }
    Ok(())
}

/// Takes the first two words of a target's line, where 1 to 32 stand behind them.
fn two_before_few<'a>(words: &mut Pieces<'a>) -> Option<(&'a [u8], &'a [u8])>
    ensures { MatchOption result (target_of words.old ≡ None)
        (λ two. target_of words.old ≡ Some (two.0.now, two.1.now, words.new)) }
{
    let Some(first) = words.next() else {
        return None;
    };
    let Some(second) = words.next() else {
        return None;
    };
    let count = words.count();
    if count < 1 || count > usize::from(MOST_PARTS_OF_A_TARGET) {
        return None;
    }
    Some((first, second))
}

#[tactic(auto, unfolding(crate::specs::Recipes::set_line))]
fn set_line(line: u64, words: &mut Pieces) -> Result<PartNumber, RecipeFault>
    ensures { AnswersAs Memory (λ part. part) result (set_words line words.old) }
{
    let Some(word) = words.one() else {
        return Err(RecipeFault::Word(line));
    };
    part(line, word)
}

#[tactic(auto, unfolding(crate::specs::Recipes::members_line))]
fn members_line(line: u64, words: &mut Pieces) -> Result<u8, RecipeFault>
    ensures { AnswersAs Memory (λ members. members) result (members_words line words.old) }
{
    let Some(word) = words.one() else {
        return Err(RecipeFault::Word(line));
    };
    let members = number(line, word, 1, 255)?;
    Ok(members as u8)
}

#[tactic(auto, unfolding(crate::specs::Recipes::hardware_line))]
fn hardware_line(alloc: Global, line: u64, words: &mut Pieces) -> Result<Text, RecipeFault>
    ensures { AnswersAs Memory (λ hardware. hardware) result (hardware_words line words.old) }
{
    let Some(word) = words.one() else {
        return Err(RecipeFault::Word(line));
    };
    text(alloc, line, LONGEST_TEXT, word)
}

#[tactic(auto, unfolding(crate::specs::Recipes::position_line))]
fn position_line(alloc: Global, line: u64, words: &mut Pieces) -> Result<(Text, Text), RecipeFault>
    ensures { AnswersAs Memory (λ position. position) result (position_words line words.old) }
{
    let Some((id_word, position_word)) = words.two() else {
        return Err(RecipeFault::Word(line));
    };
    let hardware = text(alloc, line, LONGEST_TEXT, id_word)?;
    let position = text(alloc, line, LONGEST_TEXT, position_word)?;
    Ok((hardware, position))
}

/// The number and the name of a load's type.
#[tactic(auto, unfolding(crate::specs::Recipes::type_words))]
fn type_of(
    alloc: Global,
    line: u64,
    id_word: &[u8],
    name_word: &[u8],
) -> Result<(u16, Text), RecipeFault>
    ensures { AnswersAs Memory (λ kind. kind) result (type_words line id_word.now name_word.now) }
{
    let id = number(line, id_word, 0, u16::MAX)?;
    let name = text(alloc, line, LONGEST_TEXT, name_word)?;
    Ok((id, name))
}

/// The source of a file and its part.
#[tactic(auto, unfolding(crate::specs::Recipes::source_words))]
fn source_of(
    alloc: Global,
    line: u64,
    source_word: &[u8],
    part_word: &[u8],
) -> Result<(Text, Text), RecipeFault>
    ensures { AnswersAs Memory (λ origin. origin) result
        (source_words line source_word.now part_word.now) }
{
    let source = text(alloc, line, LONGEST_SOURCE, source_word)?;
    let part = text(alloc, line, LONGEST_TEXT, part_word)?;
    Ok((source, part))
}

/// The hardware and the position of a target.
#[tactic(auto, unfolding(crate::specs::Recipes::place_words))]
fn place_of(line: u64, hw_word: &[u8], pos_word: &[u8]) -> Result<(Ident, Ident), RecipeFault>
    ensures { AnswersAs Memory (λ place. place) result (place_words line hw_word.now pos_word.now) }
{
    let hw = ident(line, hw_word)?;
    let pos = ident(line, pos_word)?;
    Ok((hw, pos))
}
