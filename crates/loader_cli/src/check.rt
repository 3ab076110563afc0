//! The command `check`.
ghost use Rattle.std.specs.Prelude.{◌≡◌, ◌++◌, ◌∷◌, [], IfOk, OnOk};
ghost use Rattle.std.specs.List.{flat_map};
ghost use Rattle.media_check.specs.Sets.{set_view};
ghost use Rattle.printed_text.specs.Lines.{line};
ghost use Rattle.loader_cli.specs.Answers.{HidesNoFault, status_of, text_of};
ghost use Rattle.loader_cli.specs.Runs.{Checks, Finds};
ghost use Rattle.loader_cli.specs.Texts.{detail_words, finding_line};
ghost use Rattle.loader_cli.specs.Texts.{findings_text as text_of_findings};

use crate::answer::Answer;
use load_base::{Bytes, Host, NoMemory, Text};
use media_check::{Finding, MediaSet, OpenFault, open_set};
use printed_text::{put_field, put_line, put_number, put_number_field};
use std::alloc::Global;

/// What is found of the media set in this folder.
pub(crate) fn check<'w, H: Host>(
    alloc: Global,
    host: &mut H,
    folder: &'w str,
) -> Result<Answer<'w>, NoMemory>
    ensures checks { IfOk result (λ answer.
        Checks folder.now (H.files host.old) (H.faults host.old) (H.faults host.new)
        (status_of answer) (text_of answer)) }
    ensures faults { HidesNoFault status_of (H.faults host.old) (H.faults host.new) result }
    ensures kept { H.files host.new ≡ H.files host.old }
{
    let name = folder.as_bytes();
    match open_set(alloc, host, name) {
        Ok(set) => {
            let said = check_set(alloc, &set);
            // For the proof: dropped by a call, not by scope.
            drop(set);
            said
        }
        Err(OpenFault::TooLong(file)) => Ok(Answer::TooLongFile(file)),
        Err(OpenFault::TooLarge) => Ok(Answer::TooLarge(name)),
        Err(OpenFault::Failed) => Ok(Answer::HostFault),
        Err(OpenFault::Memory) => Err(NoMemory),
    }
}

fn check_set<'w>(alloc: Global, set: &MediaSet) -> Result<Answer<'w>, NoMemory>
    ensures { IfOk result (λ answer. Finds (set_view set.now) (status_of answer) (text_of answer)) }
{
    let findings = media_check::check(alloc, set)?;
    let text = findings_text(alloc, findings.as_slice())?;
    if findings.is_empty() {
        Ok(Answer::Done(text))
    } else {
        Ok(Answer::Findings(text))
    }
}

/// The findings, a line each, and their number.
#[tactic(auto, unfolding(printed_text::specs::Lines::field_line))]
fn findings_text(alloc: Global, findings: &[Finding]) -> Result<Bytes, NoMemory>
    ensures { IfOk result (λ text. text.items ≡ text_of_findings findings.now) }
{
    let mut out = Bytes::new(alloc);
    put_findings(alloc, &mut out, findings)?;
    put_number_field(alloc, &mut out, b"findings", findings.len() as u64)?;
    Ok(out)
}

fn put_findings(alloc: Global, out: &mut Bytes, findings: &[Finding]) -> Result<(), NoMemory>
    ensures { OnOk result (out.new.items ≡ out.old.items ++ flat_map finding_line findings.now) }
{
    for finding in findings {
        put_finding(alloc, out, finding)?;
    }
    Ok(())
}

#[tactic(auto, unfolding(crate::specs::Texts::finding_line))]
fn put_finding(alloc: Global, out: &mut Bytes, finding: &Finding) -> Result<(), NoMemory>
    ensures { OnOk result (out.new.items ≡ out.old.items ++ finding_line finding.now) }
{
    out.extend(b"finding M")?;
    put_number(alloc, out, u64::from(finding.kind))?;
    out.extend(b" ")?;
    put_number(alloc, out, u64::from(finding.member))?;
    out.extend(b" ")?;
    put_file(out, &finding.file, &finding.detail)
}

/// The name of the list or file, the detail where there is one, and the line's end.
#[tactic(auto, using(crate::proofs::Details::no_detail, crate::proofs::Details::some_detail))]
fn put_file(out: &mut Bytes, file: &Text, detail: &Text) -> Result<(), NoMemory>
    ensures { OnOk result
        (out.new.items ≡ out.old.items ++ line (file.now ∷ detail_words detail.now)) }
{
    let words = detail.as_slice();
    if words.is_empty() {
        put_line(out, file.as_slice(), b"")
    } else {
        put_line_of_two(out, file, words)
    }
}

#[tactic(auto, unfolding(printed_text::specs::Lines::field_line))]
fn put_line_of_two(out: &mut Bytes, file: &Text, detail: &[u8]) -> Result<(), NoMemory>
    ensures { OnOk result (out.new.items ≡ out.old.items ++ line (file.now ∷ detail.now ∷ [])) }
{
    put_field(out, file.as_slice(), detail)
}
