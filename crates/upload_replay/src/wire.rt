//! The trace of a run, line by line.
ghost use Rattle.std.specs.Fmt.{decimal};
ghost use Rattle.std.specs.Prelude.{◌≡◌, ◌∷◌, ◌++◌, [], IfOk, OnOk};
ghost use Rattle.hex.specs.Hex.{encode_lower};
ghost use Rattle.exchange_trace.specs.Happenings.{datagram_view, happening_view};
ghost use Rattle.upload_replay.specs.Texts.{given_line, inject_line, numbered_line, post_line};
ghost use Rattle.upload_replay.specs.Texts.{side_text, spaced, step_line};
ghost use Rattle.upload_replay.specs.Texts.{upload_line, wire};

use crate::outcome::Drive;
use exchange_trace::{Datagram, Happening, Side, TraceStep};
use load_base::{Bytes, Ident, NoMemory, PartText};
use printed_text::put_number;
use std::alloc::Global;

/// The trace of a run, a line for each step. A datagram is printed with its number, the side that
/// posts it, both ports, and its payload in hexadecimal.
pub fn wire_text(alloc: Global, drive: &Drive) -> Result<Bytes, NoMemory>
    ensures { IfOk result (λ text. text.items ≡ wire drive.now.trace.items) }
{
    let mut out = Bytes::new(alloc);
    put_steps(alloc, &mut out, drive.trace.as_slice())?;
    Ok(out)
}

fn put_steps(alloc: Global, out: &mut Bytes, trace: &[TraceStep]) -> Result<(), NoMemory>
    ensures { OnOk result (out.new.items ≡ out.old.items ++ wire trace.now) }
{
    let mut left = trace;
    let mut posted = 0;
    while let Some((step, later)) = left.split_first() {
        posted += u64::from(matches!(step, TraceStep::Posted(_)));
        put_step(alloc, out, posted, step)?;
        left = later;
    }
    Ok(())
}

/// A line of the trace, after which this many datagrams are posted.
fn put_step(alloc: Global, out: &mut Bytes, posted: u64, step: &TraceStep) -> Result<(), NoMemory>
    ensures { OnOk result (out.new.items ≡ out.old.items ++ step_line posted step.now) }
{
    match step {
        TraceStep::Posted(datagram) => put_post(alloc, out, posted, datagram),
        TraceStep::Given(happening) => put_given(alloc, out, happening),
        TraceStep::Down => out.extend(b"down\n"),
        TraceStep::Up { first_port, .. } => put_numbered(alloc, out, b"up", u64::from(*first_port)),
        TraceStep::BootRefused(_) => out.extend(b"bootrefused\n"),
    }
}

#[tactic(auto, unfolding(crate::specs::Texts::post_line))]
fn put_post(
    alloc: Global,
    out: &mut Bytes,
    number: u64,
    datagram: &Datagram,
) -> Result<(), NoMemory>
    ensures { OnOk result
        (out.new.items ≡ out.old.items ++ post_line number (datagram_view datagram.now)) }
{
    out.extend(b"post ")?;
    put_number(alloc, out, number)?;
    out.extend(b" ")?;
    out.extend(letter(datagram.from_side))?;
    put_datagram(alloc, out, datagram)
}

#[tactic(auto, unfolding(crate::specs::Texts::inject_line))]
fn put_injected(alloc: Global, out: &mut Bytes, datagram: &Datagram) -> Result<(), NoMemory>
    ensures { OnOk result
        (out.new.items ≡ out.old.items ++ inject_line (datagram_view datagram.now)) }
{
    out.extend(b"inject ")?;
    out.extend(letter(datagram.from_side.other()))?;
    put_datagram(alloc, out, datagram)
}

/// The ports and the payload of a datagram, and the end of the line.
fn put_datagram(alloc: Global, out: &mut Bytes, datagram: &Datagram) -> Result<(), NoMemory>
    ensures { OnOk result
        (out.new.items ≡ out.old.items ++ (32 ∷ decimal datagram.now.from
        ++ 32 ∷ decimal datagram.now.to ++ 32 ∷ encode_lower datagram.now.bytes.items
        ++ 10 ∷ [])) }
{
    out.extend(b" ")?;
    put_number(alloc, out, u64::from(datagram.from))?;
    out.extend(b" ")?;
    put_number(alloc, out, u64::from(datagram.to))?;
    out.extend(b" ")?;
    let digits = hex::encode(alloc, datagram.bytes.as_slice())?;
    out.extend(digits.as_bytes())?;
    out.extend(b"\n")
}

fn letter(side: Side) -> &'static [u8]
    ensures { result.now ≡ side_text side }
{
    match side {
        Side::Loader => b"l",
        Side::Target => b"t",
    }
}

fn put_given(alloc: Global, out: &mut Bytes, happening: &Happening) -> Result<(), NoMemory>
    ensures { OnOk result
        (out.new.items ≡ out.old.items ++ given_line (happening_view happening.now)) }
{
    match happening {
        Happening::ToLoader(number) | Happening::ToTarget(number) => put_numbered(
            alloc, out, b"give", *number,
        ),
        Happening::Lost(number) => put_numbered(alloc, out, b"lose", *number),
        Happening::Injected(datagram) => put_injected(alloc, out, datagram),
        Happening::TickLoader => out.extend(b"tick l\n"),
        Happening::TickTarget => out.extend(b"tick t\n"),
        Happening::BlockSize(size) => put_size(alloc, out, *size),
        Happening::Power { calls, pick } => put_power(alloc, out, *calls, *pick),
        Happening::Boot => out.extend(b"boot\n"),
        Happening::StartInfo { hw, pos } => put_info(out, hw, pos),
        Happening::StartUpload { hw, pos, parts } => put_upload(out, hw, pos, parts.as_slice()),
        Happening::End => out.extend(b"end\n"),
    }
}

#[tactic(auto, unfolding(crate::specs::Texts::numbered_line))]
fn put_numbered(alloc: Global, out: &mut Bytes, word: &[u8], number: u64) -> Result<(), NoMemory>
    ensures { OnOk result (out.new.items ≡ out.old.items ++ numbered_line word.now number) }
{
    out.extend(word)?;
    out.extend(b" ")?;
    put_number(alloc, out, number)?;
    out.extend(b"\n")
}

/// 0 for none.
fn put_size(alloc: Global, out: &mut Bytes, size: Option<u16>) -> Result<(), NoMemory>
    ensures { OnOk result
        (out.new.items ≡ out.old.items ++ given_line (happening_view (Happening.BlockSize size))) }
{
    match size {
        Some(size) => {
            out.extend(b"blksize ")?;
            put_number(alloc, out, u64::from(size))?;
            out.extend(b"\n")
        }
        None => out.extend(b"blksize 0\n"),
    }
}

fn put_power(alloc: Global, out: &mut Bytes, calls: u32, pick: u32) -> Result<(), NoMemory>
    ensures { OnOk result (out.new.items
        ≡ out.old.items ++ given_line (happening_view (Happening.Power calls pick))) }
{
    out.extend(b"power ")?;
    put_number(alloc, out, u64::from(calls))?;
    out.extend(b" ")?;
    put_number(alloc, out, u64::from(pick))?;
    out.extend(b"\n")
}

fn put_info(out: &mut Bytes, hw: &Ident, pos: &Ident) -> Result<(), NoMemory>
    ensures { OnOk result (out.new.items
        ≡ out.old.items ++ given_line (happening_view (Happening.StartInfo hw.now pos.now))) }
{
    out.extend(b"start info ")?;
    put_target(out, hw, pos)?;
    out.extend(b"\n")
}

#[tactic(auto, unfolding(crate::specs::Texts::upload_line))]
fn put_upload(out: &mut Bytes, hw: &Ident, pos: &Ident, parts: &[PartText]) -> Result<(), NoMemory>
    ensures { OnOk result (out.new.items ≡ out.old.items ++ upload_line hw.now pos.now parts.now) }
{
    out.extend(b"start upload ")?;
    put_target(out, hw, pos)?;
    put_parts(out, parts)?;
    out.extend(b"\n")
}

/// The hardware and the position of a target.
fn put_target(out: &mut Bytes, hw: &Ident, pos: &Ident) -> Result<(), NoMemory>
    ensures { OnOk result (out.new.items ≡ out.old.items ++ (hw.now ++ 32 ∷ pos.now)) }
{
    out.extend(hw.as_slice())?;
    out.extend(b" ")?;
    out.extend(pos.as_slice())
}

/// Each part after a space.
#[tactic(auto, unfolding(crate::specs::Texts::spaced))]
fn put_parts(out: &mut Bytes, parts: &[PartText]) -> Result<(), NoMemory>
    ensures { OnOk result (out.new.items ≡ out.old.items ++ spaced parts.now) }
{
    for part in parts {
        out.extend(b" ")?;
        out.extend(part.as_slice())?;
    }
    Ok(())
}
