//! The run of an information session on an empty target, as another program printed it.
ghost use Rattle.std.specs.Prelude.{IfOk, IsSome};

use disk_layout::{Identity, Standing};
use exchange_trace::{Datagram, Happening, Side, TraceStep};
use load_base::{Bytes, Config, Ident, List, NoMemory, PartText, Text};
use load_protocol_files::{Hardware, Lcl};
use loader_machine::Session;
use session_rules::{Outcome, SessionKind};
use std::alloc::Global;
use std::test::Fail;
use upload_replay::{Drive, report_text, wire_text};

fn ident(bytes: &[u8]) -> Result<Ident, Fail> {
    match Ident::read(bytes) {
        Ok(ident) => Ok(ident),
        Err(_) => Err(Fail::new("no Ident")),
    }
}

/// Each datagram by its side, its ports and its payload; each is delivered as soon as it is posted.
const POSTS: [(Side, u16, u16, &[u8]); 11] = [
    (Side::Loader, 1024, 59, b"\0\x01HW1_L.LCI\0octet\0"),
    (
        Side::Target,
        1024,
        1024,
        b"\0\x03\0\x01\0\0\0\x09\x41\x33\0\x01\0",
    ),
    (Side::Loader, 1024, 1024, b"\0\x04\0\x01"),
    (Side::Target, 1025, 59, b"\0\x02HW1_L.LCS\0octet\0"),
    (Side::Loader, 1025, 1025, b"\0\x04\0\0"),
    (
        Side::Target,
        1025,
        1025,
        b"\0\x03\0\x01\0\0\0\x0F\x41\x33\0\x01\0\x02\0\0\0\0\0",
    ),
    (Side::Loader, 1025, 1025, b"\0\x04\0\x01"),
    (Side::Target, 1026, 59, b"\0\x02HW1_L.LCL\0octet\0"),
    (Side::Loader, 1026, 1026, b"\0\x04\0\0"),
    (
        Side::Target,
        1026,
        1026,
        b"\0\x03\0\x01\0\0\0\x12\x41\x33\0\x01\x03HW1\x03SN1\0\0",
    ),
    (Side::Loader, 1026, 1026, b"\0\x04\0\x01"),
];

fn posted(
    alloc: Global,
    from_side: Side,
    from: u16,
    to: u16,
    payload: &[u8],
) -> Result<TraceStep, NoMemory> {
    let mut bytes = Bytes::new(alloc);
    bytes.extend(payload)?;
    Ok(TraceStep::Posted(Datagram {
        from_side,
        from,
        to,
        bytes,
    }))
}

fn put_trace(alloc: Global, trace: &mut List<TraceStep>) -> Result<(), Fail> {
    let (hw, pos) = (ident(b"HW1")?, ident(b"L")?);
    trace.push(TraceStep::Given(Happening::StartInfo { hw, pos }))?;
    let mut number = 0u64;
    for (side, from, to, payload) in &POSTS {
        number = number.saturating_add(1);
        trace.push(posted(alloc, *side, *from, *to, payload)?)?;
        trace.push(TraceStep::Given(match side {
            Side::Loader => Happening::ToTarget(number),
            Side::Target => Happening::ToLoader(number),
        }))?;
    }
    trace.push(TraceStep::Given(Happening::End))?;
    Ok(())
}

/// A run with the target as it is at the end, of which nothing is told yet.
fn empty_run(alloc: Global) -> Result<Drive, Fail>
    ensures { IfOk result (λ drive. IsSome drive.standing) }
{
    let standing = standing(alloc)?;
    Ok(Drive {
        trace: List::new(alloc),
        sessions: List::new(alloc),
        standing: Some(standing),
    })
}

/// Its session.
fn session(alloc: Global) -> Result<Session, Fail> {
    let listed = listed(alloc)?;
    Ok(Session {
        kind: SessionKind::Info,
        outcome: Outcome::Completed,
        listed: Some(listed),
    })
}

fn listed(alloc: Global) -> Result<Lcl, Fail> {
    let (name, serial) = (ident(b"HW1")?, ident(b"SN1")?);
    let mut hardware = List::new(alloc);
    hardware.push(Hardware {
        name: Text::of_ident(alloc, &name)?,
        serial: Text::of_ident(alloc, &serial)?,
        parts: List::new(alloc),
    })?;
    Ok(Lcl { hardware })
}

fn standing(alloc: Global) -> Result<Standing, Fail> {
    Ok(Standing {
        identity: Identity {
            hw: ident(b"HW1")?,
            pos: ident(b"L")?,
            serial: ident(b"SN1")?,
            bank: 4096,
        },
        bank: 0,
        sequence: 1,
        config: Config {
            loads: List::new(alloc),
        },
    })
}

const WIRE: &[u8] = b"start info HW1 L
post 1 l 1024 59 00014857315f4c2e4c4349006f6374657400
give 1
post 2 t 1024 1024 00030001000000094133000100
give 2
post 3 l 1024 1024 00040001
give 3
post 4 t 1025 59 00024857315f4c2e4c4353006f6374657400
give 4
post 5 l 1025 1025 00040000
give 5
post 6 t 1025 1025 000300010000000f4133000100020000000000
give 6
post 7 l 1025 1025 00040001
give 7
post 8 t 1026 59 00024857315f4c2e4c434c006f6374657400
give 8
post 9 l 1026 1026 00040000
give 9
post 10 t 1026 1026 0003000100000012413300010348573103534e310000
give 10
post 11 l 1026 1026 00040001
give 11
end
";

const REPORT: &[u8] = b"session 1 info completed
hardware HW1 SN1
datagrams 11
target HW1 L SN1
bank 0 sequence 1
loads 0
";

/// Tells the run, and gives its report and its trace.
fn texts(alloc: Global, run: &mut Drive) -> Result<(Bytes, Bytes), Fail>
    requires { IsSome run.old.standing }
{
    put_trace(alloc, &mut run.trace)?;
    run.sessions.push(session(alloc)?)?;
    let report = report_text(alloc, run)?;
    Ok((report, wire_text(alloc, run)?))
}

#[test]
fn a_run_has_its_report_and_its_trace(rt: HostRuntime) -> Result<(), Fail> {
    let mut run = empty_run(rt.alloc())?;
    let texts = texts(rt.alloc(), &mut run);
    drop(run);
    let (report, wire) = texts?;
    assert_eq!(rt; report.as_slice(), REPORT);
    assert_eq!(rt; wire.as_slice(), WIRE);
    Ok(())
}
