//! Links of fleets that follow their scripts (docs/FORMATS.md, "Script of a fleet").
ghost use Rattle.std.specs.Prelude.{◌≡◌};

use exchange_trace::{Datagram, Happening, Side};
use fleet_link::{FleetLink, FleetScript};
use fleet_trace::FleetHappening;
use link_net::Waits;
use load_base::{Bytes, NoMemory};
use std::alloc::Global;

/// What a link of two units is asked, a letter each: `l` and `t`, the loader or the target posts a
/// datagram at unit 1, and `m` and `u` at unit 2; any other letter, what happens next.
fn asked(alloc: Global, link: &mut FleetLink, asked: &[u8]) -> Result<Bytes, NoMemory>
    requires { link.old.units ≡ 2 }
{
    let mut given = Bytes::new(alloc);
    for letter in asked {
        match *letter {
            b'l' => link.post(1, datagram(alloc, Side::Loader))?,
            b't' => link.post(1, datagram(alloc, Side::Target))?,
            b'm' => link.post(2, datagram(alloc, Side::Loader))?,
            b'u' => link.post(2, datagram(alloc, Side::Target))?,
            letter => given.extend(&next(link, letter)?)?,
        }
    }
    Ok(given)
}

/// `A` and `B`: the loader or the target of unit 1 waits, `C` and `D`: that of unit 2, `E`: all do;
/// `P` and `Q`: none does, or all do, and an upload may be asked.
fn next(link: &mut FleetLink, letter: u8) -> Result<[u8; 3], NoMemory>
    requires { link.old.units ≡ 2 }
    ensures { link.new.units ≡ 2 }
{
    let all = letter == b'E' || letter == b'Q';
    let waits = [
        Waits {
            loader: all || letter == b'A',
            target: all || letter == b'B',
        },
        Waits {
            loader: all || letter == b'C',
            target: all || letter == b'D',
        },
    ];
    let happening = link.next(&waits, letter == b'P' || letter == b'Q')?;
    let shown = shown(&happening);
    drop(happening);
    Ok(shown)
}

fn datagram(alloc: Global, from_side: Side) -> Datagram {
    Datagram {
        from_side,
        from: 1024,
        to: 59,
        bytes: Bytes::new(alloc),
    }
}

/// A happening as three characters: the unit's number, and then `l` or `t` and the unit's own
/// number of the datagram that goes there, `x` and that of one that is lost, `tl` and `tt` for
/// ticks, `si` for a session that starts, `bt` for a boot, and `--` for what else happens; or `bat`
/// for a batch and `ask` for an upload that is asked.
fn shown(happening: &FleetHappening) -> [u8; 3] {
    match happening {
        FleetHappening::At { unit, happening } => {
            let [first, second] = shown_at(happening);
            [unit.saturating_add(b'0'), first, second]
        }
        FleetHappening::Batch(_) => *b"bat",
        FleetHappening::AskNext => *b"ask",
        FleetHappening::End => *b"...",
    }
}

fn shown_at(happening: &Happening) -> [u8; 2] {
    match happening {
        Happening::ToLoader(number) => [b'l', digit(*number)],
        Happening::ToTarget(number) => [b't', digit(*number)],
        Happening::Lost(number) => [b'x', digit(*number)],
        Happening::TickLoader => *b"tl",
        Happening::TickTarget => *b"tt",
        Happening::StartInfo { .. } => *b"si",
        Happening::Boot => *b"bt",
        _ => *b"--",
    }
}

fn digit(number: u64) -> u8 {
    match u8::try_from(number) {
        Ok(number) => number.saturating_add(b'0'),
        Err(_) => b'?',
    }
}

fn followed_is(alloc: Global, script: &[u8], steps: &[u8], given: &[u8]) -> bool {
    let Some(script) = FleetScript::read(alloc, script, 2).ok() else {
        return false;
    };
    let mut link = FleetLink::new(alloc, script);
    let found = asked(alloc, &mut link, steps);
    drop(link);
    match found {
        Ok(found) => found.as_slice() == given,
        Err(_) => false,
    }
}

const FOLLOWED: [(&[u8], &[u8], &[u8]); 15] = [
    // Two information sessions at once: the least number over all units first.
    (
        b"at 1 info HW1 L\nat 2 info HW1 R\nfinish\n",
        b"NlNmEtEuElEmEEE",
        b"1si2si1t12t11l22l21t32t31tl",
    ),
    // A datagram's number goes over all units, and is told by the unit's own.
    (b"lose 2\ngive 3\n", b"lmtNNN", b"2x11l2..."),
    (
        b"give 2\ngive 2\nlose 2\nlose 1\nlose 1\ngive 1\n",
        b"lmNNNNNN",
        b"2t12t11x11x11t1...",
    ),
    (b"next 3\n", b"mlluNNNN", b"2t11t11t2..."),
    (b"next 2\nnext 1\n", b"mNlNuN", b"2t11t12l2"),
    // The least unit with a side that waits is ticked, by its own turn.
    (b"finish\n", b"EEEEN", b"1tl1tt1tl1tt..."),
    (b"finish\n", b"ACEDEN", b"1tl2tl1tt2tt1tl..."),
    (b"finish\n", b"DDBN", b"2tt2tt1tt..."),
    // Nobody is ticked where anything is undelivered at any unit.
    (b"finish\n", b"EmEEN", b"1tl2t11tt..."),
    // Each `finish` begins with the loader at every unit.
    (b"finish\nat 2 boot\nfinish\n", b"ECNEN", b"1tl2tl2bt1tl..."),
    (
        b"at 1 tick target\n\n# late\nat 2 tick loader",
        b"NNNN",
        b"1tt2tl......",
    ),
    (b"at 2 power 0 0\nat 1 boot\nfinish\n", b"NNN", b"2--1bt..."),
    // An upload is asked only where it may be.
    (
        b"batch ABC43-0000-0003\nasknext\nasknext\nat 1 boot\n",
        b"NPNN",
        b"batask1bt...",
    ),
    // `finishbatch` asks, finishes, and asks again; where none may be asked it finishes nothing.
    (
        b"finishbatch\nat 2 boot\n",
        b"QlQEPNN",
        b"ask1t11tlask2bt...",
    ),
    (b"finishbatch\n", b"lEN", b"......"),
];

#[test]
fn scripts_of_fleets_are_followed(rt: HostRuntime) {
    for &(script, steps, given) in &FOLLOWED {
        assert_eq!(rt; followed_is(rt.alloc(), script, steps, given), true);
    }
}
