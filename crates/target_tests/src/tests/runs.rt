//! What runs come to, by the calls that fail.
ghost use Rattle.std.specs.Prelude.{◌≡◌, [], true, IfOk};
ghost use Rattle.bank_store.specs.DiskWrites.{IsRunning};
ghost use Rattle.disk_model.specs.MemDisk.{state_of};
ghost use Rattle.disk_model.specs.Fused.{state_of as fused_in};
ghost use Rattle.link_net.specs.FailLink.{link_in};

use accept_rules::{Interlock, PermitsAll};
use bank_store::format;
use disk_layout::Identity;
use disk_model::{Fused, MemDisk};
use link_net::{FailLink, Script, ScriptLink};
use load_base::{Ident, MemHost};
use media_check::{MediaSet, open_set};
use session_rules::Outcome;
use std::alloc::Global;
use std::test::Fail;
use upload_replay::{Drive, DriveFault, drive};

fn ident(bytes: &[u8]) -> Result<Ident, Fail> {
    match Ident::read(bytes) {
        Ok(ident) => Ok(ident),
        Err(_) => Err(Fail::new("no Ident")),
    }
}

/// A set without lists.
fn no_media(alloc: Global) -> Result<MediaSet, Fail> {
    let mut host = MemHost::new(alloc);
    let opened = open_set(alloc, &mut host, b"P");
    drop(host);
    match opened {
        Ok(set) => Ok(set),
        Err(fault) => {
            drop(fault);
            Err(Fail::new("the set wasn't opened"))
        }
    }
}

/// A disk of zeros that was formatted, by nine calls.
fn formatted(alloc: Global) -> Result<MemDisk, Fail>
    ensures running { IfOk result (λ disk. IsRunning (state_of disk)) }
    ensures steady { IfOk result (λ disk. (state_of disk).steady ≡ true) }
{
    let identity = Identity {
        hw: ident(b"HW1")?,
        pos: ident(b"L")?,
        serial: ident(b"SN1")?,
        bank: 4096,
    };
    let mut disk = MemDisk::new(alloc, &[])?;
    match format(&mut disk, &identity) {
        Ok(()) => Ok(disk),
        Err(fault) => {
            drop(disk);
            Err(Fail::from(fault))
        }
    }
}

/// A link to which nothing was posted, of which this call fails.
pub(crate) fn link_of(alloc: Global, script: &[u8], call: u32) -> Result<FailLink, Fail>
    ensures { IfOk result (λ link. (link_in link).posted ≡ []) }
{
    let script = Script::read(alloc, script)?;
    let mut link = FailLink::new(alloc, ScriptLink::new(alloc, script));
    match link.fail_at(call) {
        Ok(()) => Ok(link),
        Err(fault) => {
            drop(link);
            Err(Fail::from(fault))
        }
    }
}

/// A letter for what a run came to: the outcome of its first session, or why there is no run; and
/// one for whether the configuration at the end is known.
pub(crate) fn letters(run: &Result<Drive, DriveFault>) -> [u8; 2] {
    match run {
        Ok(run) => [
            outcome(run),
            if run.standing.is_some() { b'k' } else { b'u' },
        ],
        Err(DriveFault::Link) => *b"l-",
        Err(DriveFault::Disk) => *b"d-",
        Err(DriveFault::NoConfig(_)) => *b"n-",
        Err(DriveFault::Memory) => *b"m-",
    }
}

fn outcome(run: &Drive) -> u8 {
    match run.sessions.as_slice().first() {
        Some(session) => match &session.outcome {
            Outcome::Completed => b'c',
            Outcome::TargetStopped(_) => b's',
            Outcome::PeerError(_) => b'p',
            Outcome::Replaced => b'r',
            Outcome::Open => b'o',
            _ => b'?',
        },
        None => b'0',
    }
}

/// The run of a script where this call of the link and this one of the disk fail.
fn run_failing(alloc: Global, script: &[u8], link: u32, disk: u32) -> Result<[u8; 2], Fail> {
    let mut link = link_of(alloc, script, link)?;
    let found = run_over(alloc, &mut link, disk);
    drop(link);
    found
}

fn run_over(alloc: Global, link: &mut FailLink, call: u32) -> Result<[u8; 2], Fail>
    requires { (link_in link.old).posted ≡ [] }
{
    let mut disk = failing(alloc, call)?;
    let found = run_on(alloc, link, &mut disk);
    drop(disk);
    found
}

/// The disk of a target, of which this call fails.
fn failing(alloc: Global, call: u32) -> Result<Fused<MemDisk>, Fail>
    ensures { IfOk result (λ disk. IsRunning (fused_in state_of disk)) }
{
    let mut disk = formatted(alloc)?;
    match disk.fail_at(call) {
        Ok(()) => Ok(Fused::new(disk)),
        Err(fault) => {
            drop(disk);
            Err(Fail::from(fault))
        }
    }
}

fn run_on(alloc: Global, link: &mut FailLink, disk: &mut Fused<MemDisk>) -> Result<[u8; 2], Fail>
    requires posted { (link_in link.old).posted ≡ [] }
    requires running { IsRunning (fused_in state_of disk.old) }
{
    let media = no_media(alloc)?;
    let interlock = Interlock::new(PermitsAll);
    let run = drive(alloc, link, disk, &media, &interlock);
    drop(media);
    let letters = letters(&run);
    drop(run);
    Ok(letters)
}

const INFORMATION: &[u8] = b"info HW1 L\nfinish\n";

const RUNS: [(&[u8], u32, u32, &[u8; 2]); 16] = [
    (INFORMATION, 0, 0, b"ck"),
    (b"", 0, 0, b"0k"),
    (b"info HW2 L\nfinish\n", 0, 0, b"pk"),
    (b"info HW1 L\ninfo HW1 L\nfinish\n", 0, 0, b"rk"),
    (b"info HW1 L\n", 0, 0, b"ok"),
    (
        b"power 0 3\ninfo HW1 L\nnext 1\nboot\nfinish\n",
        0,
        0,
        b"ck",
    ),
    (b"power 0 3\ninfo HW1 L\n", 0, 0, b"ok"),
    (b"power 4 0\n", 0, 0, b"0u"),
    (b"power 5 0\n", 0, 0, b"0k"),
    (INFORMATION, 1, 0, b"l-"),
    (INFORMATION, 24, 0, b"l-"),
    (INFORMATION, 25, 0, b"ck"),
    (INFORMATION, 0, 10, b"d-"),
    (INFORMATION, 0, 13, b"d-"),
    (INFORMATION, 0, 14, b"cu"),
    (INFORMATION, 0, 17, b"cu"),
];

/// The target comes up by four reads, the calls 10 to 13 of the disk, and the configuration at the
/// end is recovered by four more. The link is asked 13 times for what happens, and posted eleven
/// datagrams.
#[test]
fn a_run_or_the_cause_why_there_is_none(rt: HostRuntime) -> Result<(), Fail> {
    for &(script, link, disk, wanted) in &RUNS {
        let said = run_failing(rt.alloc(), script, link, disk)?;
        assert_eq!(rt;
            said.as_slice(),
            wanted.as_slice(),
            "link {link} disk {disk}"
        );
    }
    Ok(())
}

fn run_over_zeros(alloc: Global, link: &mut FailLink) -> Result<[u8; 2], Fail>
    requires { (link_in link.old).posted ≡ [] }
{
    let mut disk = Fused::new(MemDisk::new(alloc, &[])?);
    let found = run_on(alloc, link, &mut disk);
    drop(disk);
    found
}

#[test]
fn a_disk_of_zeros_holds_no_configuration(rt: HostRuntime) -> Result<(), Fail> {
    let mut link = link_of(rt.alloc(), INFORMATION, 0)?;
    let found = run_over_zeros(rt.alloc(), &mut link);
    drop(link);
    assert_eq!(rt; found?, *b"n-");
    Ok(())
}
