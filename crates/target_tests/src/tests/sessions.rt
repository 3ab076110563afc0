//! A target's side of sessions as another program spoke them, datagram by datagram.
ghost use Rattle.std.specs.Prelude.{◌≡◌, true, IfOk};
ghost use Rattle.bank_store.specs.DiskWrites.{IsRunning};
ghost use Rattle.disk_model.specs.MemDisk.{state_of};

use accept_rules::{Interlock, PermitsAll};
use bank_store::{Identity, format};
use disk_model::MemDisk;
use exchange_trace::Datagram;
use load_base::Ident;
use std::alloc::Global;
use std::test::Fail;
use target_machine::{Reason, RequestFault, Target};
use transfer_end::Posts;
use worked_files::{ACK_0, ACK_1, ASKS_LCI, ASKS_LCL, ASKS_LCS, LCI, LCL, LCS};

pub(crate) fn ident(bytes: &[u8]) -> Result<Ident, Fail> {
    match Ident::read(bytes) {
        Ok(ident) => Ok(ident),
        Err(_) => Err(Fail::new("no Ident")),
    }
}

/// A formatted disk without loads.
pub(crate) fn formatted(
    alloc: Global,
    hw: Ident,
    pos: Ident,
    serial: Ident,
) -> Result<MemDisk, Fail>
    ensures { IfOk result (λ disk. IsRunning (state_of disk)) }
{
    let mut disk = MemDisk::new(alloc, &[])?;
    let identity = Identity {
        hw,
        pos,
        serial,
        bank: 4096,
    };
    match format(&mut disk, &identity) {
        Ok(()) => Ok(disk),
        Err(fault) => {
            drop(disk);
            Err(Fail::from(fault))
        }
    }
}

/// What is posted: from one port to another, these bytes.
type Post<'a> = (u16, u16, &'a [u8]);

const NONE: Post<'static> = (0, 0, b"");

fn is_post(post: &Option<Datagram>, expected: Post<'_>) -> bool {
    match post {
        Some(datagram) => {
            (datagram.from, datagram.to) == (expected.0, expected.1)
                && datagram.bytes.as_slice() == expected.2
        }
        None => expected.2.is_empty(),
    }
}

fn is_posted(posts: &Posts, post: Post<'_>) -> bool {
    is_post(&posts.first, post) && is_post(&posts.second, NONE)
}

/// A datagram that comes, from one port to another, and what is posted then.
type Row<'a> = (u16, u16, &'a [u8], Post<'a>);

fn answers(target: &mut Target<'_, PermitsAll>, disk: &mut MemDisk, row: Row<'_>) -> bool
    requires { IsRunning (state_of disk.old) }
    ensures { result ≡ true → IsRunning (state_of disk.new) }
{
    match target.on_datagram(disk, row.0, row.1, row.2) {
        Ok(posts) => {
            let is_posted = is_posted(&posts, row.3);
            drop(posts);
            is_posted
        }
        refused => {
            drop(refused);
            false
        }
    }
}

/// An information session, and requests that begin none: for a file that isn't there, and from a
/// port that isn't fresh.
fn informs(target: &mut Target<'_, PermitsAll>, disk: &mut MemDisk) -> bool
    requires { IsRunning (state_of disk.old) }
    ensures { result ≡ true → IsRunning (state_of disk.new) }
{
    let foreign = b"\0\x01X.LUI\0octet\0";
    let refused = b"\0\x05\0\x01\0";
    answers(target, disk, (1024, 59, ASKS_LCI, (1024, 1024, LCI)))
        && answers(target, disk, (1024, 1024, ACK_1, (1025, 59, ASKS_LCS)))
        && answers(target, disk, (1025, 1025, ACK_0, (1025, 1025, LCS)))
        && answers(target, disk, (1025, 1025, ACK_1, (1026, 59, ASKS_LCL)))
        && answers(target, disk, (1026, 1026, ACK_0, (1026, 1026, LCL)))
        && answers(target, disk, (1026, 1026, ACK_1, NONE))
        && answers(target, disk, (1027, 59, foreign, (59, 1027, refused)))
        && answers(target, disk, (1026, 59, ASKS_LCI, NONE))
}

/// An upload up to its request, which comes last: it asks for no load, so that the upload stops.
fn uploads(target: &mut Target<'_, PermitsAll>, disk: &mut MemDisk) -> bool
    requires { IsRunning (state_of disk.old) }
{
    let asks = b"\0\x01HW1_L.LUI\0octet\0";
    let lui = b"\0\x03\0\x01\0\0\0\x09\x41\x33\0\x01\0";
    let asks_lus = b"\0\x02HW1_L.LUS\0octet\0";
    let lus = b"\0\x03\0\x01\0\0\0\x14\x41\x33\0\x01\0\0\x01\0\0\0\0000\0\0";
    let asks_lur = b"\0\x02HW1_L.LUR\0octet\0";
    let lur = b"\0\x03\0\x01\0\0\0\x08\x41\x33\0\0";
    answers(target, disk, (2000, 59, asks, (1027, 2000, lui)))
        && answers(target, disk, (2000, 1027, ACK_1, (1028, 59, asks_lus)))
        && answers(target, disk, (2001, 1028, ACK_0, (1028, 2001, lus)))
        && answers(target, disk, (2001, 1028, ACK_1, NONE))
        && answers(target, disk, (2002, 59, asks_lur, (1029, 2002, ACK_0)))
        // The acknowledgement and the next request are two datagrams.
        && !answers(target, disk, (2002, 1029, lur, NONE))
}

fn spoken(alloc: Global, disk: &mut MemDisk) -> (bool, bool, bool, bool)
    requires { IsRunning (state_of disk.old) }
{
    let interlock = Interlock::new(PermitsAll);
    match Target::boot(alloc, disk, &interlock, 1024) {
        Ok(mut target) => {
            let found = speaks(&mut target, disk);
            drop(target);
            found
        }
        refused => {
            drop(refused);
            (false, false, false, false)
        }
    }
}

fn speaks(target: &mut Target<'_, PermitsAll>, disk: &mut MemDisk) -> (bool, bool, bool, bool)
    requires { IsRunning (state_of disk.old) }
{
    let informs = informs(target, disk) && !target.waits();
    if !informs {
        return (false, false, false, false);
    }
    let uploads = uploads(target, disk);
    let refusal = RequestFault::Loads(0);
    let reason = target.last_reason() == Some(&Reason::RequestRefused { fault: refusal });
    (informs, uploads, reason, target.waits())
}

#[test]
fn sessions_go_by_their_rows(rt: HostRuntime) -> Result<(), Fail> {
    let (hw, pos, serial) = (ident(b"HW1")?, ident(b"L")?, ident(b"SN1")?);
    let mut disk = formatted(rt.alloc(), hw, pos, serial)?;
    let found = spoken(rt.alloc(), &mut disk);
    drop(disk);
    assert_eq!(rt; found, (true, true, true, true));
    Ok(())
}

/// Of a target that boots at this port: whether these datagrams are answered so, and whether its
/// last reason is that no port was left, or it has none.
fn boots_at(
    alloc: Global,
    disk: &mut MemDisk,
    first_port: u32,
    first: Row<'_>,
    second: Row<'_>,
) -> (bool, bool, bool)
    requires { IsRunning (state_of disk.old) }
{
    let interlock = Interlock::new(PermitsAll);
    match Target::boot(alloc, disk, &interlock, first_port) {
        Ok(mut target) => {
            let found = answers_both(&mut target, disk, first, second);
            drop(target);
            found
        }
        refused => {
            drop(refused);
            (false, false, false)
        }
    }
}

fn answers_both(
    target: &mut Target<'_, PermitsAll>,
    disk: &mut MemDisk,
    first: Row<'_>,
    second: Row<'_>,
) -> (bool, bool, bool)
    requires { IsRunning (state_of disk.old) }
{
    let answered = answers(target, disk, first) && answers(target, disk, second);
    let spent = target.last_reason() == Some(&Reason::PortsSpent);
    (answered, spent, target.last_reason().is_none())
}

/// The last port serves the LCI, and none is left for the LCS.
#[test]
fn a_session_ends_where_no_port_is_left(rt: HostRuntime) -> Result<(), Fail> {
    let (hw, pos, serial) = (ident(b"HW1")?, ident(b"L")?, ident(b"SN1")?);
    let mut disk = formatted(rt.alloc(), hw, pos, serial)?;
    let asks = (1024, 59, ASKS_LCI, (65_535, 1024, LCI));
    let acknowledges = (1024, 65_535, ACK_1, NONE);
    let found = boots_at(rt.alloc(), &mut disk, 65_535, asks, acknowledges);
    drop(disk);
    assert_eq!(rt; found, (true, true, false));
    Ok(())
}

/// A request that finds no port is dropped and raises no mark, so that it can come again.
#[test]
fn requests_are_dropped_where_no_port_is_left(rt: HostRuntime) -> Result<(), Fail> {
    let (hw, pos, serial) = (ident(b"HW1")?, ident(b"L")?, ident(b"SN1")?);
    let mut disk = formatted(rt.alloc(), hw, pos, serial)?;
    let asks = (1024, 59, ASKS_LCI, NONE);
    let found = boots_at(rt.alloc(), &mut disk, 65_536, asks, asks);
    drop(disk);
    assert_eq!(rt; found, (true, false, true));
    Ok(())
}
