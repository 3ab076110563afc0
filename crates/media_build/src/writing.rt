//! Writing a built set into a folder of the host.
ghost use Rattle.std.specs.Prelude.{◌≡◌, ◌+◌, ◌∷◌, ◌++◌, ◌≤◌, [], length, codes, option_map};
ghost use Rattle.std.specs.Option.{ForSome};
ghost use Rattle.load_base.specs.Sink.{HasWriteCause};
ghost use Rattle.media_build.specs.HostWrites.{WritesToHost, written_files, written_member};
ghost use Rattle.media_build.specs.HostWrites.{written_list};
ghost use Rattle.media_build.specs.HostWrites.{written_bodies};
ghost use Rattle.media_build.specs.NoFindings.{built_view};
ghost use Rattle.media_build.specs.WrittenFolders.{IsNameIn, KeepsAllBut};
ghost use Rattle.media_check.specs.BuiltSets.{member_list};
ghost use Rattle.media_check.specs.HostNames.{host_name};

use arrayvec::ArrayVec;
use itoa::Buffer;
use load_base::{Bytes, Host, Name, WriteFault};
use media_check::{Built, Placed};

/// More bytes than a host's name has: 150 of a folder, two slashes, at most 20
/// digits and 64 of a file's name.
const LONGEST_NAME: usize = 256;

/// Writes a set into this folder of the host, member by member: `LOADS.LUM`, `FILES.LUM`,
/// `BATCHES.LUM` if the set has one, and the member's files in the order of the set
/// (docs/FORMATS.md). Where the host fails at a file, those before it were written, that one may
/// have anything, and the others are as they were. Where the host is out of memory, that one is as
/// it was too. It takes no memory of its own.
#[tactic(auto, unfolding(crate::specs::HostWrites::written_files))]
pub fn write<H: Host>(host: &mut H, folder: &[u8], built: &Built) -> Result<(), WriteFault>
    requires { length folder.now ≤ 150 }
    ensures files { WritesToHost (written_files folder.now built.now)
        (H.files host.old) (H.files host.new) result }
    // Whatever it answers, no other name is set.
    ensures others { ForSome (H.files host.old) (λ old.
        KeepsAllBut (IsNameIn folder.now (built_view built.now)) old (H.files host.new)) }
    ensures cause { HasWriteCause (H.faults host.old) (H.faults host.new) result }
{
    let count = built.loads.len();
    for index in 0..count {
        write_member(host, folder, 1 + index, built)?;
    }
    Ok(())
}

/// The lists of a member, and its files.
#[tactic(auto, unfolding(crate::specs::HostWrites::written_member))]
fn write_member<H: Host>(
    host: &mut H,
    folder: &[u8],
    member: usize,
    built: &Built,
) -> Result<(), WriteFault>
    requires folder { length folder.now ≤ 150 }
    requires member { 1 ≤ member }
    ensures files { WritesToHost (written_member folder.now built.now member)
        (H.files host.old) (H.files host.new) result }
    ensures cause { HasWriteCause (H.faults host.old) (H.faults host.new) result }
{
    let loads = list_of(built.loads.as_slice(), member);
    write_list(host, folder, member, b"LOADS.LUM", loads)?;
    let files = list_of(built.files.as_slice(), member);
    write_list(host, folder, member, b"FILES.LUM", files)?;
    let batches = list_of(built.batches.as_slice(), member);
    write_list(host, folder, member, b"BATCHES.LUM", batches)?;
    write_bodies(host, folder, member, built.bodies.as_slice())
}

/// The list of this member, where there is one.
fn list_of(lists: &[Bytes], member: usize) -> Option<&[u8]>
    requires { 1 ≤ member }
    ensures { option_map (λ list. list.now) result ≡ member_list lists.now member }
{
    match lists.get(member - 1) {
        Some(list) => Some(list.as_slice()),
        None => None,
    }
}

fn write_list<H: Host>(
    host: &mut H,
    folder: &[u8],
    member: usize,
    name: &[u8],
    list: Option<&[u8]>,
) -> Result<(), WriteFault>
    requires folder { length folder.now ≤ 150 }
    requires name { length name.now ≤ 64 }
    ensures files { WritesToHost (written_list (host_name folder.now member (codes "\\") name.now)
        (option_map (λ bytes. bytes.now) list.entry)) (H.files host.old) (H.files host.new) result }
    ensures cause { HasWriteCause (H.faults host.old) (H.faults host.new) result }
{
    match list {
        Some(bytes) => write_file(host, folder, member, name, bytes),
        None => Ok(()),
    }
}

/// The files of a member.
fn write_bodies<H: Host>(
    host: &mut H,
    folder: &[u8],
    member: usize,
    bodies: &[Placed],
) -> Result<(), WriteFault>
    requires { length folder.now ≤ 150 }
    ensures files { WritesToHost (written_bodies folder.now member bodies.now)
        (H.files host.old) (H.files host.new) result }
    ensures cause { HasWriteCause (H.faults host.old) (H.faults host.new) result }
{
    for body in bodies {
        write_body(host, folder, member, body)?;
    }
    Ok(())
}

/// A file, if it is one of this member.
fn write_body<H: Host>(
    host: &mut H,
    folder: &[u8],
    member: usize,
    body: &Placed,
) -> Result<(), WriteFault>
    requires { length folder.now ≤ 150 }
    ensures files { WritesToHost (written_bodies folder.now member (body.now ∷ []))
        (H.files host.old) (H.files host.new) result }
    ensures cause { HasWriteCause (H.faults host.old) (H.faults host.new) result }
{
    if usize::from(body.member) != member {
        return Ok(());
    }
    write_file(
        host,
        folder,
        member,
        name_of(&body.name),
        body.bytes.as_slice(),
    )
}

fn name_of(name: &Name) -> &[u8]
    ensures bytes { result.now ≡ name.now }
    ensures short { length result.now ≤ 64 }
{
    name.as_slice()
}

/// A file in a member's own folder.
fn write_file<H: Host>(
    host: &mut H,
    folder: &[u8],
    member: usize,
    name: &[u8],
    bytes: &[u8],
) -> Result<(), WriteFault>
    requires folder { length folder.now ≤ 150 }
    requires name { length name.now ≤ 64 }
    ensures files { WritesToHost ((host_name folder.now member (codes "\\") name.now, bytes.now) ∷ [])
        (H.files host.old) (H.files host.new) result }
    ensures cause { HasWriteCause (H.faults host.old) (H.faults host.new) result }
{
    let whole = whole_name(folder, member, name);
    host.write(whole.as_slice(), bytes)
}

/// The host's name of a file in a member's own folder.
#[tactic(auto, unfolding(media_check::specs::HostNames::host_name))]
fn whole_name(folder: &[u8], member: usize, name: &[u8]) -> ArrayVec<u8, LONGEST_NAME>
    requires folder { length folder.now ≤ 150 }
    requires name { length name.now ≤ 64 }
    ensures { result.items ≡ host_name folder.now member (codes "\\") name.now }
{
    let mut whole = ArrayVec::new();
    let mut digits = Buffer::new();
    put(&mut whole, folder);
    put(&mut whole, b"/");
    put(&mut whole, digits.format(member).as_bytes());
    put(&mut whole, b"/");
    put(&mut whole, name);
    whole
}

/// Adds bytes, for which there is room.
fn put(whole: &mut ArrayVec<u8, LONGEST_NAME>, bytes: &[u8])
    requires { length whole.old.items + length bytes.now ≤ 256 }
    ensures { whole.new.items ≡ whole.old.items ++ bytes.now }
{
    let _ = whole.try_extend_from_slice(bytes);
}
