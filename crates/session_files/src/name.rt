//! The names of protocol files.
ghost use Rattle.std.specs.Prelude.{◌≡◌, ◌+◌, ◌≤◌, ◌++◌, length};
ghost use Rattle.session_rules.specs.FileNames.{extension as extension_of, file_name as name_of};

use arrayvec::ArrayVec;
use load_base::{Ident, Name};
use session_rules::FileKind;

/// The bytes of the longest of these names, with 20 of each Ident.
const MOST_BYTES: usize = 45;

/// The name of the protocol file of this kind at the target with this hardware and position, as in
/// `HW1_L.LUI`. It takes no memory.
#[tactic(auto, using(crate::proofs::Names::is_name))]
pub fn file_name(hw: &Ident, pos: &Ident, kind: FileKind) -> Name
    ensures { result ≡ name_of hw.now pos.now kind }
{
    let bytes = name_bytes(hw.as_slice(), pos.as_slice(), kind);
    match Name::read(bytes.as_slice()) {
        Ok(name) => name,
        // The names of a session's files are names.
        Err(_) => unreachable!(),
    }
}

#[tactic(auto, unfolding(session_rules::specs::FileNames::file_name))]
fn name_bytes(hw: &[u8], pos: &[u8], kind: FileKind) -> ArrayVec<u8, MOST_BYTES>
    requires hw { length hw.now ≤ 20 }
    requires pos { length pos.now ≤ 20 }
    ensures { result.items ≡ name_of hw.now pos.now kind }
{
    let mut bytes = ArrayVec::new();
    put(&mut bytes, hw);
    put(&mut bytes, b"_");
    put(&mut bytes, pos);
    put(&mut bytes, extension(kind));
    bytes
}

/// Adds bytes, for which there is room.
fn put(bytes: &mut ArrayVec<u8, MOST_BYTES>, more: &[u8])
    requires { length bytes.old.items + length more.now ≤ 45 }
    ensures { bytes.new.items ≡ bytes.old.items ++ more.now }
{
    let _ = bytes.try_extend_from_slice(more);
}

fn extension(kind: FileKind) -> &'static [u8]
    ensures { result.now ≡ extension_of kind }
{
    match kind {
        FileKind::Lci => b".LCI",
        FileKind::Lcl => b".LCL",
        FileKind::Lcs => b".LCS",
        FileKind::Lui => b".LUI",
        FileKind::Lur => b".LUR",
        FileKind::Lus => b".LUS",
    }
}
