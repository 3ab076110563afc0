//! User data, as headers and lists have it.
ghost use Rattle.std.specs.Prelude.{◌≡◌, ◌++◌, OnOk};
ghost use Rattle.shown_files.specs.UserLine.{user_line};

use load_base::{Bytes, NoMemory};
use printed_text::put_hex;

/// The line of the user data.
#[tactic(auto, unfolding(crate::specs::UserLine::user_line))]
pub(crate) fn put_user(out: &mut Bytes, user: &[u8]) -> Result<(), NoMemory>
    ensures { OnOk result (out.new.items ≡ out.old.items ++ user_line user.now) }
{
    if user.is_empty() {
        return out.extend(b"user -\n");
    }
    out.extend(b"user ")?;
    put_hex(out, user)?;
    out.extend(b"\n")
}
