//! The bytes of an identity, as they are written.
ghost use Rattle.std.specs.Prelude.{◌≡◌, ◌+◌, ◌≤◌, ◌++◌, length};
ghost use Rattle.field_grammar.specs.Fields.{short_text};
ghost use Rattle.disk_layout.specs.Identity.{IsIdentity, identity_prefix, identity_text};
ghost use Rattle.disk_layout.specs.Offsets.{IsBankSize, longest_identity};

use crate::Identity;
use crate::numbers::{u8_bytes, u16_bytes, u32_bytes};
use crate::offsets::LONGEST_IDENTITY;
use crc_fields::crc16;
use std::marker::Model;

/// The bytes of an identity, at most 75. They take no memory; a contract sees those that were put
/// into it.
#[derive(Drop)]
pub struct IdentityBytes {
    cells: [u8; LONGEST_IDENTITY],
    len: usize,
}

impl Model for IdentityBytes {
    ghost use Rattle.std.specs.Prelude.{List, ℕ, take, ◌≤◌};
    ghost use Rattle.disk_layout.specs.IdentityBytes.{IsWritten};

    ghost Value = { List ℕ };

    ghost view = { λ f. take f.len f.cells };

    ghost invariant = { λ f. IsWritten f.len };
}

impl IdentityBytes {
    /// The bytes of this identity, as they stand at the start of a disk.
    #[tactic(auto, unfolding(crate::specs::Identity::identity_text))]
    pub(crate) fn of(identity: &Identity) -> IdentityBytes
        requires { IsBankSize identity.now.bank }
        ensures text { result ≡ identity_text identity.now }
        ensures fits { IsIdentity identity.now }
        ensures short { length result ≤ longest_identity }
    {
        let mut prefix = IdentityBytes::before_sum(identity);
        let sum = crc16(prefix.as_slice());
        prefix.put(&u16_bytes(sum));
        prefix
    }

    #[tactic(auto, unfolding(crate::specs::Identity::identity_prefix))]
    fn before_sum(identity: &Identity) -> IdentityBytes
        requires { IsBankSize identity.now.bank }
        ensures prefix { result ≡ identity_prefix identity.now }
        ensures short { length result + 2 ≤ longest_identity }
        ensures fits { IsIdentity identity.now }
    {
        let mut prefix = IdentityBytes {
            cells: [0; LONGEST_IDENTITY],
            len: 0,
        };
        prefix.put(&[0x41, 0x36, 0x31, 0x35, 0, 1]);
        prefix.put(&u32_bytes(identity.bank));
        prefix.put_short(identity.hw.as_slice());
        prefix.put_short(identity.pos.as_slice());
        prefix.put_short(identity.serial.as_slice());
        prefix
    }

    fn put_short(&mut self, text: &[u8])
        requires short { length text.now ≤ 20 }
        requires fits { length self.old + (1 + length text.now) ≤ longest_identity }
        ensures { self.new ≡ self.old ++ short_text text.now }
    {
        self.put(&u8_bytes(text.len() as u8));
        self.put(text);
    }

    fn put(&mut self, bytes: &[u8])
        requires { length self.old + length bytes.now ≤ longest_identity }
        ensures { self.new ≡ self.old ++ bytes.now }
    {
        let end = self.len + bytes.len();
        self.cells[self.len..end].copy_from_slice(bytes);
        self.len = end;
    }

    /// The bytes, as they stand at the start of a disk.
    pub fn as_slice(&self) -> &[u8]
        ensures { result.now ≡ self.now }
    {
        &self.cells[..self.len]
    }
}
