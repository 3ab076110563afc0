//! The loads that a unit keeps beside one that is uploaded.
ghost use Rattle.std.specs.Prelude.{◌≡◌};
ghost use Rattle.accept_rules.specs.Permissions.{keeps_part};

use load_base::PartText;

/// A load that is kept: its part number and its type id.
#[derive(Clone, Copy)]
pub struct KeptLoad {
    pub part: PartText,
    pub type_id: u16,
}

/// Whether a load of this part number is kept.
pub fn is_kept(part: &[u8], kept: &[KeptLoad]) -> bool
    ensures { result ≡ keeps_part part.now kept.now }
{
    kept.iter().any(|load| load.part.as_slice() == part)
}
