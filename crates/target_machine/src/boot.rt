//! Why a target doesn't come up.
ghost use Rattle.std.specs.Prelude.{◌≡◌};
ghost use Rattle.target_machine.specs.declared.boot.BootFault.TheVariants.{Memory, Recover};

use disk_layout::RecoverFault;

/// Why a target doesn't come up.
#[derive(Clone, Copy, Debug, PartialEq, Eq)]
pub enum BootFault {
    /// Its disk holds no configuration, or failed.
    Recover(RecoverFault),
    /// Out of memory.
    Memory,
}

impl From<RecoverFault> for BootFault {
    ghost use Rattle.target_machine.specs.Booting.{boot_fault_of};

    ghost from_gives = { λ fault boot_fault. boot_fault ≡ boot_fault_of fault };

    fn from(fault: RecoverFault) -> BootFault {
        match fault {
            RecoverFault::Memory => BootFault::Memory,
            fault => BootFault::Recover(fault),
        }
    }
}
