//! The lines that are printed.
ghost use Rattle.std.specs.Prelude.{◌≡◌, IfOk};
ghost use Rattle.loader_cli.specs.Texts.{built_line, formatted_line};
ghost use Rattle.loader_cli.specs.Texts.{no_configuration, no_former, refused_input};

use bank_rollback::RollbackFault;
use disk_layout::{Identity, RecoverFault};
use load_base::{Bytes, NoMemory};
use printed_text::{Printed, put_number};
use std::alloc::Global;

/// What was formatted: the target, and the bank size in bytes.
pub(crate) fn formatted_text(alloc: Global, identity: &Identity) -> Result<Bytes, NoMemory>
    ensures { IfOk result (λ text. text.items ≡ formatted_line identity.now) }
{
    let mut out = Bytes::new(alloc);
    out.extend(b"formatted ")?;
    out.extend(identity.hw.as_slice())?;
    out.extend(b" ")?;
    out.extend(identity.pos.as_slice())?;
    out.extend(b" ")?;
    out.extend(identity.serial.as_slice())?;
    out.extend(b" ")?;
    put_number(alloc, &mut out, u64::from(identity.bank))?;
    out.extend(b"\n")?;
    Ok(out)
}

/// How many loads and files a set has that was built.
pub(crate) fn built_text(alloc: Global, loads: u64, files: u64) -> Result<Bytes, NoMemory>
    ensures { IfOk result (λ text. text.items ≡ built_line loads files) }
{
    let mut out = Bytes::new(alloc);
    out.extend(b"built ")?;
    put_number(alloc, &mut out, loads)?;
    out.extend(b" loads ")?;
    put_number(alloc, &mut out, files)?;
    out.extend(b" files\n")?;
    Ok(out)
}

/// Why a disk holds no configuration.
pub(crate) fn no_configuration_text(alloc: Global, fault: RecoverFault) -> Result<Bytes, NoMemory>
    ensures { IfOk result (λ text. text.items ≡ no_configuration fault) }
{
    let text = fault.text(alloc)?;
    let mut out = Bytes::new(alloc);
    out.extend(b"no configuration ")?;
    out.extend(text.as_slice())?;
    out.extend(b"\n")?;
    Ok(out)
}

/// Why a disk has no former configuration to go back to.
pub(crate) fn no_former_text(alloc: Global, fault: RollbackFault) -> Result<Bytes, NoMemory>
    ensures { IfOk result (λ text. text.items ≡ no_former fault) }
{
    let text = fault.text(alloc)?;
    let mut out = Bytes::new(alloc);
    out.extend(b"no former ")?;
    out.extend(text.as_slice())?;
    out.extend(b"\n")?;
    Ok(out)
}

/// That the file of this name is refused for this fault.
pub(crate) fn refused_text(alloc: Global, name: &[u8], fault: &[u8]) -> Result<Bytes, NoMemory>
    ensures { IfOk result (λ text. text.items ≡ refused_input name.now fault.now) }
{
    let mut out = Bytes::new(alloc);
    out.extend(b"refused ")?;
    out.extend(name)?;
    out.extend(b" ")?;
    out.extend(fault)?;
    out.extend(b"\n")?;
    Ok(out)
}
