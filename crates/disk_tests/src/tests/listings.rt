use disk_layout::{Identity, Standing};
use listing::listing_text;
use load_base::{Bytes, Config, Ident, List, Load, Name, PartText, StoredFile};
use std::alloc::Global;
use std::test::Fail;

fn file(alloc: Global, name: &[u8], contents: &[u8]) -> Result<StoredFile, Fail> {
    let name = Name::read(name)?;
    let mut bytes = Bytes::new(alloc);
    bytes.extend(contents)?;
    Ok(StoredFile { name, bytes })
}

fn load(alloc: Global) -> Result<Load, Fail> {
    let (part, header_name) = (PartText::read(b"ABC41-0000-0001")?, Name::read(b"APP.LUH")?);
    let mut files = List::new(alloc);
    files.push(file(alloc, b"APP.LUH", b"")?)?;
    files.push(file(alloc, b"APP.BIN", b"123456789")?)?;
    Ok(Load {
        part,
        type_id: Some(7),
        header_name,
        files,
    })
}

fn identity() -> Result<Identity, Fail> {
    Ok(Identity {
        hw: Ident::read(b"HW1")?,
        pos: Ident::read(b"L")?,
        serial: Ident::read(b"SN1")?,
        bank: 4096,
    })
}

/// The listing of a configuration with that load.
fn listed(alloc: Global) -> Result<Bytes, Fail> {
    let identity = identity()?;
    let mut loads = List::new(alloc);
    loads.push(load(alloc)?)?;
    let standing = Standing {
        identity,
        bank: 1,
        sequence: 4_294_967_295,
        config: Config { loads },
    };
    let text = listing_text(alloc, &standing);
    drop(standing);
    Ok(text?)
}

#[test]
fn lists_loads_with_their_files(rt: HostRuntime) -> Result<(), Fail> {
    let text = listed(rt.alloc())?;
    let expected = b"target HW1 L SN1
bank 1 sequence 4294967295
loads 1
load ABC41-0000-0001 APP.LUH 2
file APP.LUH 0 FFFF
file APP.BIN 9 29B1
";
    assert_eq!(rt; text.as_slice(), expected.as_slice());
    Ok(())
}
