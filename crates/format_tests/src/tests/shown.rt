use super::batches::ONE_BATCH;
use super::list_vectors::DEEP_FILE;
use load_base::{Bytes, Text};
use shown_files::{Shown, ShownKind, show};
use std::alloc::Global;
use std::test::Fail;
use worked_files::{APP_FILES, APP_LOADS};

const LUR: &[u8] = b"\x00\x00\x00\x20\x41\x33\x00\x01\x07APP.LUH\x0FABC41-0000-0001";

const LAST_LUS: &[u8] =
    b"\x00\x00\x00\x32\x41\x33\x00\x03\x00\x00\x02\x00\x00\x00\x00100\x00\x01\x07APP.LUH\x0FABC41-0000-0001100\x00\x03\x00";

/// With two parts of one hardware.
const LCL: &[u8] =
    b"\x00\x00\x00\x2C\x41\x33\x00\x01\x03HW1\x03SN1\x00\x02\x0FABC41-0000-0001\x01A\x00\x01B\x00\x03OPS";

/// With two targets of one part each.
const LUB: &[u8] = b"\x00\x00\x00\x2D\xC0\x04\x00\x00\x00\x0FABC43-0000-0003\x00\x00\x02\
    \x00\x03HW1\x00\x00\x01L\x00\x00\x01\x00\x0FABC41-0000-0001\x00\
    \x00\x03HW1\x00\x00\x01R\x00\x00\x01\x00\x0FABC41-0000-0001\x00\x53\xEE";

fn fields(text: Shown) -> Result<Bytes, Fail> {
    match text {
        Shown::Fields(text) => Ok(text),
        Shown::Fault(text) => {
            drop(text);
            Err(Fail::new("a fault was shown"))
        }
    }
}

fn fault(text: Shown) -> Result<Text, Fail> {
    match text {
        Shown::Fault(text) => Ok(text),
        Shown::Fields(text) => {
            drop(text);
            Err(Fail::new("fields were shown"))
        }
    }
}

const FIELDS: [(ShownKind, &[u8], &[u8]); 11] = [
    (
        ShownKind::FilesList,
        &DEEP_FILE,
        b"files 36 A004\nset ABC41-0000-0001\nmember 2 of 2\nfile A.BIN \\A\\BC\\ 2 1234\nuser 4E4F5445\ncrc 7726\n",
    ),
    (
        ShownKind::LoadsList,
        &APP_LOADS,
        b"loads 43 9004\nset XYZ5A-0000-0001\nmember 1 of 1\nload ABC41-0000-0001 APP.LUH 1 1\nhardware HW1\nuser -\ncrc 8143\n",
    ),
    (
        ShownKind::FilesList,
        &APP_FILES,
        b"files 43 A004\nset XYZ5A-0000-0001\nmember 1 of 1\nfile APP.LUH \\ 1 248A\nfile APP.BIN \\ 1 29B1\nuser -\ncrc 1569\n",
    ),
    (
        ShownKind::BatchesList,
        &ONE_BATCH,
        b"batches 39 B004\nset XYZ5A-0000-0001\nmember 1 of 1\n\
    batch ABC43-0000-0003 TWO.LUB 1\nuser -\ncrc 32AB\n",
    ),
    (
        ShownKind::Batch,
        LUB,
        b"lub 45 C004\npart ABC43-0000-0003\ntarget HW1 L\npart ABC41-0000-0001\n\
    target HW1 R\npart ABC41-0000-0001\ncrc 53EE\n",
    ),
    (
        ShownKind::Lci,
        b"\x00\x00\x00\x0C\x41\x33\x00\x01\x03Yes",
        b"LCI\nstatus 0001\ndescription Yes\n",
    ),
    (
        ShownKind::Lcs,
        b"\x00\x00\x00\x0F\x41\x33\x00\x01\x00\x02\x00\x3C\x00\x07\x00",
        b"LCS\ncounter 1\nstatus 0002\nexception 60\nestimated 7\ndescription \n",
    ),
    (
        ShownKind::Lcl,
        LCL,
        b"LCL\nhardware 1\nname HW1\nserial SN1\nparts 2\nnumber ABC41-0000-0001\namendment A\ndesignation \nnumber B\namendment \ndesignation OPS\n",
    ),
    (
        ShownKind::Lui,
        b"\x00\x00\x00\x09\x41\x33\xA0\x0B\x00",
        b"LUI\nstatus A00B\ndescription \n",
    ),
    (
        ShownKind::Lur,
        LUR,
        b"LUR\nloads 1\nheader APP.LUH\npart ABC41-0000-0001\n",
    ),
    (
        ShownKind::Lus,
        LAST_LUS,
        b"LUS\nstatus 0003\ndescription \ncounter 2\nexception 0\nestimated 0\nratio 100\nloads 1\nheader APP.LUH\npart ABC41-0000-0001\nratio 100\nstatus 0003\ndescription \n",
    ),
];

#[test]
fn each_kind_shows_its_fields(rt: HostRuntime) -> Result<(), Fail> {
    let alloc = rt.alloc();
    for &(kind, bytes, text) in &FIELDS {
        let found = fields(show(alloc, kind, bytes)?)?;
        assert_eq!(rt; found.as_slice(), text);
    }
    Ok(())
}

const FAULTS: [(ShownKind, &[u8], &[u8]); 10] = [
    (ShownKind::LoadsList, &APP_FILES, b"L3 40964"),
    (ShownKind::Header, b"\x00\x00\x00", b"H1 0"),
    (ShownKind::BatchesList, &APP_FILES, b"L3 40964"),
    (ShownKind::Batch, b"\x00\x00\x00", b"J1 0"),
    (
        ShownKind::Lci,
        b"\x00\x00\x00\x20\x41\x33\x00\x01",
        b"U2 32 8",
    ),
    (ShownKind::Lcs, b"\x00\x00\x00\x06\x41\x34", b"U3 16692"),
    (ShownKind::Lcl, b"\x00\x00\x00\x07\x41\x33\x00", b"U1 6"),
    (
        ShownKind::Lui,
        b"\x00\x00\x00\x0A\x41\x33\x00\x01\x00\x00",
        b"U5 9",
    ),
    (
        ShownKind::Lur,
        b"\x00\x00\x00\x0B\x41\x33\x00\x01\x02A/",
        b"U6 9 N3 1",
    ),
    (
        ShownKind::Lus,
        b"\x00\x00\x00\x14\x41\x33\x00\x01\x00\x00\x01\x00\x00\x00\x00101\x00\x00",
        b"U4 15",
    ),
];

#[test]
fn each_kind_shows_its_first_fault(rt: HostRuntime) -> Result<(), Fail> {
    let alloc = rt.alloc();
    let mut repeated = APP_FILES;
    repeated[70..73].copy_from_slice(b"LUH");
    let found = fault(show(alloc, ShownKind::FilesList, &repeated)?)?;
    assert_eq!(rt; found.as_slice(), b"L10 2".as_slice());
    for &(kind, bytes, text) in &FAULTS {
        let found = fault(show(alloc, kind, bytes)?)?;
        assert_eq!(rt; found.as_slice(), text);
    }
    Ok(())
}

const KINDS: [(&[u8], Option<ShownKind>); 18] = [
    (b"P/1/LOADS.LUM", Some(ShownKind::LoadsList)),
    (b"XFILES.LUM", Some(ShownKind::FilesList)),
    (b"P/1/BATCHES.LUM", Some(ShownKind::BatchesList)),
    (b".LUB", Some(ShownKind::Batch)),
    (b"OADS.LUM", None),
    (b"loads.lum", None),
    (b"P/1/APP.LUH", Some(ShownKind::Header)),
    (b".LCI", Some(ShownKind::Lci)),
    (b"HW1_L.LCL", Some(ShownKind::Lcl)),
    (b"X.LCS", Some(ShownKind::Lcs)),
    (b"X.LUI", Some(ShownKind::Lui)),
    (b"X.LUS.LUR", Some(ShownKind::Lur)),
    (b"X.LUS", Some(ShownKind::Lus)),
    (b"LUS", None),
    (b"X.lus", None),
    (b"X.LUS.", None),
    (b"X.BIN", None),
    (b"", None),
];

#[test]
fn the_end_of_a_name_tells_the_kind(rt: HostRuntime) {
    for &(name, kind) in &KINDS {
        assert_eq!(rt; ShownKind::of_name(name), kind);
    }
}
