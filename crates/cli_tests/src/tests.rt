//! Commands over the system's files: what stands in the current folder, under the names that a run
//! asks for. What commands do otherwise is shown over files in memory, by the program
//! `command_rows`.
ghost use Rattle.std.specs.Prelude.{◌≡◌, All, false};

use disk_model::{FileDisk, Fused, OpenedFiles};
use load_base::{Bytes, MemSink, StdHost, StdSink};
use loader_cli::run;
use own_unit::{Flash, FlashDisk};
use std::alloc::Global;
use std::fs;
use std::test::Fail;

/// The bytes of a formatted disk; those after them are zero.
const DISK: usize = 4125;

/// The identity of target HW1, position L, serial number SN1, with banks of 4096 bytes.
static IDENTITY: &[u8; 22] = b"A615\x00\x01\x00\x00\x10\x00\x03HW1\x01L\x03SN1\xB4\x3C";

/// The body of slot A: sequence number 1, bank 0, and a manifest of two bytes at its start.
static SLOT: &[u8; 13] = &[0, 0, 0, 1, 0, 0, 0, 0, 0, 0, 0, 0, 2];

/// A load header.
static APP_HEADER: [u8; 122] = [
    0x00, 0x00, 0x00, 0x3D, 0x80, 0x04, 0x00, 0x00, 0x00, 0x00, 0x00, 0x14, 0x00, 0x00, 0x00, 0x1D,
    0x00, 0x00, 0x00, 0x21, 0x00, 0x00, 0x00, 0x25, 0x00, 0x00, 0x00, 0x26, 0x00, 0x00, 0x00, 0x37,
    0x00, 0x00, 0x00, 0x38, 0x00, 0x00, 0x00, 0x39, 0x00, 0x0F, 0x41, 0x42, 0x43, 0x34, 0x31, 0x2D,
    0x30, 0x30, 0x30, 0x30, 0x2D, 0x30, 0x30, 0x30, 0x31, 0x00, 0x00, 0x03, 0x41, 0x50, 0x50, 0x00,
    0x00, 0x07, 0x00, 0x01, 0x00, 0x03, 0x48, 0x57, 0x31, 0x00, 0x00, 0x00, 0x00, 0x01, 0x00, 0x00,
    0x00, 0x07, 0x41, 0x50, 0x50, 0x2E, 0x42, 0x49, 0x4E, 0x00, 0x00, 0x04, 0x41, 0x50, 0x50, 0x31,
    0x00, 0x00, 0x00, 0x05, 0x00, 0x00, 0x00, 0x00, 0x00, 0x00, 0x00, 0x09, 0x29, 0xB1, 0x00, 0x00,
    0x00, 0x00, 0x00, 0x00, 0x70, 0x42, 0xAD, 0xC0, 0x8C, 0x7F,
];

/// A recipe of one load with one file.
static APP: &[u8] = b"set XYZ5A-0000-0001
members 1
load ABC41-0000-0001 APP.LUH 1 7 APP
hardware HW1
data APP.BIN 1 app.bin APP1
";

/// The same, of a file that no other test writes.
static OWN_APP: &[u8] = b"set XYZ5A-0000-0001
members 1
load ABC41-0000-0001 APP.LUH 1 7 APP
hardware HW1
data APP.BIN 1 own.bin APP1
";

/// Loads two units with either set.
static FLEET_SCRIPT: &[u8] = b"at 1 upload HW1 L ABC41-0000-0001
at 2 upload HW1 R ABC41-0000-0001
finish
";

static APP_TEXT: &[u8] = b"0 header 61 8004 0000
part ABC41-0000-0001
type 7 APP
hardware HW1
data APP.BIN 9 29B1 APP1
user -
headercrc 7042
loadcrc ADC08C7F
";

static FLEET_REPORT: &[u8] = b"0 unit 1
session 1 upload completed
datagrams 21
target HW1 L SN1
bank 1 sequence 2
loads 1
load ABC41-0000-0001 APP.LUH 2
file APP.LUH 122 248A
file APP.BIN 9 29B1
unit 2
session 1 upload completed
datagrams 21
target HW1 R SN2
bank 1 sequence 2
loads 1
load ABC41-0000-0001 APP.LUH 2
file APP.LUH 122 248A
file APP.BIN 9 29B1
";

/// What is listed of unit 2 then.
static SECOND_UNIT: &[u8] = b"0 target HW1 R SN2
bank 1 sequence 2
loads 1
load ABC41-0000-0001 APP.LUH 2
file APP.LUH 122 248A
file APP.BIN 9 29B1
";

static UPLOAD_REPORT: &[u8] = b"0 session 1 upload completed
datagrams 21
target HW1 L SN1
bank 1 sequence 2
loads 1
load ABC41-0000-0001 APP.LUH 2
file APP.LUH 122 248A
file APP.BIN 9 29B1
";

static UPLOAD_TRACE: &[u8] = b"0 start upload HW1 L ABC41-0000-0001
post 1 l 1024 59 00014857315f4c2e4c5549006f6374657400
give 1
post 2 t 1024 1024 00030001000000094133000100
give 2
post 3 l 1024 1024 00040001
give 3
post 4 t 1025 59 00024857315f4c2e4c5553006f6374657400
give 4
post 5 l 1025 1025 00040000
give 5
post 6 t 1025 1025 000300010000001441330001000001000000003030300000
give 6
post 7 l 1025 1025 00040001
post 8 l 1026 59 00024857315f4c2e4c5552006f6374657400
give 7
give 8
post 9 t 1026 1026 00040000
give 9
post 10 l 1026 1026 000300010000002041330001074150502e4c55480f41424334312d303030302d30303031
give 10
post 11 t 1026 1026 00040001
post 12 t 1027 59 00014150502e4c5548006f6374657400
give 11
give 12
post 13 l 1027 1027 000300010000003d80040000000000140000001d000000210000002500000026000000370000003800000039000f41424334312d303030302d30303031000003415050000007000100034857310000000001000000074150502e42494e0000044150503100000005000000000000000929b10000000000007042adc08c7f
give 13
post 14 t 1027 1027 00040001
post 15 t 1028 59 00014150502e42494e006f6374657400
give 14
give 15
post 16 l 1028 1028 00030001313233343536373839
give 16
post 17 t 1028 1028 00040001
post 18 t 1029 59 00024857315f4c2e4c5553006f6374657400
give 17
give 18
post 19 l 1029 1029 00040000
give 19
post 20 t 1029 1029 000300010000003241330003000002000000003130300001074150502e4c55480f41424334312d303030302d30303031313030000300
give 20
post 21 l 1029 1029 00040001
give 21
end
";

/// A disk that was formatted for that target.
fn formatted() -> [u8; DISK] {
    let mut disk = [0; DISK];
    disk[..22].copy_from_slice(IDENTITY);
    disk[4096] = 0xA5;
    disk[4112..].copy_from_slice(SLOT);
    disk
}

fn words_of(alloc: Global, words: &[&str]) -> Result<Vec<String>, Fail> {
    let mut all = Vec::new(alloc);
    for word in words {
        all.push(String::from_str(alloc, word)?)?;
    }
    Ok(all)
}

/// The disks of eight units in files, of which the first two are these.
fn units<'r>(
    rt: &'r HostRuntime,
    opened: &'r OpenedFiles,
    first: &'r str,
    second: &'r str,
) -> [Fused<FileDisk<'r, HostRuntime>>; 8]
    ensures { All (λ disk. disk.stopped ≡ false) result }
{
    [
        Fused::new(FileDisk::new(rt, opened, first)),
        Fused::new(FileDisk::new(rt, opened, second)),
        Fused::new(FileDisk::new(rt, opened, "three.disk")),
        Fused::new(FileDisk::new(rt, opened, "four.disk")),
        Fused::new(FileDisk::new(rt, opened, "five.disk")),
        Fused::new(FileDisk::new(rt, opened, "six.disk")),
        Fused::new(FileDisk::new(rt, opened, "seven.disk")),
        Fused::new(FileDisk::new(rt, opened, "eight.disk")),
    ]
}

/// The status of a run over the system's files, standard output and disks in files.
fn status_over_the_system(
    rt: &HostRuntime,
    words: &[&str],
    first: &str,
    second: &str,
) -> Result<u8, Fail> {
    let alloc = rt.alloc();
    let words = words_of(alloc, words)?;
    let (mut host, mut out) = (StdHost::new(rt), StdSink::new(rt));
    let opened = OpenedFiles::new();
    let mut disks = units(rt, &opened, first, second);
    let ended = run(alloc, &words, &mut host, &mut out, &mut disks);
    let status = ended.status;
    drop(ended);
    drop(disks);
    Ok(status)
}

/// A disk that was written by hand, one that is missing and stays so, and a folder in its place;
/// that of a second unit, which is made as it is formatted, while that of a third isn't; a header,
/// one that is missing, and a folder in its place.
#[test]
fn the_real_host_sink_and_disk(rt: HostRuntime) -> Result<(), Fail> {
    fs::write(&rt, "listed.disk", formatted().as_slice())?;
    fs::create_dir(&rt, "folder.disk")?;
    fs::write(&rt, "SHOWN.LUH", &APP_HEADER)?;
    fs::create_dir(&rt, "FOLDER.LUH")?;
    let rows: [(&[&str], &str, u8); 11] = [
        (&["list"], "listed.disk", 0),
        (&["on", "2", "list"], "listed.disk", 8),
        (
            &["on", "2", "format", "HW1", "R", "SN2", "4096"],
            "listed.disk",
            0,
        ),
        (&["on", "2", "list"], "listed.disk", 0),
        (&["on", "1", "list"], "listed.disk", 0),
        (&["list"], "missing.disk", 8),
        (&["list"], "folder.disk", 5),
        (&["rollback"], "listed.disk", 9),
        (&["show", "SHOWN.LUH"], "missing.disk", 0),
        (&["show", "NONE.LUH"], "missing.disk", 3),
        (&["show", "FOLDER.LUH"], "missing.disk", 4),
    ];
    for (words, disk, status) in rows {
        assert_eq!(rt;
            status_over_the_system(&rt, words, disk, "two.disk")?,
            status
        );
    }
    let kept = fs::read(&rt, "listed.disk")?;
    assert_eq!(rt; kept.as_slice(), formatted().as_slice());
    assert!(rt; fs::read(&rt, "missing.disk").is_err());
    assert!(rt; fs::read(&rt, "two.disk").is_ok());
    assert!(rt; fs::read(&rt, "three.disk").is_err());
    assert_eq!(rt;
        fs::read(&rt, "SHOWN.LUH")?.as_slice(),
        APP_HEADER.as_slice()
    );
    Ok(())
}

/// What a run says over the system's files and a disk that was formatted: its status as a digit, a
/// space, and its output.
fn said_over_the_system(rt: &HostRuntime, words: &[&str], said: &mut Bytes) -> Result<(), Fail> {
    let alloc = rt.alloc();
    fs::write(rt, "formatted.disk", formatted().as_slice())?;
    let words = words_of(alloc, words)?;
    let (mut host, mut out) = (StdHost::new(rt), MemSink::new(alloc));
    let opened = OpenedFiles::new();
    let mut disks = units(rt, &opened, "formatted.disk", "loaded.disk");
    let ended = run(alloc, &words, &mut host, &mut out, &mut disks);
    let status = ended.status;
    drop(ended);
    drop(disks);
    said.extend(&[b'0' + status % 10, b' '])?;
    said.extend(out.as_slice())?;
    Ok(())
}

/// The names that a run asks for are those of the system's files.
#[test]
fn sets_over_the_real_host(rt: HostRuntime) -> Result<(), Fail> {
    fs::write(&rt, "R", APP)?;
    fs::write(&rt, "app.bin", b"123456789")?;
    fs::write(&rt, "S", b"upload HW1 L ABC41-0000-0001\nfinish\n")?;
    fs::write(&rt, "F", FLEET_SCRIPT)?;
    let rows: [(&[&str], &[u8]); 10] = [
        (&["build", "R", "P"], b"0 built 1 loads 2 files\n"),
        (&["check", "P"], b"0 findings 0\n"),
        (&["show", "P/1/APP.LUH"], APP_TEXT),
        (&["make", "7", "M"], b"0 built 1 loads 2 files\n"),
        (&["check", "M"], b"0 findings 0\n"),
        (&["replay", "P", "S"], UPLOAD_REPORT),
        (&["wire", "P", "S"], UPLOAD_TRACE),
        (
            &["on", "2", "format", "HW1", "R", "SN2", "4096"],
            b"0 formatted HW1 R SN2 4096\n",
        ),
        (&["fleet", "2", "P", "F"], FLEET_REPORT),
        (&["on", "2", "list"], SECOND_UNIT),
    ];
    for (words, wanted) in rows {
        let mut said = Bytes::new(rt.alloc());
        said_over_the_system(&rt, words, &mut said)?;
        assert_eq!(rt; said.as_slice(), wanted);
    }
    Ok(())
}

/// Two units whose disks are one file by a link: a command that uses both meets a disk fault and
/// doesn't wait, and one that uses the second alone has its file.
#[test]
fn units_have_no_file_in_common(rt: HostRuntime) -> Result<(), Fail> {
    fs::write(&rt, "OWN", OWN_APP)?;
    fs::write(&rt, "own.bin", b"123456789")?;
    fs::write(&rt, "OWN-SCRIPT", FLEET_SCRIPT)?;
    fs::write(&rt, "own.disk", formatted().as_slice())?;
    fs::hard_link(&rt, "own.disk", "linked.disk")?;
    let rows: [(&[&str], &str, u8); 4] = [
        (&["build", "OWN", "OWN-SET"], "linked.disk", 0),
        (&["fleet", "2", "OWN-SET", "OWN-SCRIPT"], "linked.disk", 5),
        (&["on", "2", "list"], "linked.disk", 0),
        (&["on", "2", "list"], "own.disk", 0),
    ];
    for (words, second, status) in rows {
        assert_eq!(rt;
            status_over_the_system(&rt, words, "own.disk", second)?,
            status
        );
    }
    let kept = fs::read(&rt, "own.disk")?;
    assert_eq!(rt; kept.as_slice(), formatted().as_slice());
    Ok(())
}

/// A flash in memory, on which a disk that was formatted stands.
#[derive(Drop)]
struct Ram {
    bytes: [u8; DISK],
}

impl Flash for Ram {
    fn read(&mut self, at: u32, buf: &mut [u8]) -> bool {
        buf.fill(0);
        let at = at as usize;
        if at < DISK && buf.len() <= DISK - at {
            buf.copy_from_slice(&self.bytes[at..at + buf.len()]);
        }
        true
    }

    fn program(&mut self, _at: u32, _bytes: &[u8]) -> bool {
        false
    }

    fn flush(&mut self) -> bool {
        true
    }
}

fn flash() -> Fused<FlashDisk<Ram>>
    ensures { result.stopped ≡ false }
{
    Fused::new(FlashDisk::new(Ram { bytes: formatted() }))
}

/// What `list` says over flashes of one's own.
fn said_over_a_flash(rt: &HostRuntime, said: &mut Bytes) -> Result<(), Fail> {
    let alloc = rt.alloc();
    let words = words_of(alloc, &["list"])?;
    let (mut host, mut out) = (StdHost::new(rt), MemSink::new(alloc));
    let mut disks = [
        flash(),
        flash(),
        flash(),
        flash(),
        flash(),
        flash(),
        flash(),
        flash(),
    ];
    let ended = run(alloc, &words, &mut host, &mut out, &mut disks);
    let status = ended.status;
    drop(ended);
    drop(disks);
    said.extend(&[b'0' + status % 10, b' '])?;
    said.extend(out.as_slice())?;
    Ok(())
}

#[test]
fn a_flash_of_ones_own_is_listed(rt: HostRuntime) -> Result<(), Fail> {
    let mut said = Bytes::new(rt.alloc());
    said_over_a_flash(&rt, &mut said)?;
    let wanted = b"0 target HW1 L SN1\nbank 0 sequence 1\nloads 0\n";
    assert_eq!(rt; said.as_slice(), wanted.as_slice());
    Ok(())
}
