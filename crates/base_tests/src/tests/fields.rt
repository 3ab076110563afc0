use field_codec::{FieldFault, Reader, Writer, what_is_written_is_read};
use load_base::NoMemory;

#[test]
fn reads_each_field(rt: HostRuntime) {
    let bytes = [
        0x12, 0x34, 0x56, 0x78, 0x9A, 0xBC, 0xDE, 0xF0, 0x01, 0x02, 0x03, 0x04, 0x05, 0x06, 0x07,
    ];
    let mut reader = Reader::new(&bytes);
    assert_eq!(rt; reader.take_u8(), Ok(0x12));
    assert_eq!(rt; reader.take_u16(), Ok(0x3456));
    assert_eq!(rt; reader.take_u32(), Ok(0x789A_BCDE));
    assert_eq!(rt; reader.take_u64(), Ok(0xF001_0203_0405_0607));
    assert_eq!(rt; (reader.place(), reader.left()), (15, 0));
    assert_eq!(rt; reader.before(), bytes.as_slice());
}

#[test]
fn reads_texts(rt: HostRuntime) {
    let bytes = [
        0, 3, b'A', b'B', b'C', 0, 0, 2, b'D', b'E', 2, b'F', b'G', b'H', 0,
    ];
    let mut reader = Reader::new(&bytes);
    assert_eq!(rt; reader.take_padded(), Ok(b"ABC".as_slice()));
    assert_eq!(rt; reader.place(), 6);
    assert_eq!(rt; reader.take_padded(), Ok(b"DE".as_slice()));
    assert_eq!(rt; reader.place(), 10);
    assert_eq!(rt; reader.take_short(), Ok(b"FG".as_slice()));
    assert_eq!(rt; reader.take_raw(1), Ok(b"H".as_slice()));
    assert_eq!(rt; reader.take_pad(2), Ok(()));
    assert_eq!(rt; reader.take_pad(1), Ok(()));
    assert_eq!(rt; reader.left(), 0);
}

#[test]
fn reads_texts_that_a_zero_ends(rt: HostRuntime) {
    let mut reader = Reader::new(b"AB\0\0C");
    assert_eq!(rt; reader.take_zero_ended(), Ok(b"AB".as_slice()));
    assert_eq!(rt; reader.take_zero_ended(), Ok(b"".as_slice()));
    assert_eq!(rt; reader.take_zero_ended(), Err(FieldFault::Short(4)));
    assert_eq!(rt; (reader.place(), reader.len()), (4, 5));
}

const SHORT: [&[u8]; 2] = [&[], &[2, b'A']];

const PADDED: [(&[u8], FieldFault); 5] = [
    (&[], FieldFault::Short(0)),
    (&[0], FieldFault::Short(0)),
    (&[0, 2, b'A'], FieldFault::Short(0)),
    (&[0, 1, b'A'], FieldFault::Short(0)),
    (&[0, 1, b'A', 9], FieldFault::BadPad(3)),
];

#[test]
fn refuses_a_text_where_it_begins(rt: HostRuntime) {
    for &(bytes, fault) in &PADDED {
        let mut reader = Reader::new(bytes);
        assert_eq!(rt; reader.take_padded(), Err(fault));
        assert_eq!(rt; reader.place(), 0);
    }
    for bytes in &SHORT {
        let mut reader = Reader::new(bytes);
        assert_eq!(rt; reader.take_short(), Err(FieldFault::Short(0)));
        assert_eq!(rt; reader.place(), 0);
    }
}

#[test]
fn writes_each_field(rt: HostRuntime) -> Result<(), NoMemory> {
    let mut writer = Writer::new(rt.alloc());
    writer.put_u8(0x12)?;
    writer.put_u16(0x3456)?;
    writer.put_u32(0x789A_BCDE)?;
    writer.put_u64(0xF001_0203_0405_0607)?;
    writer.put_raw(b"XY")?;
    writer.put_padded(b"ABC")?;
    writer.put_padded(b"DE")?;
    writer.put_short(b"FG")?;
    let bytes = writer.finish();
    assert_eq!(rt;
        bytes.as_slice(),
        b"\x12\x34\x56\x78\x9A\xBC\xDE\xF0\x01\x02\x03\x04\x05\x06\x07XY\x00\x03ABC\x00\x00\x02DE\x02FG".as_slice()
    );
    what_is_written_is_read();
    Ok(())
}
