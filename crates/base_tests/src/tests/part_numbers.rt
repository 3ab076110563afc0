use part_number::{PartFault, PartNumber, part_number_equality_law, part_number_laws};

/// Each text, and the maker and the product that it is the part number of.
const KNOWN: [(&[u8], &[u8; 3], &[u8; 8]); 5] = [
    (b"ABC48-1234-5678", b"ABC", b"12345678"),
    (b"ABC41-0000-0001", b"ABC", b"00000001"),
    (b"ABC42-0000-0002", b"ABC", b"00000002"),
    (b"ABC43-0000-0003", b"ABC", b"00000003"),
    (b"XYZ5A-0000-0001", b"XYZ", b"00000001"),
];

#[test]
fn known_part_numbers_are_read_and_made(rt: HostRuntime) {
    part_number_laws();
    part_number_equality_law();
    for &(text, maker, product) in &KNOWN {
        let read = PartNumber::read(text).expect(&rt, "it is read");
        let made = PartNumber::make(maker, product).expect(&rt, "it is made");
        assert_eq!(rt; read == made, true);
        assert_eq!(rt; read.as_slice(), text);
        assert_eq!(rt; made.as_slice(), text);
        assert_eq!(rt; made.text().as_slice(), text);
    }
}

const FAULTS: [(&[u8], PartFault); 8] = [
    (
        b"ABC49-1234-5678",
        PartFault::Check {
            written: 0x49,
            computed: 0x48,
        },
    ),
    (b"ABC48-1234-567", PartFault::Length(14)),
    (b"", PartFault::Length(0)),
    (b"ABC48_1234-5678", PartFault::Hyphen(5)),
    (b"ABC48-1234_5678", PartFault::Hyphen(10)),
    (b"ABCa8_1234-5678", PartFault::Character(3)),
    (b"ABC4G-1234-5678", PartFault::Character(4)),
    (b"ABC48-1234-567z", PartFault::Character(14)),
];

#[test]
fn the_first_fault_is_told(rt: HostRuntime) {
    for &(text, fault) in &FAULTS {
        assert_eq!(rt; PartNumber::read(text).err(), Some(fault));
    }
}

const WRONG: [(&[u8; 3], &[u8; 8], u64); 5] = [
    (b"AbC", b"12345678", 1),
    (b"ABC", b"a2345678", 6),
    (b"ABC", b"123x5678", 9),
    (b"ABC", b"1234x678", 11),
    (b"ABC", b"1234567x", 14),
];

#[test]
fn a_wrong_character_is_told_by_its_offset_in_the_text(rt: HostRuntime) {
    for &(maker, product, offset) in &WRONG {
        let fault = PartNumber::make(maker, product).err();
        assert_eq!(rt; fault, Some(PartFault::Character(offset)));
    }
}
