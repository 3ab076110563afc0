use crc_fields::{Crc16, Crc32, bitwise, crc16, crc32};

const KNOWN: [(&[u8], u16, u32); 2] = [
    (b"123456789", 0x29B1, 0xFC89_1918),
    (b"", 0xFFFF, 0x0000_0000),
];

/// The sums are those that catalogues of check sums print.
#[test]
fn known_sums_however_cut(rt: HostRuntime) {
    for &(message, sum_16, sum_32) in &KNOWN {
        let mut pieces_16 = Crc16::new();
        let mut pieces_32 = Crc32::new();
        for byte in message {
            pieces_16.update(&[*byte]);
            pieces_16.update(b"");
            pieces_32.update(b"");
            pieces_32.update(&[*byte]);
        }
        assert_eq!(rt; crc16(message), sum_16);
        assert_eq!(rt; crc32(message), sum_32);
        assert_eq!(rt; pieces_16.value(), sum_16);
        assert_eq!(rt; pieces_32.value(), sum_32);
    }
}

#[test]
fn tables_agree_with_bits(rt: HostRuntime) {
    let mut message = [0u8; 300];
    for (offset, byte) in message.iter_mut().enumerate() {
        *byte = (offset * 7 % 256) as u8;
    }
    for length in 0..=300 {
        let part = &message[..length];
        assert_eq!(rt;
            crc16(part),
            bitwise::crc16_after(0xFFFF, part),
            "at {length}"
        );
        assert_eq!(rt; crc32(part), bitwise::crc32_after(0, part), "at {length}");
    }
    for byte in 0..=255u8 {
        let alone = [byte];
        assert_eq!(rt;
            crc16(&alone),
            bitwise::crc16_after(0xFFFF, &alone),
            "at {byte}"
        );
        assert_eq!(rt; crc32(&alone), bitwise::crc32_after(0, &alone), "at {byte}");
    }
}
