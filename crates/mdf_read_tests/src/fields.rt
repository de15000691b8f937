use mdf_bits::{Field, covers, get, is_invalid, mark_invalid, put, signed};

// Where the fields of the table lie: big-endian or not, the first bit in byte 3, and the number of bits. Then the
// field's number in `OTHER`, and what `RECORD` is once that number was written into its field.
const FIELDS: &[(bool, u8, u8, u64, u128)] = &[
    (false, 0, 1, 0x0, 0x243f6a88_85a308d3_13198a2e_03707344),
    (false, 0, 7, 0x62, 0x243f6ae2_85a308d3_13198a2e_03707344),
    (false, 0, 8, 0x62, 0x243f6a62_85a308d3_13198a2e_03707344),
    (false, 0, 9, 0x62, 0x243f6a62_84a308d3_13198a2e_03707344),
    (
        false,
        0,
        63,
        0x5871bf6a_2aed8a62,
        0x243f6a62_8aed2a6a_bf71d82e_03707344,
    ),
    (
        false,
        0,
        64,
        0x5871bf6a_2aed8a62,
        0x243f6a62_8aed2a6a_bf71582e_03707344,
    ),
    (false, 1, 1, 0x1, 0x243f6a8a_85a308d3_13198a2e_03707344),
    (false, 1, 7, 0x31, 0x243f6a62_85a308d3_13198a2e_03707344),
    (false, 1, 8, 0x31, 0x243f6a62_84a308d3_13198a2e_03707344),
    (false, 1, 9, 0x131, 0x243f6a62_86a308d3_13198a2e_03707344),
    (
        false,
        1,
        63,
        0x2c38dfb5_1576c531,
        0x243f6a62_8aed2a6a_bf71582e_03707344,
    ),
    (
        false,
        1,
        64,
        0x2c38dfb5_1576c531,
        0x243f6a62_8aed2a6a_bf71582e_03707344,
    ),
    (false, 2, 1, 0x0, 0x243f6a88_85a308d3_13198a2e_03707344),
    (false, 2, 7, 0x18, 0x243f6a60_84a308d3_13198a2e_03707344),
    (false, 2, 8, 0x98, 0x243f6a60_86a308d3_13198a2e_03707344),
    (false, 2, 9, 0x98, 0x243f6a60_82a308d3_13198a2e_03707344),
    (
        false,
        2,
        63,
        0x161c6fda_8abb6298,
        0x243f6a60_8aed2a6a_bf71582e_03707344,
    ),
    (
        false,
        2,
        64,
        0x161c6fda_8abb6298,
        0x243f6a60_8aed2a6a_bf71582c_03707344,
    ),
    (false, 3, 1, 0x0, 0x243f6a80_85a308d3_13198a2e_03707344),
    (false, 3, 7, 0x4c, 0x243f6a60_86a308d3_13198a2e_03707344),
    (false, 3, 8, 0x4c, 0x243f6a60_82a308d3_13198a2e_03707344),
    (false, 3, 9, 0x14c, 0x243f6a60_8aa308d3_13198a2e_03707344),
    (
        false,
        3,
        63,
        0x0b0e37ed_455db14c,
        0x243f6a60_8aed2a6a_bf71582c_03707344,
    ),
    (
        false,
        3,
        64,
        0x0b0e37ed_455db14c,
        0x243f6a60_8aed2a6a_bf715828_03707344,
    ),
    (false, 4, 1, 0x0, 0x243f6a88_85a308d3_13198a2e_03707344),
    (false, 4, 7, 0x26, 0x243f6a68_82a308d3_13198a2e_03707344),
    (false, 4, 8, 0xa6, 0x243f6a68_8aa308d3_13198a2e_03707344),
    (false, 4, 9, 0xa6, 0x243f6a68_8aa308d3_13198a2e_03707344),
    (
        false,
        4,
        63,
        0x05871bf6_a2aed8a6,
        0x243f6a68_8aed2a6a_bf715828_03707344,
    ),
    (
        false,
        4,
        64,
        0x05871bf6_a2aed8a6,
        0x243f6a68_8aed2a6a_bf715820_03707344,
    ),
    (false, 5, 1, 0x1, 0x243f6aa8_85a308d3_13198a2e_03707344),
    (false, 5, 7, 0x53, 0x243f6a68_8aa308d3_13198a2e_03707344),
    (false, 5, 8, 0x53, 0x243f6a68_8aa308d3_13198a2e_03707344),
    (false, 5, 9, 0x53, 0x243f6a68_8aa308d3_13198a2e_03707344),
    (
        false,
        5,
        63,
        0x02c38dfb_51576c53,
        0x243f6a68_8aed2a6a_bf715820_03707344,
    ),
    (
        false,
        5,
        64,
        0x02c38dfb_51576c53,
        0x243f6a68_8aed2a6a_bf715820_03707344,
    ),
    (false, 6, 1, 0x1, 0x243f6ac8_85a308d3_13198a2e_03707344),
    (false, 6, 7, 0x29, 0x243f6a48_8aa308d3_13198a2e_03707344),
    (false, 6, 8, 0x29, 0x243f6a48_8aa308d3_13198a2e_03707344),
    (false, 6, 9, 0x29, 0x243f6a48_8aa308d3_13198a2e_03707344),
    (
        false,
        6,
        63,
        0x0161c6fd_a8abb629,
        0x243f6a48_8aed2a6a_bf715820_03707344,
    ),
    (
        false,
        6,
        64,
        0x0161c6fd_a8abb629,
        0x243f6a48_8aed2a6a_bf715800_03707344,
    ),
    (false, 7, 1, 0x0, 0x243f6a08_85a308d3_13198a2e_03707344),
    (false, 7, 7, 0x14, 0x243f6a08_8aa308d3_13198a2e_03707344),
    (false, 7, 8, 0x14, 0x243f6a08_8aa308d3_13198a2e_03707344),
    (false, 7, 9, 0x114, 0x243f6a08_8aa308d3_13198a2e_03707344),
    (
        false,
        7,
        63,
        0x00b0e37e_d455db14,
        0x243f6a08_8aed2a6a_bf715800_03707344,
    ),
    (
        false,
        7,
        64,
        0x00b0e37e_d455db14,
        0x243f6a08_8aed2a6a_bf715800_03707344,
    ),
    (true, 0, 1, 0x0, 0x243f6a88_85a308d3_13198a2e_03707344),
    (true, 0, 7, 0x62, 0x243f6ae2_85a308d3_13198a2e_03707344),
    (true, 0, 8, 0x62, 0x243f6a62_85a308d3_13198a2e_03707344),
    (true, 0, 9, 0x8a, 0x243f6a88_8aa308d3_13198a2e_03707344),
    (
        true,
        0,
        63,
        0x628aed2a_6abf7158,
        0x243f6ae2_8aed2a6a_bf71582e_03707344,
    ),
    (
        true,
        0,
        64,
        0x628aed2a_6abf7158,
        0x243f6a62_8aed2a6a_bf71582e_03707344,
    ),
    (true, 1, 1, 0x1, 0x243f6a8a_85a308d3_13198a2e_03707344),
    (true, 1, 7, 0x31, 0x243f6a62_85a308d3_13198a2e_03707344),
    (true, 1, 8, 0x45, 0x243f6a88_8ba308d3_13198a2e_03707344),
    (true, 1, 9, 0x145, 0x243f6a8a_8ba308d3_13198a2e_03707344),
    (
        true,
        1,
        63,
        0x31457695_355fb8ac,
        0x243f6a62_8aed2a6a_bf71582e_03707344,
    ),
    (
        true,
        1,
        64,
        0x45769535_5fb8ac40,
        0x243f6a88_8aed2a6a_bf715880_03707344,
    ),
    (true, 2, 1, 0x0, 0x243f6a88_85a308d3_13198a2e_03707344),
    (true, 2, 7, 0x22, 0x243f6a88_89a308d3_13198a2e_03707344),
    (true, 2, 8, 0xa2, 0x243f6a8a_89a308d3_13198a2e_03707344),
    (true, 2, 9, 0xa2, 0x243f6a8a_89a308d3_13198a2e_03707344),
    (
        true,
        2,
        63,
        0x22bb4a9a_afdc5620,
        0x243f6a88_8aed2a6a_bf715882_03707344,
    ),
    (
        true,
        2,
        64,
        0xa2bb4a9a_afdc5620,
        0x243f6a8a_8aed2a6a_bf715882_03707344,
    ),
    (true, 3, 1, 0x0, 0x243f6a80_85a308d3_13198a2e_03707344),
    (true, 3, 7, 0x51, 0x243f6a8a_8da308d3_13198a2e_03707344),
    (true, 3, 8, 0x51, 0x243f6a8a_8da308d3_13198a2e_03707344),
    (true, 3, 9, 0x51, 0x243f6a82_8da308d3_13198a2e_03707344),
    (
        true,
        3,
        63,
        0x515da54d_57ee2b10,
        0x243f6a8a_8aed2a6a_bf715886_03707344,
    ),
    (
        true,
        3,
        64,
        0x515da54d_57ee2b10,
        0x243f6a8a_8aed2a6a_bf715886_03707344,
    ),
    (true, 4, 1, 0x0, 0x243f6a88_85a308d3_13198a2e_03707344),
    (true, 4, 7, 0x28, 0x243f6a8a_85a308d3_13198a2e_03707344),
    (true, 4, 8, 0x28, 0x243f6a82_85a308d3_13198a2e_03707344),
    (true, 4, 9, 0x28, 0x243f6a82_85a308d3_13198a2e_03707344),
    (
        true,
        4,
        63,
        0x28aed2a6_abf71588,
        0x243f6a8a_8aed2a6a_bf71588e_03707344,
    ),
    (
        true,
        4,
        64,
        0x28aed2a6_abf71588,
        0x243f6a82_8aed2a6a_bf71588e_03707344,
    ),
    (true, 5, 1, 0x1, 0x243f6aa8_85a308d3_13198a2e_03707344),
    (true, 5, 7, 0x14, 0x243f6a82_85a308d3_13198a2e_03707344),
    (true, 5, 8, 0x14, 0x243f6a82_85a308d3_13198a2e_03707344),
    (true, 5, 9, 0x114, 0x243f6aa2_85a308d3_13198a2e_03707344),
    (
        true,
        5,
        63,
        0x14576953_55fb8ac4,
        0x243f6a82_8aed2a6a_bf71588e_03707344,
    ),
    (
        true,
        5,
        64,
        0x14576953_55fb8ac4,
        0x243f6a82_8aed2a6a_bf71588e_03707344,
    ),
    (true, 6, 1, 0x1, 0x243f6ac8_85a308d3_13198a2e_03707344),
    (true, 6, 7, 0xa, 0x243f6a82_85a308d3_13198a2e_03707344),
    (true, 6, 8, 0x8a, 0x243f6aa2_85a308d3_13198a2e_03707344),
    (true, 6, 9, 0x18a, 0x243f6ae2_85a308d3_13198a2e_03707344),
    (
        true,
        6,
        63,
        0x0a2bb4a9_aafdc562,
        0x243f6a82_8aed2a6a_bf7158ae_03707344,
    ),
    (
        true,
        6,
        64,
        0x8a2bb4a9_aafdc562,
        0x243f6aa2_8aed2a6a_bf7158ae_03707344,
    ),
    (true, 7, 1, 0x0, 0x243f6a08_85a308d3_13198a2e_03707344),
    (true, 7, 7, 0x45, 0x243f6aa2_85a308d3_13198a2e_03707344),
    (true, 7, 8, 0xc5, 0x243f6ae2_85a308d3_13198a2e_03707344),
    (true, 7, 9, 0xc5, 0x243f6a62_85a308d3_13198a2e_03707344),
    (
        true,
        7,
        63,
        0x4515da54_d57ee2b1,
        0x243f6aa2_8aed2a6a_bf7158ae_03707344,
    ),
    (
        true,
        7,
        64,
        0xc515da54_d57ee2b1,
        0x243f6ae2_8aed2a6a_bf7158ae_03707344,
    ),
];

// Digits of pi and of e.
const RECORD: u128 = 0x243f6a88_85a308d3_13198a2e_03707344;

const OTHER: u128 = 0xb7e15162_8aed2a6a_bf715880_9cf4f3c7;

#[test]
fn fields_at_every_bit_offset_in_both_orders(rt: HostRuntime) {
    let other = OTHER.to_be_bytes();
    for (big, bit, bits, number, written) in FIELDS {
        let field = Field {
            byte: 3,
            bit: *bit,
            bits: *bits,
            big: *big,
        };
        assert!(rt; field.bit <= 7 && 1 <= field.bits && field.bits <= 64);
        let value = get(&other, field);
        let mut record = RECORD.to_be_bytes();
        put(&mut record, field, value);
        let told = (value, u128::from_be_bytes(record));
        assert!(rt; told == (*number, *written), "{field:?}");
    }
}

#[test]
fn seven_bits_at_bit_three_both_orders(rt: HostRuntime) {
    let bytes = [0xb4, 0x5a];
    let little = Field {
        byte: 0,
        bit: 3,
        bits: 7,
        big: false,
    };
    let big = Field {
        byte: 0,
        bit: 3,
        bits: 7,
        big: true,
    };
    let widest = Field {
        byte: 10,
        bit: 7,
        bits: 64,
        big: true,
    };
    assert_eq!(rt; [get(&bytes, little), get(&bytes, big)], [86, 11]);
    assert_eq!(rt; [covers(little), covers(widest)], [2, 19]);
}

#[test]
fn five_bits_signed(rt: HostRuntime) {
    let told = [
        signed(0b10000, 5),
        signed(0b11111, 5),
        signed(0b01111, 5),
        signed(1, 1),
        signed(0x8000_0000_0000_0000, 64),
        signed(0x7fff_ffff_ffff_ffff, 64),
    ];
    assert_eq!(rt; told, [-16, -1, 15, -1, i64::MIN, i64::MAX]);
}

#[test]
fn invalidation_bits(rt: HostRuntime) {
    let mut bytes = [0x00, 0x02];
    let told = (is_invalid(&bytes, 9), is_invalid(&bytes, 8));
    mark_invalid(&mut bytes, 7);
    mark_invalid(&mut bytes, 8);
    assert_eq!(rt; (told, bytes), ((true, false), [0x80, 0x03]));
}
