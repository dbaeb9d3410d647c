//! Products in the field of QIC-80, and a codeword, of `gf256_qic`.

use gf256_qic::{inv, mul, mul_by_shifts, over_x, pow, times_x};

#[test]
fn field_has_its_known_values(rt: HostRuntime) {
    let values = [
        mul(0xC0, 0xC0),
        mul(0x80, 0x02),
        pow(0x02, 8),
        pow(0x02, 255),
        pow(0x05, 0),
        inv(0x02),
        inv(0x01),
        mul_by_shifts(0xC0, 0xC0),
        times_x(0x80),
        over_x(0x01),
    ];
    assert_eq!(rt;
        values,
        [0xA7, 0x87, 0x87, 0x01, 0x01, 0xC3, 0x01, 0xA7, 0x87, 0xC3]
    );
}

/// The value of a column at an element, of which the first byte is the highest coefficient.
fn value_at(column: &[u8; 4], root: u8) -> u8 {
    let mut value = 0;
    for byte in column {
        value = mul(value, root) ^ *byte;
    }
    value
}

#[test]
fn generator_is_a_codeword(rt: HostRuntime) {
    let column = [0x01, 0xC0, 0xC0, 0x01];
    let values = [
        value_at(&column, 0xC3),
        value_at(&column, 0x01),
        value_at(&column, 0x02),
    ];
    assert_eq!(rt; values, [0; 3]);
}
