//! Parity of one and of two sectors, of `segment_parity`.

ghost use Rattle.std.specs.Prelude.{◌<◌};

use qic_base::Sector;
use segment_parity::{Parity, parity_of};

/// The bytes of a column.
fn column(rows: &[Sector; 3], at: usize) -> [u8; 3]
    requires { at < 1024 }
{
    [rows[0][at], rows[1][at], rows[2][at]]
}

#[test]
fn one_sector_gives_the_generator(rt: HostRuntime) {
    let mut sector = [0; 1024];
    sector[700] = 0x01;
    let mut parity = Parity::new();
    let before = parity.count();
    parity.push(&sector);
    let counts = [before, parity.count()];
    let rows = parity.finish();
    assert_eq!(rt;
        (counts, [column(&rows, 700), column(&rows, 699)]),
        ([0, 1], [[0xC0, 0xC0, 0x01], [0; 3]])
    );
}

#[test]
fn a_second_sector_shifts_the_first(rt: HostRuntime) {
    let mut parity = Parity::new();
    parity.push(&[0x01; 1024]);
    let of_one = column(parity.so_far(), 0);
    parity.push(&[0x00; 1024]);
    let so_far = column(parity.so_far(), 9);
    let rows = parity.finish();
    let at_once = parity_of(&[[0x01; 1024], [0x00; 1024]]);
    let of_two = [
        so_far,
        column(&rows, 0),
        column(&rows, 1023),
        column(&at_once, 9),
    ];
    assert_eq!(rt;
        (of_one, of_two),
        ([0xC0, 0xC0, 0x01], [[0x67, 0xA6, 0xC0]; 4])
    );
}
