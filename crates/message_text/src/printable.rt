//! A character as it is printed.

ghost use Rattle.std.specs.Prelude.{◌≡◌, ◌+◌, ◌≤◌, ◌++◌, ◌/◌, ◌%◌, length};
ghost use Rattle.message_text.specs.Printable.{escape, four_digits, hex, is_escaped, shown_in, two_digits};

use crate::line::HintLine;

/// Whether a character is escaped.
fn is_escaped(c: u32) -> bool
    ensures { result ≡ is_escaped c }
{
    matches!(
        c,
        0x00..=0x1F
            | 0x5C
            | 0x7F..=0x9F
            | 0xAD
            | 0x034F
            | 0x061C
            | 0x115F..=0x1160
            | 0x17B4..=0x17B5
            | 0x180B..=0x180F
            | 0x200B..=0x200F
            | 0x2028..=0x202E
            | 0x2060..=0x206F
            | 0x3164
            | 0xFE00..=0xFE0F
            | 0xFEFF
            | 0xFFA0
            | 0xFFF0..=0xFFFB
            | 0x1BCA0..=0x1BCA3
            | 0x1D173..=0x1D17A
            | 0xE0000..=0xE0FFF
    )
}

/// The last hexadecimal digit of a number.
fn hex(n: u32) -> u8
    ensures { result ≡ hex (n % 16) }
{
    let digit = (n % 16) as u8;
    if digit < 10 {
        b'0' + digit
    } else {
        b'A' - 10 + digit
    }
}

/// Puts the escape of a character behind a line.
fn push_escape(line: &mut HintLine, c: u32)
    requires { length line.old + 10 ≤ 512 }
    ensures escape { line.new ≡ line.old ++ escape c }
    ensures short { length line.new ≤ length line.old + 10 }
{
    let [fourth, third, second, first] = [hex(c / 4096), hex(c / 256), hex(c / 16), hex(c)];
    if c < 0x80 {
        line.push(&[b'\\', b'x', second, first]);
    } else if c < 0x10000 {
        line.push(&[b'\\', b'u', b'{', fourth, third, second, first, b'}']);
    } else {
        let [sixth, fifth] = [hex(c / 1_048_576), hex(c / 65536)];
        line.push(&[
            b'\\', b'u', b'{', sixth, fifth, fourth, third, second, first, b'}',
        ]);
    }
}

/// Puts a character behind a line, as it is printed; the end of a line stays, if `lines` are to stay.
pub(crate) fn push_character(line: &mut HintLine, c: char, lines: bool)
    requires { length line.old + 10 ≤ 512 }
    ensures shown { line.new ≡ line.old ++ shown_in lines c }
    ensures short { length line.new ≤ length line.old + 10 }
{
    if lines && c == '\n' {
        line.push(b"\n");
    } else if is_escaped(u32::from(c)) {
        push_escape(line, u32::from(c));
    } else {
        line.push(c.encode_utf8(&mut [0; 4]).as_bytes());
    }
}
