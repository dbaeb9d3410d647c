//! Bytes in a buffer, and numbers in a format's bytes: all of its fields are little-endian.

ghost use Rattle.std.specs.Prelude.{◌≡◌, ◌≤◌, ◌+◌, ◌++◌, length, take};
ghost use Rattle.qic_base.specs.Field.{number_at, overwritten, little_endian_bytes};

use byteorder::{ByteOrder, LittleEndian};

/// The number in the two bytes at `at`, the low byte first.
pub fn read_u16(bytes: &[u8], at: usize) -> u16
    requires { at + 2 ≤ length bytes.now }
    ensures { result ≡ number_at bytes.now at 2 }
{
    LittleEndian::read_u16(&bytes[at..at + 2])
}

/// The number in the four bytes at `at`, the low byte first.
pub fn read_u32(bytes: &[u8], at: usize) -> u32
    requires { at + 4 ≤ length bytes.now }
    ensures { result ≡ number_at bytes.now at 4 }
{
    LittleEndian::read_u32(&bytes[at..at + 4])
}

/// The number in the eight bytes at `at`, the low byte first.
pub fn read_u64(bytes: &[u8], at: usize) -> u64
    requires { at + 8 ≤ length bytes.now }
    ensures { result ≡ number_at bytes.now at 8 }
{
    LittleEndian::read_u64(&bytes[at..at + 8])
}

/// Writes the number into the two bytes at `at`, the low byte first.
pub fn write_u16(bytes: &mut [u8], at: usize, value: u16)
    requires { at + 2 ≤ length bytes.old }
    ensures value { number_at bytes.new at 2 ≡ value }
    ensures whole { bytes.new ≡ overwritten bytes.old at (little_endian_bytes 2 value) }
{
    LittleEndian::write_u16(&mut bytes[at..at + 2], value);
}

/// Writes the number into the four bytes at `at`, the low byte first.
pub fn write_u32(bytes: &mut [u8], at: usize, value: u32)
    requires { at + 4 ≤ length bytes.old }
    ensures value { number_at bytes.new at 4 ≡ value }
    ensures whole { bytes.new ≡ overwritten bytes.old at (little_endian_bytes 4 value) }
{
    LittleEndian::write_u32(&mut bytes[at..at + 4], value);
}

/// Writes the number into the eight bytes at `at`, the low byte first.
pub fn write_u64(bytes: &mut [u8], at: usize, value: u64)
    requires { at + 8 ≤ length bytes.old }
    ensures value { number_at bytes.new at 8 ≡ value }
    ensures whole { bytes.new ≡ overwritten bytes.old at (little_endian_bytes 8 value) }
{
    LittleEndian::write_u64(&mut bytes[at..at + 8], value);
}

/// Puts bytes over those from a place on.
pub fn put_bytes(buffer: &mut [u8], at: usize, from: &[u8])
    requires { at + length from.now ≤ length buffer.old }
    ensures { take (at + length from.now) buffer.new ≡ take at buffer.old ++ from.now }
{
    buffer[at..at + from.len()].copy_from_slice(from);
}
