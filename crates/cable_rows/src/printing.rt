//! Numbers, dates and names written to a sink, each with a newline behind it.

use crate::memory::sink;
use qic_base::{Name, SinkFailed, write_text};
use qic_mem::MemSink;
use std::test::Fail;
use tape_script::{write_date, write_name, write_number};

fn number(value: u64, sink: &mut MemSink) -> Result<(), SinkFailed> {
    write_number(value, sink)?;
    write_text(b"\n", sink)
}

fn date(word: u32, sink: &mut MemSink) -> Result<(), SinkFailed> {
    write_date(word, sink)?;
    write_text(b"\n", sink)
}

fn name(bytes: &[u8; 44], sink: &mut MemSink) -> Result<(), SinkFailed> {
    write_name(&Name::from_bytes(bytes), sink)?;
    write_text(b"\n", sink)
}

/// The least and the greatest number, the least and the greatest date and the first word above, and a name with a byte
/// that no line can show and with what fills its end.
fn print_all(sink: &mut MemSink) -> Result<(), SinkFailed> {
    let mut bytes = [b' '; 44];
    bytes[0] = 0x7F;
    bytes[2] = b'a';
    bytes[43] = 0;
    number(0, sink)?;
    number(u64::MAX, sink)?;
    date(0, sink)?;
    date(0x3052_65C0, sink)?;
    date(0xFFEA_6DFF, sink)?;
    date(0xFFEA_6E00, sink)?;
    name(&bytes, sink)
}

#[test]
fn numbers_dates_and_names(rt: HostRuntime) -> Result<(), Fail> {
    let mut sink = sink(rt.alloc(), &[])?;
    print_all(&mut sink)?;
    let lines =
        b"0\n18446744073709551615\n1970-01-01T00:00:00\n1994-03-01T12:00:00\n2097-12-31T23:59:59\n?\n? a\n";
    assert!(rt; sink.bytes() == lines.as_slice());
    Ok(())
}
