//! Bytes written to a sink, all of them.

ghost use Rattle.qic_base.specs.SinkCalls.{Writes};

use crate::{Sink, SinkFailed};

/// Writes the bytes as they are, all of them. A failure leaves a front of them written.
pub fn write_text<K: Sink>(text: &[u8], sink: &mut K) -> Result<(), SinkFailed>
    ensures { Writes K.means sink.old sink.new text.now result }
{
    let mut at = 0;
    while at < text.len() {
        match sink.write(&text[at..]) {
            Ok(written) => at += written,
            Err(fault) => return Err(fault),
        }
    }
    Ok(())
}
