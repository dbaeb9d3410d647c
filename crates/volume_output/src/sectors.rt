//! The first bytes of sectors, written to a sink.

ghost use Rattle.std.specs.Prelude.{◌≡◌, ◌*◌, ◌≤◌, length, take};
ghost use Rattle.qic_base.specs.SinkCalls.{Writes};
ghost use Rattle.cartridge_spec.specs.Volumes.{bytes_in};

use qic_base::{Sector, Sink, SinkFailed, write_text};

/// Writes the first `bytes` bytes of the sectors, one behind the other. A failure leaves a front of them written. For
/// no byte the sink isn't asked.
pub fn write_bytes<K: Sink>(sectors: &[Sector], bytes: u32, sink: &mut K) -> Result<(), SinkFailed>
    requires { bytes ≤ 1024 * length sectors.now }
    ensures wrote { Writes K.means sink.old sink.new (take bytes (bytes_in sectors.now)) result }
    ensures untouched { bytes ≡ 0 → sink.new ≡ sink.old }
{
    if bytes == 0 {
        return Ok(());
    }
    let text = sectors.as_flattened();
    write_text(&text[..bytes as usize], sink)
}
