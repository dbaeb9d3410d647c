//! A sink that never fails.

ghost use Rattle.std.specs.Prelude.{◌≡◌, ◌<◌, length};
ghost use Rattle.qic_base.specs.Cause.{HasCause};
ghost use Rattle.qic_base.specs.SinkCalls.{Takes};

use qic_base::{Sink, SinkFailed};

/// A sink that takes all bytes and keeps none of them.
#[derive(Drop)]
pub struct SureSink;

impl SureSink {
    ghost use Rattle.std.specs.Prelude.{None};
    ghost use Rattle.qic_mem.specs.Sink.{sure_sink_means};

    /// A sink that takes all bytes and tells none of them.
    pub fn new() -> Self
        ensures { sure_sink_means.written result ≡ None }
    {
        SureSink
    }
}

impl Sink for SureSink {
    ghost use Rattle.qic_mem.specs.Sink.{sure_sink_means};

    ghost means = { sure_sink_means };

    ghost took_nothing = { λ k. tt };

    ghost took_both = { λ a b c xs ys first next. tt };

    ghost use Rattle.std.proofs.Common.{refl};

    ghost took_told = { λ a b xs took. refl };

    fn write(&mut self, from: &[u8]) -> Result<usize, SinkFailed>
        requires { 0 < length from.now }
        ensures takes { Takes sure_sink_means self.old self.new from.now result }
        ensures cause { HasCause (sure_sink_means.faults self.old)
            (sure_sink_means.faults self.new) result }

        // It takes all bytes.
        ensures all { result ≡ Ok (length from.now) }
    {
        Ok(from.len())
    }
}
