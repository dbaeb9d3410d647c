//! The outside that takes what is printed.

ghost use Rattle.std.specs.Prelude.{◌≡◌, ◌<◌, ◌++◌, List, [], ℕ, length};
ghost use Rattle.std.specs.Option.{option_map};
ghost use Rattle.qic_base.specs.Cause.{HasCause};
ghost use Rattle.qic_base.specs.Sink.{Meaning};
ghost use Rattle.qic_base.specs.SinkCalls.{Takes};

/// A write to a sink failed.
#[derive(Clone, Copy, Debug, PartialEq, Eq)]
pub struct SinkFailed;

/// A sink of bytes, as standard output or a list in memory.
pub trait Sink {
    ghost means: { Meaning Self };

    /// Writes the first bytes of `from`, at least one, and answers how many. A failure writes none.
    fn write(&mut self, from: &[u8]) -> Result<usize, SinkFailed>
        requires { 0 < length from.now }
        ensures takes { Takes means self.old self.new from.now result }
        ensures cause { HasCause (means.faults self.old) (means.faults self.new) result };

    /// Between a sink and itself nothing was taken.
    ghost took_nothing: { (k : Self) → means.took k [] k };

    /// Two lists taken one after the other are taken as one.
    ghost took_both: { (a b c : Self) (xs ys : List ℕ) →
        means.took a xs b → means.took b ys c → means.took a (xs ++ ys) c };

    /// Where the bytes are told, they are longer by the list taken.
    ghost took_told: { (a b : Self) (xs : List ℕ) →
        means.took a xs b → means.written b ≡ option_map (λ bytes. bytes ++ xs) (means.written a) };
}
