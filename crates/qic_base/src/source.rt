//! The outside that gives what is read.

ghost use Rattle.std.specs.Prelude.{◌≡◌, ◌<◌, ◌≤◌, length, drop, IfOk, IfSome, OnErr};
ghost use Rattle.std.specs.Option.{option_map};
ghost use Rattle.qic_base.specs.Cause.{HasCause};
ghost use Rattle.qic_base.specs.Source.{Meaning};
ghost use Rattle.qic_base.specs.SourceCalls.{Gives};

/// A read of a source failed.
#[derive(Clone, Copy, Debug, PartialEq, Eq)]
pub struct SourceFailed;

/// A source of bytes, as standard input or a list in memory.
pub trait Source {
    ghost means: { Meaning Self };

    /// Reads up to `into.len()` of the bytes that are left. 0 is their end, where the source tells them.
    fn read(&mut self, into: &mut [u8]) -> Result<usize, SourceFailed>
        requires { 0 < length into.old }
        ensures within { IfOk result (λ n. n ≤ length into.old) }
        ensures gives { IfOk result (λ n. IfSome (means.left self.old) (λ bytes. Gives bytes into.new n)) }
        ensures left { IfOk result (λ n. means.left self.new ≡ option_map (drop n) (means.left self.old)) }
        ensures failed { OnErr result (means.left self.new ≡ means.left self.old) }
        ensures kept { means.keeps self.old self.new }
        ensures cause { HasCause (means.faults self.old) (means.faults self.new) result };

    /// A source keeps what it keeps of itself.
    ghost keeps_itself: { (s : Self) → means.keeps s s };

    /// What one call keeps and the next keeps is kept by both.
    ghost keeps_on: { (a b c : Self) → means.keeps a b → means.keeps b c → means.keeps a c };
}
