//! Sources in memory.

ghost use Rattle.std.specs.Prelude.{◌≡◌, ◌↔◌, ◌<◌, ◌≤◌, ◌++◌, length, take, drop, min, is_err, IsErr, IsOk, IfOk, IfSome, OnErr};
ghost use Rattle.std.specs.Option.{option_map};
ghost use Rattle.qic_base.specs.Cause.{HasCause};
ghost use Rattle.qic_base.specs.SourceCalls.{Gives};
ghost use Rattle.qic_mem.specs.Plan.{new_plan, IsChosen, plan_after};
ghost use Rattle.qic_mem.specs.Source.{source_means, sure_source_means};

use crate::plan::CallPlan;
use qic_base::{Source, SourceFailed};
use std::marker::Model;

/// Bytes, and how many of them were read.
#[derive(Drop)]
struct Reader {
    bytes: Vec<u8>,
    at: usize,
}

impl Model for Reader {
    ghost use Rattle.std.specs.Prelude.{ℕ, List, ◌≤◌, drop, length};

    ghost Value = { List ℕ };

    ghost view = { λ r. drop r.at r.bytes.items };

    ghost invariant = { λ r. r.at ≤ length r.bytes.items };
}

impl Reader {
    /// These bytes, none of which was read.
    fn new(bytes: Vec<u8>) -> Self
        ensures { result ≡ bytes.items }
    {
        Reader { bytes, at: 0 }
    }

    /// Reads as many of the bytes as are left and fit, and answers how many.
    fn read(&mut self, into: &mut [u8]) -> usize
        ensures amount { result ≡ min (length self.old) (length into.old) }
        ensures bytes { into.new ≡ take result self.old ++ drop result into.old }
        ensures rest { self.new ≡ drop result self.old }
    {
        let count = into.len().min(self.bytes.len() - self.at);
        into[..count].copy_from_slice(&self.bytes[self.at..self.at + count]);
        self.at += count;
        count
    }
}

/// A source of bytes in memory, whose chosen calls fail.
#[derive(Drop)]
pub struct MemSource {
    reader: Reader,
    plan: CallPlan,
}

impl Model for MemSource {
    ghost use Rattle.qic_mem.specs.Source.{SourceState};

    ghost Value = { SourceState };

    ghost view = { λ s. record { left = s.reader; plan = s.plan } };
}

impl MemSource {
    /// A source of these bytes. `fails` has the numbers of the reads that are to fail, counted
    /// from 0.
    pub fn new(bytes: Vec<u8>, fails: Vec<u64>) -> Self
        ensures { result ≡ record { left = bytes.items; plan = new_plan fails.items } }
    {
        MemSource {
            reader: Reader::new(bytes),
            plan: CallPlan::new(fails),
        }
    }
}

impl Source for MemSource {
    ghost means = { source_means };

    ghost keeps_itself = { λ s. tt };

    ghost keeps_on = { λ a b c first next. tt };

    fn read(&mut self, into: &mut [u8]) -> Result<usize, SourceFailed>
        requires { 0 < length into.old }
        ensures within { IfOk result (λ n. n ≤ length into.old) }
        ensures gives { IfOk result (λ n.
            IfSome (source_means.left self.old) (λ bytes. Gives bytes into.new n)) }
        ensures left { IfOk result (λ n.
            source_means.left self.new ≡ option_map (drop n) (source_means.left self.old)) }
        ensures failed { OnErr result (source_means.left self.new ≡ source_means.left self.old) }
        ensures kept { source_means.keeps self.old self.new }
        ensures cause { HasCause (source_means.faults self.old) (source_means.faults self.new) result }

        // It fails exactly at its chosen numbers, and gives as many bytes as are left and fit.
        ensures fails { IsErr result ↔ IsChosen self.old.plan }
        ensures amount { IfOk result (λ n. n ≡ min (length self.old.left) (length into.old)) }
        ensures bytes { IfOk result (λ n. into.new ≡ take n self.old.left ++ drop n into.old) }
        ensures rest { IfOk result (λ n. self.new.left ≡ drop n self.old.left) }
        ensures same { OnErr result (self.new.left ≡ self.old.left) }
        ensures unchanged { OnErr result (into.new ≡ into.old) }
        ensures plan { self.new.plan ≡ plan_after self.old.plan (is_err result) }
    {
        if self.plan.begin() {
            return Err(SourceFailed);
        }
        Ok(self.reader.read(into))
    }
}

/// A source of bytes in memory whose reads never fail.
#[derive(Drop)]
pub struct SureSource {
    reader: Reader,
}

impl Model for SureSource {
    ghost use Rattle.std.specs.Prelude.{ℕ, List};

    ghost Value = { List ℕ };

    ghost view = { λ s. s.reader };
}

impl SureSource {
    /// A source of these bytes.
    pub fn new(bytes: Vec<u8>) -> Self
        ensures { result ≡ bytes.items }
    {
        SureSource {
            reader: Reader::new(bytes),
        }
    }
}

impl Source for SureSource {
    ghost means = { sure_source_means };

    ghost keeps_itself = { λ s. tt };

    ghost keeps_on = { λ a b c first next. tt };

    fn read(&mut self, into: &mut [u8]) -> Result<usize, SourceFailed>
        requires { 0 < length into.old }
        ensures within { IfOk result (λ n. n ≤ length into.old) }
        ensures gives { IfOk result (λ n.
            IfSome (sure_source_means.left self.old) (λ bytes. Gives bytes into.new n)) }
        ensures left { IfOk result (λ n.
            sure_source_means.left self.new ≡ option_map (drop n) (sure_source_means.left self.old)) }
        ensures failed { OnErr result
            (sure_source_means.left self.new ≡ sure_source_means.left self.old) }
        ensures kept { sure_source_means.keeps self.old self.new }
        ensures cause { HasCause (sure_source_means.faults self.old)
            (sure_source_means.faults self.new) result }

        // It does not fail, and gives as many bytes as are left and fit.
        ensures succeeds { IsOk result }
        ensures amount { IfOk result (λ n. n ≡ min (length self.old) (length into.old)) }
        ensures bytes { IfOk result (λ n. into.new ≡ take n self.old ++ drop n into.old) }
        ensures rest { IfOk result (λ n. self.new ≡ drop n self.old) }
    {
        Ok(self.reader.read(into))
    }
}
