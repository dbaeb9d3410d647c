//! A sink in memory.

ghost use Rattle.std.specs.Prelude.{◌≡◌, ◌↔◌, ◌⊎◌, ◌<◌, ◌≤◌, ◌+◌, ◌-◌, ◌++◌, [], length, take, min, is_err, IsErr, IfOk, OnErr};
ghost use Rattle.qic_base.specs.Cause.{HasCause};
ghost use Rattle.qic_base.specs.SinkCalls.{Takes};
ghost use Rattle.qic_mem.specs.Plan.{new_plan, IsChosen, plan_after};
ghost use Rattle.qic_mem.specs.Sink.{sink_means};

use crate::plan::CallPlan;
use qic_base::{NoMemory, Sink, SinkFailed, put_bytes};
use std::alloc::Global;
use std::marker::Model;

/// A sink of bytes in memory, whose chosen calls fail.
#[derive(Drop)]
pub struct MemSink {
    buffer: Vec<u8>,
    len: usize,
    plan: CallPlan,
}

impl Model for MemSink {
    ghost use Rattle.std.specs.Prelude.{◌≤◌, take, length};
    ghost use Rattle.qic_mem.specs.Sink.{SinkState};

    ghost Value = { SinkState };

    ghost view = { λ k. record {
      bytes = take k.len k.buffer.items;
      room = length k.buffer.items;
      plan = k.plan;
    } };

    ghost invariant = { λ k. k.len ≤ length k.buffer.items };
}

impl MemSink {
    /// A sink with room for `room` bytes, which it takes at once. `fails` has the numbers of the
    /// writes that are to fail, counted from 0. A write that finds no room at all fails too.
    pub fn new(alloc: Global, room: usize, fails: Vec<u64>) -> Result<Self, NoMemory>
        ensures { IfOk result (λ sink.
            sink ≡ record { bytes = []; room = room; plan = new_plan fails.items }) }
    {
        Ok(MemSink {
            buffer: vec![in alloc; 0; room]?,
            len: 0,
            plan: CallPlan::new(fails),
        })
    }

    /// The bytes written so far.
    pub fn bytes(&self) -> &[u8]
        ensures { result.now ≡ self.now.bytes }
    {
        &self.buffer[..self.len]
    }
}

impl Sink for MemSink {
    ghost means = { sink_means };

    ghost use Rattle.std.proofs.Common.{rules, arith};
    ghost use Rattle.std.proofs.lemmas.Grind.{common_steps};

    ghost took_nothing = { λ k. Prim.search (rules, common_steps) };

    ghost took_both = { λ a b c xs ys first next. Prim.grind (arith, common_steps) };

    ghost took_told = { λ a b xs took. Prim.search (rules, common_steps) };

    fn write(&mut self, from: &[u8]) -> Result<usize, SinkFailed>
        requires { 0 < length from.now }
        ensures takes { Takes sink_means self.old self.new from.now result }
        ensures cause { HasCause (sink_means.faults self.old) (sink_means.faults self.new) result }

        // It fails exactly at its chosen numbers and where it is full, and takes as many bytes as fit.
        ensures fails { IsErr result
            ↔ (IsChosen self.old.plan ⊎ (length self.old.bytes ≡ self.old.room)) }
        ensures amount { IfOk result (λ n.
            n ≡ min (length from.now) (self.old.room - length self.old.bytes)) }
        ensures bytes { IfOk result (λ n. self.new.bytes ≡ self.old.bytes ++ take n from.now) }
        ensures same { OnErr result (self.new.bytes ≡ self.old.bytes) }
        ensures room { self.new.room ≡ self.old.room }
        ensures plan { self.new.plan ≡ plan_after self.old.plan (is_err result) }
    {
        let fails = self.plan.is_next_chosen() || self.len == self.buffer.len();
        self.plan.count(fails);
        if fails {
            return Err(SinkFailed);
        }
        let count = from.len().min(self.buffer.len() - self.len);
        put_bytes(&mut self.buffer, self.len, &from[..count]);
        self.len += count;
        Ok(count)
    }
}
