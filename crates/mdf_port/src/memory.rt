ghost use Rattle.std.specs.Prelude.{◌≡◌, ◌≤◌, ◌<◌, ◌+◌, ◌-◌, ◌^◌, ◌↔◌, [], Some, Contains, length, drop, min, IsOk, IfOk, OnOk};
ghost use Rattle.std.specs.Io.KnownBytes.{ReadConsumes, WriteAppends};
ghost use Rattle.mdf_format.specs.Cause.{HasCause};

use crate::{Sink, Source};
use mdf_num::{Bytes, Failed, FaultPlan, Numbers};
use std::alloc::Global;

/// A source over bytes in memory.
#[derive(Drop)]
pub struct MemorySource {
    bytes: Bytes,
    at: usize,
    plan: FaultPlan,
    ghost within: { at ≤ length bytes },
}

impl MemorySource {
    ghost use Rattle.mdf_port.specs.Memory.{source_plan};

    /// Over these bytes. The calls whose numbers, counted from 0, stand in the list fail.
    pub fn new(bytes: Bytes, failing: Numbers) -> MemorySource
        ensures left { ⟦<MemorySource as Source>⟧.left result ≡ Some bytes }
        ensures faults { ⟦<MemorySource as Source>⟧.faults result ≡ 0 }
        ensures failing { (source_plan result).failing ≡ failing }
        ensures calls { (source_plan result).calls ≡ 0 }
    {
        MemorySource {
            bytes,
            at: 0,
            plan: FaultPlan::new(failing),
        }
    }
}

impl Source for MemorySource {
    ghost use Rattle.mdf_port.specs.Memory.{source_plan};

    ghost left = { λ s. Some (drop s.at s.bytes) };

    ghost faults = { λ s. s.plan.faults };

    fn take(&mut self, buf: &mut [u8]) -> Result<usize, Failed>
        requires { 0 < length buf.old }
        ensures bound { IfOk result (λ n. n ≤ length buf.old) }
        ensures taken { ReadConsumes (⟦<MemorySource as Source>⟧.left self.old) (⟦<MemorySource as Source>⟧.left self.new) result buf.new }
        ensures cause { HasCause (⟦<MemorySource as Source>⟧.faults self.old) (⟦<MemorySource as Source>⟧.faults self.new) result }
        ensures calm { OnOk result (⟦<MemorySource as Source>⟧.faults self.new ≡ ⟦<MemorySource as Source>⟧.faults self.old) }
        ensures planned { IsOk result ↔ ¬ Contains (source_plan self.old).failing (source_plan self.old).calls }
        ensures failing { (source_plan self.new).failing ≡ (source_plan self.old).failing }
        ensures calls { (source_plan self.new).calls ≡ min ((source_plan self.old).calls + 1) (2 ^ 64 - 1) }
    {
        if !self.plan.call() {
            return Err(self.plan.fail());
        }
        let bytes = self.bytes.as_slice();
        let rest = &bytes[self.at..];
        let count = buf.len().min(rest.len());
        buf[..count].copy_from_slice(&rest[..count]);
        self.at += count;
        Ok(count)
    }

    fn faults(&self) -> u64 {
        self.plan.faults()
    }
}

/// A sink in memory. Where it finds no memory, it counts a fault.
#[derive(Drop)]
pub struct MemorySink {
    bytes: Bytes,
    plan: FaultPlan,
}

impl MemorySink {
    ghost use Rattle.mdf_port.specs.Memory.{sink_plan};

    /// An empty sink. The calls whose numbers, counted from 0, stand in the list fail.
    pub fn new(alloc: Global, failing: Numbers) -> MemorySink
        ensures held { ⟦<MemorySink as Sink>⟧.held result ≡ Some [] }
        ensures faults { ⟦<MemorySink as Sink>⟧.faults result ≡ 0 }
        ensures failing { (sink_plan result).failing ≡ failing }
        ensures calls { (sink_plan result).calls ≡ 0 }
    {
        MemorySink {
            bytes: Bytes::empty(alloc),
            plan: FaultPlan::new(failing),
        }
    }

    /// What it holds.
    pub fn bytes(&self) -> &[u8]
        ensures { ⟦<MemorySink as Sink>⟧.held self.now ≡ Some result.now }
    {
        self.bytes.as_slice()
    }
}

impl Sink for MemorySink {
    ghost use Rattle.mdf_port.specs.Memory.{sink_plan};

    ghost held = { λ s. Some s.bytes };

    ghost faults = { λ s. s.plan.faults };

    fn give(&mut self, bytes: &[u8]) -> Result<usize, Failed>
        requires { 0 < length bytes.now }
        ensures some { IfOk result (λ n. 0 < n) }
        ensures bound { IfOk result (λ n. n ≤ length bytes.now) }
        ensures given { WriteAppends (⟦<MemorySink as Sink>⟧.held self.old) (⟦<MemorySink as Sink>⟧.held self.new) result bytes.now }
        ensures cause { HasCause (⟦<MemorySink as Sink>⟧.faults self.old) (⟦<MemorySink as Sink>⟧.faults self.new) result }
        ensures calm { OnOk result (⟦<MemorySink as Sink>⟧.faults self.new ≡ ⟦<MemorySink as Sink>⟧.faults self.old) }
        ensures planned { OnOk result (¬ Contains (sink_plan self.old).failing (sink_plan self.old).calls) }
        ensures failing { (sink_plan self.new).failing ≡ (sink_plan self.old).failing }
        ensures calls { (sink_plan self.new).calls ≡ min ((sink_plan self.old).calls + 1) (2 ^ 64 - 1) }
    {
        if !self.plan.call() {
            return Err(self.plan.fail());
        }
        if self.bytes.push_slice(bytes).is_err() {
            return Err(self.plan.fail());
        }
        Ok(bytes.len())
    }

    fn faults(&self) -> u64 {
        self.plan.faults()
    }
}
