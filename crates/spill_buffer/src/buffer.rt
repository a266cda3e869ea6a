//! A list of bytes, in memory while it is short, and in a spill once it isn't.
ghost use Rattle.std.specs.Prelude.{◌≡◌, ◌≢◌, ◌≤◌, ◌<◌, ◌+◌, ◌^◌, ◌↔◌, IsTrue, [], ◌++◌, length};
ghost use Rattle.std.specs.Prelude.{take, drop, min, Err, IfOk, OnOk, OnErr};
ghost use Rattle.spill_buffer.specs.Buffer.{IsToldAs, SpillCause};
ghost use Rattle.spill_buffer.specs.declared.fault.BufferFault.TheVariants.{NoMemory};

use crate::BufferFault;
use crate::room::{clear, close_up, fill};
use outside::Spill;
use std::alloc::Global;
use std::marker::Model;

/// Bytes that are taken in the order in which they were appended. Either all of them stand in
/// memory, fewer than `overflow`, or all stand in the spill.
#[derive(Debug, Drop)]
pub struct OverflowBuffer<S: Spill> {
    memory: Vec<u8>,
    // how many bytes at the front of `memory` were skipped
    skipped: usize,
    // the places between which the bytes stand in the spill; none stand there where they are equal
    start: u64,
    end: u64,
    overflow: u64,
    spill: S,
}

impl<S: Spill> Model for OverflowBuffer<S> {
    ghost use Rattle.std.specs.Prelude.{◌-◌, ◌++◌, length, drop};
    ghost use Rattle.spill_buffer.specs.Buffer.{Buffered, buffered_coded, stored, Keeps};

    ghost Value = { Buffered S };

    ghost coded = { buffered_coded S.code };

    ghost view = { λ b. record {
      bytes = drop b.skipped b.memory.items ++ stored S.tells (S.content b.spill) b.start b.end;
      in_memory = length b.memory.items - b.skipped;
      overflow = b.overflow;
      spill = b.spill;
    } };

    ghost invariant = { λ b.
        Keeps b.memory.items b.skipped b.start b.end b.overflow (S.size b.spill) };
}

impl<S: Spill> OverflowBuffer<S> {
    /// An empty buffer. From `overflow` bytes on they stand in the spill.
    pub fn new(alloc: Global, spill: S, overflow: u64) -> OverflowBuffer<S>
        requires { 1 ≤ overflow }
        ensures { result ≡ record {
          bytes = [];
          in_memory = 0;
          overflow = overflow;
          spill = spill;
        } }
    {
        OverflowBuffer {
            memory: Vec::new(alloc),
            skipped: 0,
            start: 0,
            end: 0,
            overflow,
            spill,
        }
    }

    /// Puts bytes behind those that are there, or none of them.
    pub fn append(&mut self, from: &[u8]) -> Result<(), BufferFault>
        ensures appended { OnOk result (IsToldAs S.tells self.new.bytes
            (self.old.bytes ++ from.now)) }
        ensures kept { OnErr result (IsToldAs S.tells self.new.bytes self.old.bytes) }
        ensures cause { SpillCause result (S.faults self.old.spill) (S.faults self.new.spill) }
        ensures in_memory { OnOk result (self.old.in_memory ≡ length self.old.bytes
            → length self.new.bytes < self.old.overflow
            → self.new.in_memory ≡ length self.new.bytes) }
        ensures memory_kept { OnErr result (self.new.in_memory ≡ self.old.in_memory) }
        ensures grows { self.new.in_memory ≤ self.old.in_memory + length from.now }
        ensures overflow { self.new.overflow ≡ self.old.overflow }
        ensures below { self.new.in_memory < self.new.overflow }
        ensures spilled { OnOk result (self.old.overflow ≤ length self.new.bytes
            → self.new.in_memory ≡ 0) }
        ensures follows { OnOk result (self.old.in_memory < length self.old.bytes
            → self.new.in_memory ≡ 0) }
        // What never left memory is known whatever the spill.
        ensures known { OnOk result (self.new.in_memory ≡ length self.new.bytes
            → self.new.bytes ≡ self.old.bytes ++ from.now) }
        ensures stays { OnErr result (self.old.in_memory ≡ length self.old.bytes
            → self.new.bytes ≡ self.old.bytes) }
    {
        if self.start < self.end {
            self.spill.write(self.end, from)?;
            self.end = self.spill.len();
            return Ok(());
        }
        close_up(&mut self.memory, &mut self.skipped);
        let length = self.memory.len() - self.skipped + from.len();
        if (length as u64) < self.overflow {
            self.memory.extend_from_slice(from)?;
            return Ok(());
        }
        self.start = 0;
        self.end = 0;
        fill(&mut self.spill, &self.memory[self.skipped..], from)?;
        self.end = self.spill.len();
        clear(&mut self.memory);
        self.skipped = 0;
        Ok(())
    }

    /// The first bytes, as far as they stand in memory: all of them, or none where they stand in
    /// the spill.
    pub fn lent(&self) -> &[u8]
        ensures { result.now ≡ take self.now.in_memory self.now.bytes }
    {
        &self.memory[self.skipped..]
    }

    /// Gives the first bytes, as many as there is room for. They stay in the buffer. What stands
    /// in `into` behind them, and all of it after a failure, is left open.
    pub fn front(&mut self, into: &mut [u8]) -> Result<usize, BufferFault>
        ensures count { IfOk result (λ n. n ≡ min (length into.old) (length self.old.bytes)) }
        ensures front { IsTrue S.tells → IfOk result (λ n. take n into.new ≡ take n
            self.old.bytes) }
        ensures kept { IsToldAs S.tells self.new.bytes self.old.bytes }
        ensures cause { SpillCause result (S.faults self.old.spill) (S.faults self.new.spill) }
        ensures needs_no_memory { result ≢ Err NoMemory }
        ensures in_memory { self.new.in_memory ≡ self.old.in_memory }
        ensures overflow { self.new.overflow ≡ self.old.overflow }
        ensures known { self.old.in_memory ≡ length self.old.bytes
            → IfOk result (λ n. take n into.new ≡ take n self.old.bytes) }
        ensures stays { self.old.in_memory ≡ length self.old.bytes
            → self.new.bytes ≡ self.old.bytes }
    {
        if self.start < self.end {
            let count = (into.len() as u64).min(self.end - self.start) as usize;
            return Ok(self.spill.read(self.start, &mut into[..count])?);
        }
        let count = into.len().min(self.memory.len() - self.skipped);
        into[..count].copy_from_slice(&self.memory[self.skipped..self.skipped + count]);
        Ok(count)
    }

    /// Drops the first bytes.
    pub fn skip(&mut self, count: u64)
        requires { count ≤ length self.old.bytes }
        ensures rest { IsToldAs S.tells self.new.bytes (drop count self.old.bytes) }
        ensures in_memory { self.old.in_memory ≡ length self.old.bytes
            → self.new.in_memory ≡ length self.new.bytes }
        ensures less { self.new.in_memory ≤ self.old.in_memory }
        ensures spill { self.new.spill ≡ self.old.spill }
        ensures overflow { self.new.overflow ≡ self.old.overflow }
        ensures known { self.old.in_memory ≡ length self.old.bytes
            → self.new.bytes ≡ drop count self.old.bytes }
    {
        if self.start < self.end {
            self.start += count;
            return;
        }
        self.skipped += count as usize;
        if self.skipped == self.memory.len() {
            clear(&mut self.memory);
            self.skipped = 0;
        }
    }

    /// How many bytes are in the buffer, in memory or in the spill.
    pub fn len(&self) -> u64
        ensures { result ≡ length self.now.bytes }
    {
        if self.start < self.end {
            return self.end - self.start;
        }
        (self.memory.len() - self.skipped) as u64
    }

    pub fn is_empty(&self) -> bool
        ensures { IsTrue result ↔ (self.now.bytes ≡ []) }
    {
        self.len() == 0
    }

    /// How many of the bytes stand in memory.
    pub fn memory_len(&self) -> u64
        ensures count { result ≡ self.now.in_memory }
        ensures within { result ≤ length self.now.bytes }
        ensures fits { result < 2 ^ 63 }
        ensures below { result < self.now.overflow }
    {
        (self.memory.len() - self.skipped) as u64
    }

    /// Drops the bytes, and gives the spill back.
    pub fn into_spill(self) -> S
        ensures { result ≡ self.spill }
    {
        let OverflowBuffer {
            memory: _,
            skipped: _,
            start: _,
            end: _,
            overflow: _,
            spill,
        } = self;
        spill
    }
}
