ghost use Rattle.std.specs.Prelude.{◌≡◌, ◌-◌, ◌<◌, ◌≤◌, [], IfOk, Some, drop, length, vec_capacity, vec_len};
ghost use Rattle.text_bytes.specs.Outside.{HasRisen, IsRead, IsWritten, next_call, read_of, write_of, fails};

use crate::outside::{Read, Sink, Source, Wrote};
use machine_data::NoMemory;
use std::alloc::Global;

/// A source over memory, which gives at most `piece` bytes a call and fails at chosen calls.
#[derive(Drop)]
pub struct MemorySource {
    bytes: Vec<u8>,
    at: usize,
    piece: usize,
    fail: Vec<u32>,
    calls: u32,
    faults: u64,
    ghost piece_is_some: { 0 < piece },
    ghost at_is_inside: { at ≤ vec_len bytes },
}

impl MemorySource {
    /// Makes a source of these bytes that fails at the calls that `fail` lists, counted from 1. `piece` is at least 1.
    pub fn new(bytes: Vec<u8>, piece: usize, fail: Vec<u32>) -> Self
        requires { 0 < piece }
        ensures left { ⟦<MemorySource as Source>⟧.left result ≡ Some bytes.items }
        ensures faults { ⟦<MemorySource as Source>⟧.faults result ≡ 0 }
        ensures piece { result.piece ≡ piece }
        ensures fail { result.fail ≡ fail }
        ensures calls { result.calls ≡ 0 }
    {
        MemorySource {
            bytes,
            at: 0,
            piece,
            fail,
            calls: 0,
            faults: 0,
        }
    }
}

impl Source for MemorySource {
    ghost faults = { λ s. s.faults };

    ghost left = { λ s. Some (drop s.at s.bytes.items) };

    fn read(&mut self, buf: &mut [u8]) -> Read
        requires { 0 < length buf.old }
        ensures count { self.old.faults ≤ self.new.faults }
        ensures cause { result ≡ Read.Failed → HasRisen self.old.faults self.new.faults }
        ensures read { IsRead (Some (drop self.old.at self.old.bytes.items)) (Some (drop self.new.at self.new.bytes.items)) buf.new result }
        // It gives at most `piece` bytes, and fails at just the calls that are listed.
        ensures answer { result ≡ read_of (fails self.old.fail.items self.old.calls) (vec_len self.old.bytes - self.old.at) self.old.piece (length buf.old) }
        ensures calls { self.new.calls ≡ next_call self.old.calls }
        ensures piece { self.new.piece ≡ self.old.piece }
        ensures fail { self.new.fail ≡ self.old.fail }
    {
        self.calls = self.calls.saturating_add(1);
        if self.fail.contains(&self.calls) {
            self.faults = self.faults.saturating_add(1);
            return Read::Failed;
        }
        let count = (self.bytes.len() - self.at).min(self.piece).min(buf.len());
        if count == 0 {
            return Read::End;
        }
        buf[..count].copy_from_slice(&self.bytes[self.at..self.at + count]);
        self.at += count;
        Read::Got(count)
    }
}

/// A sink over memory, which takes at most `piece` bytes a call and fails at chosen calls, and where
/// its room is full.
#[derive(Drop)]
pub struct MemorySink {
    bytes: Vec<u8>,
    capacity: usize,
    piece: usize,
    fail: Vec<u32>,
    calls: u32,
    faults: u64,
    ghost piece_is_some: { 0 < piece },
    ghost room_is_there: { capacity ≤ vec_capacity bytes },
    ghost kept_is_inside: { vec_len bytes ≤ capacity },
}

impl MemorySink {
    /// Makes a sink with room for `capacity` bytes that fails at the calls that `fail` lists, counted from
    /// 1. `piece` is at least 1. NoMemory where the room can't be had.
    pub fn new(
        alloc: Global,
        piece: usize,
        capacity: usize,
        fail: Vec<u32>,
    ) -> Result<Self, NoMemory>
        requires { 0 < piece }
        ensures held { IfOk result (λ sink. ⟦<MemorySink as Sink>⟧.held sink ≡ Some []) }
        ensures room { IfOk result (λ sink. sink.capacity ≡ capacity) }
        ensures faults { IfOk result (λ sink. ⟦<MemorySink as Sink>⟧.faults sink ≡ 0) }
        ensures piece { IfOk result (λ sink. sink.piece ≡ piece) }
        ensures fail { IfOk result (λ sink. sink.fail ≡ fail) }
        ensures calls { IfOk result (λ sink. sink.calls ≡ 0) }
    {
        let Ok(bytes) = Vec::with_capacity(alloc, capacity) else {
            return Err(NoMemory);
        };
        Ok(MemorySink {
            bytes,
            capacity,
            piece,
            fail,
            calls: 0,
            faults: 0,
        })
    }

    /// Returns the bytes that the sink holds.
    pub fn bytes(&self) -> &[u8]
        ensures { ⟦<MemorySink as Sink>⟧.held self.now ≡ Some result.now }
    {
        self.bytes.as_slice()
    }
}

impl Sink for MemorySink {
    ghost faults = { λ s. s.faults };

    ghost held = { λ s. Some s.bytes.items };

    fn write(&mut self, bytes: &[u8]) -> Wrote
        requires { 0 < length bytes.now }
        ensures count { self.old.faults ≤ self.new.faults }
        ensures cause { result ≡ Wrote.Failed → HasRisen self.old.faults self.new.faults }
        ensures written { IsWritten (Some self.old.bytes.items) (Some self.new.bytes.items) bytes.now result }
        // It takes at most `piece` bytes, and fails at just the calls that are listed and where its room is full.
        ensures answer { result ≡ write_of (fails self.old.fail.items self.old.calls) (self.old.capacity - vec_len self.old.bytes) self.old.piece (length bytes.now) }
        ensures calls { self.new.calls ≡ next_call self.old.calls }
        ensures room { self.new.capacity ≡ self.old.capacity }
        ensures piece { self.new.piece ≡ self.old.piece }
        ensures fail { self.new.fail ≡ self.old.fail }
        ensures full { self.old.capacity ≤ length self.old.bytes.items → result ≡ Wrote.Failed }
    {
        self.calls = self.calls.saturating_add(1);
        let room = self.capacity - self.bytes.len();
        let count = room.min(self.piece).min(bytes.len());
        if count == 0 || self.fail.contains(&self.calls) {
            self.faults = self.faults.saturating_add(1);
            return Wrote::Failed;
        }
        let Ok(()) = self.bytes.extend_from_slice(&bytes[..count]) else {
            unreachable!()
        };
        Wrote::Took(count)
    }
}
