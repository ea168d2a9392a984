//! A source and a sink over memory that never fail.
ghost use Rattle.std.specs.Prelude.{◌≡◌, ◌-◌, ◌<◌, ◌≤◌, ◌++◌, [], false, min, IfOk, List, ℕ, Some, drop, length, take, vec_capacity, vec_len};
ghost use Rattle.text_bytes.specs.Outside.{HasRisen, IsRead, IsWritten, kept_told, read_of};

use crate::outside::{Read, Sink, Source, Wrote};
use machine_data::NoMemory;
use std::alloc::Global;

/// A source over memory, which gives at most `piece` bytes a call and never fails.
#[derive(Drop)]
pub struct SureSource {
    bytes: Vec<u8>,
    at: usize,
    piece: usize,
    ghost piece_is_some: { 0 < piece },
    ghost at_is_inside: { at ≤ vec_len bytes },
}

impl SureSource {
    /// Makes a source of these bytes. `piece` is at least 1.
    pub fn new(bytes: Vec<u8>, piece: usize) -> Self
        requires { 0 < piece }
        ensures left { ⟦<SureSource as Source>⟧.left result ≡ Some bytes.items }
        ensures faults { ⟦<SureSource as Source>⟧.faults result ≡ 0 }
        ensures piece { result.piece ≡ piece }
    {
        SureSource {
            bytes,
            at: 0,
            piece,
        }
    }
}

impl Source for SureSource {
    ghost faults = { λ _. 0 };

    ghost left = { λ s. Some (drop s.at s.bytes.items) };

    fn read(&mut self, buf: &mut [u8]) -> Read
        requires { 0 < length buf.old }
        ensures count { 0 ≤ 0 }
        ensures cause { result ≡ Read.Failed → HasRisen 0 0 }
        ensures read { IsRead (Some (drop self.old.at self.old.bytes.items)) (Some (drop self.new.at self.new.bytes.items)) buf.new result }
        // It gives at most `piece` bytes, and doesn't fail.
        ensures answer { result ≡ read_of false (vec_len self.old.bytes - self.old.at) self.old.piece (length buf.old) }
        ensures piece { self.new.piece ≡ self.old.piece }
    {
        let count = (self.bytes.len() - self.at).min(self.piece).min(buf.len());
        if count == 0 {
            return Read::End;
        }
        buf[..count].copy_from_slice(&self.bytes[self.at..self.at + count]);
        self.at += count;
        Read::Got(count)
    }
}

/// A sink over memory, which takes at most `piece` bytes a call and never fails. It keeps what its
/// room holds. Once something has passed that, it tells nothing of its content.
#[derive(Drop)]
pub struct SureSink {
    bytes: Vec<u8>,
    capacity: usize,
    piece: usize,
    passed: bool,
    ghost piece_is_some: { 0 < piece },
    ghost room_is_there: { capacity ≤ vec_capacity bytes },
    ghost kept_is_inside: { vec_len bytes ≤ capacity },
}

impl SureSink {
    /// Makes a sink with room for `capacity` bytes. `piece` is at least 1. NoMemory where the room can't be had.
    pub fn new(alloc: Global, piece: usize, capacity: usize) -> Result<Self, NoMemory>
        requires { 0 < piece }
        ensures held { IfOk result (λ sink. ⟦<SureSink as Sink>⟧.held sink ≡ Some []) }
        ensures faults { IfOk result (λ sink. ⟦<SureSink as Sink>⟧.faults sink ≡ 0) }
        ensures room { IfOk result (λ sink. sink.capacity ≡ capacity) }
        ensures piece { IfOk result (λ sink. sink.piece ≡ piece) }
    {
        let Ok(bytes) = Vec::with_capacity(alloc, capacity) else {
            return Err(NoMemory);
        };
        Ok(SureSink {
            bytes,
            capacity,
            piece,
            passed: false,
        })
    }

    /// Returns the bytes that the sink keeps: the first ones that it took, as many as it has room for.
    pub fn bytes(&self) -> &[u8]
        ensures kept { result.now ≡ self.now.bytes.items }
        ensures held { (held : List ℕ) → ⟦<SureSink as Sink>⟧.held self.now ≡ Some held → result.now ≡ held }
    {
        self.bytes.as_slice()
    }
}

impl Sink for SureSink {
    ghost faults = { λ _. 0 };

    ghost held = { λ s. kept_told s.passed s.bytes.items };

    fn write(&mut self, bytes: &[u8]) -> Wrote
        requires { 0 < length bytes.now }
        ensures count { 0 ≤ 0 }
        ensures cause { result ≡ Wrote.Failed → HasRisen 0 0 }
        ensures written { IsWritten (kept_told self.old.passed self.old.bytes.items) (kept_told self.new.passed self.new.bytes.items) bytes.now result }
        // It takes a whole piece, and keeps what there is room for.
        ensures takes { result ≡ Wrote.Took (min self.old.piece (length bytes.now)) }
        ensures kept { self.new.bytes.items ≡ take self.old.capacity (self.old.bytes.items ++ take (min self.old.piece (length bytes.now)) bytes.now) }
        ensures room { self.new.capacity ≡ self.old.capacity }
        ensures piece { self.new.piece ≡ self.old.piece }
    {
        let count = self.piece.min(bytes.len());
        let kept = count.min(self.capacity - self.bytes.len());
        if kept < count {
            self.passed = true;
        }
        let Ok(()) = self.bytes.extend_from_slice(&bytes[..kept]) else {
            unreachable!()
        };
        Wrote::Took(count)
    }
}
