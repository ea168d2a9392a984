ghost use Rattle.run_trace.specs.Traced.{with_label};
ghost use Rattle.std.specs.Prelude.{◌≡◌, ◌<◌, ◌≤◌, [], OnErr, OnOk, length};

use crate::kinds::{CallKind, Head, LabelKind};
use crate::open::Labels;
use machine_data::Label;
use std::alloc::{AllocError, Global};
use std::marker::Model;

/// A list of labels in little room. A contract sees the labels, the first one first, and for how many more there is room.
///
/// A label takes 8 bytes, and 8 for each of its numbers after the first one. It is for those who make steps: hosts see the
/// `Trace` of the loop, to which runs alone add.
#[derive(Drop)]
pub struct PackedLabels {
    pub(crate) heads: Vec<Head>,
    pub(crate) numbers: Vec<u64>,
    // For so many labels more there is room in both lists.
    pub(crate) spare: usize,
}

impl Model for PackedLabels {
    ghost use Rattle.std.specs.Prelude.{vec_capacity, vec_len};
    ghost use Rattle.run_trace.specs.Labels.{IsPacked, labels_of};
    ghost use Rattle.run_trace.specs.Traced.{Traced};

    ghost Value = { Traced };

    ghost view = { λ t. record { labels = labels_of t.heads.items t.numbers.items; spare = t.spare } };

    ghost invariant = { λ t. IsPacked t.heads.items t.numbers.items t.spare (vec_len t.heads) (vec_capacity t.heads) (vec_len t.numbers)
        (vec_capacity t.numbers) };
}

impl PackedLabels {
    /// Makes a list of no label.
    pub fn new(alloc: Global) -> Self
        ensures { result ≡ record { labels = []; spare = 0 } }
    {
        PackedLabels {
            heads: Vec::new(alloc),
            numbers: Vec::new(alloc),
            spare: 0,
        }
    }

    /// Returns how many labels there are.
    pub fn len(&self) -> usize
        ensures { result ≡ length self.now.labels }
    {
        self.heads.len()
    }

    /// Returns the labels, the first one first.
    #[inline(always)]
    pub fn labels(&self) -> Labels<'_>
        ensures { result ≡ self.now.labels }
    {
        Labels {
            heads: self.heads.as_slice(),
            numbers: self.numbers.as_slice(),
        }
    }

    /// Makes room for so many labels more, if there is less. The labels stay as they were. If it is out of memory, all is as before.
    pub fn reserve(&mut self, room: usize) -> Result<(), AllocError>
        ensures labels { self.new.labels ≡ self.old.labels }
        ensures kept { self.old.spare ≤ self.new.spare }
        ensures room { OnOk result (room ≤ self.new.spare) }
        ensures err { OnErr result ((self.new ≡ self.old) × (self.old.spare < room)) }
    {
        if room <= self.spare {
            return Ok(());
        }
        let Some(most) = room.checked_mul(3) else {
            return Err(AllocError);
        };
        self.heads.reserve(room)?;
        self.numbers.reserve(most)?;
        let heads = self.heads.capacity() - self.heads.len();
        let numbers = (self.numbers.capacity() - self.numbers.len()) / 3;
        self.spare = if heads < numbers { heads } else { numbers };
        Ok(())
    }

    /// Makes room for a label more, if there is none. Mostly it is there. If it is out of memory, all is as before.
    #[inline(always)]
    pub fn make_room(&mut self) -> Result<(), AllocError>
        ensures labels { self.new.labels ≡ self.old.labels }
        ensures kept { self.old.spare ≤ self.new.spare }
        ensures room { OnOk result (0 < self.new.spare) }
        ensures err { OnErr result ((self.new ≡ self.old) × (self.old.spare ≡ 0)) }
    {
        if self.spare > 0 {
            return Ok(());
        }
        self.make_more()
    }

    // It is a function of its own, as there is mostly room. Vectors grow by their own measure, so that it is called seldom.
    #[cold]
    #[inline(never)]
    fn make_more(&mut self) -> Result<(), AllocError>
        ensures labels { self.new.labels ≡ self.old.labels }
        ensures kept { self.old.spare ≤ self.new.spare }
        ensures room { OnOk result (1 ≤ self.new.spare) }
        ensures err { OnErr result ((self.new ≡ self.old) × (self.old.spare < 1)) }
    {
        self.reserve(1)
    }

    /// Adds a label, for which there is room.
    #[inline(always)]
    pub fn push(&mut self, label: Label)
        requires { 0 < self.old.spare }
        ensures { self.new ≡ with_label self.old label }
    {
        match label {
            Label::Main(label) => self.push_main(label),
            Label::Loop(label) => self.push_loop(label),
            Label::Take(label) => self.push_take(label),
            Label::Data(label) => self.push_data(label),
            Label::Task(label) => self.push_task(label),
            Label::Set(label) => self.push_set(label),
            Label::Call(label) => self.push_call(label),
            Label::Thread(label) => self.push_thread(label),
            Label::RetWakes(thread, value, woken) => {
                self.three(LabelKind::Call(CallKind::RetWakes), thread, value, woken)
            }
            Label::CallSyncPolls(thread, value, work) => {
                self.three_outlined(
                    LabelKind::Call(CallKind::CallSyncPolls),
                    thread,
                    value,
                    work,
                )
            }
        }
    }
}
