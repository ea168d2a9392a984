//! The ops on registers and memory cells.
ghost use Rattle.ops_guests.specs.Rules.{ImplementsData};
ghost use Rattle.std.specs.Prelude.{◌≡◌, ◌+◌, ◌<◌};
ghost use Rattle.machine_data.specs.Read.{position_of};
ghost use Rattle.machine_data.specs.declared.op.DataOp.TheVariants as data_ops;
ghost use Rattle.machine_rules.specs.Scripts.{value_of};
ghost use Rattle.core_primitives.specs.StateView.{thread_of};

use crate::op_result::{OpAnswer, OpResult};
use core_primitives::{Primitives, ThreadId};
use machine_data::{DataLabel, DataOp, Label, Operand};

/// Returns an operand's value for the thread.
pub fn value_of<W: Primitives>(w: &W, thread: ThreadId, operand: Operand) -> u64
    ensures { result ≡ value_of (thread_of (W.view w.now) thread) (W.view w.now).core operand }
{
    match operand {
        Operand::Number(value) => value,
        Operand::Register(register) => w.register(thread, register),
    }
}

// `skip_eq X Y N`: so many ops past the next one where the operands are equal, at most the script's end.
#[tactic(auto, unfolding(machine_rules::specs::Data::skipped))]
fn skip_equal<W: Primitives>(
    w: &mut W,
    thread: ThreadId,
    left: Operand,
    right: Operand,
    ops: u32,
    end: u32,
) -> OpResult
    requires { position_of (thread_of (W.view w.old) thread) (W.view w.old).core < end }
    ensures implements { ImplementsData end (data_ops.SkipEq left right ops) thread (W.view w.old) result (W.view w.new) }
    ensures tags { (W.view w.new).tags ≡ (W.view w.old).tags }
    ensures current { (W.view w.new).current ≡ (W.view w.old).current }
{
    let number = w.number(thread);
    if value_of(w, thread, left) == value_of(w, thread, right) {
        let place = u64::from(w.position(thread)) + 1 + u64::from(ops);
        w.move_to(thread, place.min(u64::from(end)) as u32);
    } else {
        w.advance(thread);
    }
    OpResult::Continues(
        Label::Data(DataLabel::SkipEq(number)),
        number,
        OpAnswer::NoneDue,
    )
}

// `store W X`
#[tactic(auto, using(crate::proofs::PositionLemmas::position_memory_cell), unfolding(machine_rules::specs::Data::stored))]
fn store<W: Primitives>(w: &mut W, thread: ThreadId, cell: u8, value: Operand, end: u32) -> OpResult
    requires { position_of (thread_of (W.view w.old) thread) (W.view w.old).core < end }
    ensures implements { ImplementsData end (data_ops.Store cell value) thread (W.view w.old) result (W.view w.new) }
    ensures tags { (W.view w.new).tags ≡ (W.view w.old).tags }
    ensures current { (W.view w.new).current ≡ (W.view w.old).current }
{
    let number = w.number(thread);
    let answer = value_of(w, thread, value);
    w.set_memory_cell(w.instance_of(thread), cell, answer);
    w.advance(thread);
    OpResult::Continues(
        Label::Data(DataLabel::Store(number, answer)),
        number,
        OpAnswer::NoneDue,
    )
}

/// Does an op on registers and memory cells, of a script that ends at `end`.
#[tactic(auto, using(crate::proofs::PositionLemmas::position_memory_cell))]
pub fn compute<W: Primitives>(w: &mut W, thread: ThreadId, op: DataOp, end: u32) -> OpResult
    requires { position_of (thread_of (W.view w.old) thread) (W.view w.old).core < end }
    ensures implements { ImplementsData end op thread (W.view w.old) result (W.view w.new) }
    ensures tags { (W.view w.new).tags ≡ (W.view w.old).tags }
    ensures current { (W.view w.new).current ≡ (W.view w.old).current }
{
    let number = w.number(thread);
    let label = match op {
        DataOp::Set { to, value } => {
            let answer = value_of(w, thread, value);
            w.assign(thread, to, answer);
            DataLabel::Set(number, answer)
        }
        DataOp::Add { to, value } => {
            let answer = w
                .register(thread, to)
                .wrapping_add(value_of(w, thread, value));
            w.assign(thread, to, answer);
            DataLabel::Add(number, answer)
        }
        DataOp::Handle { to, value } => {
            let answer = value_of(w, thread, value) / 16;
            w.assign(thread, to, answer);
            DataLabel::Handle(number, answer)
        }
        DataOp::Load { to, cell } => {
            let answer = w.memory_cell(w.instance_of(thread), cell);
            w.assign(thread, to, answer);
            DataLabel::Load(number, answer)
        }
        DataOp::Store { cell, value } => return store(w, thread, cell, value, end),
        DataOp::SkipEq { left, right, ops } => {
            return skip_equal(w, thread, left, right, ops, end);
        }
    };
    OpResult::Continues(Label::Data(label), number, OpAnswer::NoneDue)
}
