//! Ops on registers and memory cells, in the context of a thread.
ghost use Rattle.std.specs.Prelude.{◌≡◌, ◌<◌, ◌+◌, ◌^◌, Some, slice_set};
ghost use Rattle.machine_data.specs.Maps.{get};
ghost use Rattle.machine_data.specs.Read.{instance_of, position_of, registers_of};
ghost use Rattle.machine_data.specs.declared.records.Thread.{Thread};
ghost use Rattle.machine_rules.specs.Scripts.{value_in};
ghost use Rattle.ops_turns.specs.Context.{DoesData, KeepsBeside, place_after};
ghost use Rattle.core_primitives.specs.StateView.{thread_of};

use core_primitives::{Primitives, ThreadId};
use machine_data::{DataLabel, DataOp, Label, Operand};

/// A thread's context: its place in its script, from 0, and its registers. A loop over ops works
/// with it apart from the thread's record, and writes it back in the end.
#[derive(Clone, Copy)]
pub struct ThreadContext {
    pub position: u32,
    pub registers: [u64; 16],
}

/// Returns the context of a thread.
pub(crate) fn context_of<W: Primitives>(w: &W, thread: ThreadId) -> ThreadContext
    requires { 0 < thread_of (W.view w.now) thread }
    ensures position { result.position ≡ position_of (thread_of (W.view w.now) thread) (W.view w.now).core }
    ensures registers { result.registers ≡ registers_of (thread_of (W.view w.now) thread) (W.view w.now).core }
{
    ThreadContext {
        position: w.position(thread),
        registers: w.registers(thread),
    }
}

/// Returns an operand's value in these registers.
#[inline(always)]
pub fn operand_value(registers: &[u64; 16], operand: Operand) -> u64
    ensures { result ≡ value_in registers.now operand }
{
    match operand {
        Operand::Number(value) => value,
        Operand::Register(register) => registers.get(register as usize).copied().unwrap_or(0),
    }
}

// The op answers in a register, 0 to 15, and the thread goes on after it. There are no other registers, and a write of one
// changes nothing.
#[inline(always)]
fn assigns(context: &mut ThreadContext, register: u8, answer: u64)
    requires { context.old.position + 1 < 2 ^ 32 }
    ensures { context.new ≡ record { position = context.old.position + 1; registers = slice_set context.old.registers register answer } }
{
    if register < 16 {
        context.registers[register as usize] = answer;
    }
    context.position += 1;
}

// The place after `skip_eq`: so many ops past the next one where the operands are equal, at most the script's end.
#[inline(always)]
fn place_after(context: &ThreadContext, left: Operand, right: Operand, ops: u32, end: u32) -> u32
    requires { context.now.position < end }
    ensures { result ≡ place_after context.now left right ops end }
{
    let equal = operand_value(&context.registers, left) == operand_value(&context.registers, right);
    let passed = if equal { ops } else { 0 };
    let place = context.position as u64 + 1 + passed as u64;
    place.min(end as u64) as u32
}

/// Has a thread that is there, of this instance and at this context before its script's end, do an op on registers and memory
/// cells. Its record keeps the context of before. It is inlined so that a label is made where it is.
#[inline(always)]
pub(crate) fn computes_in<W: Primitives>(
    w: &mut W,
    context: &mut ThreadContext,
    number: u64,
    instance: u32,
    end: u32,
    op: &DataOp,
) -> DataLabel
    requires there { (t : Thread) × (get (W.view w.old).core.threads number ≡ Some t) }
    requires instance { instance ≡ instance_of number (W.view w.old).core }
    requires before { context.old.position < end }
    ensures row { DoesData number end op.now result context.old (W.view w.old).core context.new (W.view w.new).core }
    ensures beside { KeepsBeside (W.view w.old) (W.view w.new) }
{
    match op {
        DataOp::Set { to, value } => {
            let answer = operand_value(&context.registers, *value);
            assigns(context, *to, answer);
            DataLabel::Set(number, answer)
        }
        DataOp::Add { to, value } => {
            let left = operand_value(&context.registers, Operand::Register(*to));
            let answer = left.wrapping_add(operand_value(&context.registers, *value));
            assigns(context, *to, answer);
            DataLabel::Add(number, answer)
        }
        DataOp::Handle { to, value } => {
            let answer = operand_value(&context.registers, *value) / 16;
            assigns(context, *to, answer);
            DataLabel::Handle(number, answer)
        }
        DataOp::Load { to, cell } => {
            let answer = w.memory_cell(instance, *cell);
            assigns(context, *to, answer);
            DataLabel::Load(number, answer)
        }
        DataOp::Store { cell, value } => {
            let answer = operand_value(&context.registers, *value);
            w.set_memory_cell(instance, *cell, answer);
            context.position += 1;
            DataLabel::Store(number, answer)
        }
        DataOp::SkipEq { left, right, ops } => {
            context.position = place_after(context, *left, *right, *ops, end);
            DataLabel::SkipEq(number)
        }
    }
}
