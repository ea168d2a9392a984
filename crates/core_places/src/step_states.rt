//! The op progress of threads.
ghost use Rattle.std.specs.Prelude.{◌≡◌, ◌+◌, ◌<◌, ◌^◌};
ghost use Rattle.machine_data.specs.Read.{position_of};
ghost use Rattle.core_places.specs.Moved.{with_registers};
ghost use Rattle.machine_data.specs.Write.{on_thread};
ghost use Rattle.core_records.specs.Seen.{IsSoundCore, seen};
ghost use Rattle.machine_rules.specs.Data.{advanced, assigned, moved_to};
ghost use Rattle.machine_rules.specs.Sets.{given_code, given_handle, given_result};
ghost use Rattle.core_primitives.specs.Context.{activating, with_context};
ghost use Rattle.core_primitives.specs.StateView.{on_core, thread_of};
ghost use Rattle.core_primitives.specs.Changes.{with_op_progress};

use crate::moves::{put_answer, put_begun, put_op, put_there};
use crate::targets::op_progress_from_id;
use core_fields::{position, set_do_not_enter};
use core_primitives::{OpProgressId, ThreadId};
use core_records::CoreParts;
use machine_data::Given;

/// Sets the progress of the thread's op.
#[inline(always)]
pub fn set_op_progress(parts: &mut CoreParts, thread: ThreadId, op_progress: OpProgressId)
    requires { IsSoundCore parts.old }
    ensures sound { IsSoundCore parts.new }
    ensures new { seen parts.new ≡ with_op_progress thread op_progress (seen parts.old) }
{
    let (named, op_target) = op_progress_from_id(parts, op_progress);
    put_there(parts, thread, named, op_target);
}

/// Moves the thread to the op at this position.
#[inline(always)]
pub fn move_to(parts: &mut CoreParts, thread: ThreadId, position: u32)
    requires { IsSoundCore parts.old }
    ensures sound { IsSoundCore parts.new }
    ensures new { seen parts.new ≡ on_core (moved_to (thread_of (seen parts.old) thread) position) (seen parts.old) }
{
    put_op(parts, thread, position);
}

// Writes the thread's registers.
#[inline(always)]
fn write_registers(parts: &mut CoreParts, thread: ThreadId, registers: &[u64; 16])
    requires { IsSoundCore parts.old }
    ensures sound { IsSoundCore parts.new }
    ensures new { seen parts.new ≡ on_core (on_thread (thread_of (seen parts.old) thread) (with_registers registers.now)) (seen parts.old) }
{
    if let Ok(entry) = parts.threads.get_mut(thread) {
        entry.thread.registers = *registers;
    }
}

/// Sets the thread's position, at the start of an op, and its registers.
pub fn set_context(parts: &mut CoreParts, thread: ThreadId, position: u32, registers: &[u64; 16])
    requires { IsSoundCore parts.old }
    ensures sound { IsSoundCore parts.new }
    ensures new { seen parts.new ≡ on_core (with_context (thread_of (seen parts.old) thread) position registers.now) (seen parts.old) }
{
    write_registers(parts, thread, registers);
    put_op(parts, thread, position);
}

/// Moves the thread past its op, which is done.
#[inline(always)]
pub fn advance(parts: &mut CoreParts, thread: ThreadId)
    requires sound { IsSoundCore parts.old }
    requires few { position_of (thread_of (seen parts.old) thread) (seen parts.old).core + 1 < 2 ^ 32 }
    ensures sound { IsSoundCore parts.new }
    ensures new { seen parts.new ≡ on_core (advanced (thread_of (seen parts.old) thread)) (seen parts.old) }
{
    let at = position(parts, thread);
    move_to(parts, thread, at + 1);
}

/// Moves the thread past its op, and writes the op's answer to a register.
pub fn assign(parts: &mut CoreParts, thread: ThreadId, register: u8, value: u64)
    requires sound { IsSoundCore parts.old }
    requires few { position_of (thread_of (seen parts.old) thread) (seen parts.old).core + 1 < 2 ^ 32 }
    ensures sound { IsSoundCore parts.new }
    ensures new { seen parts.new ≡ on_core (assigned (thread_of (seen parts.old) thread) register value) (seen parts.old) }
{
    let at = position(parts, thread);
    put_answer(parts, thread, register, value, at + 1);
}

// The values that an activation is given: code, handle and result.
#[inline(always)]
fn words_of(given: Given) -> (u64, u64, u64)
    ensures code { result.0 ≡ given_code given }
    ensures handle { result.1 ≡ given_handle given }
    ensures status { result.2 ≡ given_result given }
{
    match given {
        Given::Nothing => (0, 0, 0),
        Given::Cancelled => (6, 0, 0),
        Given::Subtask { status, handle } => (1, u64::from(handle), u64::from(status.number())),
    }
}

/// Begins an activation: the thread is given what is there in r0, r1 and r2, its instance keeps other entries out, and it runs the
/// react script from its start.
pub fn activate(parts: &mut CoreParts, thread: ThreadId, instance: u32, given: Given)
    requires { IsSoundCore parts.old }
    ensures sound { IsSoundCore parts.new }
    ensures new { seen parts.new ≡ on_core (activating (thread_of (seen parts.old) thread) instance given) (seen parts.old) }
{
    set_do_not_enter(parts, instance, true);
    put_begun(parts, thread, words_of(given));
}
