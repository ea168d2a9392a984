//! The ops of guests that name no callee.
ghost use Rattle.std.specs.Prelude.{◌≡◌, map};
ghost use Rattle.text_lines.specs.Line.{register_after, operand_after, target_after, event_after, load_after, store_after, skip_after, join_after, new_thread_after, data_op_after, task_op_after, set_op_after, thread_op_after};

use crate::fields::{one, three, two};
use crate::keyword::{DataKeyword, SetKeyword, TaskKeyword, ThreadKeyword};
use crate::tokens::{bounded, event_register, operand, register};
use machine_data::{DataOp, Operand, SetOp, TaskOp, ThreadOp};

#[tactic(auto, unfolding(crate::specs::Line::register_after))]
fn register_after(tokens: &[&[u8]]) -> Option<u8>
    ensures { result ≡ register_after (map (λ w. w.now) tokens.now) }
{
    register(one(tokens)?)
}

#[tactic(auto, unfolding(crate::specs::Line::operand_after))]
pub fn operand_after(tokens: &[&[u8]]) -> Option<Operand>
    ensures { result ≡ operand_after (map (λ w. w.now) tokens.now) }
{
    operand(one(tokens)?)
}

/// Returns a register and an operand, of two tokens.
#[inline(always)]
#[tactic(auto, unfolding(crate::specs::Line::target_after))]
pub fn target(tokens: &[&[u8]]) -> Option<(u8, Operand)>
    ensures { result ≡ target_after (map (λ w. w.now) tokens.now) }
{
    let Some((to, value)) = two(tokens) else {
        return None;
    };
    let Some(to) = register(to) else {
        return None;
    };
    let Some(value) = operand(value) else {
        return None;
    };
    Some((to, value))
}

// A register to which an event is written, and an operand.
#[tactic(auto, unfolding(crate::specs::Line::event_after))]
fn event_target(tokens: &[&[u8]]) -> Option<(u8, Operand)>
    ensures { result ≡ event_after (map (λ w. w.now) tokens.now) }
{
    let (to, set) = two(tokens)?;
    Some((event_register(to)?, operand(set)?))
}

#[tactic(auto, unfolding(crate::specs::Line::load_after))]
fn load_after(tokens: &[&[u8]]) -> Option<DataOp>
    ensures { result ≡ load_after (map (λ w. w.now) tokens.now) }
{
    let (to, token) = two(tokens)?;
    let to = register(to)?;
    let cell = bounded(token, 15)? as u8;
    Some(DataOp::Load { to, cell })
}

#[tactic(auto, unfolding(crate::specs::Line::store_after))]
fn store_after(tokens: &[&[u8]]) -> Option<DataOp>
    ensures { result ≡ store_after (map (λ w. w.now) tokens.now) }
{
    let (token, value) = two(tokens)?;
    let cell = bounded(token, 15)? as u8;
    let value = operand(value)?;
    Some(DataOp::Store { cell, value })
}

#[tactic(auto, unfolding(crate::specs::Line::skip_after))]
fn skip_after(tokens: &[&[u8]]) -> Option<DataOp>
    ensures { result ≡ skip_after (map (λ w. w.now) tokens.now) }
{
    let (left, right, ops) = three(tokens)?;
    let left = operand(left)?;
    let right = operand(right)?;
    let ops = bounded(ops, 4_096)? as u32;
    Some(DataOp::SkipEq { left, right, ops })
}

/// Returns the op on registers that the tokens after its first one complete.
#[tactic(auto, unfolding(crate::specs::Line::data_op_after))]
pub fn data_op_after(token: DataKeyword, tokens: &[&[u8]]) -> Option<DataOp>
    ensures { result ≡ data_op_after token (map (λ w. w.now) tokens.now) }
{
    match token {
        DataKeyword::Set => {
            let (to, value) = target(tokens)?;
            Some(DataOp::Set { to, value })
        }
        DataKeyword::Add => {
            let (to, value) = target(tokens)?;
            Some(DataOp::Add { to, value })
        }
        DataKeyword::Handle => {
            let (to, value) = target(tokens)?;
            Some(DataOp::Handle { to, value })
        }
        DataKeyword::Load => load_after(tokens),
        DataKeyword::Store => store_after(tokens),
        DataKeyword::SkipEq => skip_after(tokens),
    }
}

/// Returns the op that ends a task or an activation, or changes the backpressure, that the tokens after its first one complete.
#[tactic(auto, unfolding(crate::specs::Line::task_op_after))]
pub fn task_op_after(token: TaskKeyword, tokens: &[&[u8]]) -> Option<TaskOp>
    ensures { result ≡ task_op_after token (map (λ w. w.now) tokens.now) }
{
    match token {
        TaskKeyword::Ret => Some(TaskOp::Ret {
            value: operand_after(tokens)?,
        }),
        TaskKeyword::RetBad => Some(TaskOp::RetBad {
            value: operand_after(tokens)?,
        }),
        TaskKeyword::TaskCancel => tokens.is_empty().then_some(TaskOp::TaskCancel),
        TaskKeyword::Exit => tokens.is_empty().then_some(TaskOp::Exit),
        TaskKeyword::CbYield => tokens.is_empty().then_some(TaskOp::CbYield),
        TaskKeyword::CbWait => Some(TaskOp::CbWait {
            set: operand_after(tokens)?,
        }),
        TaskKeyword::Code => Some(TaskOp::Code {
            code: operand_after(tokens)?,
        }),
        TaskKeyword::BpInc => tokens.is_empty().then_some(TaskOp::BpInc),
        TaskKeyword::BpDec => tokens.is_empty().then_some(TaskOp::BpDec),
    }
}

#[tactic(auto, unfolding(crate::specs::Line::join_after))]
fn join_after(tokens: &[&[u8]]) -> Option<SetOp>
    ensures { result ≡ join_after (map (λ w. w.now) tokens.now) }
{
    let (waitable, set) = two(tokens)?;
    let waitable = operand(waitable)?;
    let set = operand(set)?;
    Some(SetOp::Join { waitable, set })
}

/// Returns the op on sets that the tokens after its first one complete.
#[inline(never)]
#[tactic(auto, unfolding(crate::specs::Line::set_op_after))]
pub fn set_op_after(token: SetKeyword, tokens: &[&[u8]]) -> Option<SetOp>
    ensures { result ≡ set_op_after token (map (λ w. w.now) tokens.now) }
{
    match token {
        SetKeyword::New => Some(SetOp::New {
            to: register_after(tokens)?,
        }),
        SetKeyword::Drop => Some(SetOp::Drop {
            set: operand_after(tokens)?,
        }),
        SetKeyword::Wait => {
            let (to, set) = event_target(tokens)?;
            Some(SetOp::Wait { to, set })
        }
        SetKeyword::Poll => {
            let (to, set) = event_target(tokens)?;
            Some(SetOp::Poll { to, set })
        }
        SetKeyword::Join => join_after(tokens),
    }
}

#[tactic(auto, unfolding(crate::specs::Line::new_thread_after))]
fn new_thread_after(tokens: &[&[u8]]) -> Option<ThreadOp>
    ensures { result ≡ new_thread_after (map (λ w. w.now) tokens.now) }
{
    let (to, slot, context) = three(tokens)?;
    let to = register(to)?;
    let slot = bounded(slot, 15)? as u8;
    let context = operand(context)?;
    Some(ThreadOp::New { to, slot, context })
}

/// Returns the op on threads that the tokens after its first one complete.
#[inline(never)]
#[tactic(auto, unfolding(crate::specs::Line::thread_op_after))]
pub fn thread_op_after(token: ThreadKeyword, tokens: &[&[u8]]) -> Option<ThreadOp>
    ensures { result ≡ thread_op_after token (map (λ w. w.now) tokens.now) }
{
    match token {
        ThreadKeyword::New => new_thread_after(tokens),
        ThreadKeyword::Index => Some(ThreadOp::Index {
            to: register_after(tokens)?,
        }),
        ThreadKeyword::ResumeLater => Some(ThreadOp::ResumeLater {
            thread: operand_after(tokens)?,
        }),
        ThreadKeyword::Suspend => tokens.is_empty().then_some(ThreadOp::Suspend),
        ThreadKeyword::Yield => tokens.is_empty().then_some(ThreadOp::Yield),
        ThreadKeyword::SuspendThenResume => Some(ThreadOp::SuspendThenResume {
            thread: operand_after(tokens)?,
        }),
        ThreadKeyword::YieldThenResume => Some(ThreadOp::YieldThenResume {
            thread: operand_after(tokens)?,
        }),
        ThreadKeyword::SuspendThenPromote => Some(ThreadOp::SuspendThenPromote {
            thread: operand_after(tokens)?,
        }),
        ThreadKeyword::YieldThenPromote => Some(ThreadOp::YieldThenPromote {
            thread: operand_after(tokens)?,
        }),
    }
}
