//! The lines that name callees: calls of guests and ops of main.
ghost use Rattle.std.specs.Prelude.{◌≡◌, ◌<◌, ◌==◌, length, map, position, IfSome};
ghost use Rattle.std.specs.Option.{option_map};
ghost use Rattle.std.specs.Result.{result_map_both};
ghost use Rattle.text_lines.specs.Line.{callee_at, callee_name_at, params_after, call_after, call_from, call_sync_after, call_line_after, start_after, finish_after, host_name_after, number_after, ready_after, main_op_after};
ghost use Rattle.text_lines.specs.Gives.{Gives};
ghost use Rattle.text_lines.specs.declared.line.NamedOp.TheVariants as named;

use crate::fields::{one, operands, two};
use crate::keyword::{CallKeyword, MainKeyword};
use crate::line::{CalleeName, Line, LineError, NamedCall, NamedOp};
use crate::ops::{operand_after, target};
use crate::parts::copied;
use crate::tokens::{Name, bounded, is_name, register};
use machine_data::{CallOp, Op, Operand, Seq};
use std::alloc::Global;

fn dot(token: &[u8]) -> Option<usize>
    ensures place { result ≡ position (λ b. b == 46) token.now }
    ensures inside { IfSome result (λ i. i < length token.now) }
{
    token.iter().position(|b| *b == b'.')
}

// The two names of `INSTANCE.EXPORT`.
#[tactic(auto, unfolding(crate::specs::Line::callee_at))]
fn callee(token: &[u8]) -> Option<(&[u8], &[u8])>
    ensures { option_map (λ p. (p.0.now, p.1.now)) result ≡ callee_at token.now }
{
    let dot = dot(token)?;
    let instance = &token[..dot];
    let export = &token[dot + 1..];
    if !is_name(instance) || !is_name(export) {
        return None;
    }
    Some((instance, export))
}

// A token with a dot names an export, another one a host.
#[tactic(auto, unfolding(crate::specs::Line::callee_name_at))]
fn callee_name(alloc: Global, token: &[u8]) -> Result<CalleeName, LineError>
    ensures { Gives result (callee_name_at token.now) }
{
    if is_name(token) {
        return Ok(CalleeName::Host(copied(alloc, token)?));
    }
    let (instance, export) = callee(token).ok_or(LineError::Bad)?;
    let instance = copied(alloc, instance)?;
    Ok(CalleeName::Export(instance, copied(alloc, export)?))
}

// A callee and its operands.
#[tactic(auto, unfolding(crate::specs::Line::params_after))]
fn params_after(alloc: Global, tokens: &[&[u8]]) -> Result<(CalleeName, Seq<Operand>), LineError>
    ensures { Gives result (params_after (map (λ w. w.now) tokens.now)) }
{
    let (token, tokens) = tokens.split_first().ok_or(LineError::Bad)?;
    let callee = callee_name(alloc, token)?;
    Ok((callee, operands(alloc, tokens)?))
}

// The rest of `call R Q F X*` after R.
#[tactic(auto, unfolding(crate::specs::Line::call_from))]
fn call_from(alloc: Global, to: u8, tokens: &[&[u8]]) -> Result<NamedCall, LineError>
    ensures { Gives result (call_from to (map (λ w. w.now) tokens.now)) }
{
    let (token, tokens) = tokens.split_first().ok_or(LineError::Bad)?;
    let result = register(token).ok_or(LineError::Bad)?;
    let (callee, params) = params_after(alloc, tokens)?;
    Ok(NamedCall::Call(to, result, callee, params))
}

#[tactic(auto, unfolding(crate::specs::Line::call_after))]
fn call_after(alloc: Global, tokens: &[&[u8]]) -> Result<NamedCall, LineError>
    ensures { Gives result (call_after (map (λ w. w.now) tokens.now)) }
{
    let (token, tokens) = tokens.split_first().ok_or(LineError::Bad)?;
    let to = register(token).ok_or(LineError::Bad)?;
    call_from(alloc, to, tokens)
}

#[tactic(auto, unfolding(crate::specs::Line::call_sync_after))]
fn call_sync_after(alloc: Global, tokens: &[&[u8]]) -> Result<NamedCall, LineError>
    ensures { Gives result (call_sync_after (map (λ w. w.now) tokens.now)) }
{
    let (token, tokens) = tokens.split_first().ok_or(LineError::Bad)?;
    let to = register(token).ok_or(LineError::Bad)?;
    let (callee, params) = params_after(alloc, tokens)?;
    Ok(NamedCall::CallSync(to, callee, params))
}

/// Returns the line of an op on subtasks that the tokens after its first one complete.
#[inline(never)]
#[tactic(auto, unfolding(crate::specs::Line::call_line_after))]
pub fn call_line_after(
    alloc: Global,
    token: CallKeyword,
    tokens: &[&[u8]],
) -> Result<Line, LineError>
    ensures { Gives result (call_line_after token (map (λ w. w.now) tokens.now)) }
{
    match token {
        CallKeyword::Call => Ok(Line::Call(call_after(alloc, tokens)?)),
        CallKeyword::CallSync => Ok(Line::Call(call_sync_after(alloc, tokens)?)),
        CallKeyword::Cancel => {
            let (to, subtask) = target(tokens).ok_or(LineError::Bad)?;
            Ok(Line::Op(Op::Call(CallOp::Cancel { to, subtask })))
        }
        CallKeyword::CancelSync => {
            let (to, subtask) = target(tokens).ok_or(LineError::Bad)?;
            Ok(Line::Op(Op::Call(CallOp::CancelSync { to, subtask })))
        }
        CallKeyword::Drop => {
            let subtask = operand_after(tokens).ok_or(LineError::Bad)?;
            Ok(Line::Op(Op::Call(CallOp::Drop { subtask })))
        }
    }
}

/// Returns the names of the instance and the export that the tokens after `start` have, and its operands.
#[tactic(auto, unfolding(crate::specs::Line::start_after))]
pub fn start_tokens<'a>(
    alloc: Global,
    tokens: &[&'a [u8]],
) -> Result<(&'a [u8], &'a [u8], Seq<Operand>), LineError>
    ensures { Gives (result_map_both (λ p. named.Start p.0.now p.1.now p.2) (λ e. e) result) (start_after (map (λ w. w.now) tokens.now)) }
{
    let (token, tokens) = tokens.split_first().ok_or(LineError::Bad)?;
    let (instance, export) = callee(token).ok_or(LineError::Bad)?;
    Ok((instance, export, operands(alloc, tokens)?))
}

fn start_after(alloc: Global, tokens: &[&[u8]]) -> Result<NamedOp, LineError>
    ensures { Gives result (start_after (map (λ w. w.now) tokens.now)) }
{
    let (instance, export, operands) = start_tokens(alloc, tokens)?;
    let instance = copied(alloc, instance)?;
    Ok(NamedOp::Start(instance, copied(alloc, export)?, operands))
}

/// Returns the start that the tokens after `finish` name, and the register for its value.
#[tactic(auto, unfolding(crate::specs::Line::finish_after))]
pub fn finish_tokens(tokens: &[&[u8]]) -> Option<(u32, u8)>
    ensures { option_map (λ p. named.Finish p.0 p.1) result ≡ finish_after (map (λ w. w.now) tokens.now) }
{
    let (start, to) = two(tokens)?;
    Some((bounded(start, 4095)? as u32, register(to)?))
}

fn finish_after(tokens: &[&[u8]]) -> Option<NamedOp>
    ensures { result ≡ finish_after (map (λ w. w.now) tokens.now) }
{
    let (start, to) = finish_tokens(tokens)?;
    Some(NamedOp::Finish(start, to))
}

#[tactic(auto, unfolding(crate::specs::Line::host_name_after))]
fn host_name_after(alloc: Global, tokens: &[&[u8]]) -> Result<Name, LineError>
    ensures { Gives result (host_name_after (map (λ w. w.now) tokens.now)) }
{
    let name = one(tokens).ok_or(LineError::Bad)?;
    if !is_name(name) {
        return Err(LineError::Bad);
    }
    Ok(copied(alloc, name)?)
}

// The number of a start or of a spawn.
#[tactic(auto, unfolding(crate::specs::Line::number_after))]
fn number_after(tokens: &[&[u8]]) -> Option<u32>
    ensures { result ≡ number_after (map (λ w. w.now) tokens.now) }
{
    Some(bounded(one(tokens)?, 4_095)? as u32)
}

#[tactic(auto, unfolding(crate::specs::Line::ready_after))]
fn ready_after(alloc: Global, tokens: &[&[u8]]) -> Result<NamedOp, LineError>
    ensures { Gives result (ready_after (map (λ w. w.now) tokens.now)) }
{
    let token = one(tokens).ok_or(LineError::Bad)?;
    let (instance, export) = callee(token).ok_or(LineError::Bad)?;
    let instance = copied(alloc, instance)?;
    Ok(NamedOp::Ready(instance, copied(alloc, export)?))
}

/// Returns the op of main that the tokens after its first one complete.
#[inline(never)]
#[tactic(auto, unfolding(crate::specs::Line::main_op_after))]
pub fn main_op_after(
    alloc: Global,
    token: MainKeyword,
    tokens: &[&[u8]],
) -> Result<NamedOp, LineError>
    ensures { Gives result (main_op_after token (map (λ w. w.now) tokens.now)) }
{
    match token {
        MainKeyword::Start => start_after(alloc, tokens),
        MainKeyword::Finish => finish_after(tokens).ok_or(LineError::Bad),
        MainKeyword::Spawn => Ok(NamedOp::Spawn(host_name_after(alloc, tokens)?)),
        MainKeyword::Abort => Ok(NamedOp::Abort(number_after(tokens).ok_or(LineError::Bad)?)),
        MainKeyword::Await => Ok(NamedOp::Await(number_after(tokens).ok_or(LineError::Bad)?)),
        MainKeyword::Quiet => tokens
            .is_empty()
            .then_some(NamedOp::Quiet)
            .ok_or(LineError::Bad),
        MainKeyword::Ready => ready_after(alloc, tokens),
    }
}
