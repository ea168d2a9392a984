//! The lines of the head, and those that open a part of the component.
ghost use Rattle.std.specs.Prelude.{◌≡◌, map, IfOk};
ghost use Rattle.text_lines.specs.Line.{head_after, never_after, fail_after, value_after, work_after, host_after, instance_after, export_after, slot_after, part_after};
ghost use Rattle.text_lines.specs.Gives.{Gives};

use crate::fields::{four, one, three};
use crate::keyword::{HeadKeyword, PartKeyword};
use crate::line::{HeadLine, HostWork, LineError, PartLine};
use crate::tokens::{Name, bounded, export_kind, idle_line, is_name, number, version};
use machine_data::Seq;
use std::alloc::{AllocError, Global};

pub fn copied(alloc: Global, name: &[u8]) -> Result<Name, AllocError>
    ensures { IfOk result (λ s. s ≡ name.now) }
{
    Ok(Seq::from_vec(Vec::from_slice(alloc, name)?))
}

/// Returns the line of the head that the tokens after its first one complete.
#[inline(never)]
#[tactic(auto, unfolding(crate::specs::Line::head_after))]
pub fn head_after(token: HeadKeyword, tokens: &[&[u8]]) -> Option<HeadLine>
    ensures { result ≡ head_after token (map (λ w. w.now) tokens.now) }
{
    match token {
        HeadKeyword::Scenario => Some(HeadLine::Title(version(one(tokens)?)?)),
        HeadKeyword::Handles => Some(HeadLine::Handles(bounded(one(tokens)?, 268_435_455)? as u32)),
        HeadKeyword::Table => Some(HeadLine::Table(bounded(one(tokens)?, 1_000_000)? as u32)),
        HeadKeyword::Idle => Some(HeadLine::Idle(idle_line(one(tokens)?)?)),
    }
}

// `never`
#[tactic(auto, unfolding(crate::specs::Line::never_after))]
fn never_after(tokens: &[&[u8]]) -> Option<HostWork>
    ensures { result ≡ never_after (map (λ w. w.now) tokens.now) }
{
    (one(tokens)? == b"never".as_slice()).then_some(HostWork::Never)
}

// `polls N fail`
#[tactic(auto, unfolding(crate::specs::Line::fail_after))]
fn fail_after(tokens: &[&[u8]]) -> Option<HostWork>
    ensures { result ≡ fail_after (map (λ w. w.now) tokens.now) }
{
    let (first, polls, end) = three(tokens)?;
    let polls = bounded(polls, 1_000_000)? as u32;
    if first != b"polls".as_slice() || end != b"fail".as_slice() {
        return None;
    }
    Some(HostWork::Fail(polls))
}

// `polls N value V`
#[tactic(auto, unfolding(crate::specs::Line::value_after))]
fn value_after(tokens: &[&[u8]]) -> Option<HostWork>
    ensures { result ≡ value_after (map (λ w. w.now) tokens.now) }
{
    let (first, polls, end, value) = four(tokens)?;
    let polls = bounded(polls, 1_000_000)? as u32;
    let value = number(value)?;
    if first != b"polls".as_slice() || end != b"value".as_slice() {
        return None;
    }
    Some(HostWork::Value(polls, value))
}

#[tactic(auto, unfolding(crate::specs::Line::work_after))]
fn work_after(tokens: &[&[u8]]) -> Option<HostWork>
    ensures { result ≡ work_after (map (λ w. w.now) tokens.now) }
{
    if let Some(work) = never_after(tokens) {
        return Some(work);
    }
    if let Some(work) = fail_after(tokens) {
        return Some(work);
    }
    value_after(tokens)
}

#[tactic(auto, unfolding(crate::specs::Line::host_after))]
fn host_after(alloc: Global, tokens: &[&[u8]]) -> Result<PartLine, LineError>
    ensures { Gives result (host_after (map (λ w. w.now) tokens.now)) }
{
    let (name, tokens) = tokens.split_first().ok_or(LineError::Bad)?;
    let work = work_after(tokens).ok_or(LineError::Bad)?;
    if !is_name(name) {
        return Err(LineError::Bad);
    }
    Ok(PartLine::Host(copied(alloc, name)?, work))
}

#[tactic(auto, unfolding(crate::specs::Line::instance_after))]
fn instance_after(alloc: Global, tokens: &[&[u8]]) -> Result<PartLine, LineError>
    ensures { Gives result (instance_after (map (λ w. w.now) tokens.now)) }
{
    let name = one(tokens).ok_or(LineError::Bad)?;
    if !is_name(name) {
        return Err(LineError::Bad);
    }
    Ok(PartLine::Instance(copied(alloc, name)?))
}

#[tactic(auto, unfolding(crate::specs::Line::export_after))]
fn export_after(alloc: Global, tokens: &[&[u8]]) -> Result<PartLine, LineError>
    ensures { Gives result (export_after (map (λ w. w.now) tokens.now)) }
{
    let (name, kind, params) = three(tokens).ok_or(LineError::Bad)?;
    let kind = export_kind(kind).ok_or(LineError::Bad)?;
    let params = bounded(params, 16).ok_or(LineError::Bad)? as u32;
    if !is_name(name) {
        return Err(LineError::Bad);
    }
    Ok(PartLine::Export(copied(alloc, name)?, kind, params))
}

#[tactic(auto, unfolding(crate::specs::Line::slot_after))]
fn slot_after(tokens: &[&[u8]]) -> Option<u8>
    ensures { result ≡ slot_after (map (λ w. w.now) tokens.now) }
{
    Some(bounded(one(tokens)?, 15)? as u8)
}

/// Returns the line that opens a part, completed by the tokens after its first one.
#[inline(never)]
#[tactic(auto, unfolding(crate::specs::Line::part_after))]
pub fn part_after(
    alloc: Global,
    token: PartKeyword,
    tokens: &[&[u8]],
) -> Result<PartLine, LineError>
    ensures { Gives result (part_after token (map (λ w. w.now) tokens.now)) }
{
    match token {
        PartKeyword::Host => host_after(alloc, tokens),
        PartKeyword::Instance => instance_after(alloc, tokens),
        PartKeyword::Export => export_after(alloc, tokens),
        PartKeyword::React => tokens
            .is_empty()
            .then_some(PartLine::React)
            .ok_or(LineError::Bad),
        PartKeyword::Thread => Ok(PartLine::Thread(slot_after(tokens).ok_or(LineError::Bad)?)),
        PartKeyword::Bad => Ok(PartLine::Bad(slot_after(tokens).ok_or(LineError::Bad)?)),
    }
}
