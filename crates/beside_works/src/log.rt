//! The log of a cell, put together from what each caller has listed.
ghost use Rattle.std.specs.Prelude.{◌≡◌, ◌++◌, ◌∷◌, [], IfOk, OnErr, OnOk, false};
ghost use Rattle.beside_works.specs.Shared.{entries_of, listed};
ghost use Rattle.task_abort.specs.Staged.{all_aborts, any_abort, by_stages, entered, entered_answer, in_stage, stage, staged, tells_request};

use machine_data::{NoMemory, Phase};
use std::alloc::{AllocError, Global};
use task_abort::{CallMade, LogEntry, PhaseCall};

/// What an aborter's aborts of one spawn found, in order, under the number of its line.
#[derive(Drop)]
pub struct Found {
    pub number: u32,
    pub found: Vec<Phase>,
}

// Adds an item to a list. If it is out of memory, the list is as before.
pub(crate) fn add<T: Drop>(list: &mut Vec<T>, item: T) -> Result<(), NoMemory>
    ensures ok { OnOk result (list.new.items ≡ list.old.items ++ item ∷ []) }
    ensures err { OnErr result (list.new.items ≡ list.old.items) }
{
    match list.push(item) {
        Ok(()) => Ok(()),
        Err(_) => Err(NoMemory),
    }
}

// The stage in which an entry is, 1 to 5.
fn stage(answer: Phase, call: PhaseCall) -> u8
    ensures { result ≡ stage answer call }
{
    match answer {
        Phase::Running => match call {
            PhaseCall::Abort | PhaseCall::Finish => 2,
            PhaseCall::PollFuture | PhaseCall::PollHandle => 1,
        },
        Phase::AbortRequested => match call {
            PhaseCall::Finish => 4,
            _ => 3,
        },
        Phase::Complete => 5,
    }
}

// Adds the entries of a stage, in their order.
fn add_stage(
    entries: &[LogEntry<u32>],
    wanted: u8,
    out: &mut Vec<LogEntry<u32>>,
) -> Result<(), AllocError>
    ensures { OnOk result (out.new.items ≡ out.old.items ++ in_stage wanted entries.now) }
{
    for entry in entries {
        if stage(entry.answer, entry.call) == wanted {
            out.push(*entry)?;
        }
    }
    Ok(())
}

// Adds an aborter's entries.
fn add_aborts(aborter: &Found, out: &mut Vec<LogEntry<u32>>) -> Result<(), AllocError>
    ensures { OnOk result (out.new.items ≡ out.old.items ++ entries_of aborter.now) }
{
    for phase in aborter.found.as_slice() {
        out.push(LogEntry {
            caller: aborter.number,
            call: PhaseCall::Abort,
            answer: *phase,
        })?;
    }
    Ok(())
}

// Adds the entries of all aborters.
fn add_all(aborters: &[Found], out: &mut Vec<LogEntry<u32>>) -> Result<(), AllocError>
    ensures { OnOk result (out.new.items ≡ out.old.items ++ all_aborts (listed aborters.now)) }
{
    for aborter in aborters {
        add_aborts(aborter, out)?;
    }
    Ok(())
}

// Whether an aborter has an entry.
fn any_abort(aborters: &[Found]) -> bool
    ensures { result ≡ any_abort (listed aborters.now) }
{
    for aborter in aborters {
        if aborter.found.len() > 0 {
            return true;
        }
    }
    false
}

// Whether a call was an abort, or answered that one was asked for.
fn tells_request(made: &CallMade) -> bool
    ensures { result ≡ tells_request made.now.call made.now.answer }
{
    match made.call {
        PhaseCall::Abort => true,
        _ => matches!(made.answer, Some(Phase::AbortRequested)),
    }
}

// The phase with which a call is entered: one that tells none by whether an abort is known to have come before it.
fn entered_answer(requested: bool, answer: Option<Phase>) -> Phase
    ensures { result ≡ entered_answer requested answer }
{
    match answer {
        Some(phase) => phase,
        None => {
            if requested {
                Phase::AbortRequested
            } else {
                Phase::Running
            }
        }
    }
}

// Adds the entries of caller 0, of whose calls the first `early` were made before the last round.
fn add_own(
    own: &[CallMade],
    others: bool,
    early: usize,
    out: &mut Vec<LogEntry<u32>>,
) -> Result<(), AllocError>
    ensures { OnOk result (out.new.items ≡ out.old.items ++ entered early others false own.now) }
{
    let mut requested = false;
    let mut left = early;
    for made in own {
        out.push(LogEntry {
            caller: 0,
            call: made.call,
            answer: entered_answer(requested || (others && left == 0), made.answer),
        })?;
        requested = requested || tells_request(made);
        left = left.saturating_sub(1);
    }
    Ok(())
}

// Puts entries into stages.
fn by_stages(alloc: Global, entries: &[LogEntry<u32>]) -> Result<Vec<LogEntry<u32>>, AllocError>
    ensures { IfOk result (λ out. out.items ≡ by_stages entries.now) }
{
    let mut out = Vec::new(alloc);
    add_stage(entries, 1, &mut out)?;
    add_stage(entries, 2, &mut out)?;
    add_stage(entries, 3, &mut out)?;
    add_stage(entries, 4, &mut out)?;
    add_stage(entries, 5, &mut out)?;
    Ok(out)
}

/// Puts a log together by stages. The calls of caller 0 are `own`, of which the first `early` were made before the last round; the
/// aborters are in the order of their numbers.
pub fn staged(
    alloc: Global,
    own: &[CallMade],
    aborters: &[Found],
    early: usize,
) -> Result<Vec<LogEntry<u32>>, NoMemory>
    ensures { IfOk result (λ out. out.items ≡ staged own.now (listed aborters.now) early) }
{
    let mut entries = Vec::new(alloc);
    add_all(aborters, &mut entries)?;
    add_own(own, any_abort(aborters), early, &mut entries)?;
    let out = by_stages(alloc, entries.as_slice())?;
    Ok(out)
}
