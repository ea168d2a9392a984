ghost use Rattle.std.specs.Prelude.{◌≡◌, IfOk, count_by, true};
ghost use Rattle.text_report.specs.Summary.{CountsAs, holds, pauses, summary, takes, wakes};

use crate::{LINE, outcome_line};
use machine_data::{NoMemory, Outcome};
use run_trace::{CallKind, LabelKind, Labels, OwnKind, SetKind, TakeKind, TaskKind, ThreadKind};
use std::alloc::Global;

// How many labels there are of each kind.
#[derive(Clone, Copy)]
struct Counts {
    takes: usize,
    holds: usize,
    wakes: usize,
    pauses: usize,
}

// The kinds of a label, by its head's kind alone. Most labels are of none, and one look tells that.
#[inline(always)]
fn kinds(kind: LabelKind) -> Counts
    ensures { CountsAs kind result.takes result.holds result.wakes result.pauses }
{
    let mut kinds = Counts {
        takes: 0,
        holds: 0,
        wakes: 0,
        pauses: 0,
    };
    match kind {
        LabelKind::Take(_, kind) => {
            kinds.takes = 1;
            match kind {
                TakeKind::Held => kinds.holds = 1,
                TakeKind::HeldWakes => {
                    kinds.holds = 1;
                    kinds.wakes = 1;
                }
                TakeKind::ThreadWakes | TakeKind::HostWakes => kinds.wakes = 1,
                _ => {}
            }
        }
        LabelKind::Own(_, OwnKind::NothingWakes | OwnKind::CancelledWakes) => {
            kinds.takes = 1;
            kinds.wakes = 1;
        }
        LabelKind::Own(..) | LabelKind::Given(..) => kinds.takes = 1,
        LabelKind::Task(TaskKind::TaskCancelWakes | TaskKind::ExitWakes)
        | LabelKind::Set(SetKind::WaitWakes(_) | SetKind::JoinWakes)
        | LabelKind::Call(CallKind::RetWakes) => kinds.wakes = 1,
        LabelKind::Thread(ThreadKind::Pauses) | LabelKind::Call(CallKind::PausesPolls) =>
            kinds.pauses = 1,
        _ => {}
    }
    kinds
}

// Whether it is a label of the loop, as many are: none of those is of any of the kinds.
#[inline(always)]
fn is_of_loop(kind: LabelKind) -> bool
    ensures { result ≡ true → CountsAs kind 0 0 0 0 }
{
    matches!(kind, LabelKind::Loop(_))
}

// Whether it is that of a taking that was held and woke none.
#[inline(always)]
fn is_held(kind: LabelKind) -> bool
    ensures { result ≡ true → CountsAs kind 1 1 0 0 }
{
    matches!(kind, LabelKind::Take(_, TakeKind::Held))
}

fn count(labels: &Labels<'_>) -> Counts
    ensures takes { result.takes ≡ count_by takes labels.now }
    ensures holds { result.holds ≡ count_by holds labels.now }
    ensures wakes { result.wakes ≡ count_by wakes labels.now }
    ensures pauses { result.pauses ≡ count_by pauses labels.now }
{
    let mut counts = Counts {
        takes: 0,
        holds: 0,
        wakes: 0,
        pauses: 0,
    };
    // read so that the proof knows how many labels there are at most
    let _total = labels.len();
    let mut left = labels.rest();
    'labels: while let Some((head, _)) = Labels::take(&mut left) {
        if is_of_loop(head.kind) {
            continue 'labels;
        }
        if is_held(head.kind) {
            counts.takes += 1;
            counts.holds += 1;
            continue 'labels;
        }
        let kinds = kinds(head.kind);
        counts.takes += kinds.takes;
        counts.holds += kinds.holds;
        counts.wakes += kinds.wakes;
        counts.pauses += kinds.pauses;
    }
    counts
}

/// Returns the summary of a run that has these labels and has ended in this outcome: a line each with the number of its labels, of
/// its takings, of those that were held, of those that woke a waiter of a guest-made set, and of the ops that stopped their strand;
/// and the outcome's line.
pub fn print_summary(
    alloc: Global,
    labels: &Labels<'_>,
    outcome: Outcome,
) -> Result<Vec<u8>, NoMemory>
    ensures { IfOk result (λ text. text.items ≡ summary labels.now outcome) }
{
    let counts = count(labels);
    let lines = format!(in alloc;
        "steps {}\ntakes {}\nholds {}\nwakes {}\npauses {}\n",
        labels.len(),
        counts.takes,
        counts.holds,
        counts.wakes,
        counts.pauses
    )?;
    let mut line = [0; LINE];
    let end = outcome_line(&mut line, 0, outcome);
    let mut text = Vec::from_slice(alloc, lines.as_bytes())?;
    text.extend_from_slice(&line[..end])?;
    Ok(text)
}
