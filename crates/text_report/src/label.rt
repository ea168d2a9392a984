//! What is printed of a label and of an outcome, each in one way. A line is written in place, and no
//! label makes a string of its own.
ghost use Rattle.text_report.specs.Lines.{call_in};
ghost use Rattle.std.specs.Prelude.{◌≡◌, ◌+◌, ◌≤◌, ◌<◌, ◌++◌, codes, decimal, length, slice_index, take};
ghost use Rattle.run_trace.specs.Labels.{label_of};
ghost use Rattle.run_trace.specs.Opened.{all, data_of, handle_of, loop_of, main_of, own_of, set_of, take_of, task_of, thread_of};
ghost use Rattle.machine_data.specs.Moves.{given_own};
ghost use Rattle.machine_data.specs.Statuses.{status_code};
ghost use Rattle.machine_data.specs.declared.statuses.Given.TheVariants as Given;
ghost use Rattle.machine_rules.specs.Texts.{mark_text, phase_text, given_text, wakes, refused, main_text, future_text, loop_text, taken_text, event_text, take_text, data_text, task_text, set_text, thread_text, label_text, line_text, outcome_text};

use crate::piece::{digits, literal, literal_over, number, numbers, small_number, thread_number};
use machine_data::{Mark, Outcome, Phase, Status, TaskEvent, Trap};
use run_trace::{
    CallKind, DataKind, HandleKind, Head, LabelKind, LoopKind, MainKind, OwnKind, SetKind,
    TakeKind, TaskKind, ThreadKind, first, later, listed,
};

/// No line has more bytes than this.
pub const LINE: usize = 160;

// The thread that a step woke.
#[inline(never)]
fn wakes(out: &mut [u8], at: usize, woken: u64) -> usize
    requires { at + 32 ≤ length out.old }
    ensures end { result ≤ at + 27 }
    ensures room { length out.new ≡ length out.old }
    ensures text { take result out.new ≡ wakes (take at out.old) woken }
{
    number(out, at, b" wakes ", woken)
}

fn refused(out: &mut [u8], at: usize, before: &[u8], start: u32, trap: Trap) -> usize
    requires { at + length before.now + 54 ≤ length out.old }
    ensures end { result ≤ at + length before.now + 49 }
    ensures room { length out.new ≡ length out.old }
    ensures text { take result out.new ≡ take at out.old ++ refused (before.now ++ decimal start) trap }
{
    numbers(
        out,
        at,
        before,
        start.into(),
        b" refused ",
        trap.number().into(),
    )
}

fn phase_token(phase: Phase) -> &'static [u8]
    ensures text { result.now ≡ phase_text phase }
    ensures short { length result.now ≤ 9 }
{
    match phase {
        Phase::Running => b"running",
        Phase::AbortRequested => b"requested",
        Phase::Complete => b"complete",
    }
}

// `take M`: of literal that are known where a line is compiled, a few stores are made.
#[inline(always)]
fn taken(out: &mut [u8], at: usize, mark: Mark) -> usize
    requires { at + 11 ≤ length out.old }
    ensures end { result ≤ at + 11 }
    ensures room { length out.new ≡ length out.old }
    ensures text { take result out.new ≡ take at out.old ++ (codes "take " ++ mark_text mark) }
{
    match mark {
        Mark::Switch => literal(out, at, b"take switch"),
        Mark::High => literal(out, at, b"take high"),
        Mark::Low => literal(out, at, b"take low"),
    }
}

// `take M thread `.
#[inline(always)]
fn taken_thread(out: &mut [u8], at: usize, mark: Mark) -> usize
    requires { at + 19 ≤ length out.old }
    ensures end { result ≤ at + 19 }
    ensures room { length out.new ≡ length out.old }
    ensures text { take result out.new ≡ take at out.old ++ (codes "take " ++ mark_text mark ++ codes " thread ") }
{
    match mark {
        Mark::Switch => literal(out, at, b"take switch thread "),
        Mark::High => literal(out, at, b"take high thread "),
        Mark::Low => literal(out, at, b"take low thread "),
    }
}

// Tokens, the handle of a subtask, and its status, which has one digit.
#[inline(always)]
fn handed(out: &mut [u8], at: usize, before: &[u8], handle: u32, status: Status) -> usize
    requires { at + length before.now + 27 ≤ length out.old }
    ensures end { result ≤ at + length before.now + 22 }
    ensures room { length out.new ≡ length out.old }
    ensures text { take result out.new ≡ take at out.old ++ (before.now ++ decimal handle ++ codes " " ++ decimal (status_code status)) }
{
    let end = number(out, at, before, handle.into());
    small_number(out, end, b" ", status.number().into())
}

fn aborts(out: &mut [u8], at: usize, spawn: u32, phase: Phase) -> usize
    requires { at + 46 ≤ length out.old }
    ensures end { result ≤ at + 41 }
    ensures room { length out.new ≡ length out.old }
    ensures text { take result out.new ≡ take at out.old ++ (codes "main abort " ++ decimal spawn ++ codes " " ++ phase_text phase) }
{
    let end = number(out, at, b"main abort ", spawn.into());
    let end = literal(out, end, b" ");
    literal(out, end, phase_token(phase))
}

#[inline(never)]
fn main_label(out: &mut [u8], at: usize, kind: MainKind, small: u32, value: u64) -> usize
    requires { at + LINE ≤ length out.old }
    ensures end { result < at + LINE }
    ensures room { length out.new ≡ length out.old }
    ensures text { take result out.new ≡ take at out.old ++ main_text (main_of kind small value) }
{
    match kind {
        MainKind::Start => numbers(out, at, b"main start ", small.into(), b" thread ", value),
        MainKind::StartRefused(trap) => refused(out, at, b"main start ", small, trap),
        MainKind::Finish => numbers(out, at, b"main finish ", small.into(), b" = ", value),
        MainKind::FinishRefused(trap) => refused(out, at, b"main finish ", small, trap),
        MainKind::Spawn => numbers(out, at, b"main spawn ", small.into(), b" future ", value),
        MainKind::Abort(phase) => aborts(out, at, small, phase),
        MainKind::Await => number(out, at, b"main await ", small.into()),
        MainKind::Quiet => literal(out, at, b"main quiet"),
        MainKind::Ready => literal(out, at, b"main ready"),
        MainKind::Answer => number(out, at, b"main answer ", value),
    }
}

#[inline(always)]
fn polled(out: &mut [u8], at: usize, work: u64, what: &[u8]) -> usize
    requires { at + length what.now + 32 ≤ length out.old }
    ensures end { result ≤ at + length what.now + 27 }
    ensures room { length out.new ≡ length out.old }
    ensures text { take result out.new ≡ take at out.old ++ future_text work what.now }
{
    let end = literal_over(out, at, b"future  ", 7);
    let end = digits(out, end, work);
    literal(out, end, what)
}

// The labels of the loop that are seldom. They have a function of their own, so that all that is common fits into the loop that
// prints.
#[inline(never)]
fn seldom_label(out: &mut [u8], at: usize, kind: LoopKind, work: u64) -> usize
    requires { at + LINE ≤ length out.old }
    ensures end { result < at + LINE }
    ensures room { length out.new ≡ length out.old }
    ensures text { take result out.new ≡ take at out.old ++ loop_text (loop_of kind work) }
{
    match kind {
        LoopKind::MainPends => literal(out, at, b"main pends"),
        LoopKind::FuturePends => polled(out, at, work, b" pends"),
        LoopKind::FutureEnds => polled(out, at, work, b" ends"),
        LoopKind::FutureFails => polled(out, at, work, b" fails"),
        LoopKind::FutureAborted => polled(out, at, work, b" aborted"),
        LoopKind::Rest => literal(out, at, b"rest"),
        LoopKind::Deadlock(trap) => number(out, at, b"deadlock ", trap.number().into()),
        LoopKind::Trap(trap) => {
            numbers(out, at, b"trap thread ", work, b" ", trap.number().into())
        }
    }
}

fn loop_label(out: &mut [u8], at: usize, kind: LoopKind, small: u32, xs: &[u64]) -> usize
    requires { at + LINE ≤ length out.old }
    ensures end { result < at + LINE }
    ensures room { length out.new ≡ length out.old }
    ensures text { take result out.new ≡ take at out.old ++ loop_text (loop_of kind (slice_index (all small xs.now) 0)) }
{
    match kind {
        LoopKind::MainPends => literal(out, at, b"main pends"),
        LoopKind::FuturePends => polled(out, at, first(small, xs), b" pends"),
        LoopKind::Rest => literal(out, at, b"rest"),
        _ => seldom_label(out, at, kind, first(small, xs)),
    }
}

// `take M`, whose entry it is, and its number.
#[inline(always)]
fn takes(out: &mut [u8], at: usize, mark: Mark, what: &[u8], entry: u64) -> usize
    requires { at + length what.now + 36 ≤ length out.old }
    ensures end { result ≤ at + length what.now + 31 }
    ensures room { length out.new ≡ length out.old }
    ensures text { take result out.new ≡ take at out.old ++ taken_text mark what.now entry }
{
    let end = taken(out, at, mark);
    number(out, end, what, entry)
}

// `take M thread N`.
#[inline(always)]
fn takes_thread(out: &mut [u8], at: usize, mark: Mark, thread: u64) -> usize
    requires { at + 44 ≤ length out.old }
    ensures end { result ≤ at + 39 }
    ensures room { length out.new ≡ length out.old }
    ensures text { take result out.new ≡ take at out.old ++ taken_text mark (codes " thread ") thread }
{
    let end = taken_thread(out, at, mark);
    digits(out, end, thread)
}

// The taken thread, and what came of it.
#[inline(always)]
fn takes_and(out: &mut [u8], at: usize, mark: Mark, thread: u64, then: &[u8]) -> usize
    requires { at + length then.now + 44 ≤ length out.old }
    ensures end { result ≤ at + length then.now + 39 }
    ensures room { length out.new ≡ length out.old }
    ensures text { take result out.new ≡ take at out.old ++ (taken_text mark (codes " thread ") thread ++ then.now) }
{
    let end = takes_thread(out, at, mark, thread);
    literal(out, end, then)
}

// Takings that are seldom, apart as well.
#[inline(never)]
fn seldom_take(
    out: &mut [u8],
    at: usize,
    mark: Mark,
    kind: TakeKind,
    entry: u64,
    woken: u64,
) -> usize
    requires { at + LINE ≤ length out.old }
    ensures end { result < at + LINE }
    ensures room { length out.new ≡ length out.old }
    ensures text { take result out.new ≡ take at out.old ++ take_text (take_of mark kind entry woken) }
{
    match kind {
        TakeKind::Thread => takes(out, at, mark, b" thread ", entry),
        TakeKind::ThreadWakes => {
            let end = takes(out, at, mark, b" thread ", entry);
            wakes(out, end, woken)
        }
        TakeKind::Held => takes_and(out, at, mark, entry, b" held"),
        TakeKind::HeldWakes => {
            let end = takes_and(out, at, mark, entry, b" held");
            wakes(out, end, woken)
        }
        TakeKind::Again => takes_and(out, at, mark, entry, b" again"),
        TakeKind::Push => takes(out, at, mark, b" push ", entry),
        TakeKind::Host => takes(out, at, mark, b" host ", entry),
        TakeKind::HostWakes => {
            let end = takes(out, at, mark, b" host ", entry);
            wakes(out, end, woken)
        }
    }
}

fn take_label(
    out: &mut [u8],
    at: usize,
    mark: Mark,
    kind: TakeKind,
    small: u32,
    xs: &[u64],
) -> usize
    requires { at + LINE ≤ length out.old }
    ensures end { result < at + LINE }
    ensures room { length out.new ≡ length out.old }
    ensures text { take result out.new ≡ take at out.old ++ take_text (take_of mark kind (slice_index (all small xs.now) 0) (slice_index (all small xs.now) 1)) }
{
    let entry = first(small, xs);
    match kind {
        TakeKind::Thread => takes_thread(out, at, mark, entry),
        TakeKind::Held => takes_and(out, at, mark, entry, b" held"),
        _ => seldom_take(out, at, mark, kind, entry, later(small, xs, 1)),
    }
}

// Takings that hand out a cancel or wake a thread.
#[inline(never)]
fn seldom_own(
    out: &mut [u8],
    at: usize,
    mark: Mark,
    kind: OwnKind,
    thread: u64,
    woken: u64,
) -> usize
    requires { at + LINE ≤ length out.old }
    ensures end { result < at + LINE }
    ensures room { length out.new ≡ length out.old }
    ensures text { take result out.new ≡ take at out.old ++ take_text (own_of mark kind thread woken) }
{
    let end = takes_thread(out, at, mark, thread);
    match kind {
        OwnKind::Nothing => literal(out, end, b" event 0 0 0"),
        OwnKind::Cancelled => literal(out, end, b" event 6 0 0"),
        OwnKind::NothingWakes => {
            let end = literal(out, end, b" event 0 0 0");
            wakes(out, end, woken)
        }
        OwnKind::CancelledWakes => {
            let end = literal(out, end, b" event 6 0 0");
            wakes(out, end, woken)
        }
    }
}

fn own_label(out: &mut [u8], at: usize, mark: Mark, kind: OwnKind, small: u32, xs: &[u64]) -> usize
    requires { at + LINE ≤ length out.old }
    ensures end { result < at + LINE }
    ensures room { length out.new ≡ length out.old }
    ensures text { take result out.new ≡ take at out.old ++ take_text (own_of mark kind (slice_index (all small xs.now) 0) (slice_index (all small xs.now) 1)) }
{
    let thread = first(small, xs);
    match kind {
        OwnKind::Nothing => takes_and(out, at, mark, thread, b" event 0 0 0"),
        _ => seldom_own(out, at, mark, kind, thread, later(small, xs, 1)),
    }
}

fn given_label(
    out: &mut [u8],
    at: usize,
    mark: Mark,
    status: Status,
    handle: u32,
    thread: u64,
) -> usize
    requires { at + LINE ≤ length out.old }
    ensures end { result < at + LINE }
    ensures room { length out.new ≡ length out.old }
    ensures text { take result out.new ≡ take at out.old ++ event_text mark thread (Given.Subtask status handle) }
{
    let end = takes_thread(out, at, mark, thread);
    handed(out, end, b" event 1 ", handle, status)
}

fn data_label(out: &mut [u8], at: usize, kind: DataKind, small: u32, xs: &[u64]) -> usize
    requires { at + LINE ≤ length out.old }
    ensures end { result < at + LINE }
    ensures room { length out.new ≡ length out.old }
    ensures text { take result out.new ≡ take at out.old ++ data_text (data_of kind (slice_index (all small xs.now) 0) (slice_index (all small xs.now) 1)) }
{
    let end = thread_number(out, at, first(small, xs));
    match kind {
        DataKind::Set => number(out, end, b" set ", later(small, xs, 1)),
        DataKind::Add => number(out, end, b" add ", later(small, xs, 1)),
        DataKind::Handle => number(out, end, b" handle ", later(small, xs, 1)),
        DataKind::Load => number(out, end, b" load ", later(small, xs, 1)),
        DataKind::Store => number(out, end, b" store ", later(small, xs, 1)),
        DataKind::SkipEq => literal(out, end, b" skip_eq"),
    }
}

fn task_label(out: &mut [u8], at: usize, kind: TaskKind, small: u32, xs: &[u64]) -> usize
    requires { at + LINE ≤ length out.old }
    ensures end { result < at + LINE }
    ensures room { length out.new ≡ length out.old }
    ensures text { take result out.new ≡ take at out.old ++ task_text (task_of kind (slice_index (all small xs.now) 0) (slice_index (all small xs.now) 1)) }
{
    let end = thread_number(out, at, first(small, xs));
    match kind {
        TaskKind::Ret => number(out, end, b" ret ", later(small, xs, 1)),
        TaskKind::TaskCancel => literal(out, end, b" task_cancel"),
        TaskKind::TaskCancelWakes => {
            let end = literal(out, end, b" task_cancel");
            wakes(out, end, later(small, xs, 1))
        }
        TaskKind::Exit => literal(out, end, b" exit"),
        TaskKind::ExitWakes => {
            let end = literal(out, end, b" exit");
            wakes(out, end, later(small, xs, 1))
        }
        TaskKind::CbYield => literal(out, end, b" cb_yield"),
        TaskKind::CbWait => literal(out, end, b" cb_wait"),
        TaskKind::Code => literal(out, end, b" code"),
        TaskKind::BpInc => literal(out, end, b" bp_inc"),
        TaskKind::BpDec => literal(out, end, b" bp_dec"),
    }
}

// ` wait`, the task event, and the thread that was woken.
fn waits_and_wakes(out: &mut [u8], at: usize, event: TaskEvent, woken: u64) -> usize
    requires { at + 65 ≤ length out.old }
    ensures end { result ≤ at + 60 }
    ensures room { length out.new ≡ length out.old }
    ensures text { take result out.new ≡ take at out.old ++ wakes (codes " wait" ++ given_text (given_own event)) woken }
{
    match event {
        TaskEvent::None => number(out, at, b" wait 0 0 0 wakes ", woken),
        TaskEvent::Cancelled => number(out, at, b" wait 6 0 0 wakes ", woken),
    }
}

fn set_label(out: &mut [u8], at: usize, kind: SetKind, small: u32, xs: &[u64]) -> usize
    requires { at + LINE ≤ length out.old }
    ensures end { result < at + LINE }
    ensures room { length out.new ≡ length out.old }
    ensures text { take result out.new ≡ take at out.old ++ set_text (set_of kind (slice_index (all small xs.now) 0) (slice_index (all small xs.now) 1)) }
{
    let end = thread_number(out, at, first(small, xs));
    match kind {
        SetKind::Drop => literal(out, end, b" set_drop"),
        SetKind::WaitNothing => literal(out, end, b" wait 0 0 0"),
        SetKind::WaitCancelled => literal(out, end, b" wait 6 0 0"),
        SetKind::WaitWakes(event) => waits_and_wakes(out, end, event, later(small, xs, 1)),
        SetKind::PollNothing => literal(out, end, b" poll 0 0 0"),
        SetKind::PollCancelled => literal(out, end, b" poll 6 0 0"),
        SetKind::Join => literal(out, end, b" join"),
        SetKind::JoinWakes => number(out, end, b" join wakes ", later(small, xs, 1)),
    }
}

fn call_label(out: &mut [u8], at: usize, kind: CallKind, small: u32, xs: &[u64]) -> usize
    requires { at + LINE ≤ length out.old }
    ensures end { result < at + LINE }
    ensures room { length out.new ≡ length out.old }
    ensures text { take result out.new ≡ take at out.old ++ label_text (call_in kind (all small xs.now)) }
{
    let end = thread_number(out, at, first(small, xs));
    match kind {
        CallKind::Calls => number(out, end, b" calls thread ", later(small, xs, 1)),
        CallKind::Enters => number(out, end, b" enters thread ", later(small, xs, 1)),
        CallKind::CallSync => number(out, end, b" call_sync ", later(small, xs, 1)),
        CallKind::CallSyncPolls => numbers(
            out,
            end,
            b" call_sync ",
            later(small, xs, 1),
            b" future ",
            later(small, xs, 2),
        ),
        CallKind::PausesPolls => number(out, end, b" pauses future ", later(small, xs, 1)),
        CallKind::Fails => number(out, end, b" fails ", later(small, xs, 1)),
        CallKind::Drop => literal(out, end, b" drop"),
        CallKind::RetWakes => numbers(
            out,
            end,
            b" ret ",
            later(small, xs, 1),
            b" wakes ",
            later(small, xs, 2),
        ),
    }
}

fn thread_label(out: &mut [u8], at: usize, kind: ThreadKind, thread: u64) -> usize
    requires { at + LINE ≤ length out.old }
    ensures end { result < at + LINE }
    ensures room { length out.new ≡ length out.old }
    ensures text { take result out.new ≡ take at out.old ++ thread_text (thread_of kind thread) }
{
    let end = thread_number(out, at, thread);
    match kind {
        ThreadKind::Pauses => literal(out, end, b" pauses"),
        ThreadKind::ResumeLater => literal(out, end, b" resume_later"),
        ThreadKind::Suspend => literal(out, end, b" suspend"),
        ThreadKind::Yield => literal(out, end, b" yield"),
        ThreadKind::SuspendThenResume => literal(out, end, b" suspend_then_resume"),
        ThreadKind::YieldThenResume => literal(out, end, b" yield_then_resume"),
        ThreadKind::SuspendThenPromote => literal(out, end, b" suspend_then_promote"),
        ThreadKind::YieldThenPromote => literal(out, end, b" yield_then_promote"),
    }
}

fn handle_label(out: &mut [u8], at: usize, kind: HandleKind, small: u32, xs: &[u64]) -> usize
    requires { at + LINE ≤ length out.old }
    ensures end { result < at + LINE }
    ensures room { length out.new ≡ length out.old }
    ensures text { take result out.new ≡ take at out.old ++ label_text (handle_of kind small (slice_index xs.now 0) (slice_index xs.now 1)) }
{
    let end = thread_number(out, at, listed(xs, 0));
    let shown = u64::from(small);
    match kind {
        HandleKind::SetNew => number(out, end, b" set_new ", shown),
        HandleKind::Wait(status) => handed(out, end, b" wait 1 ", small, status),
        HandleKind::Poll(status) => handed(out, end, b" poll 1 ", small, status),
        HandleKind::Call => number(out, end, b" call ", shown),
        HandleKind::CallPolls => numbers(out, end, b" call ", shown, b" future ", listed(xs, 1)),
        HandleKind::Cancel => number(out, end, b" cancel ", shown),
        HandleKind::CancelSync => number(out, end, b" cancel_sync ", shown),
        HandleKind::ThreadNew => numbers(
            out,
            end,
            b" thread_new ",
            shown,
            b" thread ",
            listed(xs, 1),
        ),
        HandleKind::ThreadIndex => number(out, end, b" thread_index ", shown),
    }
}

// The text of a label, without a line feed, from its head and its numbers in the list. It is compiled into the
// loop that prints a report, so that nothing is kept and handed over from line to line.
#[inline(always)]
fn any_label(out: &mut [u8], at: usize, head: &Head, xs: &[u64]) -> usize
    requires { at + LINE ≤ length out.old }
    ensures end { result < at + LINE }
    ensures room { length out.new ≡ length out.old }
    ensures text { take result out.new ≡ take at out.old ++ label_text (label_of head.now xs.now) }
{
    let small = head.small;
    match head.kind {
        LabelKind::Main(kind) => main_label(out, at, kind, small, listed(xs, 0)),
        LabelKind::Loop(kind) => loop_label(out, at, kind, small, xs),
        LabelKind::Take(mark, kind) => take_label(out, at, mark, kind, small, xs),
        LabelKind::Own(mark, kind) => own_label(out, at, mark, kind, small, xs),
        LabelKind::Given(mark, status) => given_label(out, at, mark, status, small, listed(xs, 0)),
        LabelKind::Data(kind) => data_label(out, at, kind, small, xs),
        LabelKind::Task(kind) => task_label(out, at, kind, small, xs),
        LabelKind::Set(kind) => set_label(out, at, kind, small, xs),
        LabelKind::Call(kind) => call_label(out, at, kind, small, xs),
        LabelKind::Thread(kind) => thread_label(out, at, kind, first(small, xs)),
        LabelKind::Handle(kind) => handle_label(out, at, kind, small, xs),
    }
}

/// Writes the line of a label in place. The answer is the place behind it.
#[inline(always)]
pub(crate) fn label_line(out: &mut [u8], at: usize, head: &Head, xs: &[u64]) -> usize
    requires { at + LINE ≤ length out.old }
    ensures end { result ≤ at + LINE }
    ensures room { length out.new ≡ length out.old }
    ensures text { take result out.new ≡ take at out.old ++ line_text (label_text (label_of head.now xs.now)) }
{
    let end = any_label(out, at, head, xs);
    literal(out, end, b"\n")
}

// The text of an outcome, without a line feed.
fn any_outcome(out: &mut [u8], at: usize, outcome: Outcome) -> usize
    requires { at + LINE ≤ length out.old }
    ensures end { result < at + LINE }
    ensures room { length out.new ≡ length out.old }
    ensures text { take result out.new ≡ take at out.old ++ outcome_text outcome }
{
    match outcome {
        Outcome::Done(value) => number(out, at, b"done ", value),
        Outcome::Trap(trap) => number(out, at, b"trap ", trap.number().into()),
        Outcome::HostFailed(work) => number(out, at, b"host failed ", work),
        Outcome::Deadlock(trap) => number(out, at, b"deadlock ", trap.number().into()),
        Outcome::Idle => literal(out, at, b"idle"),
        Outcome::OutOfSteps => literal(out, at, b"out of steps"),
    }
}

/// Writes the line of an outcome in place, where there is room for a longest one. The answer is the place behind it.
pub fn outcome_line(out: &mut [u8], at: usize, outcome: Outcome) -> usize
    requires { at + LINE ≤ length out.old }
    ensures end { result ≤ at + LINE }
    ensures room { length out.new ≡ length out.old }
    ensures text { take result out.new ≡ take at out.old ++ line_text (outcome_text outcome) }
{
    let end = any_outcome(out, at, outcome);
    literal(out, end, b"\n")
}
