//! Labels out of their kinds and numbers.
ghost use Rattle.std.specs.Prelude.{◌≡◌, ◌≤◌, [], ◌∷◌, MatchOption, length, slice_index};
ghost use Rattle.run_trace.specs.Labels.{label_of};
ghost use Rattle.run_trace.specs.Opened.{all, call_of, data_of, handle_of, loop_of, main_of, own_of, set_of, take_of, task_of, thread_of};

use crate::kinds::{
    CallKind, DataKind, HandleKind, Head, LARGE, LabelKind, LoopKind, MainKind, OwnKind, SetKind,
    TakeKind, TaskKind, ThreadKind,
};
use machine_data::{
    CallLabel, DataLabel, Given, Label, LoopLabel, MainLabel, Mark, SetLabel, TakeLabel, TaskEvent,
    TaskLabel, ThreadLabel,
};
use std::marker::Model;

/// The labels of a list that are left, one after another. A contract sees the list of them.
#[derive(Drop)]
pub struct Labels<'a> {
    pub(crate) heads: &'a [Head],
    pub(crate) numbers: &'a [u64],
}

impl<'a> Model for Labels<'a> {
    ghost use Rattle.std.specs.Prelude.{◌≡◌, List, length};
    ghost use Rattle.run_trace.specs.Labels.{count_of, labels_of};
    ghost use Rattle.machine_data.specs.declared.label.Label.{Label};

    ghost Value = { List Label };

    ghost view = { λ l. labels_of l.heads.now l.numbers.now };

    ghost invariant = { λ l. count_of l.heads.now ≡ length l.numbers.now };
}

impl<'a> Labels<'a> {
    /// Returns how many labels are left.
    #[inline(always)]
    pub fn len(&self) -> usize
        ensures { result ≡ length self.now }
    {
        self.heads.len()
    }

    /// Returns the labels that are left, for another to go over.
    #[inline(always)]
    pub fn rest(&self) -> Labels<'a>
        ensures { result ≡ self.now }
    {
        Labels {
            heads: self.heads,
            numbers: self.numbers,
        }
    }

    /// Takes the first label away, as the list keeps it: its head, and its numbers in the list.
    #[inline(always)]
    pub fn take(&mut self) -> Option<(&'a Head, &'a [u64])>
        ensures { MatchOption result ((self.old ≡ []) × (self.new ≡ [])) (λ p. self.old ≡ label_of p.0.now p.1.now ∷ self.new) }
    {
        let (head, heads) = self.heads.split_first()?;
        let (own, numbers) = self.numbers.split_at(head.count.into());
        self.heads = heads;
        self.numbers = numbers;
        Some((head, own))
    }
}

impl<'a> Iterator for Labels<'a> {
    type Item = Label;

    ghost use Rattle.std.specs.Iterator.{YieldsFirst, item_count};

    ghost next_gives = { YieldsFirst (λ l. l) };

    ghost remaining = { item_count (λ l. l) };

    fn next(&mut self) -> Option<Label> {
        let (head, numbers) = self.take()?;
        Some(open(*head, numbers))
    }
}

/// Returns the number at a place of a label's numbers in the list, 0 past the end.
#[inline(always)]
pub fn listed(numbers: &[u64], place: usize) -> u64
    ensures { result ≡ slice_index numbers.now place }
{
    if place < numbers.len() {
        numbers[place]
    } else {
        0
    }
}

/// Returns the first of all numbers of a label, with the number that its head has.
#[inline(always)]
pub fn first(small: u32, numbers: &[u64]) -> u64
    ensures { result ≡ slice_index (all small numbers.now) 0 }
{
    if small == LARGE {
        listed(numbers, 0)
    } else {
        small.into()
    }
}

/// Returns a later one of all numbers of a label: its second one has place 1. 0 past the end.
#[inline(always)]
pub fn later(small: u32, numbers: &[u64], place: usize) -> u64
    requires later { 1 ≤ place }
    ensures { result ≡ slice_index (all small numbers.now) place }
{
    if small == LARGE {
        listed(numbers, place)
    } else {
        listed(numbers, place - 1)
    }
}

fn open_main(kind: MainKind, small: u32, number: u64) -> MainLabel
    ensures { result ≡ main_of kind small number }
{
    match kind {
        MainKind::Start => MainLabel::Start(small, number),
        MainKind::StartRefused(trap) => MainLabel::StartRefused(trap, small),
        MainKind::Finish => MainLabel::Finish(small, number),
        MainKind::FinishRefused(trap) => MainLabel::FinishRefused(trap, small),
        MainKind::Spawn => MainLabel::Spawn(small, number),
        MainKind::Abort(phase) => MainLabel::Abort(phase, small),
        MainKind::Await => MainLabel::Await(small),
        MainKind::Quiet => MainLabel::Quiet,
        MainKind::Ready => MainLabel::Ready,
        MainKind::Answer => MainLabel::Answer(number),
    }
}

fn open_loop(kind: LoopKind, number: u64) -> LoopLabel
    ensures { result ≡ loop_of kind number }
{
    match kind {
        LoopKind::MainPends => LoopLabel::MainPends,
        LoopKind::FuturePends => LoopLabel::FuturePends(number),
        LoopKind::FutureEnds => LoopLabel::FutureEnds(number),
        LoopKind::FutureFails => LoopLabel::FutureFails(number),
        LoopKind::FutureAborted => LoopLabel::FutureAborted(number),
        LoopKind::Rest => LoopLabel::Rest,
        LoopKind::Deadlock(trap) => LoopLabel::Deadlock(trap),
        LoopKind::Trap(trap) => LoopLabel::Trap(trap, number),
    }
}

fn open_take(mark: Mark, kind: TakeKind, number: u64, woken: u64) -> TakeLabel
    ensures { result ≡ take_of mark kind number woken }
{
    match kind {
        TakeKind::Thread => TakeLabel::Thread(mark, number),
        TakeKind::ThreadWakes => TakeLabel::ThreadWakes(mark, number, woken),
        TakeKind::Held => TakeLabel::Held(mark, number),
        TakeKind::HeldWakes => TakeLabel::HeldWakes(mark, number, woken),
        TakeKind::Again => TakeLabel::Again(mark, number),
        TakeKind::Push => TakeLabel::Push(mark, number),
        TakeKind::Host => TakeLabel::Host(mark, number),
        TakeKind::HostWakes => TakeLabel::HostWakes(mark, number, woken),
    }
}

fn open_own(mark: Mark, kind: OwnKind, thread: u64, woken: u64) -> TakeLabel
    ensures { result ≡ own_of mark kind thread woken }
{
    match kind {
        OwnKind::Nothing => TakeLabel::Event(mark, Given::Nothing, thread),
        OwnKind::Cancelled => TakeLabel::Event(mark, Given::Cancelled, thread),
        OwnKind::NothingWakes => TakeLabel::EventWakes(mark, TaskEvent::None, thread, woken),
        OwnKind::CancelledWakes => TakeLabel::EventWakes(mark, TaskEvent::Cancelled, thread, woken),
    }
}

fn open_data(kind: DataKind, thread: u64, value: u64) -> DataLabel
    ensures { result ≡ data_of kind thread value }
{
    match kind {
        DataKind::Set => DataLabel::Set(thread, value),
        DataKind::Add => DataLabel::Add(thread, value),
        DataKind::Handle => DataLabel::Handle(thread, value),
        DataKind::Load => DataLabel::Load(thread, value),
        DataKind::Store => DataLabel::Store(thread, value),
        DataKind::SkipEq => DataLabel::SkipEq(thread),
    }
}

fn open_task(kind: TaskKind, thread: u64, number: u64) -> TaskLabel
    ensures { result ≡ task_of kind thread number }
{
    match kind {
        TaskKind::Ret => TaskLabel::Ret(thread, number),
        TaskKind::TaskCancel => TaskLabel::TaskCancel(thread),
        TaskKind::TaskCancelWakes => TaskLabel::TaskCancelWakes(thread, number),
        TaskKind::Exit => TaskLabel::Exit(thread),
        TaskKind::ExitWakes => TaskLabel::ExitWakes(thread, number),
        TaskKind::CbYield => TaskLabel::CbYield(thread),
        TaskKind::CbWait => TaskLabel::CbWait(thread),
        TaskKind::Code => TaskLabel::Code(thread),
        TaskKind::BpInc => TaskLabel::BpInc(thread),
        TaskKind::BpDec => TaskLabel::BpDec(thread),
    }
}

fn open_set(kind: SetKind, thread: u64, woken: u64) -> SetLabel
    ensures { result ≡ set_of kind thread woken }
{
    match kind {
        SetKind::Drop => SetLabel::Drop(thread),
        SetKind::WaitNothing => SetLabel::Wait(Given::Nothing, thread),
        SetKind::WaitCancelled => SetLabel::Wait(Given::Cancelled, thread),
        SetKind::WaitWakes(event) => SetLabel::WaitWakes(event, thread, woken),
        SetKind::PollNothing => SetLabel::Poll(Given::Nothing, thread),
        SetKind::PollCancelled => SetLabel::Poll(Given::Cancelled, thread),
        SetKind::Join => SetLabel::Join(thread),
        SetKind::JoinWakes => SetLabel::JoinWakes(thread, woken),
    }
}

fn open_call(kind: CallKind, thread: u64, second: u64, third: u64) -> Label
    ensures { result ≡ call_of kind thread second third }
{
    match kind {
        CallKind::Calls => Label::Call(CallLabel::Calls(thread, second)),
        CallKind::Enters => Label::Call(CallLabel::Enters(thread, second)),
        CallKind::CallSync => Label::Call(CallLabel::CallSync(thread, second)),
        CallKind::CallSyncPolls => Label::CallSyncPolls(thread, second, third),
        CallKind::PausesPolls => Label::Call(CallLabel::PausesPolls(thread, second)),
        CallKind::Fails => Label::Call(CallLabel::Fails(thread, second)),
        CallKind::Drop => Label::Call(CallLabel::Drop(thread)),
        CallKind::RetWakes => Label::RetWakes(thread, second, third),
    }
}

fn open_thread(kind: ThreadKind, thread: u64) -> ThreadLabel
    ensures { result ≡ thread_of kind thread }
{
    match kind {
        ThreadKind::Pauses => ThreadLabel::Pauses(thread),
        ThreadKind::ResumeLater => ThreadLabel::ResumeLater(thread),
        ThreadKind::Suspend => ThreadLabel::Suspend(thread),
        ThreadKind::Yield => ThreadLabel::Yield(thread),
        ThreadKind::SuspendThenResume => ThreadLabel::SuspendThenResume(thread),
        ThreadKind::YieldThenResume => ThreadLabel::YieldThenResume(thread),
        ThreadKind::SuspendThenPromote => ThreadLabel::SuspendThenPromote(thread),
        ThreadKind::YieldThenPromote => ThreadLabel::YieldThenPromote(thread),
    }
}

fn open_handle(kind: HandleKind, small: u32, thread: u64, third: u64) -> Label
    ensures { result ≡ handle_of kind small thread third }
{
    match kind {
        HandleKind::SetNew => Label::Set(SetLabel::New(small, thread)),
        HandleKind::Wait(status) => {
            let given = Given::Subtask {
                status,
                handle: small,
            };
            Label::Set(SetLabel::Wait(given, thread))
        }
        HandleKind::Poll(status) => {
            let given = Given::Subtask {
                status,
                handle: small,
            };
            Label::Set(SetLabel::Poll(given, thread))
        }
        HandleKind::Call => Label::Call(CallLabel::Call(small, thread)),
        HandleKind::CallPolls => Label::Call(CallLabel::CallPolls(small, thread, third)),
        HandleKind::Cancel => Label::Call(CallLabel::Cancel(small, thread)),
        HandleKind::CancelSync => Label::Call(CallLabel::CancelSync(small, thread)),
        HandleKind::ThreadNew => Label::Thread(ThreadLabel::New(small, thread, third)),
        HandleKind::ThreadIndex => Label::Thread(ThreadLabel::Index(small, thread)),
    }
}

// The label of a head whose numbers in the list are these.
pub(crate) fn open(head: Head, numbers: &[u64]) -> Label
    ensures { result ≡ label_of head numbers.now }
{
    let small = head.small;
    let (a, b, c) = (
        first(small, numbers),
        later(small, numbers, 1),
        later(small, numbers, 2),
    );
    let (x, y) = (listed(numbers, 0), listed(numbers, 1));
    match head.kind {
        LabelKind::Main(kind) => Label::Main(open_main(kind, small, x)),
        LabelKind::Loop(kind) => Label::Loop(open_loop(kind, a)),
        LabelKind::Take(mark, kind) => Label::Take(open_take(mark, kind, a, b)),
        LabelKind::Own(mark, kind) => Label::Take(open_own(mark, kind, a, b)),
        LabelKind::Given(mark, status) => {
            let given = Given::Subtask {
                status,
                handle: small,
            };
            Label::Take(TakeLabel::Event(mark, given, x))
        }
        LabelKind::Data(kind) => Label::Data(open_data(kind, a, b)),
        LabelKind::Task(kind) => Label::Task(open_task(kind, a, b)),
        LabelKind::Set(kind) => Label::Set(open_set(kind, a, b)),
        LabelKind::Call(kind) => open_call(kind, a, b, c),
        LabelKind::Thread(kind) => Label::Thread(open_thread(kind, a)),
        LabelKind::Handle(kind) => open_handle(kind, small, x, y),
    }
}
