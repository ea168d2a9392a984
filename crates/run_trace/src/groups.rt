//! Labels into the list, each group of them apart: what is known of a label is known where it is packed.
ghost use Rattle.run_trace.specs.Traced.{with_label};
ghost use Rattle.std.specs.Prelude.{◌≡◌, ◌<◌};
ghost use Rattle.machine_data.specs.declared.label.Label.TheVariants as Label;
ghost use Rattle.machine_data.specs.declared.label.TakeLabel.TheVariants as TakeLabel;
ghost use Rattle.machine_data.specs.declared.label.SetLabel.TheVariants as SetLabel;

use crate::kinds::{
    CallKind, DataKind, HandleKind, LabelKind, LoopKind, MainKind, OwnKind, SetKind, TakeKind,
    TaskKind, ThreadKind,
};
use crate::packed::PackedLabels;
use machine_data::{
    CallLabel, DataLabel, Given, LoopLabel, MainLabel, Mark, SetLabel, TakeLabel, TaskEvent,
    TaskLabel, ThreadLabel,
};

impl PackedLabels {
    // A label of main. It is a function of its own, as few labels are.
    #[inline(never)]
    pub(crate) fn push_main(&mut self, label: MainLabel)
        requires { 0 < self.old.spare }
        ensures { self.new ≡ with_label self.old (Label.Main label) }
    {
        let (kind, shown) = match label {
            MainLabel::Start(start, thread) => return self.put_one(
                LabelKind::Main(MainKind::Start),
                start,
                thread,
            ),
            MainLabel::Finish(start, value) => return self.put_one(
                LabelKind::Main(MainKind::Finish),
                start,
                value,
            ),
            MainLabel::Spawn(spawn, work) => return self.put_one(
                LabelKind::Main(MainKind::Spawn),
                spawn,
                work,
            ),
            MainLabel::Answer(value) => return self.put_one(
                LabelKind::Main(MainKind::Answer),
                0,
                value,
            ),
            MainLabel::StartRefused(trap, start) => (MainKind::StartRefused(trap), start),
            MainLabel::FinishRefused(trap, start) => (MainKind::FinishRefused(trap), start),
            MainLabel::Abort(phase, spawn) => (MainKind::Abort(phase), spawn),
            MainLabel::Await(spawn) => (MainKind::Await, spawn),
            MainLabel::Quiet => (MainKind::Quiet, 0),
            MainLabel::Ready => (MainKind::Ready, 0),
        };
        self.put_none(LabelKind::Main(kind), shown)
    }

    // A label of the loop.
    #[inline(always)]
    pub(crate) fn push_loop(&mut self, label: LoopLabel)
        requires { 0 < self.old.spare }
        ensures { self.new ≡ with_label self.old (Label.Loop label) }
    {
        let (kind, number) = match label {
            LoopLabel::MainPends => (LoopKind::MainPends, 0),
            LoopLabel::FuturePends(work) => (LoopKind::FuturePends, work),
            LoopLabel::FutureEnds(work) => (LoopKind::FutureEnds, work),
            LoopLabel::FutureFails(work) => (LoopKind::FutureFails, work),
            LoopLabel::FutureAborted(work) => (LoopKind::FutureAborted, work),
            LoopLabel::Rest => (LoopKind::Rest, 0),
            LoopLabel::Deadlock(trap) => (LoopKind::Deadlock(trap), 0),
            LoopLabel::Trap(trap, thread) => (LoopKind::Trap(trap), thread),
        };
        self.one(LabelKind::Loop(kind), number)
    }

    // A taking that hands out an event.
    #[inline(always)]
    fn push_event(&mut self, mark: Mark, given: Given, thread: u64)
        requires { 0 < self.old.spare }
        ensures { self.new ≡ with_label self.old (Label.Take (TakeLabel.Event mark given thread)) }
    {
        let kind = match given {
            Given::Subtask { status, handle } => return self.put_one(
                LabelKind::Given(mark, status),
                handle,
                thread,
            ),
            Given::Nothing => OwnKind::Nothing,
            Given::Cancelled => OwnKind::Cancelled,
        };
        self.one(LabelKind::Own(mark, kind), thread)
    }

    // A taking. Those that wake a thread are seldom.
    #[inline(always)]
    pub(crate) fn push_take(&mut self, label: TakeLabel)
        requires { 0 < self.old.spare }
        ensures { self.new ≡ with_label self.old (Label.Take label) }
    {
        let (mark, kind, number) = match label {
            TakeLabel::Event(mark, given, thread) => return self.push_event(mark, given, thread),
            TakeLabel::Thread(mark, thread) => (mark, TakeKind::Thread, thread),
            TakeLabel::Held(mark, thread) => (mark, TakeKind::Held, thread),
            TakeLabel::Again(mark, thread) => (mark, TakeKind::Again, thread),
            TakeLabel::Push(mark, work) => (mark, TakeKind::Push, work),
            TakeLabel::Host(mark, work) => (mark, TakeKind::Host, work),
            TakeLabel::ThreadWakes(mark, thread, woken) => return self.two_outlined(
                LabelKind::Take(mark, TakeKind::ThreadWakes),
                thread,
                woken,
            ),
            TakeLabel::HeldWakes(mark, thread, woken) => return self.two_outlined(
                LabelKind::Take(mark, TakeKind::HeldWakes),
                thread,
                woken,
            ),
            TakeLabel::HostWakes(mark, work, woken) => return self.two_outlined(
                LabelKind::Take(mark, TakeKind::HostWakes),
                work,
                woken,
            ),
            TakeLabel::EventWakes(mark, event, thread, woken) => {
                let kind = match event {
                    TaskEvent::None => OwnKind::NothingWakes,
                    TaskEvent::Cancelled => OwnKind::CancelledWakes,
                };
                return self.two_outlined(LabelKind::Own(mark, kind), thread, woken);
            }
        };
        self.one(LabelKind::Take(mark, kind), number)
    }

    // An op on registers and memory cells.
    #[inline(always)]
    pub(crate) fn push_data(&mut self, label: DataLabel)
        requires { 0 < self.old.spare }
        ensures { self.new ≡ with_label self.old (Label.Data label) }
    {
        let (kind, thread, value) = match label {
            DataLabel::Set(thread, value) => (DataKind::Set, thread, value),
            DataLabel::Add(thread, value) => (DataKind::Add, thread, value),
            DataLabel::Handle(thread, value) => (DataKind::Handle, thread, value),
            DataLabel::Load(thread, value) => (DataKind::Load, thread, value),
            DataLabel::Store(thread, value) => (DataKind::Store, thread, value),
            DataLabel::SkipEq(thread) => return self.one(LabelKind::Data(DataKind::SkipEq), thread),
        };
        self.two(LabelKind::Data(kind), thread, value)
    }

    // An end of a task, an activation or a thread, or backpressure.
    #[inline(always)]
    pub(crate) fn push_task(&mut self, label: TaskLabel)
        requires { 0 < self.old.spare }
        ensures { self.new ≡ with_label self.old (Label.Task label) }
    {
        let (kind, thread) = match label {
            TaskLabel::Ret(thread, value) => return self.two(
                LabelKind::Task(TaskKind::Ret),
                thread,
                value,
            ),
            TaskLabel::TaskCancelWakes(thread, woken) => return self.two_outlined(
                LabelKind::Task(TaskKind::TaskCancelWakes),
                thread,
                woken,
            ),
            TaskLabel::ExitWakes(thread, woken) => return self.two(
                LabelKind::Task(TaskKind::ExitWakes),
                thread,
                woken,
            ),
            TaskLabel::TaskCancel(thread) => (TaskKind::TaskCancel, thread),
            TaskLabel::Exit(thread) => (TaskKind::Exit, thread),
            TaskLabel::CbYield(thread) => (TaskKind::CbYield, thread),
            TaskLabel::CbWait(thread) => (TaskKind::CbWait, thread),
            TaskLabel::Code(thread) => (TaskKind::Code, thread),
            TaskLabel::BpInc(thread) => (TaskKind::BpInc, thread),
            TaskLabel::BpDec(thread) => (TaskKind::BpDec, thread),
        };
        self.one(LabelKind::Task(kind), thread)
    }

    // A wait that got this.
    #[inline(always)]
    fn push_wait(&mut self, given: Given, thread: u64)
        requires { 0 < self.old.spare }
        ensures { self.new ≡ with_label self.old (Label.Set (SetLabel.Wait given thread)) }
    {
        let kind = match given {
            Given::Subtask { status, handle } => return self.put_one(
                LabelKind::Handle(HandleKind::Wait(status)),
                handle,
                thread,
            ),
            Given::Nothing => SetKind::WaitNothing,
            Given::Cancelled => SetKind::WaitCancelled,
        };
        self.one(LabelKind::Set(kind), thread)
    }

    // A poll that got this.
    #[inline(always)]
    fn push_poll(&mut self, given: Given, thread: u64)
        requires { 0 < self.old.spare }
        ensures { self.new ≡ with_label self.old (Label.Set (SetLabel.Poll given thread)) }
    {
        let kind = match given {
            Given::Subtask { status, handle } => return self.put_one(
                LabelKind::Handle(HandleKind::Poll(status)),
                handle,
                thread,
            ),
            Given::Nothing => SetKind::PollNothing,
            Given::Cancelled => SetKind::PollCancelled,
        };
        self.one(LabelKind::Set(kind), thread)
    }

    // An op on sets.
    #[inline(always)]
    pub(crate) fn push_set(&mut self, label: SetLabel)
        requires { 0 < self.old.spare }
        ensures { self.new ≡ with_label self.old (Label.Set label) }
    {
        let (kind, thread) = match label {
            SetLabel::New(handle, thread) => return self.put_one(
                LabelKind::Handle(HandleKind::SetNew),
                handle,
                thread,
            ),
            SetLabel::Wait(given, thread) => return self.push_wait(given, thread),
            SetLabel::Poll(given, thread) => return self.push_poll(given, thread),
            SetLabel::WaitWakes(event, thread, woken) => return self.two_outlined(
                LabelKind::Set(SetKind::WaitWakes(event)),
                thread,
                woken,
            ),
            SetLabel::JoinWakes(thread, woken) => return self.two(
                LabelKind::Set(SetKind::JoinWakes),
                thread,
                woken,
            ),
            SetLabel::Drop(thread) => (SetKind::Drop, thread),
            SetLabel::Join(thread) => (SetKind::Join, thread),
        };
        self.one(LabelKind::Set(kind), thread)
    }

    // An op on subtasks.
    #[inline(always)]
    pub(crate) fn push_call(&mut self, label: CallLabel)
        requires { 0 < self.old.spare }
        ensures { self.new ≡ with_label self.old (Label.Call label) }
    {
        let (kind, thread, second) = match label {
            CallLabel::Calls(thread, callee) => (CallKind::Calls, thread, callee),
            CallLabel::Enters(thread, callee) => (CallKind::Enters, thread, callee),
            CallLabel::CallSync(thread, value) => (CallKind::CallSync, thread, value),
            CallLabel::PausesPolls(thread, work) => (CallKind::PausesPolls, thread, work),
            CallLabel::Fails(thread, work) => (CallKind::Fails, thread, work),
            CallLabel::Call(answer, thread) => {
                return self.put_one(LabelKind::Handle(HandleKind::Call), answer, thread);
            }
            CallLabel::CallPolls(answer, thread, work) => {
                return self.put_two(
                    LabelKind::Handle(HandleKind::CallPolls),
                    answer,
                    thread,
                    work,
                );
            }
            CallLabel::Cancel(answer, thread) => {
                return self.put_one(LabelKind::Handle(HandleKind::Cancel), answer, thread);
            }
            CallLabel::CancelSync(answer, thread) => {
                return self.put_one(LabelKind::Handle(HandleKind::CancelSync), answer, thread);
            }
            CallLabel::Drop(thread) => return self.one(LabelKind::Call(CallKind::Drop), thread),
        };
        self.two(LabelKind::Call(kind), thread, second)
    }

    // An op on threads.
    #[inline(always)]
    pub(crate) fn push_thread(&mut self, label: ThreadLabel)
        requires { 0 < self.old.spare }
        ensures { self.new ≡ with_label self.old (Label.Thread label) }
    {
        let (kind, thread) = match label {
            ThreadLabel::New(handle, thread, made) => return self.put_two(
                LabelKind::Handle(HandleKind::ThreadNew),
                handle,
                thread,
                made,
            ),
            ThreadLabel::Index(handle, thread) => return self.put_one(
                LabelKind::Handle(HandleKind::ThreadIndex),
                handle,
                thread,
            ),
            ThreadLabel::Pauses(thread) => (ThreadKind::Pauses, thread),
            ThreadLabel::ResumeLater(thread) => (ThreadKind::ResumeLater, thread),
            ThreadLabel::Suspend(thread) => (ThreadKind::Suspend, thread),
            ThreadLabel::Yield(thread) => (ThreadKind::Yield, thread),
            ThreadLabel::SuspendThenResume(thread) => (ThreadKind::SuspendThenResume, thread),
            ThreadLabel::YieldThenResume(thread) => (ThreadKind::YieldThenResume, thread),
            ThreadLabel::SuspendThenPromote(thread) => (ThreadKind::SuspendThenPromote, thread),
            ThreadLabel::YieldThenPromote(thread) => (ThreadKind::YieldThenPromote, thread),
        };
        self.one(LabelKind::Thread(kind), thread)
    }
}
