//! The labels of which a trace is made: one for each kind of step. Each has what its printed form shows, which is
//! above it: threads N, M and W and works I by their numbers, starts and spawns K by their lines, from 1. Of these parts the small
//! ones are first, so that a label has 32 bytes; the others are in the order in which they are printed.

use crate::statuses::{Given, Mark, Phase, TaskEvent};
use crate::trap::Trap;

/// One step of a run, by who speaks.
#[derive(Clone, Copy)]
pub enum Label {
    Main(MainLabel),
    Loop(LoopLabel),
    Take(TakeLabel),
    Data(DataLabel),
    Task(TaskLabel),
    Set(SetLabel),
    Call(CallLabel),
    Thread(ThreadLabel),
    /// `thread N ret V wakes W`
    RetWakes(u64, u64, u64),
    /// `thread N call_sync V future I`: a host was ready at its first poll.
    CallSyncPolls(u64, u64, u64),
}

/// An op of main is done.
#[derive(Clone, Copy)]
pub enum MainLabel {
    /// `main start K thread N`
    Start(u32, u64),
    /// `main start K refused T`
    StartRefused(Trap, u32),
    /// `main finish K = V`
    Finish(u32, u64),
    /// `main finish K refused T`
    FinishRefused(Trap, u32),
    /// `main spawn K future I`
    Spawn(u32, u64),
    /// `main abort K P`, P the phase that was found
    Abort(Phase, u32),
    /// `main await K`
    Await(u32),
    /// `main quiet`
    Quiet,
    /// `main ready`
    Ready,
    /// `main answer V`
    Answer(u64),
}

/// The loop itself, a polled work, and a step that trapped.
#[derive(Clone, Copy)]
pub enum LoopLabel {
    /// `main pends`
    MainPends,
    /// `future I pends`
    FuturePends(u64),
    /// `future I ends`
    FutureEnds(u64),
    /// `future I fails`
    FutureFails(u64),
    /// `future I aborted`
    FutureAborted(u64),
    /// `rest`
    Rest,
    /// `deadlock T`
    Deadlock(Trap),
    /// `trap thread N T`
    Trap(Trap, u64),
}

/// An entry is taken from its mark.
#[derive(Clone, Copy)]
pub enum TakeLabel {
    /// `take M thread N`
    Thread(Mark, u64),
    /// `take M thread N wakes W`
    ThreadWakes(Mark, u64, u64),
    /// `take M thread N held`
    Held(Mark, u64),
    /// `take M thread N held wakes W`
    HeldWakes(Mark, u64, u64),
    /// `take M thread N again`
    Again(Mark, u64),
    /// `take M thread N event C H V`
    Event(Mark, Given, u64),
    /// `take M thread N event C 0 0 wakes W`: the task event was taken, and the wake handed on.
    EventWakes(Mark, TaskEvent, u64, u64),
    /// `take M push I`
    Push(Mark, u64),
    /// `take M host I`
    Host(Mark, u64),
    /// `take M host I wakes W`
    HostWakes(Mark, u64, u64),
}

/// An op on registers or memory cells is done.
#[derive(Clone, Copy)]
pub enum DataLabel {
    /// `thread N set V`
    Set(u64, u64),
    /// `thread N add V`
    Add(u64, u64),
    /// `thread N handle V`
    Handle(u64, u64),
    /// `thread N load V`
    Load(u64, u64),
    /// `thread N store V`
    Store(u64, u64),
    /// `thread N skip_eq`
    SkipEq(u64),
}

/// A task, an activation or a thread ends, or the backpressure changes.
#[derive(Clone, Copy)]
pub enum TaskLabel {
    /// `thread N ret V`
    Ret(u64, u64),
    /// `thread N task_cancel`
    TaskCancel(u64),
    /// `thread N task_cancel wakes W`
    TaskCancelWakes(u64, u64),
    /// `thread N exit`
    Exit(u64),
    /// `thread N exit wakes W`
    ExitWakes(u64, u64),
    /// `thread N cb_yield`
    CbYield(u64),
    /// `thread N cb_wait`
    CbWait(u64),
    /// `thread N code`
    Code(u64),
    /// `thread N bp_inc`
    BpInc(u64),
    /// `thread N bp_dec`
    BpDec(u64),
}

/// An op on a waitable set is done.
#[derive(Clone, Copy)]
pub enum SetLabel {
    /// `thread N set_new H`
    New(u32, u64),
    /// `thread N set_drop`
    Drop(u64),
    /// `thread N wait C H V`
    Wait(Given, u64),
    /// `thread N wait C 0 0 wakes W`: the task event was taken, and the wake handed on.
    WaitWakes(TaskEvent, u64, u64),
    /// `thread N poll C H V`
    Poll(Given, u64),
    /// `thread N join`
    Join(u64),
    /// `thread N join wakes W`
    JoinWakes(u64, u64),
}

/// An op on a subtask; `answer` is a packed status or an end.
#[derive(Clone, Copy)]
pub enum CallLabel {
    /// `thread N calls thread M`
    Calls(u64, u64),
    /// `thread N enters thread M`
    Enters(u64, u64),
    /// `thread N call A`
    Call(u32, u64),
    /// `thread N call A future I`
    CallPolls(u32, u64, u64),
    /// `thread N call_sync V`
    CallSync(u64, u64),
    /// `thread N pauses future I`
    PausesPolls(u64, u64),
    /// `thread N fails I`
    Fails(u64, u64),
    /// `thread N cancel A`
    Cancel(u32, u64),
    /// `thread N cancel_sync A`
    CancelSync(u32, u64),
    /// `thread N drop`
    Drop(u64),
}

/// An op has stopped its strand, or an op on threads is done.
#[derive(Clone, Copy)]
pub enum ThreadLabel {
    /// `thread N pauses`
    Pauses(u64),
    /// `thread N thread_new H thread M`
    New(u32, u64, u64),
    /// `thread N thread_index H`
    Index(u32, u64),
    /// `thread N resume_later`
    ResumeLater(u64),
    /// `thread N suspend`
    Suspend(u64),
    /// `thread N yield`
    Yield(u64),
    /// `thread N suspend_then_resume`
    SuspendThenResume(u64),
    /// `thread N yield_then_resume`
    YieldThenResume(u64),
    /// `thread N suspend_then_promote`
    SuspendThenPromote(u64),
    /// `thread N yield_then_promote`
    YieldThenPromote(u64),
}
