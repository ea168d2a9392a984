//! What a label is apart from its numbers. Each kind fits three bytes, so that a label's head has eight.

use machine_data::{Mark, Phase, Status, TaskEvent, Trap};

/// What a label is apart from its numbers, by the group that it is in.
#[derive(Clone, Copy)]
pub enum LabelKind {
    Main(MainKind),
    Loop(LoopKind),
    Take(Mark, TakeKind),
    Own(Mark, OwnKind),
    /// `take M thread N event 1 H V`
    Given(Mark, Status),
    Data(DataKind),
    Task(TaskKind),
    Set(SetKind),
    Call(CallKind),
    Thread(ThreadKind),
    Handle(HandleKind),
}

/// Labels of main.
#[derive(Clone, Copy)]
pub enum MainKind {
    Start,
    StartRefused(Trap),
    Finish,
    FinishRefused(Trap),
    Spawn,
    Abort(Phase),
    Await,
    Quiet,
    Ready,
    Answer,
}

/// Labels of the loop.
#[derive(Clone, Copy)]
pub enum LoopKind {
    MainPends,
    FuturePends,
    FutureEnds,
    FutureFails,
    FutureAborted,
    Rest,
    Deadlock(Trap),
    Trap(Trap),
}

/// Takings without an event.
#[derive(Clone, Copy)]
pub enum TakeKind {
    Thread,
    ThreadWakes,
    Held,
    HeldWakes,
    Again,
    Push,
    Host,
    HostWakes,
}

/// Takings that hand out the task event, or none.
#[derive(Clone, Copy)]
pub enum OwnKind {
    Nothing,
    Cancelled,
    NothingWakes,
    CancelledWakes,
}

/// Ops on registers and memory cells.
#[derive(Clone, Copy)]
pub enum DataKind {
    Set,
    Add,
    Handle,
    Load,
    Store,
    SkipEq,
}

/// Ends of tasks, activations and threads, and the backpressure.
#[derive(Clone, Copy)]
pub enum TaskKind {
    Ret,
    TaskCancel,
    TaskCancelWakes,
    Exit,
    ExitWakes,
    CbYield,
    CbWait,
    Code,
    BpInc,
    BpDec,
}

/// Ops on sets that show no handle.
#[derive(Clone, Copy)]
pub enum SetKind {
    Drop,
    WaitNothing,
    WaitCancelled,
    WaitWakes(TaskEvent),
    PollNothing,
    PollCancelled,
    Join,
    JoinWakes,
}

/// Ops on subtasks that show no packed status, and the two labels of three numbers.
#[derive(Clone, Copy)]
pub enum CallKind {
    Calls,
    Enters,
    CallSync,
    CallSyncPolls,
    PausesPolls,
    Fails,
    Drop,
    RetWakes,
}

/// Ops on threads that show no handle.
#[derive(Clone, Copy)]
pub enum ThreadKind {
    Pauses,
    ResumeLater,
    Suspend,
    Yield,
    SuspendThenResume,
    YieldThenResume,
    SuspendThenPromote,
    YieldThenPromote,
}

/// Ops that show a handle or a packed status, which the head has.
#[derive(Clone, Copy)]
pub enum HandleKind {
    SetNew,
    Wait(Status),
    Poll(Status),
    Call,
    CallPolls,
    Cancel,
    CancelSync,
    ThreadNew,
    ThreadIndex,
}

/// The head of a label: its kind, how many of its numbers are in the list of numbers, and a number below 2^32. That is a number of
/// a start or spawn, a handle or a packed status where the kind shows one; else the first number, the thread's or the work's
/// mostly, and `LARGE` where that is in the list too.
#[derive(Clone, Copy)]
pub struct Head {
    pub kind: LabelKind,
    pub count: u8,
    pub small: u32,
}

/// Says that the first number is in the list: no number from here on fits a head.
pub const LARGE: u32 = u32::MAX;
