ghost use Rattle.std.specs.Prelude.{◌≡◌};
ghost use Rattle.machine_data.specs.Trap.{number_of};

/// Why a step ended its run, or why a call was refused. The first fifteen are the component
/// model's; the others are this project's own.
#[derive(Clone, Copy, PartialEq, Eq)]
pub enum Trap {
    /// A task ended twice, by a return or by the answer to a cancel.
    TaskCancelOrReturnTwice,
    /// A task answered a cancel that it was never asked for.
    TaskCancelNotCancelled,
    /// A return that the task's type or kind doesn't allow.
    TaskReturnInvalid,
    /// The last thread of a task went without a result.
    NoAsyncResult,
    /// A cancel of a subtask whose end was handed out, or that was cancelled before.
    SubtaskCancelAfterTerminal,
    /// A drop of a subtask that hasn't ended, or whose end wasn't handed out.
    SubtaskDropNotResolved,
    /// A waitable would be in a set and in a sync call at once.
    WaitableSyncAndAsync,
    /// A set was dropped on which a thread waits.
    WaitableSetDropHasWaiters,
    /// A task that may not block would block.
    CannotBlockSyncTask,
    /// The backpressure left the range 0 to 65535.
    BackpressureOverflow,
    /// A thread that can't be resumed.
    CannotResumeThread,
    /// A callback's code that has no meaning.
    UnsupportedCallbackCode,
    /// A new thread from a slot that has no script.
    ThreadNewIndirectUninitialized,
    /// A new thread from a slot whose script has the wrong type.
    ThreadNewIndirectInvalidType,
    /// Nothing can go on, and main waits.
    AsyncDeadlock,
    /// A handle that names nothing of the wanted kind.
    BadHandle,
    /// No further handle may be given.
    HandleLimit,
    /// No further entries fit into the resource table.
    TableFull,
    /// A task ended while it still holds borrows.
    ScopeExit,
    /// A call into a store that is trapped.
    CannotEnterComponent,
    /// A second run on one store.
    RecursiveRun,
    /// The group hook answered an error.
    HookFailed,
    /// The store was lent to somebody already.
    StoreTaken,
    /// There is no store.
    StoreAbsent,
    /// A set was dropped that still has a member.
    TableHasChildren,
}

impl Trap {
    /// Returns the number by which reports name a trap, 1 to 25, in the order of the variants.
    pub fn number(self) -> u8
        ensures { result ≡ number_of self }
    {
        self as u8 + 1
    }
}
