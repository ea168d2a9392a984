//! What a main asks for, and what it is told.
ghost use Rattle.std.specs.Prelude.{◌≡◌, ◌≤◌, length, take};

use machine_data::Trap;
use task_loop::{Func, Instance};

/// A call that this main has started. It is had from `Answer::Started` alone.
#[derive(Clone, Copy)]
pub struct CallId {
    pub(crate) place: usize,
}

/// A work that this main has spawned. It is had from `Answer::Spawned` alone.
#[derive(Clone, Copy)]
pub struct SpawnId {
    pub(crate) place: usize,
}

/// The words that a call is given. An export takes at most 16, and a call with more is refused.
#[derive(Clone, Copy)]
pub struct CallWords {
    pub(crate) words: [u64; 16],
    pub(crate) count: usize,
}

impl CallWords {
    /// Makes a list of these values, in their order.
    pub fn of(words: &[u64]) -> Self
        ensures count { result.count ≡ length words.now }
        ensures words { length words.now ≤ 16 → take (length words.now) result.words ≡ words.now }
    {
        let mut all = [0; 16];
        let count = words.len();
        if count <= 16 {
            all[..count].copy_from_slice(words);
        }
        CallWords { words: all, count }
    }

    // The words, where there are at most 16.
    pub(crate) fn as_slice(&self) -> &[u64]
        ensures words { self.now.count ≤ 16 → result.now ≡ take self.now.count self.now.words }
        ensures count { self.now.count ≤ 16 → length result.now ≡ self.now.count }
    {
        if self.count <= 16 {
            &self.words[..self.count]
        } else {
            &[]
        }
    }
}

/// What main wants next.
#[derive(Clone, Copy)]
pub enum Ask {
    /// Calls the export with as many words as it takes. The call is queued, and runs beside main.
    Start(Func, CallWords),
    /// Waits until the call has returned, and takes its result, once.
    Finish(CallId),
    /// Waits until no task is left that a host waits for.
    Quiet,
    /// Waits until the instance takes calls.
    Ready(Instance),
    /// Begins a work of the host's own, which runs beside main: the one that its type makes for this number.
    Spawn(u32),
    /// Asks that the work end. It isn't polled any more.
    Abort(SpawnId),
    /// Waits until the work has ended.
    Await(SpawnId),
    /// Lets others run.
    Pend,
    /// Ends the run with this value.
    Answer(u64),
}

/// Why an ask was refused. Nothing was done then.
#[derive(Clone, Copy)]
pub enum Refusal {
    /// The component has no such export.
    NoExport,
    /// The export takes another number of words.
    WrongWords,
    /// No call of this main has this id.
    NoCall,
    /// The call's result was taken before.
    IsFinished,
    /// The component has no such instance.
    NoInstance,
    /// Main has started 4,294,967,295 calls, and there are no further numbers for labels.
    TooManyCalls,
    /// No work of this main has this id.
    NoSpawn,
    /// Main has spawned 4,294,967,295 works, and there are no further numbers for labels.
    TooManySpawns,
}

/// What came of the last ask.
#[derive(Clone, Copy)]
pub enum Answer {
    /// Nothing was asked yet.
    Begun,
    /// The call was started.
    Started(CallId),
    /// The store refused the call for this cause, and is trapped.
    NotStarted(Trap),
    /// The call's result.
    Finished(u64),
    /// No task is left that a host waits for.
    Quiet,
    /// The instance takes calls.
    Ready,
    /// The work was begun.
    Spawned(SpawnId),
    /// The work was asked to end.
    Aborted,
    /// The work has ended.
    Ended,
    /// Others ran.
    Pended,
    /// The ask was refused, and nothing was done.
    Refused(Refusal),
}

/// A main that says what it wants next. It owes nothing by contract.
pub trait HostMain {
    /// Returns the next ask, by what came of the last one. It is called once for each answer.
    fn next(&mut self, last: Answer) -> Ask;
}
