//! The parts of a host that calls one export of a guest, which may call the host.
ghost use Rattle.std.specs.Prelude.{◌≡◌, ◌≤◌, length, take};

use crate::ask::{Answer, Ask, CallWords, HostMain};
use store_works::{CalledTask, HostPoll, OpenTask};
use task_loop::Func;

/// A main that calls one export, and ends the run with what that returns, or with 0 if the call is refused.
#[derive(Clone, Copy)]
pub struct CallOnce {
    func: Func,
    words: CallWords,
}

impl CallOnce {
    /// Makes a main that calls the export with these words.
    pub fn of(func: Func, words: &[u64]) -> Self
        ensures func { result.func ≡ func }
        ensures count { result.words.count ≡ length words.now }
        ensures words { length words.now ≤ 16 → take (length words.now) result.words.words ≡ words.now }
    {
        CallOnce {
            func,
            words: CallWords::of(words),
        }
    }
}

impl HostMain for CallOnce {
    fn next(&mut self, last: Answer) -> Ask {
        match last {
            Answer::Begun => Ask::Start(self.func, self.words),
            Answer::Started(call) => Ask::Finish(call),
            Answer::Finished(word) => Ask::Answer(word),
            _ => Ask::Answer(0),
        }
    }
}

/// A host's value that answers the guests' calls of the host itself. It owes nothing by contract.
pub trait HostFunctions: Drop {
    /// Answers a call of the open host at this place of the text, from 0. A call that pends is asked again, once a turn.
    fn call(&mut self, place: u32) -> HostPoll;
}

/// A guest's call of an open host, which the host's value answers.
#[derive(Clone, Copy)]
pub struct FunctionCall {
    place: u32,
}

impl CalledTask for FunctionCall {
    fn called(place: u32) -> Self {
        FunctionCall { place }
    }
}

impl<T: HostFunctions> OpenTask<T> for FunctionCall {
    fn poll(&mut self, host: &mut T) -> HostPoll {
        host.call(self.place)
    }
}
