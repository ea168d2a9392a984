//! Tests of the polls of a work.
ghost use Rattle.std.specs.Prelude.{◌≡◌, ◌↔◌, true};
ghost use Rattle.store_works.specs.Course.{MayTell, fewer, one_fewer, told_at_end};

use machine_data::{HostDef, HostPoll};
use store_works::{AccessorTask, FromHost, HostWork};

/// A work whose polls are tested, in a run that isn't proved, against the polls that it says are left.
#[derive(Drop)]
pub struct WatchedWork<W: Drop> {
    work: W,
}

// Whether the answer is that the work pends.
fn pends(answer: HostPoll) -> bool
    ensures { result ≡ true ↔ (answer ≡ HostPoll.Pending) }
{
    match answer {
        HostPoll::Pending => true,
        HostPoll::Value(_) => false,
        HostPoll::Failed => false,
    }
}

// Whether a work that is at its end answers so.
fn ends_so(value: Option<u64>, answer: HostPoll) -> bool
    ensures { result ≡ true ↔ (answer ≡ told_at_end value) }
{
    match (value, answer) {
        (Some(value), HostPoll::Value(told)) => told == value,
        (Some(_), HostPoll::Pending) => false,
        (Some(_), HostPoll::Failed) => false,
        (None, HostPoll::Failed) => true,
        (None, HostPoll::Value(_)) => false,
        (None, HostPoll::Pending) => false,
    }
}

// Whether a work that has said this may answer so.
fn may_tell(left: HostDef, answer: HostPoll) -> bool
    ensures { result ≡ true ↔ MayTell left answer }
{
    match left {
        HostDef::Open => true,
        HostDef::Settled {
            polls: Some(0),
            value,
        } => ends_so(value, answer),
        HostDef::Settled { .. } => pends(answer),
    }
}

// Whether one poll fewer is left, or as many if none was or the work never ends.
fn is_fewer(before: Option<u32>, after: Option<u32>) -> bool
    ensures { result ≡ true ↔ (after ≡ fewer before) }
{
    match (before, after) {
        (None, None) => true,
        (Some(before), Some(after)) => after == before.saturating_sub(1),
        (None, Some(_)) => false,
        (Some(_), None) => false,
    }
}

// Whether the end is as before.
fn is_same(before: Option<u64>, after: Option<u64>) -> bool
    ensures { result ≡ true ↔ (after ≡ before) }
{
    match (before, after) {
        (None, None) => true,
        (Some(before), Some(after)) => after == before,
        (None, Some(_)) => false,
        (Some(_), None) => false,
    }
}

// Whether the work is open still, or has one poll fewer left and the end that it had.
fn is_one_fewer(before: HostDef, after: HostDef) -> bool
    ensures { result ≡ true ↔ (after ≡ one_fewer before) }
{
    match (before, after) {
        (HostDef::Open, HostDef::Open) => true,
        (HostDef::Open, HostDef::Settled { .. }) => false,
        (HostDef::Settled { .. }, HostDef::Open) => false,
        (
            HostDef::Settled { polls, value },
            HostDef::Settled {
                polls: left,
                value: still,
            },
        ) => is_fewer(polls, left) && is_same(value, still),
    }
}

// Tests that a work pends or ends as it said before the poll.
fn a_work_answers_as_it_said(before: HostDef, answer: HostPoll)
    requires { MayTell before answer }
{
    let is_right = may_tell(before, answer);
    prove!(
        is_right,
        "a work pends while polls are left, and then ends as it said"
    );
}

// Tests that a work says after the poll what it said before, with one poll fewer.
fn one_poll_fewer_is_left(before: HostDef, after: HostDef)
    requires { after ≡ one_fewer before }
{
    let is_right = is_one_fewer(before, after);
    prove!(
        is_right,
        "a work says that one poll fewer is left, and the same end"
    );
}

impl<W: HostWork> HostWork for WatchedWork<W> {
    ghost course = { λ watched. W.course watched.work };

    fn left(&self) -> HostDef {
        self.work.left()
    }
}

impl<T, W: AccessorTask<T>> AccessorTask<T> for WatchedWork<W> {
    fn poll(&mut self, host: &mut T) -> HostPoll {
        let before = self.work.left();
        let answer = self.work.poll(host);
        let after = self.work.left();
        a_work_answers_as_it_said(before, answer);
        one_poll_fewer_is_left(before, after);
        answer
    }
}

impl<W: FromHost> FromHost for WatchedWork<W> {
    fn from_host(place: u32, def: HostDef) -> Self {
        WatchedWork {
            work: W::from_host(place, def),
        }
    }
}
