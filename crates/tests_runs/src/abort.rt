ghost use Rattle.tests_runs.specs.StagedLog.{aborters, log_by_stages, own_calls};
ghost use Rattle.std.specs.Prelude.{◌≡◌, None};
ghost use Rattle.task_abort.specs.Cells.{handle_cell, pass_cell, work_cell};
ghost use Rattle.task_abort.specs.Staged.{staged};
ghost use Rattle.machine_data.specs.declared.statuses.Phase.TheVariants.{Running, AbortRequested};

use futures::Future;
use futures::executor::block_on;
use futures::task::{Context, Doorbell, Poll, Solo};
use std::sync::Wait;
use std::thread;
use task_abort::{
    Abortable, JoinHandle, JoinPass, OwnCell, Phase, known_callers, late_calls_are_last,
    phases_of_seen_calls, staged_log_is_legal, staged_log_keeps_lists, unfinished_calls,
};

// How answers are written, beside an output, which is its own number.
const PENDING: u8 = 100;

const OVER: u8 = 101;

const ABORTED: u8 = 102;

// A phase that was found.
const RUNNING: u8 = 110;

const ABORT_REQUESTED: u8 = 111;

const COMPLETE: u8 = 112;

fn found(phase: Phase) -> u8 {
    match phase {
        Phase::Running => RUNNING,
        Phase::AbortRequested => ABORT_REQUESTED,
        Phase::Complete => COMPLETE,
    }
}

fn of_handle(poll: Poll<()>) -> u8 {
    match poll {
        Poll::Ready(()) => OVER,
        Poll::Pending => PENDING,
    }
}

fn of_future(poll: Poll<Option<u8>>) -> u8 {
    match poll {
        Poll::Ready(Some(output)) => output,
        Poll::Ready(None) => ABORTED,
        Poll::Pending => PENDING,
    }
}

/// A future that has a value, or else never ends.
#[derive(Drop)]
struct Work {
    value: Option<u8>,
}

impl Future for Work {
    type Output = u8;

    fn poll(&mut self, cx: &mut Context<'_>) -> Poll<u8> {
        match self.value {
            Some(value) => Poll::Ready(value),
            None => cx.yield_now(),
        }
    }
}

#[test]
fn an_abort_ends_a_work_that_pends(rt: HostRuntime) {
    let Ok((handle, mut work, mut pass)) = JoinHandle::run(rt.alloc(), Work { value: None }) else {
        panic!(rt; "no memory")
    };
    let Ok(solo) = Solo::new(&rt, Doorbell::spinning()) else {
        panic!(rt; "a task")
    };
    let mut cx = solo.begin();
    let polled = of_future(work.poll(&mut pass, &mut cx));
    let waited = of_handle(handle.poll_handle(&mut pass));
    let aborted = found(handle.abort(&mut pass));
    let polled_again = of_future(work.poll(&mut pass, &mut cx));
    cx.cancel();
    assert!(rt; [polled, waited, aborted, polled_again] == [PENDING, PENDING, RUNNING, ABORTED]);
    assert!(rt; of_handle(handle.poll_handle(&mut pass)) == PENDING);
    assert!(rt; found(work.finish(&mut pass)) == ABORT_REQUESTED);
    assert!(rt; of_handle(handle.poll_handle(&mut pass)) == OVER);
}

#[test]
fn an_abort_of_a_complete_work_changes_nothing(rt: HostRuntime) {
    let Ok((handle, mut work, mut pass)) = JoinHandle::run(rt.alloc(), Work { value: Some(5) })
    else {
        panic!(rt; "no memory")
    };
    let Ok(solo) = Solo::new(&rt, Doorbell::spinning()) else {
        panic!(rt; "a task")
    };
    assert!(rt; of_handle(handle.poll_handle(&mut pass)) == PENDING);
    let mut cx = solo.begin();
    let polled = of_future(work.poll(&mut pass, &mut cx));
    cx.cancel();
    assert!(rt; polled == 5);
    assert!(rt; of_handle(handle.poll_handle(&mut pass)) == PENDING);
    assert!(rt; found(work.finish(&mut pass)) == RUNNING);
    assert!(rt; of_handle(handle.poll_handle(&mut pass)) == OVER);
    assert!(rt; found(handle.abort(&mut pass)) == COMPLETE);
    assert!(rt; of_handle(handle.poll_handle(&mut pass)) == OVER);
}

#[test]
fn an_abort_of_a_dropped_work_changes_nothing(rt: HostRuntime) {
    let Ok((handle, work, mut pass)) = JoinHandle::run(rt.alloc(), 7u8) else {
        panic!(rt; "no memory")
    };
    assert!(rt; found(work.finish(&mut pass)) == RUNNING);
    assert!(rt; of_handle(handle.poll_handle(&mut pass)) == OVER);
    assert!(rt; found(handle.abort(&mut pass)) == COMPLETE);
    assert!(rt; of_handle(handle.poll_handle(&mut pass)) == OVER);
    // A cell of one owner, which is aborted and then dropped.
    let Ok(mut cell) = OwnCell::new(rt.alloc()) else {
        panic!(rt; "no memory")
    };
    assert!(rt; cell.running());
    assert!(rt; of_handle(cell.poll_handle()) == PENDING);
    assert!(rt; found(cell.abort()) == RUNNING);
    assert!(rt; !cell.running());
    assert!(rt; found(cell.finish()) == ABORT_REQUESTED);
    assert!(rt; of_handle(cell.poll_handle()) == OVER);
}

#[test]
fn a_dropped_handle_changes_no_phase(rt: HostRuntime) {
    let Ok((handle, mut work, mut pass)) = JoinHandle::run(rt.alloc(), 7u8) else {
        panic!(rt; "no memory")
    };
    let Ok(other) = handle.share() else {
        panic!(rt; "no memory")
    };
    drop(handle);
    assert!(rt; matches!(work.running(&mut pass), Some(7)));
    assert!(rt; found(other.abort(&mut pass)) == RUNNING);
    assert!(rt; work.running(&mut pass).is_none());
    drop(other);
    assert!(rt; found(work.finish(&mut pass)) == ABORT_REQUESTED);
}

/// Waits for the end of a work.
#[derive(Drop)]
struct Waiting<'a, R> {
    rt: &'a R,
    handle: &'a JoinHandle,
    pass: &'a mut JoinPass,
    ghost one_cell: { pass_cell pass.now ≡ handle_cell handle.now },
}

impl<R: Wait> Future for Waiting<'_, R> {
    type Output = ();

    fn poll(&mut self, cx: &mut Context<'_>) -> Poll<()> {
        self.handle.poll_handle_registered(self.rt, self.pass, cx)
    }
}

/// Polls a work until it ends or is aborted.
#[derive(Drop)]
struct Polling<'a, R> {
    rt: &'a R,
    work: &'a mut Abortable<Work>,
    pass: &'a mut JoinPass,
    ghost one_cell: { pass_cell pass.now ≡ work_cell work.now },
}

impl<R: Wait> Future for Polling<'_, R> {
    type Output = Option<u8>;

    fn poll(&mut self, cx: &mut Context<'_>) -> Poll<Option<u8>> {
        self.work.poll_registered(self.rt, self.pass, cx)
    }
}

/// The handle and a pass are given to one thread, the work and another pass to the other: of a work that nobody aborted, and
/// of one that the handle aborted.
#[test]
fn a_handle_completes_beside_another_thread(rt: HostRuntime) {
    let cases = [(false, RUNNING), (true, ABORT_REQUESTED)];
    for (aborts, ended) in &cases {
        let Ok((handle, work, mut pass)) = JoinHandle::run(rt.alloc(), 7u8) else {
            panic!(rt; "no memory")
        };
        let Ok(mut other) = handle.split_pass(&mut pass) else {
            panic!(rt; "no memory")
        };
        if *aborts {
            assert!(rt; found(handle.abort_and_wake(&rt, &mut pass)) == RUNNING);
        }
        let waiting = Waiting {
            rt: &rt,
            handle: &handle,
            pass: &mut pass,
        };
        let (waited, phase) = thread::join(
            &rt,
            || block_on(&rt, waiting).is_ok(),
            || found(work.finish_and_wake(&rt, &mut other)),
        );
        assert!(rt; waited && phase == *ended);
    }
}

#[test]
fn a_handle_aborts_from_another_thread(rt: HostRuntime) {
    let Ok((handle, mut work, mut pass)) = JoinHandle::run(rt.alloc(), Work { value: None }) else {
        panic!(rt; "no memory")
    };
    let Ok(mut other) = handle.split_pass(&mut pass) else {
        panic!(rt; "no memory")
    };
    let polling = Polling {
        rt: &rt,
        work: &mut work,
        pass: &mut pass,
    };
    let (aborted, phase) = thread::join(
        &rt,
        || matches!(block_on(&rt, polling), Ok(None)),
        || found(handle.abort_and_wake(&rt, &mut other)),
    );
    assert!(rt; aborted && phase == RUNNING);
}

/// The laws' conditions are met by a pass that has met all others.
#[test]
fn a_pass_that_met_all_knows_all_callers(rt: HostRuntime) {
    let Ok((handle, work, mut pass)) = JoinHandle::run(rt.alloc(), 7u8) else {
        panic!(rt; "no memory")
    };
    let Ok(mut other) = handle.split_pass(&mut pass) else {
        panic!(rt; "no memory")
    };
    let aborted = handle.abort(&mut other);
    let finished = work.finish(&mut pass);
    handle.meet(&mut pass, other);
    staged_example();
    known_callers(&pass);
    staged_log_is_legal(&pass);
    staged_log_keeps_lists(&pass);
    late_calls_are_last(&pass);
    unfinished_calls(&pass);
    phases_of_seen_calls(&pass);
    assert!(rt; found(aborted) == RUNNING && found(finished) == ABORT_REQUESTED);
}

/// A log put together by stages: the pending poll before the last round is entered as one of a running work.
fn staged_example()
    ensures { staged own_calls aborters 2 ≡ log_by_stages }
{}
