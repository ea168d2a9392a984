use beside_main::{BesideReport, OpenGate, run_beside, tool_beside};
use machine_data::{Label, LoopLabel, Phase};
use std::alloc::Global;
use std::process::Abort;
use std::sync::Wait;
use std::thread::Threads;
use task_abort::{LogEntry, PhaseCall};
use task_loop::Outcome;
use task_run::{SureSink, SureSource, print_report};

const ONE_NEVER: &[u8] =
    b"scenario 1\nhandles 100000\ntable 1000000\nidle trap\nhost n never\nmain\nspawn n\nawait 1\nanswer 3\naborter 1\nend\n";

const NO_ABORTER: &[u8] =
    b"scenario 1\nhandles 100000\ntable 1000000\nidle trap\nhost n never\nmain\nspawn n\nawait 1\nanswer 3\nend\n";

// Main aborts the first spawn as well, and a second one ends by itself.
const BOTH_ABORT: &[u8] =
    b"scenario 1\nhandles 100000\ntable 1000000\nidle wait\nhost n never\nhost d polls 3 value 9\nmain\nspawn n\nspawn d\nabort 1\nawait 1\nawait 2\nanswer 4\naborter 1 2 1\naborter 2\nend\n";

// The aborter names a spawn that is never made, since the first one is never over.
const NEVER_MADE: &[u8] =
    b"scenario 1\nhandles 100000\ntable 1000000\nidle trap\nhost n never\nmain\nspawn n\nawait 1\nspawn n\nanswer 1\naborter 2\nend\n";

// How often each is run.
const TIMES: u32 = 1000;

fn report_of<R: Threads + Wait + Sync + Abort>(rt: &R, alloc: Global, text: &[u8]) -> BesideReport {
    assert!(rt; text.len() <= 1_048_576);
    match run_beside(rt, alloc, text, 1000, &OpenGate) {
        Ok(report) => report,
        Err(_) => panic!(rt; "no memory"),
    }
}

// Whether no abort of the log is behind the first call of the run that found one, and each call of the run is in order.
fn finds_rise(log: &[LogEntry<u32>]) -> bool {
    let mut least = 0u8;
    for entry in log {
        let found = match entry.answer {
            Phase::Running => 0,
            Phase::AbortRequested => 1,
            Phase::Complete => 2,
        };
        if found < least {
            return false;
        }
        least = found;
    }
    true
}

fn count(log: &[LogEntry<u32>], caller: u32) -> usize {
    let mut found = 0usize;
    for entry in log {
        if entry.caller == caller && matches!(entry.call, PhaseCall::Abort) {
            found = found.saturating_add(1);
        }
    }
    found
}

#[test]
fn an_aborter_ends_a_spawn_that_never_ends(rt: HostRuntime) {
    for _time in 0..TIMES {
        let report = report_of(&rt, rt.alloc(), ONE_NEVER);
        assert!(rt; matches!(report.report.outcome, Outcome::Done(3)));
        assert!(rt; report.logs.len() == 1);
        if let Some(log) = report.logs.as_slice().first() {
            assert!(rt; finds_rise(log.as_slice()) && count(log.as_slice(), 1) == 1);
        }
    }
}

#[test]
fn without_an_aborter_the_run_is_idle(rt: HostRuntime) {
    let report = report_of(&rt, rt.alloc(), NO_ABORTER);
    let last = report.report.trace.last();
    assert!(rt; matches!(last, Some(Label::Loop(LoopLabel::FuturePends(1)))));
    match print_report(rt.alloc(), &report.report) {
        Ok(text) => assert!(rt;
            text.as_slice()
                == b"main spawn 1 future 1\nmain pends\ntake high push 1\nmain pends\nfuture 1 pends\nidle\n".as_slice()
        ),
        Err(_) => panic!(rt; "no memory"),
    }
}

#[test]
fn main_and_aborters_abort(rt: HostRuntime) {
    for _time in 0..TIMES {
        let report = report_of(&rt, rt.alloc(), BOTH_ABORT);
        assert!(rt; matches!(report.report.outcome, Outcome::Done(4)));
        assert!(rt; report.logs.len() == 2);
        for log in report.logs.as_slice() {
            assert!(rt; finds_rise(log.as_slice()));
        }
        if let Some(log) = report.logs.as_slice().first() {
            assert!(rt; count(log.as_slice(), 0) == 1 && count(log.as_slice(), 1) == 2);
            assert!(rt; count(log.as_slice(), 2) == 0);
        }
    }
}

#[test]
fn an_abort_may_come_for_a_spawn_that_is_never_made(rt: HostRuntime) {
    let report = report_of(&rt, rt.alloc(), NEVER_MADE);
    assert!(rt; matches!(report.report.outcome, Outcome::Idle));
    assert!(rt; report.logs.len() == 1);
}

// How the program ends with these words, and whether it wrote something.
fn ends_with<R: Threads + Wait + Sync + Abort>(
    rt: &R,
    alloc: Global,
    word: &str,
    text: &[u8],
) -> (u8, bool) {
    let (Ok(first), Ok(second)) = (
        String::from_str(alloc, "beside"),
        String::from_str(alloc, word),
    ) else {
        panic!(rt; "no memory")
    };
    let (Ok(words), Ok(bytes)) = (
        Vec::from_array(alloc, [first, second]),
        Vec::from_slice(alloc, text),
    ) else {
        panic!(rt; "no memory")
    };
    let mut source = SureSource::new(bytes, 7);
    let Ok(mut sink) = SureSink::new(alloc, 100, 1000) else {
        panic!(rt; "no memory")
    };
    let end = tool_beside(
        rt,
        alloc,
        words.as_slice(),
        &mut source,
        &mut sink,
        &OpenGate,
    );
    (end.status, sink.bytes().len() > 0)
}

#[test]
fn the_program_ends_with_its_status(rt: HostRuntime) {
    assert!(rt; ends_with(&rt, rt.alloc(), "1000", ONE_NEVER) == (0, true));
    assert!(rt; ends_with(&rt, rt.alloc(), "0", ONE_NEVER) == (2, true));
    assert!(rt; ends_with(&rt, rt.alloc(), "1000", b"scenario 2\n") == (3, true));
}
