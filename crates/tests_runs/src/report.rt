use machine_data::{
    CallLabel, Given, Label, LoopLabel, MainLabel, Mark, Outcome, Phase, SetLabel, Status,
    TakeLabel, TaskEvent, ThreadLabel, Trap,
};
use run_trace::PackedLabels;
use std::alloc::Global;
use std::process::Abort;
use text_report::{LINE, PAGE, Page, outcome_line};

// The label's line is this.
fn prints(rt: &impl Abort, alloc: Global, label: Label, text: &[u8]) {
    let mut page = page(rt, alloc);
    let list = listed(rt, alloc, label);
    assert!(rt; !page.fill(&mut list.labels()));
    assert!(rt; page.as_slice() == text);
}

fn listed(rt: &impl Abort, alloc: Global, label: Label) -> PackedLabels {
    let mut list = PackedLabels::new(alloc);
    assert!(rt; list.make_room().is_ok());
    list.push(label);
    list
}

fn page(rt: &impl Abort, alloc: Global) -> Page {
    match Page::new(alloc) {
        Ok(page) => page,
        Err(_) => panic!(rt; "no memory"),
    }
}

#[test]
fn prints_labels(rt: HostRuntime) {
    let abort = Label::Main(MainLabel::Abort(Phase::AbortRequested, 1));
    prints(&rt, rt.alloc(), abort, b"main abort 1 requested\n");
    let refused = Label::Main(MainLabel::StartRefused(Trap::TableFull, 2));
    prints(&rt, rt.alloc(), refused, b"main start 2 refused 18\n");
    let ends = Label::Loop(LoopLabel::FutureEnds(4));
    prints(&rt, rt.alloc(), ends, b"future 4 ends\n");
    let joins = Label::Set(SetLabel::JoinWakes(2, 3));
    prints(&rt, rt.alloc(), joins, b"thread 2 join wakes 3\n");
    let calls = Label::Call(CallLabel::CallPolls(33, 2, 4));
    prints(&rt, rt.alloc(), calls, b"thread 2 call 33 future 4\n");
}

#[test]
fn prints_labels_of_threads(rt: HostRuntime) {
    let subtask = Given::Subtask {
        status: Status::Returned,
        handle: 5,
    };
    let event = Label::Take(TakeLabel::Event(Mark::Switch, subtask, 2));
    prints(
        &rt,
        rt.alloc(),
        event,
        b"take switch thread 2 event 1 5 2\n",
    );
    let cancelled = TakeLabel::EventWakes(Mark::Switch, TaskEvent::Cancelled, 2, 3);
    let text = b"take switch thread 2 event 6 0 0 wakes 3\n";
    prints(&rt, rt.alloc(), Label::Take(cancelled), text);
    let new = Label::Thread(ThreadLabel::New(2, 2, 6));
    prints(&rt, rt.alloc(), new, b"thread 2 thread_new 2 thread 6\n");
    let wakes = Label::RetWakes(2, 7, 3);
    prints(&rt, rt.alloc(), wakes, b"thread 2 ret 7 wakes 3\n");
    // Numbers that fit no head of a label.
    let large = Label::RetWakes(4_294_967_295, 18_446_744_073_709_551_615, 4_294_967_296);
    let text = b"thread 4294967295 ret 18446744073709551615 wakes 4294967296\n";
    prints(&rt, rt.alloc(), large, text);
}

// Of 26,215 lines of five bytes the last one ends three bytes behind a full page.
#[test]
fn a_full_page_is_taken_away(rt: HostRuntime) {
    let mut list = PackedLabels::new(rt.alloc());
    for _ in 0..26_215 {
        assert!(rt; list.make_room().is_ok());
        list.push(Label::Loop(LoopLabel::Rest));
    }
    let mut page = page(&rt, rt.alloc());
    assert!(rt; page.fill(&mut list.labels()));
    assert!(rt; page.full().len() == PAGE);
    assert!(rt; page.full().starts_with(b"rest\nrest\n"));
    page.take_full();
    let behind: &[u8] = b"st\n";
    assert!(rt; page.as_slice() == behind);
}

// The outcome's line is this.
fn prints_outcome(rt: &impl Abort, page: &mut Page, outcome: Outcome, text: &[u8]) {
    page.clear();
    page.add_outcome(outcome);
    assert!(rt; page.as_slice() == text);
    let mut line = [0; LINE];
    let end = outcome_line(&mut line, 0, outcome);
    assert!(rt; &line[..end] == text);
}

#[test]
fn prints_outcomes(rt: HostRuntime) {
    let mut page = page(&rt, rt.alloc());
    prints_outcome(&rt, &mut page, Outcome::Done(7), b"done 7\n");
    prints_outcome(&rt, &mut page, Outcome::Done(10), b"done 10\n");
    prints_outcome(&rt, &mut page, Outcome::Done(305), b"done 305\n");
    prints_outcome(
        &rt,
        &mut page,
        Outcome::HostFailed(6_789),
        b"host failed 6789\n",
    );
    let most = Outcome::Done(u64::MAX);
    prints_outcome(&rt, &mut page, most, b"done 18446744073709551615\n");
    let deadlock = Outcome::Deadlock(Trap::AsyncDeadlock);
    prints_outcome(&rt, &mut page, deadlock, b"deadlock 15\n");
    prints_outcome(&rt, &mut page, Outcome::OutOfSteps, b"out of steps\n");
}
