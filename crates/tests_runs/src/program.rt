use std::alloc::Global;
use std::process::Abort;
use task_loop::Outcome;
use task_run::{
    MemorySink, MemorySource, Read, Report, RunError, Scenario, Sink, Source, StdSink, StdSource,
    SureSink, SureSource, USAGE, Wrote, component_of, make_scenario, print_report, read_scenario,
    run_scenario, tool,
};

const ONE_CALL: &[u8] =
    b"scenario 1\nhandles 100000\ntable 1000000\nidle trap\ninstance a\nexport f callback 1\nret r0\nexit\nmain\nstart a.f 7\nfinish 1 r0\nanswer r0\nend\n";

// A text with one line more.
const TWO_ENDS: &[u8] =
    b"scenario 1\nhandles 100000\ntable 1000000\nidle trap\ninstance a\nexport f callback 1\nret r0\nexit\nmain\nstart a.f 7\nfinish 1 r0\nanswer r0\nend\nend\n";

// A text has at most so many bytes.
const MOST_BYTES: usize = 1_048_576;

const NO_RESULT: &[u8] =
    b"scenario 1\nhandles 100000\ntable 1000000\nidle trap\ninstance a\nexport f callback 1\nexit\nmain\nstart a.f 7\nfinish 1 r0\nanswer r0\nend\n";

const RETURNED_TWICE: &[u8] =
    b"scenario 1\nhandles 100000\ntable 1000000\nidle trap\ninstance a\nexport f callback 1\nret r0\nret r0\nexit\nmain\nstart a.f 7\nfinish 1 r0\nanswer r0\nend\n";

const REPORT: &[u8] =
    b"main start 1 thread 1\nmain pends\ntake high thread 1\nthread 1 ret 7\nthread 1 exit\nmain finish 1 = 7\nmain answer 7\ndone 7\n";

fn words(rt: &impl Abort, alloc: Global, words: &[&str]) -> Vec<String> {
    let mut copies = Vec::new(alloc);
    for word in words {
        let Ok(copy) = String::from_str(alloc, word) else {
            panic!(rt; "no memory")
        };
        assert!(rt; copies.push(copy).is_ok());
    }
    copies
}

fn bytes(rt: &impl Abort, alloc: Global, text: &[u8]) -> Vec<u8> {
    let Ok(bytes) = Vec::from_slice(alloc, text) else {
        panic!(rt; "no memory")
    };
    bytes
}

fn numbers(rt: &impl Abort, alloc: Global, numbers: &[u32]) -> Vec<u32> {
    let Ok(numbers) = Vec::from_slice(alloc, numbers) else {
        panic!(rt; "no memory")
    };
    numbers
}

// A source that gives 100 bytes at a time, and a sink that takes 10: the calls of these numbers fail.
fn source(rt: &impl Abort, alloc: Global, text: &[u8], fail: &[u32]) -> MemorySource {
    MemorySource::new(bytes(rt, alloc, text), 100, numbers(rt, alloc, fail))
}

fn sink(rt: &impl Abort, alloc: Global, capacity: usize, fail: &[u32]) -> MemorySink {
    match MemorySink::new(alloc, 10, capacity, numbers(rt, alloc, fail)) {
        Ok(sink) => sink,
        Err(_) => panic!(rt; "no memory"),
    }
}

// The text's report.
fn report_of(rt: &impl Abort, alloc: Global, text: &[u8], steps: u32) -> Report {
    assert!(rt; text.len() <= MOST_BYTES);
    assert!(rt; 0 < steps && steps <= 100);
    match run_scenario(alloc, text, steps) {
        Ok(report) => report,
        Err(_) => panic!(rt; "a report"),
    }
}

fn printed(rt: &impl Abort, alloc: Global, report: &Report) -> Vec<u8> {
    match print_report(alloc, report) {
        Ok(text) => text,
        Err(_) => panic!(rt; "no memory"),
    }
}

// The text's report is printed as this.
fn reports(rt: &impl Abort, alloc: Global, text: &[u8], steps: u32, wanted: &[u8]) {
    let report = report_of(rt, alloc, text, steps);
    let text = printed(rt, alloc, &report);
    assert!(rt; text.as_slice() == wanted);
}

// Under `scenario 2` a cancel reaches a stackful call that waits,
const CANCELLED: &[u8] =
    b"scenario 2\nhandles 100000\ntable 1000000\nidle trap\ninstance a\nexport f stackful 0\nset_new r3\nwait r4 r3\ntask_cancel\ninstance b\nexport g callback 0\ncall r3 r8 a.f\ncancel_sync r4 1\ndrop 1\nret r4\nmain\nstart b.g\nfinish 1 r0\nanswer r0\nend\n";

const CANCELLED_REPORT: &[u8] =
    b"main start 1 thread 1\nmain pends\ntake high thread 1\nthread 1 calls thread 2\nmain pends\ntake switch thread 2\nthread 2 set_new 1\nthread 2 pauses\nmain pends\ntake switch thread 1\nthread 1 call 17\nthread 1 pauses\nmain pends\ntake switch thread 2\nthread 2 wait 6 0 0\nthread 2 task_cancel\nthread 2 exit\nmain pends\ntake switch thread 1\nthread 1 cancel_sync 4\nthread 1 drop\nthread 1 ret 4\nthread 1 exit\nmain finish 1 = 4\nmain answer 4\ndone 4\n";

// and a second one of a call that goes on is a trap.
const CANCELLED_TWICE: &[u8] =
    b"scenario 2\nhandles 100000\ntable 1000000\nidle trap\ninstance a\nexport f callback 0\nset_new r3\ncb_wait r3\nreact\ncb_wait r3\ninstance b\nexport g callback 0\ncall r3 r8 a.f\ncancel r4 1\ncancel r5 1\nmain\nstart b.g\nfinish 1 r0\nanswer r0\nend\n";

const CANCELLED_TWICE_REPORT: &[u8] =
    b"main start 1 thread 1\nmain pends\ntake high thread 1\nthread 1 calls thread 2\nmain pends\ntake switch thread 2\nthread 2 set_new 1\nthread 2 cb_wait\nmain pends\ntake switch thread 1\nthread 1 call 17\nthread 1 pauses\nmain pends\ntake switch thread 2 event 6 0 0\nthread 2 cb_wait\nmain pends\ntake switch thread 1\nthread 1 cancel 4294967295\ntrap thread 1 5\ntrap 5\n";

// Two threads wait on one set, and the one that was made last waits first. Under `scenario 2` that one is woken,
const ARRIVAL: &[u8] =
    b"scenario 2\nhandles 100000\ntable 1000000\nidle trap\nhost h polls 1 value 5\ninstance a\nthread 0\nwait r3 1\nexport g stackful 0\nset_new r3\ncall r4 r8 h\nthread_new r5 0 0\nthread_new r6 0 0\nresume_later r6\nresume_later r5\nyield\njoin 2 1\nmain\nstart a.g\nfinish 1 r0\nanswer r0\nend\n";

const ARRIVAL_REPORT: &[u8] =
    b"main start 1 thread 1\nmain pends\ntake high thread 1\nthread 1 set_new 1\nthread 1 call 33 future 1\nthread 1 thread_new 2 thread 2\nthread 1 thread_new 3 thread 3\nthread 1 resume_later\nthread 1 resume_later\nthread 1 pauses\nmain pends\ntake high push 1\nmain pends\nfuture 1 ends\ntake high host 1\nmain pends\ntake low thread 3\nthread 3 pauses\nmain pends\ntake low thread 2\nthread 2 pauses\nmain pends\ntake low thread 1\nthread 1 yield\nthread 1 join wakes 3\nthread 1 exit\nmain pends\ntake high thread 3\nthread 3 wait 1 2 2\nthread 3 exit\nmain pends\ndeadlock 15\ndeadlock 15\n";

// and under `scenario 1` the other one.
const PLACES: &[u8] =
    b"scenario 1\nhandles 100000\ntable 1000000\nidle trap\nhost h polls 1 value 5\ninstance a\nthread 0\nwait r3 1\nexport g stackful 0\nset_new r3\ncall r4 r8 h\nthread_new r5 0 0\nthread_new r6 0 0\nresume_later r6\nresume_later r5\nyield\njoin 2 1\nmain\nstart a.g\nfinish 1 r0\nanswer r0\nend\n";

const PLACES_REPORT: &[u8] =
    b"main start 1 thread 1\nmain pends\ntake high thread 1\nthread 1 set_new 1\nthread 1 call 33 future 1\nthread 1 thread_new 2 thread 2\nthread 1 thread_new 3 thread 3\nthread 1 resume_later\nthread 1 resume_later\nthread 1 pauses\nmain pends\ntake high push 1\nmain pends\nfuture 1 ends\ntake high host 1\nmain pends\ntake low thread 3\nthread 3 pauses\nmain pends\ntake low thread 2\nthread 2 pauses\nmain pends\ntake low thread 1\nthread 1 yield\nthread 1 join wakes 2\nthread 1 exit\nmain pends\ntake high thread 2\nthread 2 wait 1 2 2\nthread 2 exit\nmain pends\ndeadlock 15\ndeadlock 15\n";

// Under `scenario 2` calls go on in the order in which they were held.
const RELEASE: &[u8] =
    b"scenario 2\nhandles 100\ntable 100\nidle trap\ninstance a\nexport up callback 0\nbp_inc\nret 0\nexit\nexport f callback 1\nret r0\nexit\nexport down sync 0\nbp_dec\nmain\nstart a.up\nstart a.f 5\nfinish 1 r0\nstart a.f 7\nstart a.down\nfinish 3 r1\nfinish 2 r2\nanswer r1\nend\n";

const RELEASE_REPORT: &[u8] =
    b"main start 1 thread 1\nmain start 2 thread 2\nmain pends\ntake high thread 1\nthread 1 bp_inc\nthread 1 ret 0\nthread 1 exit\nmain finish 1 = 0\nmain start 3 thread 3\nmain start 4 thread 4\nmain pends\ntake high thread 2 held\nmain pends\ntake high thread 3 held\nmain pends\ntake high thread 4\nthread 4 bp_dec\nthread 4 exit\nmain pends\ntake high thread 2\nthread 2 ret 5\nthread 2 exit\nmain pends\ntake high thread 3\nthread 3 ret 7\nthread 3 exit\nmain finish 3 = 7\nmain finish 2 = 5\nmain answer 7\ndone 7\n";

#[test]
fn texts_of_both_versions_print_their_reports(rt: HostRuntime) {
    reports(&rt, rt.alloc(), ONE_CALL, 7, REPORT);
    reports(
        &rt,
        rt.alloc(),
        ONE_CALL,
        6,
        b"main start 1 thread 1\nmain pends\ntake high thread 1\nthread 1 ret 7\nthread 1 exit\nmain finish 1 = 7\nout of steps\n",
    );
    reports(
        &rt,
        rt.alloc(),
        NO_RESULT,
        100,
        b"main start 1 thread 1\nmain pends\ntake high thread 1\ntrap thread 1 4\ntrap 4\n",
    );
    reports(
        &rt,
        rt.alloc(),
        RETURNED_TWICE,
        100,
        b"main start 1 thread 1\nmain pends\ntake high thread 1\nthread 1 ret 7\ntrap thread 1 1\ntrap 1\n",
    );
    reports(&rt, rt.alloc(), CANCELLED, 100, CANCELLED_REPORT);
    reports(
        &rt,
        rt.alloc(),
        CANCELLED_TWICE,
        100,
        CANCELLED_TWICE_REPORT,
    );
    reports(&rt, rt.alloc(), ARRIVAL, 100, ARRIVAL_REPORT);
    reports(&rt, rt.alloc(), PLACES, 100, PLACES_REPORT);
    reports(&rt, rt.alloc(), RELEASE, 100, RELEASE_REPORT);
}

// Example texts of limits that refuse.
const FULL_TABLE: &[u8] =
    b"scenario 1\nhandles 100000\ntable 7\nidle trap\ninstance a\nexport f callback 0\nret 1\nmain\nstart a.f\nstart a.f\nstart a.f\nfinish 1 r0\nanswer r0\nend\n";

const NO_HANDLE: &[u8] =
    b"scenario 1\nhandles 0\ntable 1000000\nidle trap\ninstance a\nexport f callback 1\nret r0\nexit\nmain\nstart a.f 7\nfinish 1 r0\nanswer r0\nend\n";

const FIRST_START_REFUSED: &[u8] =
    b"scenario 1\nhandles 100000\ntable 3\nidle trap\ninstance a\nexport f callback 1\nret r0\nexit\nmain\nstart a.f 7\nfinish 1 r0\nanswer r0\nend\n";

// Start 4 is refused while groups 2 and 3 are live. The place of group 3 is freed last, so thread 4's call has it and comes first.
const FREED_GROUPS: &[u8] =
    b"scenario 1\nhandles 9\ntable 12\nidle trap\nhost h polls 2 value 5\ninstance a\nexport open stackful 0\nset_new r0\nstore 0 r0\nret 0\nexit\nexport late stackful 0\nload r0 0\ncall r1 r2 h\nhandle r3 r1\njoin r3 r0\nwait r4 r0\nret 6\nexit\nexport early stackful 0\nload r0 0\nwait r4 r0\nret 7\nexit\ninstance b\nexport asks stackful 0\ncall r1 r2 a.late\nret 8\nexit\nmain\nstart a.open\nstart b.asks\nfinish 1 r0\nstart a.early\nstart a.early\nfinish 2 r1\nfinish 3 r2\nanswer r1\nend\n";

const FREED_GROUPS_REPORT: &[u8] =
    b"main start 1 thread 1\nmain start 2 thread 2\nmain pends\ntake high thread 1\nthread 1 set_new 1\nthread 1 store 1\nthread 1 ret 0\nthread 1 exit\nmain finish 1 = 0\nmain start 3 thread 3\nmain start 4 refused 18\nmain pends\ntake high thread 2\nthread 2 calls thread 4\nmain pends\ntake switch thread 4\nthread 4 load 1\nthread 4 call 33 future 1\nthread 4 handle 2\nthread 4 join\nthread 4 pauses\nmain pends\ntake switch thread 2\nthread 2 call 17\nthread 2 ret 8\nthread 2 exit\nmain finish 2 = 8\nmain pends\ntake high thread 3\nthread 3 load 1\nthread 3 pauses\nmain pends\ntake high push 1\nmain pends\nfuture 1 pends\nrest\nmain pends\nfuture 1 ends\ntake high host 1 wakes 4\nmain pends\ntake high thread 4\nthread 4 wait 1 2 2\nthread 4 ret 6\nthread 4 exit\nmain pends\ndeadlock 15\ndeadlock 15\n";

#[test]
fn limits_refuse_starts_and_takings(rt: HostRuntime) {
    reports(&rt, rt.alloc(), FREED_GROUPS, 100, FREED_GROUPS_REPORT);
    reports(
        &rt,
        rt.alloc(),
        FULL_TABLE,
        100,
        b"main start 1 thread 1\nmain start 2 refused 18\nmain start 3 refused 20\nmain pends\ntake high thread 1\nthread 1 ret 1\nthread 1 exit\nmain finish 1 = 1\nmain answer 1\ndone 1\n",
    );
    reports(
        &rt,
        rt.alloc(),
        NO_HANDLE,
        100,
        b"main start 1 thread 1\nmain pends\ntrap thread 1 17\ntrap 17\n",
    );
    reports(
        &rt,
        rt.alloc(),
        FIRST_START_REFUSED,
        100,
        b"main start 1 refused 18\nmain finish 1 refused 18\nmain answer 0\ndone 0\n",
    );
}

fn is_bad_at(rt: &impl Abort, alloc: Global, text: &[u8], line: u32) {
    assert!(rt; text.len() <= MOST_BYTES);
    let read = read_scenario(alloc, text);
    assert!(rt; matches!(read, Err(RunError::BadScenario(found)) if found == line));
}

#[test]
fn a_bad_text_is_refused_at_its_first_bad_line(rt: HostRuntime) {
    is_bad_at(&rt, rt.alloc(), b"", 1);
    is_bad_at(&rt, rt.alloc(), &ONE_CALL[..ONE_CALL.len() - 4], 13);
    is_bad_at(&rt, rt.alloc(), TWO_ENDS, 14);
}

// The words of a call of the program, and the calls of its source and its sink that fail.
#[derive(Clone, Copy)]
struct Call<'a> {
    words: &'a [&'a str],
    bad_reads: &'a [u32],
    bad_writes: &'a [u32],
}

const RUN: Call<'static> = Call {
    words: &["run", "7"],
    bad_reads: &[],
    bad_writes: &[],
};

const BAD_READ: Call<'static> = Call {
    words: &["run", "7"],
    bad_reads: &[2],
    bad_writes: &[],
};

const BAD_WRITE: Call<'static> = Call {
    words: &["run", "7"],
    bad_reads: &[],
    bad_writes: &[2],
};

// The call on the text ends with this status, and has written this.
fn ends(rt: &impl Abort, alloc: Global, call: Call<'_>, text: &[u8], status: u8, written: &[u8]) {
    let mut source = source(rt, alloc, text, call.bad_reads);
    let mut sink = sink(rt, alloc, 4096, call.bad_writes);
    let words = words(rt, alloc, call.words);
    let end = tool(alloc, words.as_slice(), &mut source, &mut sink);
    assert!(rt; end.status == status);
    assert!(rt; end.report.is_some() == (status == 0));
    assert!(rt; sink.bytes() == written);
}

#[test]
fn the_program_ends_with_its_statuses(rt: HostRuntime) {
    ends(&rt, rt.alloc(), RUN, ONE_CALL, 0, REPORT);
    ends(&rt, rt.alloc(), RUN, b"", 3, b"bad scenario line 1\n");
    ends(&rt, rt.alloc(), BAD_READ, ONE_CALL, 4, b"");
    ends(&rt, rt.alloc(), BAD_WRITE, ONE_CALL, 5, b"main start");
    let long = too_long(&rt, rt.alloc());
    ends(&rt, rt.alloc(), RUN, long.as_slice(), 6, b"text too long\n");
    ends(
        &rt,
        rt.alloc(),
        BAD_WRITE,
        long.as_slice(),
        5,
        b"text too l",
    );
}

fn too_long(rt: &impl Abort, alloc: Global) -> Vec<u8> {
    match vec![in alloc; b'\n'; 1_048_577] {
        Ok(text) => text,
        Err(_) => panic!(rt; "no memory"),
    }
}

#[test]
fn other_words_get_the_usage_line(rt: HostRuntime) {
    ends(
        &rt,
        rt.alloc(),
        called_by(&["run", "07"]),
        ONE_CALL,
        2,
        USAGE,
    );
    ends(
        &rt,
        rt.alloc(),
        called_by(&["run", "0"]),
        ONE_CALL,
        2,
        USAGE,
    );
    ends(&rt, rt.alloc(), called_by(&["run"]), ONE_CALL, 2, USAGE);
    ends(&rt, rt.alloc(), called_by(&[]), ONE_CALL, 2, USAGE);
}

fn called_by<'a>(words: &'a [&'a str]) -> Call<'a> {
    Call {
        words,
        bad_reads: &[],
        bad_writes: &[],
    }
}

#[test]
fn the_generated_scenario_is_summed_up(rt: HostRuntime) {
    ends(
        &rt,
        rt.alloc(),
        called_by(&["big", "1", "100"]),
        b"",
        0,
        b"steps 79\ntakes 10\nholds 0\nwakes 2\npauses 1\ndone 102\n",
    );
    ends(
        &rt,
        rt.alloc(),
        called_by(&["big", "1", "78"]),
        b"",
        0,
        b"steps 78\ntakes 10\nholds 0\nwakes 2\npauses 1\nout of steps\n",
    );
    ends(&rt, rt.alloc(), called_by(&["make", "257"]), b"", 2, USAGE);
}

fn generated(rt: &impl Abort, alloc: Global) -> Vec<u8> {
    match make_scenario(alloc, 1) {
        Ok(text) => text,
        Err(_) => panic!(rt; "no memory"),
    }
}

// The program's `make 1` writes this.
fn makes(rt: &impl Abort, alloc: Global, written: &[u8]) {
    let words = words(rt, alloc, &["make", "1"]);
    let mut source = source(rt, alloc, b"", &[]);
    let mut sink = sink(rt, alloc, 4096, &[]);
    let end = tool(alloc, words.as_slice(), &mut source, &mut sink);
    assert!(rt; end.status == 0);
    assert!(rt; end.report.is_none());
    assert!(rt; sink.bytes() == written);
}

#[test]
fn what_make_writes_runs_to_its_end(rt: HostRuntime) {
    let text = generated(&rt, rt.alloc());
    makes(&rt, rt.alloc(), text.as_slice());
    let report = report_of(&rt, rt.alloc(), text.as_slice(), 100);
    assert!(rt; matches!(report.outcome, Outcome::Done(102)));
}

fn sure_sink(rt: &impl Abort, alloc: Global, capacity: usize) -> SureSink {
    match SureSink::new(alloc, 50, capacity) {
        Ok(sink) => sink,
        Err(_) => panic!(rt; "no memory"),
    }
}

// A sure sink of this room keeps this of the report.
fn keeps(rt: &impl Abort, alloc: Global, capacity: usize, kept: &[u8]) {
    let words = words(rt, alloc, &["run", "7"]);
    let mut source = SureSource::new(bytes(rt, alloc, ONE_CALL), 100);
    let mut sink = sure_sink(rt, alloc, capacity);
    let end = tool(alloc, words.as_slice(), &mut source, &mut sink);
    assert!(rt; end.status == 0);
    assert!(rt; sink.bytes() == kept);
}

#[test]
fn a_sure_sink_keeps_what_its_room_holds(rt: HostRuntime) {
    keeps(&rt, rt.alloc(), 120, REPORT);
    keeps(&rt, rt.alloc(), 10, b"main start");
}

#[test]
fn a_scenario_is_read_and_its_component_copied(rt: HostRuntime) {
    let scenario = one_call(&rt, rt.alloc());
    assert!(rt; scenario.handles == 100_000);
    assert!(rt; scenario.names.len() == 1);
    assert!(rt; scenario.main.len() == 3);
    assert!(rt; instances(&rt, rt.alloc(), &scenario) == 1);
}

fn one_call(rt: &impl Abort, alloc: Global) -> Scenario {
    match read_scenario(alloc, ONE_CALL) {
        Ok(scenario) => scenario,
        Err(_) => panic!(rt; "a scenario"),
    }
}

// The instances of the scenario's component, copied.
fn instances(rt: &impl Abort, alloc: Global, scenario: &Scenario) -> usize {
    match component_of(alloc, scenario) {
        Ok(component) => component.instances.len(),
        Err(_) => panic!(rt; "no memory"),
    }
}

#[test]
fn std_s_readers_and_writers_are_adapted(rt: HostRuntime) {
    let mut buf = [0; 8];
    assert!(rt; reads(&mut buf) && buf == *b"scenario");
    assert!(rt; writes(rt.alloc()));
}

fn reads(buf: &mut [u8; 8]) -> bool {
    let mut source = StdSource::new(ONE_CALL);
    matches!(source.read(buf), Read::Got(8))
}

fn writes(alloc: Global) -> bool {
    let mut written = Vec::new(alloc);
    let mut sink = StdSink::new(&mut written);
    matches!(sink.write(b"done"), Wrote::Took(4))
}

// How the program ends on the text of one call, and how many bytes it has written: each read gives one byte, each write takes one,
// and the read and the write of these numbers fail. Calls are counted from 1.
fn ends_by_bytes(rt: &impl Abort, alloc: Global, bad_read: u32, bad_write: u32) -> (u8, usize) {
    let text = bytes(rt, alloc, ONE_CALL);
    let mut source = MemorySource::new(text, 1, numbers(rt, alloc, &[bad_read]));
    let Ok(mut sink) = MemorySink::new(alloc, 1, 4096, numbers(rt, alloc, &[bad_write])) else {
        panic!(rt; "no memory")
    };
    let words = words(rt, alloc, &["run", "7"]);
    let end = tool(alloc, words.as_slice(), &mut source, &mut sink);
    (end.status, sink.bytes().len())
}

// Whether the program fails on the text of one call as the sink has room for all bytes but the last, and has written the others.
fn fails_at_the_last_byte(rt: &impl Abort, alloc: Global) -> bool {
    let mut sink = sink(rt, alloc, 119, &[]);
    let mut source = source(rt, alloc, ONE_CALL, &[]);
    let words = words(rt, alloc, &["run", "7"]);
    let end = tool(alloc, words.as_slice(), &mut source, &mut sink);
    end.status == 5 && sink.bytes() == &REPORT[..119]
}

#[test]
fn a_fault_at_each_byte_has_its_status(rt: HostRuntime) {
    for call in 1..138 {
        assert!(rt; ends_by_bytes(&rt, rt.alloc(), call, 0) == (4, 0));
    }
    assert!(rt; ends_by_bytes(&rt, rt.alloc(), 138, 0) == (0, 120));
    for call in 1..121 {
        assert!(rt; ends_by_bytes(&rt, rt.alloc(), 0, call) == (5, call as usize - 1));
    }
    assert!(rt; ends_by_bytes(&rt, rt.alloc(), 0, 121) == (0, 120));
    assert!(rt; fails_at_the_last_byte(&rt, rt.alloc()));
    assert!(rt; wants_too_much(rt.alloc()));
}

fn wants_too_much(alloc: Global) -> bool {
    MemorySink::new(alloc, 4, usize::MAX, Vec::new(alloc)).is_err()
}
