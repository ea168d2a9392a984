//! The program's word `serve`: an input is read and served, or the status says why not.
ghost use Rattle.std.specs.Prelude.{◌≤◌, length};

use serve_main::{USAGE, serve_tool};
use std::alloc::Global;
use std::process::Abort;
use task_run::{MemorySink, MemorySource, TOO_LONG, counted, scenario_of};
use text_bytes::{ReadFault, read_up_to};
use text_scenario::read_text;

const INPUT: &[u8] =
    b"scenario 1\nhandles 100000\ntable 1000000\nidle trap\ninstance a\nexport f callback 1\nret r0\nexit\nmain\nanswer 0\nend\ncall a.f 7\ncall a.f 9\n";

// Its thirteenth line has a register.
const BAD_INPUT: &[u8] =
    b"scenario 1\nhandles 100000\ntable 1000000\nidle trap\ninstance a\nexport f callback 1\nret r0\nexit\nmain\nanswer 0\nend\ncall a.f 7\ncall a.f r1\n";

const NO_ROOM: &[u8] =
    b"scenario 1\nhandles 100000\ntable 3\nidle trap\ninstance a\nexport f callback 1\nret r0\nexit\nmain\nanswer 0\nend\ncall a.f 7\ncall a.f 9\n";

fn numbers(rt: &impl Abort, alloc: Global, numbers: &[u32]) -> Vec<u32> {
    let Ok(numbers) = Vec::from_slice(alloc, numbers) else {
        panic!(rt; "no memory")
    };
    numbers
}

fn words(rt: &impl Abort, alloc: Global, words: &[&str]) -> Vec<String> {
    let mut copies = Vec::new(alloc);
    for word in words {
        let Ok(copy) = String::from_str(alloc, word) else {
            panic!(rt; "no memory")
        };
        assert!(rt; copies.push(copy).is_ok());
    }
    copies
}

// What a call is given: its words, and the numbers of the reads and writes that fail.
#[derive(Drop)]
struct Call<'a> {
    words: &'a [&'a str],
    bad_reads: &'a [u32],
    bad_writes: &'a [u32],
}

fn called_by<'a>(words: &'a [&'a str]) -> Call<'a> {
    Call {
        words,
        bad_reads: &[],
        bad_writes: &[],
    }
}

// The call on the input ends with this status, and has written this. The source gives 100 bytes at a time, and the sink takes 10.
fn ends(rt: &impl Abort, alloc: Global, call: Call<'_>, input: &[u8], status: u8, written: &[u8]) {
    let Ok(input) = Vec::from_slice(alloc, input) else {
        panic!(rt; "no memory")
    };
    let mut source = MemorySource::new(input, 100, numbers(rt, alloc, call.bad_reads));
    let Ok(mut sink) = MemorySink::new(alloc, 10, 4096, numbers(rt, alloc, call.bad_writes)) else {
        panic!(rt; "no memory")
    };
    let words = words(rt, alloc, call.words);
    let end = serve_tool(alloc, words.as_slice(), &mut source, &mut sink);
    assert!(rt; end == status);
    assert!(rt; sink.bytes() == written);
}

#[test]
fn replies_and_the_outcome_are_written(rt: HostRuntime) {
    ends(
        &rt,
        rt.alloc(),
        called_by(&["serve", "1", "100"]),
        INPUT,
        0,
        b"reply 1 = 7\nreply 2 = 9\ndone 2\n",
    );
    ends(
        &rt,
        rt.alloc(),
        called_by(&["serve", "1", "12"]),
        INPUT,
        0,
        b"reply 1 = 7\nreply 2 = 9\nout of steps\n",
    );
    ends(
        &rt,
        rt.alloc(),
        called_by(&["serve", "8", "100"]),
        NO_ROOM,
        0,
        b"reply 1 refused 18\nreply 2 refused 20\ndone 2\n",
    );
}

#[test]
fn other_words_get_the_usage_line(rt: HostRuntime) {
    let alloc = rt.alloc();
    ends(
        &rt,
        alloc,
        called_by(&["serve", "0", "100"]),
        INPUT,
        2,
        USAGE,
    );
    ends(
        &rt,
        alloc,
        called_by(&["serve", "1025", "100"]),
        INPUT,
        2,
        USAGE,
    );
    ends(
        &rt,
        alloc,
        called_by(&["serve", "1", "01"]),
        INPUT,
        2,
        USAGE,
    );
    ends(&rt, alloc, called_by(&["serve", "1"]), INPUT, 2, USAGE);
}

#[test]
fn faults_and_other_inputs_have_their_status(rt: HostRuntime) {
    let alloc = rt.alloc();
    let words = ["serve", "1", "100"];
    ends(
        &rt,
        alloc,
        called_by(&words),
        BAD_INPUT,
        3,
        b"bad scenario line 13\n",
    );
    ends(
        &rt,
        alloc,
        called_by(&words),
        b"",
        3,
        b"bad scenario line 1\n",
    );
    let bad_read = Call {
        words: &words,
        bad_reads: &[2],
        bad_writes: &[],
    };
    ends(&rt, alloc, bad_read, INPUT, 4, b"");
    let bad_write = Call {
        words: &words,
        bad_reads: &[],
        bad_writes: &[2],
    };
    ends(&rt, alloc, bad_write, INPUT, 5, b"reply 1 = ");
}

#[test]
fn too_long_a_scenario_or_input_is_refused(rt: HostRuntime) {
    let alloc = rt.alloc();
    let words = ["serve", "1", "100"];
    let Ok(long) = vec![in alloc; b'\n'; 1_048_577] else {
        panic!(rt; "no memory")
    };
    ends(&rt, alloc, called_by(&words), long.as_slice(), 6, TOO_LONG);
    let Ok(longer) = vec![in alloc; b'\n'; 4_194_305] else {
        panic!(rt; "no memory")
    };
    ends(
        &rt,
        alloc,
        called_by(&words),
        longer.as_slice(),
        6,
        TOO_LONG,
    );
}

// How many instances the text's scenario has.
fn instances(rt: &impl Abort, alloc: Global, text: &[u8]) -> usize
    requires { length text.now ≤ 1048576 }
{
    let Ok(tree) = read_text(alloc, text) else {
        panic!(rt; "a scenario")
    };
    let Ok(scenario) = scenario_of(alloc, tree) else {
        panic!(rt; "no memory")
    };
    scenario.component.instances.len()
}

#[test]
fn a_tree_is_lowered_and_values_are_counted(rt: HostRuntime) {
    let text =
        b"scenario 1\nhandles 1\ntable 3\nidle trap\ninstance a\nexport f callback 1\nret r0\nexit\nmain\nanswer 0\nend\n";
    assert!(rt; text.len() <= 1_000);
    assert!(rt; instances(&rt, rt.alloc(), text) == 1);
    assert!(rt; matches!(counted(b"64", 64), Some(64)));
    assert!(rt; counted(b"65", 64).is_none());
}

// How many bytes are read of five, if no more than these are asked for.
fn read_of_five(rt: &impl Abort, alloc: Global, limit: usize) -> Result<usize, ReadFault>
    requires { limit ≤ 100 }
{
    let Ok(five) = Vec::from_slice(alloc, b"12345") else {
        panic!(rt; "no memory")
    };
    let mut source = MemorySource::new(five, 2, Vec::new(alloc));
    match read_up_to(alloc, &mut source, limit) {
        Ok(text) => Ok(text.len()),
        Err(e) => Err(e),
    }
}

#[test]
fn a_source_is_read_up_to_a_limit(rt: HostRuntime) {
    assert!(rt; matches!(read_of_five(&rt, rt.alloc(), 5), Ok(5)));
    assert!(rt; matches!(read_of_five(&rt, rt.alloc(), 4), Err(ReadFault::TooLong)));
}
