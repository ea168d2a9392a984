//! The word `choose`: what is read and written, and the status.
use crate::texts::{FIRST_WOKEN, TWO_WAITERS};
use choice_run::{ChoiceError, choice_tool, read_choices, run_choices};
use std::alloc::Global;
use std::process::Abort;
use task_run::{MemorySink, MemorySource};

fn words(rt: &impl Abort, alloc: Global, words: &[&str]) -> Vec<String> {
    let mut copies = Vec::new(alloc);
    for word in words {
        let Ok(copy) = String::from_str(alloc, word) else {
            panic!(rt; "no memory")
        };
        assert!(rt; copies.push(copy).is_ok());
    }
    copies
}

fn input(rt: &impl Abort, alloc: Global, parts: &[&[u8]]) -> MemorySource {
    let mut bytes = Vec::new(alloc);
    for part in parts {
        assert!(rt; bytes.extend_from_slice(part).is_ok());
    }
    MemorySource::new(bytes, 100, Vec::new(alloc))
}

fn room(rt: &impl Abort, alloc: Global) -> MemorySink {
    match MemorySink::new(alloc, 10, 4096, Vec::new(alloc)) {
        Ok(sink) => sink,
        Err(_) => panic!(rt; "no memory"),
    }
}

// `choose 1000` of the text with two waiters and these lines ends so.
fn chooses(rt: &impl Abort, alloc: Global, lines: &[u8], status: u8, written: &[u8]) {
    let mut source = input(rt, alloc, &[TWO_WAITERS, lines]);
    let mut sink = room(rt, alloc);
    let words = words(rt, alloc, &["choose", "1000"]);
    let end = choice_tool(alloc, words.as_slice(), &mut source, &mut sink);
    assert!(rt; end == status);
    assert!(rt; sink.bytes() == written);
}

#[test]
fn choices_are_taken_in_their_order(rt: HostRuntime) {
    let alloc = rt.alloc();
    chooses(&rt, alloc, b"choose wake 2\n", 0, FIRST_WOKEN);
    chooses(&rt, alloc, b"", 8, b"short after 24\n");
    chooses(&rt, alloc, b"choose wake 4\n", 7, b"wrong choice 1\n");
    chooses(&rt, alloc, b"choose wake\n", 3, b"bad scenario line 24\n");
    let Ok(choices) = read_choices(alloc, b"choose wake 3\n", 1) else {
        panic!(&rt; "no choices")
    };
    assert!(rt; run_choices(alloc, TWO_WAITERS, 1000, choices.as_slice()).is_ok());
    assert!(rt;
        matches!(
            run_choices(alloc, TWO_WAITERS, 1000, &[]),
            Err(ChoiceError::Short(24))
        )
    );
}
