//! What the program does with the words `beside STEPS`.
ghost use Rattle.std.specs.Prelude.{◌≡◌, ◌≢◌, ◌<◌, ◌≤◌, ◌⊎◌, ◌∷◌, [], List, MatchOption, Some, length, map, string_bytes, ℕ};
ghost use Rattle.beside_main.specs.Tool.{Ended, EndsAt, IsBeside, Says, SaysBadLine, TextEnded, Writes};
ghost use Rattle.task_run.specs.Tool.{IsDue};
ghost use Rattle.text_bytes.specs.Outside.{HasRisen};

use crate::report::{BesideReport, run_beside};
use beside_works::Gate;
use std::alloc::Global;
use std::sync::Wait;
use std::thread::Threads;
use task_run::{TOO_LONG, USAGE, counted, print_report};
use text_bytes::{ReadFault, Sink, Source, read_all, write_all};
use text_reader::RunError;

/// How a call of the program ended: the status that it ends with, and the report of what was run where that is 0.
#[derive(Drop)]
pub struct BesideEnd {
    pub status: u8,
    pub report: Option<BesideReport>,
}

// How the program ends if it has nothing to answer but a status.
fn ended(status: u8) -> BesideEnd
    ensures { EndsAt result status }
{
    BesideEnd {
        status,
        report: None,
    }
}

// Writes a text, and ends with this status, or with 5 if the sink fails.
fn say<K: Sink>(sink: &mut K, text: &[u8], status: u8) -> BesideEnd
    requires { status ≢ 5 }
    ensures said { Says (K.held sink.old) (K.held sink.new) text.now status result }
    ensures write { result.status ≡ 5 → HasRisen (K.faults sink.old) (K.faults sink.new) }
{
    if write_all(sink, text) {
        return ended(status);
    }
    ended(5)
}

// Writes the line that names the first bad line of a text.
fn say_bad_line<K: Sink>(alloc: Global, sink: &mut K, line: u32) -> BesideEnd
    ensures said { SaysBadLine (K.held sink.old) (K.held sink.new) line result }
    ensures unwritten { result.status ≡ 1 → sink.new ≡ sink.old }
    ensures write { result.status ≡ 5 → HasRisen (K.faults sink.old) (K.faults sink.new) }
{
    match format!(in alloc; "bad scenario line {line}\n") {
        Ok(text) => say(sink, text.as_bytes(), 3),
        Err(_) => ended(1),
    }
}

// The steps of these two words.
fn steps_in(word: &[u8], number: &[u8]) -> Option<u32>
    ensures { MatchOption result ((n : ℕ) → IsBeside (word.now ∷ number.now ∷ []) n → ⊥) (λ n. IsBeside (word.now ∷ number.now ∷ []) n) }
{
    if word == b"beside".as_slice() {
        return counted(number, 1_000_000);
    }
    None
}

// The steps that the words ask for, if they are of the form.
fn steps_of(words: &[String]) -> Option<u32>
    ensures { MatchOption result ((n : ℕ) → IsBeside (map string_bytes words.now) n → ⊥) (λ n. IsBeside (map string_bytes words.now) n) }
{
    match words {
        [word, number] => steps_in(word.as_bytes(), number.as_bytes()),
        _ => None,
    }
}

// Writes the text of this report.
fn written<K: Sink>(sink: &mut K, text: &[u8], report: BesideReport) -> BesideEnd
    ensures told { Writes (K.held sink.old) (K.held sink.new) text.now report result }
    ensures write { result.status ≡ 5 → HasRisen (K.faults sink.old) (K.faults sink.new) }
{
    if write_all(sink, text) {
        return BesideEnd {
            status: 0,
            report: Some(report),
        };
    }
    ended(5)
}

// Runs the scenario that was read beside its aborters and writes the report, or its bad line.
fn report_on<R: Threads + Wait + Sync, K: Sink, G: Gate + Sync>(
    rt: &R,
    alloc: Global,
    steps: u32,
    text: &[u8],
    sink: &mut K,
    gate: &G,
) -> BesideEnd
    requires text { length text.now ≤ 1048576 }
    requires some { 0 < steps }
    requires few { steps ≤ 1000000 }
    ensures ended { TextEnded steps text.now (K.held sink.old) (K.held sink.new) result }
    ensures unwritten { result.status ≡ 1 → sink.new ≡ sink.old }
    ensures write { result.status ≡ 5 → HasRisen (K.faults sink.old) (K.faults sink.new) }
{
    match run_beside(rt, alloc, text, steps, gate) {
        Ok(report) => match print_report(alloc, &report.report) {
            Ok(text) => written(sink, text.as_slice(), report),
            Err(_) => ended(1),
        },
        Err(RunError::NoMemory) => ended(1),
        Err(RunError::BadScenario(line)) => say_bad_line(alloc, sink, line),
    }
}

/// Returns what the program does with the words `beside STEPS`, with 1 to 1,000,000 steps: it reads a scenario to the source's end,
/// runs it beside its aborters, each in a thread of its own, and writes its report. The statuses are those of `tool`, the program's
/// other call: 0 where all was written, 1 if it was out of memory, and then nothing was written, 2 if the words are others, which
/// writes the usage line, 3 if the text is no scenario, which writes its first bad line, 4 if the source failed, 5 if the sink did,
/// and 6 if the source gave more than 1,048,576 bytes, which writes a line that says so.
pub fn tool_beside<R: Threads + Wait + Sync, S: Source, K: Sink, G: Gate + Sync>(
    rt: &R,
    alloc: Global,
    words: &[String],
    source: &mut S,
    sink: &mut K,
    gate: &G,
) -> BesideEnd
    // Other words leave the source as it was.
    ensures untouched { ((n : ℕ) → IsBeside (map string_bytes words.now) n → ⊥) → source.new ≡ source.old }
    // What is after each status.
    ensures ended { Ended (map string_bytes words.now) (S.left source.old) (S.left source.new) (K.held sink.old) (K.held sink.new) result }
    // Only lack of memory and a fault stand in the way of 0 for a scenario, of 3 for another text and of 6 for a longer one.
    ensures due { (n : ℕ) (all : List ℕ) → IsBeside (map string_bytes words.now) n → S.left source.old ≡ Some all → IsDue all result.status }
    ensures unwritten { (result.status ≡ 1) ⊎ (result.status ≡ 4) → sink.new ≡ sink.old }
    ensures read { result.status ≡ 4 → HasRisen (S.faults source.old) (S.faults source.new) }
    ensures write { result.status ≡ 5 → HasRisen (K.faults sink.old) (K.faults sink.new) }
{
    let Some(steps) = steps_of(words) else {
        return say(sink, USAGE, 2);
    };
    match read_all(alloc, source) {
        Ok(text) => report_on(rt, alloc, steps, text.as_slice(), sink, gate),
        Err(ReadFault::NoMemory) => ended(1),
        Err(ReadFault::Failed) => ended(4),
        Err(ReadFault::TooLong) => say(sink, TOO_LONG, 6),
    }
}
