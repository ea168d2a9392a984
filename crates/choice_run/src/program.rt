//! The program's word `choose`.
ghost use Rattle.choice_run.specs.Tool.{Ended, InputEnded, IsChoose, IsDue, IsNoChoose, RunsParts, SourceEnded, Writes};
ghost use Rattle.choice_run.specs.Tool.{short_text, wrong_choice_text};
ghost use Rattle.machine_rules.specs.Texts.{text};
ghost use Rattle.std.specs.Prelude.{◌≡◌, ◌≢◌, ◌+◌, ◌<◌, ◌≤◌, ◌⊎◌, ◌∷◌, [], IfOk, List, MatchOption, Some, length, map, string_bytes, ℕ};
ghost use Rattle.task_run.specs.Tool.{bad_line_text};
ghost use Rattle.text_bytes.specs.Outside.{HasRisen};

use crate::read::read_choices;
use crate::run::{ChoiceError, ChosenReport, run_chosen};
use serve_requests::scenario_end;
use std::alloc::{AllocError, Global};
use task_run::{RunError, TOO_LONG, counted, read_scenario};
use text_bytes::{ReadFault, Sink, Source, read_up_to, write_all};
use text_report::Page;
use text_scenario::TextError;

/// What the program says of wrong words after `choose`.
pub const USAGE: &[u8] = b"usage: choose STEPS\n";

// The most bytes that an input has.
const LIMIT: usize = 16_777_216;

// The most bytes that its scenario has.
const SCENARIO_LIMIT: usize = 1_048_576;

// Writes a text, and ends with this status if all of it was written.
fn say<K: Sink>(sink: &mut K, text: &[u8], status: u8) -> u8
    requires { status ≢ 5 }
    ensures told { Writes (K.held sink.old) (K.held sink.new) text.now status result }
    ensures cause { result ≡ 5 → HasRisen (K.faults sink.old) (K.faults sink.new) }
{
    if write_all(sink, text) { status } else { 5 }
}

// Writes which line is the bad one.
fn say_bad_line<K: Sink>(alloc: Global, sink: &mut K, line: u32) -> u8
    ensures told { (result ≡ 1) ⊎ Writes (K.held sink.old) (K.held sink.new) (bad_line_text line) 3 result }
    ensures unwritten { result ≡ 1 → sink.new ≡ sink.old }
    ensures cause { result ≡ 5 → HasRisen (K.faults sink.old) (K.faults sink.new) }
    ensures other { result ≢ 4 }
{
    match format!(in alloc; "bad scenario line {line}\n") {
        Ok(text) => say(sink, text.as_bytes(), 3),
        Err(_) => 1,
    }
}

// Writes which choice doesn't fit.
fn say_wrong<K: Sink>(alloc: Global, sink: &mut K, choice: u32) -> u8
    ensures told { (result ≡ 1) ⊎ Writes (K.held sink.old) (K.held sink.new) (wrong_choice_text choice) 7 result }
    ensures unwritten { result ≡ 1 → sink.new ≡ sink.old }
    ensures cause { result ≡ 5 → HasRisen (K.faults sink.old) (K.faults sink.new) }
    ensures other { result ≢ 4 }
{
    match format!(in alloc; "wrong choice {choice}\n") {
        Ok(text) => say(sink, text.as_bytes(), 7),
        Err(_) => 1,
    }
}

// Writes after how many labels no choice is left.
fn say_short<K: Sink>(alloc: Global, sink: &mut K, labels: u32) -> u8
    ensures told { (result ≡ 1) ⊎ Writes (K.held sink.old) (K.held sink.new) (short_text labels) 8 result }
    ensures unwritten { result ≡ 1 → sink.new ≡ sink.old }
    ensures cause { result ≡ 5 → HasRisen (K.faults sink.old) (K.faults sink.new) }
    ensures other { result ≢ 4 }
{
    match format!(in alloc; "short after {labels}\n") {
        Ok(text) => say(sink, text.as_bytes(), 8),
        Err(_) => 1,
    }
}

// The lines of a report: its labels, one a line, and the outcome.
fn text_of(alloc: Global, report: &ChosenReport) -> Result<Vec<u8>, AllocError>
    ensures { IfOk result (λ out. out.items ≡ text report.now.trace.labels report.now.outcome) }
{
    let mut out = Vec::new(alloc);
    let mut page = Page::new(alloc)?;
    let mut labels = report.trace.labels();
    'pages: while page.fill(&mut labels) {
        out.extend_from_slice(page.as_slice())?;
        page.clear();
    }
    page.add_outcome(report.outcome);
    out.extend_from_slice(page.as_slice())?;
    Ok(out)
}

// Writes a report.
fn put<K: Sink>(alloc: Global, sink: &mut K, report: &ChosenReport) -> u8
    ensures told { (result ≡ 1) ⊎ Writes (K.held sink.old) (K.held sink.new) (text report.now.trace.labels report.now.outcome) 0 result }
    ensures unwritten { result ≡ 1 → sink.new ≡ sink.old }
    ensures cause { result ≡ 5 → HasRisen (K.faults sink.old) (K.faults sink.new) }
    ensures other { result ≢ 4 }
{
    match text_of(alloc, report) {
        Ok(text) => say(sink, text.as_slice(), 0),
        Err(_) => 1,
    }
}

// Runs a scenario of so many lines under the choices of the lines after it.
fn run_parts(
    alloc: Global,
    scenario: &[u8],
    rest: &[u8],
    lines: u32,
    steps: u32,
) -> Result<ChosenReport, ChoiceError>
    requires short { length scenario.now ≤ 1048576 }
    requires input { length rest.now ≤ 16777216 }
    requires lines { lines ≤ length scenario.now }
    requires steps { (0 < steps) × (steps ≤ 1000000) }
    ensures { RunsParts steps scenario.now rest.now lines result }
{
    match read_scenario(alloc, scenario) {
        Ok(scenario) => match read_choices(alloc, rest, lines + 1) {
            Ok(choices) => run_chosen(alloc, &scenario, steps, choices.as_slice()),
            Err(TextError::NoMemory) => Err(ChoiceError::NoMemory),
            Err(TextError::Bad(line)) => Err(ChoiceError::BadScenario(line)),
        },
        Err(RunError::NoMemory) => Err(ChoiceError::NoMemory),
        Err(RunError::BadScenario(line)) => Err(ChoiceError::BadScenario(line)),
    }
}

// Runs an input that was read, and writes what came of it.
fn answer<K: Sink>(alloc: Global, input: &[u8], steps: u32, sink: &mut K) -> u8
    requires input { length input.now ≤ 16777216 }
    requires steps { (0 < steps) × (steps ≤ 1000000) }
    ensures ended { InputEnded steps input.now (K.held sink.old) (K.held sink.new) result }
    ensures unwritten { result ≡ 1 → sink.new ≡ sink.old }
    ensures write { result ≡ 5 → HasRisen (K.faults sink.old) (K.faults sink.new) }
    ensures other { result ≢ 4 }
{
    let (end, lines) = scenario_end(input);
    if end > SCENARIO_LIMIT {
        return say(sink, TOO_LONG, 6);
    }
    match run_parts(alloc, &input[..end], &input[end..], lines, steps) {
        Ok(report) => put(alloc, sink, &report),
        Err(ChoiceError::NoMemory) => 1,
        Err(ChoiceError::BadScenario(line)) => say_bad_line(alloc, sink, line),
        Err(ChoiceError::Wrong(choice)) => say_wrong(alloc, sink, choice),
        Err(ChoiceError::Short(labels)) => say_short(alloc, sink, labels),
    }
}

// Reads an input and runs it.
fn choose_source<S: Source, K: Sink>(alloc: Global, steps: u32, source: &mut S, sink: &mut K) -> u8
    requires { (0 < steps) × (steps ≤ 1000000) }
    ensures ended { SourceEnded steps (S.left source.old) (S.left source.new) (K.held sink.old) (K.held sink.new) result }
    ensures unwritten { (result ≡ 1) ⊎ (result ≡ 4) → sink.new ≡ sink.old }
    ensures read { result ≡ 4 → HasRisen (S.faults source.old) (S.faults source.new) }
    ensures write { result ≡ 5 → HasRisen (K.faults sink.old) (K.faults sink.new) }
{
    match read_up_to(alloc, source, LIMIT) {
        Ok(input) => answer(alloc, input.as_slice(), steps, sink),
        Err(ReadFault::NoMemory) => 1,
        Err(ReadFault::Failed) => 4,
        Err(ReadFault::TooLong) => say(sink, TOO_LONG, 6),
    }
}

// The steps, if the words ask for a run under choices.
fn steps_of_two(word: &[u8], steps: &[u8]) -> Option<u32>
    ensures { MatchOption result (IsNoChoose (word.now ∷ steps.now ∷ [])) (λ n. IsChoose (word.now ∷ steps.now ∷ []) n) }
{
    if word != b"choose".as_slice() {
        return None;
    }
    counted(steps, 1_000_000)
}

fn steps_of(words: &[String]) -> Option<u32>
    ensures { MatchOption result (IsNoChoose (map string_bytes words.now)) (λ n. IsChoose (map string_bytes words.now) n) }
{
    match words {
        [word, steps] => steps_of_two(word.as_bytes(), steps.as_bytes()),
        _ => None,
    }
}

/// Does what the program does with the words `choose STEPS`, with 1 to 1,000,000 steps: it reads a scenario and the lines `choose`
/// after it to the source's end, runs the scenario under these choices, and writes the report. The status is 0 if all was written, 1
/// if it was out of memory, and then nothing was written, 2 if the words are others, which writes the usage line and leaves the
/// source as it was, 3 if the input isn't of that form, which writes its first bad line, 4 if the source failed, 5 if the sink did,
/// 6 if the source gave more than 16,777,216 bytes or the scenario has more than 1,048,576, which writes a line that says so, 7 if a
/// choice doesn't fit, which writes its number, and 8 if no choice is left, which writes after how many labels.
pub fn choice_tool<S: Source, K: Sink>(
    alloc: Global,
    words: &[String],
    source: &mut S,
    sink: &mut K,
) -> u8
    ensures untouched { IsNoChoose (map string_bytes words.now) → source.new ≡ source.old }
    // What is after each status.
    ensures ended { Ended (map string_bytes words.now) (S.left source.old) (S.left source.new) (K.held sink.old) (K.held sink.new) result }
    // Only lack of memory and a fault stand in the way of what the run comes to, of 3 for another input and of 6 for a longer one.
    ensures due { (n : ℕ) (all : List ℕ) → IsChoose (map string_bytes words.now) n → S.left source.old ≡ Some all → IsDue all result }
    ensures unwritten { (result ≡ 1) ⊎ (result ≡ 4) → sink.new ≡ sink.old }
    ensures read { result ≡ 4 → HasRisen (S.faults source.old) (S.faults source.new) }
    ensures write { result ≡ 5 → HasRisen (K.faults sink.old) (K.faults sink.new) }
{
    match steps_of(words) {
        Some(steps) => choose_source(alloc, steps, source, sink),
        None => say(sink, USAGE, 2),
    }
}
