//! The program's word `serve`.
ghost use Rattle.text_bytes.specs.Outside.{HasRisen};
ghost use Rattle.serve_main.specs.Tool.{Ended, InputEnded, IsDue, IsNoServe, IsServe, Says, ServesParts, SourceEnded, served_text};
ghost use Rattle.std.specs.Prelude.{◌≡◌, ◌≢◌, ◌+◌, ◌<◌, ◌≤◌, ◌⊎◌, ◌∷◌, ℕ, List, Some, [], IfOk, MatchOption, length, map, string_bytes};
ghost use Rattle.task_run.specs.Tool.{bad_line_text};

use crate::serving::{Served, serve_scenario};
use machine_data::NoMemory;
use serve_requests::{print_replies, read_parts, scenario_end};
use std::alloc::Global;
use task_run::{TOO_LONG, counted, scenario_of};
use text_bytes::{ReadFault, Sink, Source, read_up_to, write_all};
use text_report::Page;
use text_scenario::TextError;

/// What the program says of wrong words after `serve`.
pub const USAGE: &[u8] = b"usage: serve LIMIT STEPS\n";

// The most bytes that an input has.
const LIMIT: usize = 4_194_304;

// The most bytes that its scenario has.
const SCENARIO_LIMIT: usize = 1_048_576;

// Writes a text, and ends with this status if all of it was written.
fn say<K: Sink>(sink: &mut K, text: &[u8], status: u8) -> u8
    requires { status ≢ 5 }
    ensures told { Says (K.held sink.old) (K.held sink.new) text.now status result }
    ensures cause { result ≡ 5 → HasRisen (K.faults sink.old) (K.faults sink.new) }
{
    if write_all(sink, text) { status } else { 5 }
}

// The lines of the replies, in order, and that of the outcome.
fn text_of(alloc: Global, served: &Served) -> Result<Vec<u8>, NoMemory>
    ensures { IfOk result (λ out. out.items ≡ served_text served.now) }
{
    let mut out = print_replies(alloc, served.replies.as_slice())?;
    let mut page = Page::new(alloc)?;
    page.add_outcome(served.outcome);
    out.extend_from_slice(page.as_slice())?;
    Ok(out)
}

// Writes what was served.
fn put<K: Sink>(alloc: Global, sink: &mut K, served: &Served) -> u8
    ensures told { (result ≡ 1) ⊎ Says (K.held sink.old) (K.held sink.new) (served_text served.now) 0 result }
    ensures unwritten { result ≡ 1 → sink.new ≡ sink.old }
    ensures cause { result ≡ 5 → HasRisen (K.faults sink.old) (K.faults sink.new) }
    ensures other { result ≢ 4 }
{
    match text_of(alloc, served) {
        Ok(text) => say(sink, text.as_slice(), 0),
        Err(_) => 1,
    }
}

// Writes which line is the bad one.
fn say_bad_line<K: Sink>(alloc: Global, sink: &mut K, line: u32) -> u8
    ensures told { (result ≡ 1) ⊎ Says (K.held sink.old) (K.held sink.new) (bad_line_text line) 3 result }
    ensures unwritten { result ≡ 1 → sink.new ≡ sink.old }
    ensures cause { result ≡ 5 → HasRisen (K.faults sink.old) (K.faults sink.new) }
    ensures other { result ≢ 4 }
{
    match format!(in alloc; "bad scenario line {line}\n") {
        Ok(text) => say(sink, text.as_bytes(), 3),
        Err(_) => 1,
    }
}

// Serves the requests of these lines by the component of a scenario of so many lines.
fn serve_parts(
    alloc: Global,
    scenario: &[u8],
    rest: &[u8],
    lines: u32,
    limit: u32,
    steps: u32,
) -> Result<Served, TextError>
    requires input { length scenario.now + length rest.now ≤ 4194304 }
    requires lines { lines ≤ length scenario.now }
    requires limit { (1 ≤ limit) × (limit ≤ 1024) }
    requires steps { (0 < steps) × (steps ≤ 1000000) }
    ensures { ServesParts scenario.now rest.now lines limit steps result }
{
    let input = read_parts(alloc, scenario, rest, lines)?;
    let requests = input.requests;
    let Ok(scenario) = scenario_of(alloc, input.scenario) else {
        return Err(TextError::NoMemory);
    };
    match serve_scenario(alloc, &scenario, requests.as_slice(), limit, steps) {
        Ok(served) => Ok(served),
        Err(_) => Err(TextError::NoMemory),
    }
}

// Serves an input that was read, and writes what came of it.
fn answer<K: Sink>(alloc: Global, input: &[u8], limit: u32, steps: u32, sink: &mut K) -> u8
    requires input { length input.now ≤ 4194304 }
    requires limit { (1 ≤ limit) × (limit ≤ 1024) }
    requires steps { (0 < steps) × (steps ≤ 1000000) }
    ensures ended { InputEnded limit steps input.now (K.held sink.old) (K.held sink.new) result }
    ensures unwritten { result ≡ 1 → sink.new ≡ sink.old }
    ensures write { result ≡ 5 → HasRisen (K.faults sink.old) (K.faults sink.new) }
    ensures other { result ≢ 4 }
{
    let (end, lines) = scenario_end(input);
    if end > SCENARIO_LIMIT {
        return say(sink, TOO_LONG, 6);
    }
    match serve_parts(alloc, &input[..end], &input[end..], lines, limit, steps) {
        Ok(served) => put(alloc, sink, &served),
        Err(TextError::NoMemory) => 1,
        Err(TextError::Bad(line)) => say_bad_line(alloc, sink, line),
    }
}

// Reads an input and serves it.
fn serve_source<S: Source, K: Sink>(
    alloc: Global,
    limit: u32,
    steps: u32,
    source: &mut S,
    sink: &mut K,
) -> u8
    requires limit { (1 ≤ limit) × (limit ≤ 1024) }
    requires steps { (0 < steps) × (steps ≤ 1000000) }
    ensures ended { SourceEnded limit steps (S.left source.old) (S.left source.new) (K.held sink.old) (K.held sink.new) result }
    ensures unwritten { (result ≡ 1) ⊎ (result ≡ 4) → sink.new ≡ sink.old }
    ensures read { result ≡ 4 → HasRisen (S.faults source.old) (S.faults source.new) }
    ensures write { result ≡ 5 → HasRisen (K.faults sink.old) (K.faults sink.new) }
{
    match read_up_to(alloc, source, LIMIT) {
        Ok(input) => answer(alloc, input.as_slice(), limit, steps, sink),
        Err(ReadFault::NoMemory) => 1,
        Err(ReadFault::Failed) => 4,
        Err(ReadFault::TooLong) => say(sink, TOO_LONG, 6),
    }
}

// The limit and the steps, if the words ask to serve.
fn form_of_three(word: &[u8], limit: &[u8], steps: &[u8]) -> Option<(u32, u32)>
    ensures { MatchOption result (IsNoServe (word.now ∷ limit.now ∷ steps.now ∷ [])) (λ f. IsServe (word.now ∷ limit.now ∷ steps.now ∷ []) f.0 f.1) }
{
    if word != b"serve".as_slice() {
        return None;
    }
    let limit = counted(limit, 1_024)?;
    let steps = counted(steps, 1_000_000)?;
    Some((limit, steps))
}

fn form_of(words: &[String]) -> Option<(u32, u32)>
    ensures { MatchOption result (IsNoServe (map string_bytes words.now)) (λ f. IsServe (map string_bytes words.now) f.0 f.1) }
{
    match words {
        [word, limit, steps] => form_of_three(word.as_bytes(), limit.as_bytes(), steps.as_bytes()),
        _ => None,
    }
}

/// Does what the program does with the words `serve LIMIT STEPS`, with a limit of 1 to 1,024 and 1 to 1,000,000 steps: it reads a
/// scenario and the lines of requests after it to the source's end, serves these requests, and writes a line for each reply and one
/// for the outcome. The status is 0 if all was written, 1 if it was out of memory, and then nothing was written, 2 if the words are
/// others, which writes the usage line and leaves the source as it was, 3 if the input isn't of that form, which writes its first
/// bad line, 4 if the source failed, 5 if the sink did, and 6 if the source gave more than 4,194,304 bytes or the scenario has more
/// than 1,048,576, which writes a line that says so.
pub fn serve_tool<S: Source, K: Sink>(
    alloc: Global,
    words: &[String],
    source: &mut S,
    sink: &mut K,
) -> u8
    ensures untouched { IsNoServe (map string_bytes words.now) → source.new ≡ source.old }
    // What is after each status.
    ensures ended { Ended (map string_bytes words.now) (S.left source.old) (S.left source.new) (K.held sink.old) (K.held sink.new) result }
    // Only lack of memory and a fault stand in the way of 0 for an input of that form, of 3 for another and of 6 for a longer one.
    ensures due { (l n : ℕ) (all : List ℕ) → IsServe (map string_bytes words.now) l n → S.left source.old ≡ Some all → IsDue all result }
    ensures unwritten { (result ≡ 1) ⊎ (result ≡ 4) → sink.new ≡ sink.old }
    ensures read { result ≡ 4 → HasRisen (S.faults source.old) (S.faults source.new) }
    ensures write { result ≡ 5 → HasRisen (K.faults sink.old) (K.faults sink.new) }
{
    match form_of(words) {
        Some((limit, steps)) => serve_source(alloc, limit, steps, source, sink),
        None => say(sink, USAGE, 2),
    }
}
