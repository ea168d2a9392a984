ghost use Rattle.std.specs.Prelude.{◌≡◌, ◌≢◌, ◌⊎◌, ◌<◌, ◌≤◌, ℕ, List, None, Some, decimal, length, map, string_bytes, [], ◌∷◌, IfOk, IfErr, IsErrOf, OnOk, MatchOption};
ghost use Rattle.text_bytes.specs.Outside.{Appends, HasRisen};
ghost use Rattle.text_bytes.specs.Pump.{IsFront};
ghost use Rattle.machine_rules.specs.Texts.{text};
ghost use Rattle.text_report.specs.Generated.{gen};
ghost use Rattle.task_run.specs.declared.program.Form.{Form};
ghost use Rattle.task_run.specs.Headline.{IsReportOf};
ghost use Rattle.task_run.specs.Tool.{BigEnded, Ended, EndsAt, IsDue, IsForm, IsNoForm, IsRun, MakeEnded, PutsOrFails, RunEnded, SaysOrFails, TextEnded, bad_line_text, status_of};

use crate::report::{Report, run_scenario};
use machine_data::NoMemory;
use std::alloc::{AllocError, Global};
use text_bytes::{ReadFault, Sink, Source, read_all, write_all};
use text_reader::RunError;
use text_report::{Page, make_scenario, print_summary};
use text_scenario::number_up_to;

/// What the program says of wrong words.
pub const USAGE: &[u8] = b"usage: run STEPS, make NUMBER, big NUMBER STEPS, beside STEPS\n";

/// What it says of a text of more bytes than it takes.
pub const TOO_LONG: &[u8] = b"text too long\n";

/// How a call of the program ended: the status that it ends with, and the report of what was run
/// where that is 0.
#[derive(Drop)]
pub struct ToolEnd {
    pub status: u8,
    pub report: Option<Report>,
}

/// What the words ask for.
#[derive(Clone, Copy)]
enum Form {
    /// `run STEPS`
    Run(u32),
    /// `make NUMBER`
    Make(u32),
    /// `big NUMBER STEPS`
    Big(u32, u32),
}

/// How a call ended, where it ran nothing.
#[derive(Clone, Copy)]
enum End {
    NoMemory,
    WrongWords,
    BadScenario,
    ReadFailed,
    WriteFailed,
    TooLong,
}

impl End {
    fn status(self) -> u8
        ensures { result ≡ status_of self }
    {
        match self {
            End::NoMemory => 1,
            End::WrongWords => 2,
            End::BadScenario => 3,
            End::ReadFailed => 4,
            End::WriteFailed => 5,
            End::TooLong => 6,
        }
    }
}

impl From<AllocError> for End {
    ghost use Rattle.task_run.specs.declared.program.End.TheVariants.{NoMemory};

    ghost from_gives = { λ _ e. e ≡ NoMemory };

    fn from(_e: AllocError) -> End {
        End::NoMemory
    }
}

// Writes a text, and ends so where all of it was written.
fn say<K: Sink>(sink: &mut K, text: &[u8], end: End) -> End
    requires { end ≢ End.WriteFailed }
    ensures cause { result ≡ End.WriteFailed → HasRisen (K.faults sink.old) (K.faults sink.new) }
    ensures told { SaysOrFails (K.held sink.old) (K.held sink.new) text.now end result }
{
    if write_all(sink, text) {
        end
    } else {
        End::WriteFailed
    }
}

/// Reads a number from 1 to a limit, which is at most 1,000,000, in decimal without leading zeros.
pub fn counted(word: &[u8], limit: u64) -> Option<u32>
    requires { limit ≤ 1000000 }
    ensures { MatchOption result ((n : ℕ) → 1 ≤ n → n ≤ limit → word.now ≢ decimal n) (λ n.
        (word.now ≡ decimal n) × (1 ≤ n) × (n ≤ limit)) }
{
    match number_up_to(word, limit) {
        Some(number) if number > 0 => Some(number as u32),
        _ => None,
    }
}

fn form_of_two(word: &[u8], number: &[u8]) -> Option<Form>
    ensures { MatchOption result (IsNoForm (word.now ∷ number.now ∷ [])) (λ form. IsForm (word.now ∷ number.now ∷ []) form) }
{
    if word == b"run".as_slice() {
        Some(Form::Run(counted(number, 1_000_000)?))
    } else if word == b"make".as_slice() {
        Some(Form::Make(counted(number, 256)?))
    } else {
        None
    }
}

fn form_of_three(word: &[u8], number: &[u8], steps: &[u8]) -> Option<Form>
    ensures { MatchOption result (IsNoForm (word.now ∷ number.now ∷ steps.now ∷ [])) (λ form.
        IsForm (word.now ∷ number.now ∷ steps.now ∷ []) form) }
{
    if word != b"big".as_slice() {
        return None;
    }
    let number = counted(number, 256)?;
    let steps = counted(steps, 1_000_000)?;
    Some(Form::Big(number, steps))
}

// What the words ask for.
fn form_of(words: &[String]) -> Option<Form>
    ensures { MatchOption result (IsNoForm (map string_bytes words.now)) (λ form. IsForm (map string_bytes words.now) form) }
{
    match words {
        [word, number] => form_of_two(word.as_bytes(), number.as_bytes()),
        [word, number, steps] => form_of_three(
            word.as_bytes(),
            number.as_bytes(),
            steps.as_bytes(),
        ),
        _ => None,
    }
}

// Writes all of a text, or a front of it.
fn write<K: Sink>(sink: &mut K, text: &[u8]) -> Result<(), End>
    ensures count { K.faults sink.old ≤ K.faults sink.new }
    ensures cause { IsErrOf result End.WriteFailed → HasRisen (K.faults sink.old) (K.faults sink.new) }
    ensures fault { IfErr result (λ end. end ≡ End.WriteFailed) }
    ensures told { OnOk result (Appends (K.held sink.old) (K.held sink.new) text.now) }
    ensures front { IsFront (K.held sink.old) (K.held sink.new) text.now }
{
    if write_all(sink, text) {
        Ok(())
    } else {
        Err(End::WriteFailed)
    }
}

// Writes a report page by page. Where the room of a page can't be had, nothing is written.
fn write_report<K: Sink>(alloc: Global, sink: &mut K, report: &Report) -> Result<(), End>
    ensures count { K.faults sink.old ≤ K.faults sink.new }
    ensures cause { IsErrOf result End.WriteFailed → HasRisen (K.faults sink.old) (K.faults sink.new) }
    ensures fault { IfErr result (λ end. (end ≡ End.NoMemory) ⊎ (end ≡ End.WriteFailed)) }
    ensures told { OnOk result (Appends (K.held sink.old) (K.held sink.new) (text report.now.trace report.now.outcome)) }
    ensures front { IsFront (K.held sink.old) (K.held sink.new) (text report.now.trace report.now.outcome) }
    ensures out_of_memory { IsErrOf result End.NoMemory → sink.new ≡ sink.old }
{
    let mut page = Page::new(alloc)?;
    let mut labels = report.trace.labels();
    'pages: while page.fill(&mut labels) {
        write(sink, page.full())?;
        page.take_full();
    }
    page.add_outcome(report.outcome);
    write(sink, page.as_slice())
}

fn say_bad_line<K: Sink>(alloc: Global, sink: &mut K, line: u32) -> End
    ensures told { (result ≡ End.NoMemory) ⊎ SaysOrFails (K.held sink.old) (K.held sink.new) (bad_line_text line) End.BadScenario result }
    ensures cause { result ≡ End.WriteFailed → HasRisen (K.faults sink.old) (K.faults sink.new) }
    ensures out_of_memory { result ≡ End.NoMemory → sink.new ≡ sink.old }
{
    match format!(in alloc; "bad scenario line {line}\n") {
        Ok(text) => say(sink, text.as_bytes(), End::BadScenario),
        Err(_) => End::NoMemory,
    }
}

// How the program ends where it has nothing to answer but a status.
fn ended(end: End) -> ToolEnd
    ensures { EndsAt result (status_of end) }
{
    ToolEnd {
        status: end.status(),
        report: None,
    }
}

// Runs the scenario that was read and writes the report, or its bad line.
fn report_on<K: Sink>(alloc: Global, steps: u32, text: &[u8], sink: &mut K) -> ToolEnd
    requires text { length text.now ≤ 1048576 }
    requires some { 0 < steps }
    requires few { steps ≤ 1000000 }
    ensures ended { TextEnded steps text.now (K.held sink.old) (K.held sink.new) result }
    ensures unwritten { result.status ≡ 1 → sink.new ≡ sink.old }
    ensures write { result.status ≡ 5 → HasRisen (K.faults sink.old) (K.faults sink.new) }
{
    match run_scenario(alloc, text, steps) {
        Ok(report) => match write_report(alloc, sink, &report) {
            Ok(()) => ToolEnd {
                status: 0,
                report: Some(report),
            },
            Err(end) => ended(end),
        },
        Err(RunError::NoMemory) => ended(End::NoMemory),
        Err(RunError::BadScenario(line)) => ended(say_bad_line(alloc, sink, line)),
    }
}

// Reads a scenario, runs it and writes the report.
fn run<S: Source, K: Sink>(alloc: Global, steps: u32, source: &mut S, sink: &mut K) -> ToolEnd
    requires some { 0 < steps }
    requires few { steps ≤ 1000000 }
    ensures ended { RunEnded steps (S.left source.old) (S.left source.new) (K.held sink.old) (K.held sink.new) result }
    ensures unwritten { (result.status ≡ 1) ⊎ (result.status ≡ 4) → sink.new ≡ sink.old }
    ensures read { result.status ≡ 4 → HasRisen (S.faults source.old) (S.faults source.new) }
    ensures write { result.status ≡ 5 → HasRisen (K.faults sink.old) (K.faults sink.new) }
{
    match read_all(alloc, source) {
        Ok(text) => report_on(alloc, steps, text.as_slice(), sink),
        Err(ReadFault::NoMemory) => ended(End::NoMemory),
        Err(ReadFault::Failed) => ended(End::ReadFailed),
        Err(ReadFault::TooLong) => ended(say(sink, TOO_LONG, End::TooLong)),
    }
}

// Writes a text, and ends with this report where all of it was written.
fn put<K: Sink>(sink: &mut K, text: &[u8], report: Option<Report>) -> ToolEnd
    ensures told { PutsOrFails (K.held sink.old) (K.held sink.new) text.now report result }
    ensures cause { result.status ≡ 5 → HasRisen (K.faults sink.old) (K.faults sink.new) }
{
    if write_all(sink, text) {
        ToolEnd { status: 0, report }
    } else {
        ended(End::WriteFailed)
    }
}

// Writes the generated scenario.
fn make<K: Sink>(alloc: Global, number: u32, sink: &mut K) -> ToolEnd
    requires some { 1 ≤ number }
    requires few { number ≤ 256 }
    ensures ended { MakeEnded number (K.held sink.old) (K.held sink.new) result }
    ensures out_of_memory { result.status ≡ 1 → sink.new ≡ sink.old }
    ensures cause { result.status ≡ 5 → HasRisen (K.faults sink.old) (K.faults sink.new) }
{
    match make_scenario(alloc, number) {
        Ok(text) => put(sink, text.as_slice(), None),
        Err(_) => ended(End::NoMemory),
    }
}

// Runs the generated scenario.
fn run_generated(alloc: Global, number: u32, steps: u32) -> Result<Report, NoMemory>
    requires some { 1 ≤ number }
    requires few { number ≤ 256 }
    requires one { 0 < steps }
    requires limit { steps ≤ 1000000 }
    ensures { IfOk result (λ r. IsReportOf (gen number) steps r) }
{
    let text = make_scenario(alloc, number)?;
    match run_scenario(alloc, text.as_slice(), steps) {
        Ok(report) => Ok(report),
        Err(RunError::NoMemory) => Err(NoMemory),
        Err(RunError::BadScenario(_)) => unreachable!(),
    }
}

// Runs the generated scenario and writes the summary.
fn big<K: Sink>(alloc: Global, number: u32, steps: u32, sink: &mut K) -> ToolEnd
    requires some { 1 ≤ number }
    requires few { number ≤ 256 }
    requires one { 0 < steps }
    requires limit { steps ≤ 1000000 }
    ensures ended { BigEnded number steps (K.held sink.old) (K.held sink.new) result }
    ensures out_of_memory { result.status ≡ 1 → sink.new ≡ sink.old }
    ensures cause { result.status ≡ 5 → HasRisen (K.faults sink.old) (K.faults sink.new) }
{
    let Ok(report) = run_generated(alloc, number, steps) else {
        return ended(End::NoMemory);
    };
    match print_summary(alloc, &report.trace.labels(), report.outcome) {
        Ok(text) => put(sink, text.as_slice(), Some(report)),
        Err(_) => ended(End::NoMemory),
    }
}

/// Does what the program's words ask, with its input and its output. `run STEPS`, with 1 to 1,000,000 steps, reads a scenario to
/// the source's end, runs it and writes its report. `make NUMBER`, with 1 to 256 requests, writes the generated scenario, and
/// `big NUMBER STEPS` runs it and writes the summary of that run. The status is 0 where all was written, 1 if it was out of memory,
/// and then nothing was written, 2 if the words are none of the forms, which writes the usage line, 3 if the text is no scenario,
/// which writes its first bad line, 4 if the source failed, 5 if the sink did, and 6 if the source gave more than 1,048,576 bytes,
/// which writes a line that says so. All words but `run STEPS` leave the source as it was.
pub fn tool<S: Source, K: Sink>(
    alloc: Global,
    words: &[String],
    source: &mut S,
    sink: &mut K,
) -> ToolEnd
    // All words but `run` leave the source as it was.
    ensures untouched { ((n : ℕ) → IsRun (map string_bytes words.now) n → ⊥) → source.new ≡ source.old }
    // What is after each status.
    ensures ended { Ended (map string_bytes words.now) (S.left source.old) (S.left source.new) (K.held sink.old) (K.held sink.new) result }
    // Only lack of memory and a fault stand in the way of 0 for a scenario, of 3 for another text and of 6 for a longer one.
    ensures due { (n : ℕ) (all : List ℕ) → IsRun (map string_bytes words.now) n → S.left source.old ≡ Some all → IsDue all result.status }
    ensures unwritten { (result.status ≡ 1) ⊎ (result.status ≡ 4) → sink.new ≡ sink.old }
    ensures read { result.status ≡ 4 → HasRisen (S.faults source.old) (S.faults source.new) }
    ensures write { result.status ≡ 5 → HasRisen (K.faults sink.old) (K.faults sink.new) }
{
    match form_of(words) {
        Some(Form::Run(steps)) => run(alloc, steps, source, sink),
        Some(Form::Make(number)) => make(alloc, number, sink),
        Some(Form::Big(number, steps)) => big(alloc, number, steps, sink),
        None => ended(say(sink, USAGE, End::WrongWords)),
    }
}
