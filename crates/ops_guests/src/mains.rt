//! The ops of main, and the deadlock.
ghost use Rattle.std.specs.Prelude.{◌≡◌, ◌+◌, ◌<◌, ◌≤◌, ◌^◌, IfOk, IsSome, None, OnErr, length};
ghost use Rattle.machine_data.specs.Core.{Began};
ghost use Rattle.machine_data.specs.Maps.{get};
ghost use Rattle.machine_data.specs.Write.{set_trapped};
ghost use Rattle.machine_data.specs.declared.label.LoopLabel.TheVariants as loop_labels;
ghost use Rattle.ops_guests.specs.Acted.{KeepsStarted, ImplementsMain, ImplementsMainAnywhere, SpawnsMain, StartsMain};
ghost use Rattle.machine_rules.specs.Cancels.{aborted_phase};
ghost use Rattle.machine_rules.specs.MainOps.{Abort, Answer, Await, Finish, Quiet, Ready, Start, start_refusal};
ghost use Rattle.machine_rules.specs.Places.{Placed};
ghost use Rattle.machine_rules.specs.Stalled.{deadlock_trap};
ghost use Rattle.core_primitives.specs.StateView.{Keeps, on_core, work_of};

use core_primitives::{NoMemory, Primitives, WhyId, WorkId};
use machine_data::{Callee, ExportKind, Goal, HostDef, LoopLabel, MainLabel, Phase, Trap};
use ops_moves::put_high;

/// What an op of main resulted in.
#[derive(Clone, Copy)]
pub enum Acted {
    Does(MainLabel),
    Pends,
    Answers(u64),
}

// Why a start by main is refused.
#[tactic(auto, unfolding(machine_rules::specs::MainOps::start_refusal))]
fn start_refusal<W: Primitives>(w: &W) -> Option<Trap>
    ensures { result ≡ start_refusal (W.view w.now).core }
{
    if w.trapped() {
        return Some(Trap::CannotEnterComponent);
    }
    if w.fits(4) {
        return None;
    }
    Some(Trap::TableFull)
}

/// Does `start F X*`, the start of this line. If it is out of memory, all is as before.
#[tactic(auto, unfolding(machine_rules::specs::MainOps::main_started, machine_rules::specs::MainOps::start_refusal))]
pub fn start<W: Primitives>(
    w: &mut W,
    line: u32,
    callee: Callee,
    kind: ExportKind,
    words: &[u64],
) -> Result<Acted, NoMemory>
    requires placed { Placed (W.view w.old).core }
    requires there { IsSome (get (W.view w.old).core.instances callee.instance) }
    requires words { length words.now ≤ 16 }
    requires few { (W.view w.old).core.made.threads + 1 < 2 ^ 64 }
    requires groups { (W.view w.old).core.made.groups + 1 < 2 ^ 64 }
    ensures implements { IfOk result (λ acted. StartsMain line callee kind words.now (W.view w.old) acted (W.view w.new)) }
    ensures tags { KeepsStarted result (W.view w.old) (W.view w.new) }
    ensures current { (W.view w.new).current ≡ (W.view w.old).current }
    ensures asked { OnErr result (start_refusal (W.view w.old).core ≡ None) }
    ensures err { OnErr result (W.view w.new ≡ W.view w.old) }
{
    if let Some(trap) = start_refusal(w) {
        w.set_trapped();
        return Ok(Acted::Does(MainLabel::StartRefused(trap, line)));
    }
    let (thread, _) = w.make_call_by_main(callee, kind, Goal::Main, words)?;
    put_high(w, thread, WhyId::Start);
    Ok(Acted::Does(MainLabel::Start(line, w.number(thread))))
}

/// Does `finish K R`, of the start that made this call, or was refused.
pub fn finish<W: Primitives>(w: &mut W, line: u32, call: u64) -> Acted
    ensures implements { ImplementsMain line (Finish (Began call)) (W.view w.old) result (W.view w.new) }
    ensures tags { (W.view w.new).tags ≡ (W.view w.old).tags }
    ensures current { (W.view w.new).current ≡ (W.view w.old).current }
{
    match w.result(call) {
        None => Acted::Pends,
        Some(value) => {
            w.take_result(call);
            Acted::Does(MainLabel::Finish(line, value))
        }
    }
}

/// Does `spawn H`. If it is out of memory, all is as before.
#[tactic(auto, unfolding(machine_rules::specs::MainOps::main_spawned))]
pub fn spawn<W: Primitives>(w: &mut W, line: u32, host: HostDef) -> Result<Acted, NoMemory>
    requires few { (W.view w.old).core.made.works + 1 < 2 ^ 64 }
    ensures implements { IfOk result (λ acted. SpawnsMain line host (W.view w.old) acted (W.view w.new)) }
    ensures tags { Keeps (W.view w.old).tags (W.view w.new).tags }
    ensures current { (W.view w.new).current ≡ (W.view w.old).current }
    ensures err { OnErr result (W.view w.new ≡ W.view w.old) }
{
    let work = w.queue_spawn(host)?;
    Ok(Acted::Does(MainLabel::Spawn(line, w.work_number(work))))
}

// The phase after an abort.
fn aborted(phase: Phase) -> Phase
    ensures { result ≡ aborted_phase phase }
{
    match phase {
        Phase::Running => Phase::AbortRequested,
        phase => phase,
    }
}

/// Does `abort K`, of the spawn that made this work.
#[tactic(auto, unfolding(machine_rules::specs::MainOps::main_aborted))]
pub fn abort<W: Primitives>(w: &mut W, line: u32, work: WorkId) -> Acted
    ensures implements { ImplementsMain line (Abort (work_of (W.view w.old) work)) (W.view w.old) result (W.view w.new) }
    ensures tags { (W.view w.new).tags ≡ (W.view w.old).tags }
    ensures current { (W.view w.new).current ≡ (W.view w.old).current }
{
    let phase = w.phase(work);
    w.set_phase(work, aborted(phase));
    Acted::Does(MainLabel::Abort(phase, line))
}

/// Does `await K`, of the spawn that made this work.
pub fn await_spawn<W: Primitives>(w: &W, line: u32, work: WorkId) -> Acted
    ensures { ImplementsMain line (Await (work_of (W.view w.now) work)) (W.view w.now) result (W.view w.now) }
{
    if matches!(w.phase(work), Phase::Complete) {
        Acted::Does(MainLabel::Await(line))
    } else {
        Acted::Pends
    }
}

/// Does `quiet`.
pub fn quiet<W: Primitives>(w: &W) -> Acted
    ensures { ImplementsMainAnywhere Quiet (W.view w.now) result (W.view w.now) }
{
    if w.has_interesting() {
        Acted::Pends
    } else {
        Acted::Does(MainLabel::Quiet)
    }
}

/// Does `ready F`, of an export of this instance.
#[tactic(auto, unfolding(machine_rules::specs::MainOps::is_ready_for_call))]
pub fn ready<W: Primitives>(w: &W, instance: u32) -> Acted
    ensures { ImplementsMainAnywhere (Ready instance) (W.view w.now) result (W.view w.now) }
{
    if w.may_not_enter(instance) || w.backpressure(instance) != 0 {
        Acted::Pends
    } else {
        Acted::Does(MainLabel::Ready)
    }
}

/// Does `answer X`.
pub fn answer<W: Primitives>(w: &W, value: u64) -> Acted
    ensures { ImplementsMainAnywhere (Answer value) (W.view w.now) result (W.view w.now) }
{
    // only the contract speaks of `w`
    let _state = w;
    Acted::Answers(value)
}

/// Ends a run in a deadlock: nothing can go on, and main waits: the store is trapped, and all groups are finished.
pub fn deadlock<W: Primitives>(w: &mut W) -> LoopLabel
    ensures label { result ≡ loop_labels.Deadlock (deadlock_trap (W.view w.old).core) }
    ensures new { W.view w.new ≡ on_core set_trapped (W.view w.old) }
{
    let trap = if w.some_may_not_suspend() {
        Trap::CannotBlockSyncTask
    } else {
        Trap::AsyncDeadlock
    };
    w.set_trapped();
    LoopLabel::Deadlock(trap)
}
