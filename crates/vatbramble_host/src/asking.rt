//! The main that asks, and which of its asks are admitted.
ghost use Rattle.std.specs.Prelude.{◌≡◌, ◌<◌, [], IfNone, IfSome, IsSome, length, slice_get};
ghost use Rattle.vatbramble_host.specs.Asks.{IsAdmitted, IsCause, IsFinishCause, IsReadyCause, IsSpawnCause, IsStartCause, IsWorkCause, MayFinish, MayStart};

use crate::ask::{Answer, Ask, CallId, HostMain, Refusal, SpawnId};
use machine_data::Callee;
use ops_turns::export_def;
use std::alloc::Global;
use task_loop::{Component, Func, FuncCallConcurrent, Instance};
use task_store::SpawnHandle;

// How often a main may be refused in one step, before others run.
const MOST_REFUSALS: u32 = 64;

/// A main that asks `D` what it wants. It has the calls that it has started, and asks again of the store, not of `D`, while it waits.
#[derive(Drop)]
pub struct AskingMain<D: Drop> {
    pub(crate) host: D,
    pub(crate) calls: Vec<Begun>,
    pub(crate) spawns: Vec<SpawnHandle>,
    pub(crate) last: Answer,
    pub(crate) waits: Wait,
}

// A call that was started.
#[derive(Drop)]
pub(crate) struct Begun {
    pub(crate) call: FuncCallConcurrent,
    // Whether its result was taken.
    pub(crate) finished: bool,
}

// What main waits for.
#[derive(Clone, Copy)]
pub(crate) enum Wait {
    Nothing,
    Call(CallId),
    Quiet,
    Instance(Instance),
    Work(SpawnId),
}

// Why an instance may not be waited for; none if it may.
fn ready_refusal(component: &Component, instance: Instance) -> Option<Refusal>
    ensures none { IfNone result (IsSome (slice_get component.now.instances instance.index)) }
    ensures some { IfSome result (IsReadyCause component.now instance.index) }
{
    let instances = component.instances.as_slice();
    match instances.get(instance.index as usize) {
        Some(_) => None,
        None => Some(Refusal::NoInstance),
    }
}

impl<D: Drop> AskingMain<D> {
    /// Makes a main that wasn't asked yet.
    pub fn new(alloc: Global, host: D) -> Self
        ensures host { result.host ≡ host }
        ensures spawns { result.spawns.items ≡ [] }
    {
        AskingMain {
            host,
            calls: Vec::new(alloc),
            spawns: Vec::new(alloc),
            last: Answer::Begun,
            waits: Wait::Nothing,
        }
    }

    /// Returns the host, as its last ask has left it.
    pub fn into_host(self) -> D
        ensures { result ≡ self.host }
    {
        self.host
    }

    // Why a call may not be started; none if it may.
    fn start_refusal(&self, component: &Component, func: Func, count: usize) -> Option<Refusal>
        ensures none { IfNone result (MayStart component.now self.now.calls.items func count) }
        ensures some { IfSome result (IsStartCause component.now self.now.calls.items func count) }
    {
        let callee = Callee {
            instance: func.instance.index,
            export: func.export,
        };
        if self.calls.len() >= u32::MAX as usize {
            return Some(Refusal::TooManyCalls);
        }
        match export_def(component, callee) {
            Some(def) if def.params as usize == count && count <= 16 => None,
            Some(_) => Some(Refusal::WrongWords),
            None => Some(Refusal::NoExport),
        }
    }

    // Why a call may not be finished; none if it may.
    fn finish_refusal(&self, call: CallId) -> Option<Refusal>
        ensures none { IfNone result (MayFinish self.now.calls.items call) }
        ensures some { IfSome result (IsFinishCause self.now.calls.items call) }
    {
        match self.calls.get(call.place) {
            Some(begun) if begun.finished => Some(Refusal::IsFinished),
            Some(_) => None,
            None => Some(Refusal::NoCall),
        }
    }

    // Why a further work may not be spawned; none if it may.
    fn spawn_refusal(&self) -> Option<Refusal>
        ensures none { IfNone result (length self.now.spawns.items < 4294967295) }
        ensures some { IfSome result (IsSpawnCause self.now.spawns.items) }
    {
        if self.spawns.len() >= u32::MAX as usize {
            return Some(Refusal::TooManySpawns);
        }
        None
    }

    // Why a work may not be named; none if it may.
    fn work_refusal(&self, work: SpawnId) -> Option<Refusal>
        ensures none { IfNone result (work.place < length self.now.spawns.items) }
        ensures some { IfSome result (IsWorkCause self.now.spawns.items work) }
    {
        match self.spawns.get(work.place) {
            Some(_) => None,
            None => Some(Refusal::NoSpawn),
        }
    }

    // Why an ask is refused; none if it is admitted.
    fn refusal(&self, component: &Component, ask: &Ask) -> Option<Refusal>
        ensures none { IfNone result (IsAdmitted component.now self.now ask.now) }
        ensures some { IfSome result (IsCause component.now self.now ask.now) }
    {
        match ask {
            Ask::Start(func, words) => self.start_refusal(component, *func, words.count),
            Ask::Finish(call) => self.finish_refusal(*call),
            Ask::Ready(instance) => ready_refusal(component, *instance),
            Ask::Spawn(_) => self.spawn_refusal(),
            Ask::Abort(work) | Ask::Await(work) => self.work_refusal(*work),
            _ => None,
        }
    }
}

impl<D: HostMain + Drop> AskingMain<D> {
    // What main waits for, or else what the host asks for.
    fn next(&mut self) -> Ask
        ensures calls { self.new.calls ≡ self.old.calls }
        ensures spawns { self.new.spawns ≡ self.old.spawns }
    {
        let waits = self.waits;
        self.waits = Wait::Nothing;
        match waits {
            Wait::Nothing => {
                let last = self.last;
                self.host.next(last)
            }
            Wait::Call(call) => Ask::Finish(call),
            Wait::Quiet => Ask::Quiet,
            Wait::Instance(instance) => Ask::Ready(instance),
            Wait::Work(work) => Ask::Await(work),
        }
    }

    // The next ask that is admitted; none where so many were refused, so that others may run first.
    pub(crate) fn admitted(&mut self, component: &Component) -> Option<Ask>
        ensures admitted { IfSome result (IsAdmitted component.now self.new) }
        ensures calls { self.new.calls ≡ self.old.calls }
        ensures spawns { self.new.spawns ≡ self.old.spawns }
    {
        for _ in 0..MOST_REFUSALS {
            let ask = self.next();
            match self.refusal(component, &ask) {
                None => return Some(ask),
                Some(why) => self.last = Answer::Refused(why),
            }
        }
        None
    }
}
