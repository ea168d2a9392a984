ghost use Rattle.std.specs.Prelude.{◌≡◌, ◌-◌, ◌<◌, ◌≤◌, ◌^◌, ◌↔◌, cond, false, min, true, IfErr, IfOk, IfSome, IsSome, OnErr, OnOk, Some};
ghost use Rattle.std.specs.Borrow.{sem};
ghost use Rattle.store_notices.specs.Moves.{AnswersAsHook, finishes};
ghost use Rattle.core_makes.specs.Instances.{with_instance};
ghost use Rattle.core_counts.specs.Limits.{with_capacity, with_handle_limit};
ghost use Rattle.core_picks.specs.Rules.{with_version};
ghost use Rattle.machine_data.specs.Maps.{size};
ghost use Rattle.machine_data.specs.Read.{table_use};
ghost use Rattle.machine_data.specs.Write.{set_trapped};
ghost use Rattle.task_store.specs.Lending.{LendsValue};
ghost use Rattle.task_store.specs.NewStores.{IsNewStore};
ghost use Rattle.machine_data.specs.declared.component.Component.{Component};
ghost use Rattle.machine_data.specs.declared.records.Turn.{Turn};
ghost use Rattle.ops_turns.specs.Turn.{CoreInOrder, given};
ghost use Rattle.task_group.specs.Listeners.{ToldListeners};
ghost use Rattle.core_primitives.specs.Groups.{asked, ended_groups};
ghost use Rattle.core_primitives.specs.StateView.{on_core};

use crate::scopes::ComponentTasksNotConcurrent;
use core_primitives::ResultPrimitives;
use core_state::TaskCore;
use machine_data::{NoMemory, Trap, Version};
use std::alloc::Global;
use store_notices::tell_finishes;
use store_works::HostWorks;
use task_group::{HookError, Listeners, NoHook, NoticeList, Notices, TaskGroupHook};

/// Names an instance by its number, from 0.
#[derive(Clone, Copy, PartialEq, Eq)]
pub struct ComponentInstanceId(pub u32);

/// Returns the table of a concurrent store, as it is told: how many entries are in it, and for how many it has room.
#[derive(Clone, Copy)]
pub struct ConcurrentTable {
    pub len: u64,
    pub max_capacity: usize,
}

/// Tells that the groups finish which have ended since the core was last asked for them, in order of number. An error is the
/// hook's: all are told of, and forgotten, all the same.
pub fn finish_ended<G: TaskGroupHook>(
    core: &mut TaskCore,
    listeners: &mut Listeners<G>,
) -> Result<(), HookError>
    ensures asked { core.new ≡ asked core.old }
    ensures told { ToldListeners (finishes (ended_groups core.old)) listeners.old listeners.new }
    ensures hook { AnswersAsHook result listeners.old listeners.new }
{
    let told = tell_finishes(listeners, core.ended());
    core.forget_ended();
    told
}

/// A run that is active on a store. Only `Store::begin_run` makes one.
#[derive(Drop)]
pub struct ActiveRun {
    begun: (),
}

/// A store of a host's value `T` and host works of the type `H`. `G` is the type of the hook that is told of groups.
pub struct Store<T, H, G: TaskGroupHook = NoHook> {
    pub(crate) value: T,
    id: u64,
    pub(crate) concurrent: bool,
    pub(crate) fuel: usize,
    /// The scopes of borrows, of a store that isn't concurrent.
    pub scopes: ComponentTasksNotConcurrent,
    /// The calls and threads of the store.
    pub state: TaskCore,
    /// Who is told of the groups of the core: the hook, if there is one, and the notices that are kept.
    pub listeners: Listeners<G>,
    // The host works that haven't ended.
    pub(crate) works: HostWorks<H>,
    // Whether a run is active on the store.
    running: bool,
}

// By hand, so that letting a store go is one call, proved once.
impl<T: Drop, H: Drop, G: TaskGroupHook> Drop for Store<T, H, G> {
    fn drop(self) {
        let Store {
            value: _,
            id: _,
            concurrent: _,
            fuel: _,
            scopes: _,
            state: _,
            listeners: _,
            works: _,
            running: _,
        } = self;
    }
}

impl<T, H, G: TaskGroupHook> Store<T, H, G> {
    /// Makes a store in which nothing was made. `concurrent` says whether its calls may run beside one another, and `id` is the
    /// number by which the host knows it.
    pub fn new(alloc: Global, value: T, concurrent: bool, id: u64) -> Self
        ensures { IsNewStore value concurrent id result }
    {
        Store {
            value,
            id,
            concurrent,
            fuel: 134217728,
            scopes: ComponentTasksNotConcurrent::new(alloc),
            state: TaskCore::new(alloc),
            listeners: Listeners::new(alloc),
            works: HostWorks::new(alloc),
            running: false,
        }
    }

    /// Returns the host's value.
    pub fn data(&self) -> &T
        ensures { result.now ≡ self.now.value }
    {
        &self.value
    }

    /// Returns the host's value, for writing.
    pub fn data_mut(&mut self) -> &mut T
        ensures* writes_back { sem 𝓛 (LendsValue T.row H.row G.row G.TaskGroupHook self.entry result) }
        ensures value { result.now ≡ self.old.value }
    {
        &mut self.value
    }

    /// Makes an instance and answers its number, from 0. A core in order stays so. If it is out of memory, the store is as before.
    pub fn add_instance(&mut self) -> Result<ComponentInstanceId, NoMemory>
        requires { size self.old.state.core.instances < 4294967295 }
        ensures number { IfOk result (λ i. i.0 ≡ size self.old.state.core.instances) }
        ensures ok { OnOk result (self.new ≡ record self.old { state = on_core with_instance self.old.state }) }
        ensures err { OnErr result (self.new ≡ self.old) }
        ensures order { (c : Component) (p : Turn) → CoreInOrder c p self.old.state.core → CoreInOrder c p self.new.state.core }
    {
        match self.state.add_instance() {
            Ok(number) => Ok(ComponentInstanceId(number)),
            Err(_) => Err(NoMemory),
        }
    }

    /// Returns how many threads, host works, sets and groups were made in the store, up to 2^64 - 1; 0 if it isn't concurrent.
    pub fn given(&self) -> u64
        ensures { result ≡ cond self.now.concurrent (min (given self.now.state.core) (2 ^ 64 - 1)) 0 }
    {
        if !self.concurrent {
            return 0;
        }
        let made = self.state.made();
        made.threads
            .saturating_add(made.works)
            .saturating_add(made.sets)
            .saturating_add(made.groups)
    }

    /// Sets how many entries the table of a concurrent store has room for, at most 4,294,967,295,
    /// where nothing was made in it: a new store has room for 1,000,000.
    pub fn set_table_capacity(&mut self, n: usize)
        requires concurrent { self.old.concurrent ≡ true }
        requires given { given self.old.state.core ≡ 0 }
        requires bound { n ≤ 4294967295 }
        ensures { self.new ≡ record self.old { state = on_core (with_capacity n) self.old.state } }
    {
        self.state.set_capacity(n);
    }

    /// Returns how many handles may be live at once in the store: the last value set, and 100,000 in a new store.
    pub fn max_component_handles(&self) -> usize
        ensures is { result ≡ self.now.state.core.handle_limit }
        ensures bound { result ≤ 268435455 }
    {
        self.state.handle_limit() as usize
    }

    /// Makes these the rules by which calls of the store are run: a new store has those of version 1. No call may be in its table.
    pub fn set_rules(&mut self, rules: Version)
        requires { size self.old.state.core.calls ≡ 0 }
        ensures { self.new ≡ record self.old { state = on_core (with_version rules) self.old.state } }
    {
        self.state.set_rules(rules);
    }

    /// Sets how many handles may be live at once in the store, at most 268,435,455. A lowered limit
    /// takes none away.
    pub fn set_max_component_handles(&mut self, limit: usize)
        requires { limit ≤ 268435455 }
        ensures { self.new ≡ record self.old { state = on_core (with_handle_limit limit) self.old.state } }
    {
        self.state.set_handle_limit(limit as u32);
    }

    /// Returns the table of a concurrent store, of its calls, threads, sets, host calls and groups. None exactly where the store
    /// isn't concurrent.
    pub fn concurrent_resource_table(&self) -> Option<ConcurrentTable>
        ensures some { IsSome result ↔ (self.now.concurrent ≡ true) }
        ensures len { IfSome result (λ table. table.len ≡ table_use self.now.state.core) }
        ensures capacity { IfSome result (λ table. table.max_capacity ≡ self.now.state.core.capacity) }
    {
        if !self.concurrent {
            return None;
        }
        Some(ConcurrentTable {
            len: self.state.used(),
            max_capacity: self.state.capacity(),
        })
    }

    /// Returns whether the store is trapped: then it takes no further call.
    pub fn trapped(&self) -> bool
        ensures { result ≡ self.now.state.core.trapped }
    {
        self.state.trapped()
    }

    /// Traps the store, so that no guest runs in it again: a trap may have left a guest's data half changed. All groups are finished,
    /// which is told in order of number, as it is of those that have ended and weren't
    /// told of. Errors of the hook are passed over. No group is tracked then.
    pub fn set_trapped(&mut self)
        ensures rest { self.new ≡ record self.old { state = asked (on_core set_trapped self.old.state); listeners = self.new.listeners } }
        ensures told { ToldListeners (finishes self.old.state.tags.tracked) self.old.listeners self.new.listeners }
    {
        self.state.set_trapped();
        let _ = finish_ended(&mut self.state, &mut self.listeners);
    }

    /// Hands in the hook, in place of the one before. It is told of all groups from now on.
    pub fn task_group_hook(&mut self, hook: G)
        requires { G.listens ≡ true }
        ensures { self.new ≡ record self.old { listeners = record self.old.listeners { hook = Some (G.heard hook) } } }
    {
        self.listeners.set_hook(hook);
    }

    /// Keeps each notice of a group from now on, until `room` of them are. If it is out of memory, the store is as before.
    pub fn keep_notices(&mut self, room: usize) -> Result<(), NoMemory>
        requires concurrent { self.old.concurrent ≡ true }
        ensures ok { OnOk result (self.new ≡ record self.old { listeners = record self.old.listeners { room = room } }) }
        ensures err { OnErr result (self.new ≡ self.old) }
    {
        self.listeners.keep_notices(room)
    }

    /// Returns the notices that were kept, in the order in which they were told.
    pub fn notices(&self) -> Notices<'_>
        requires { self.now.concurrent ≡ true }
        ensures { result ≡ self.now.listeners.notices }
    {
        self.listeners.notices()
    }

    /// Returns the notices that were kept, in a list of their own that shares their memory: they stay kept, and none is copied.
    /// `NoMemory` where there is none for the list.
    pub fn share_notices(&mut self, alloc: Global) -> Result<NoticeList, NoMemory>
        requires { self.old.concurrent ≡ true }
        ensures list { IfOk result (λ list. list ≡ self.old.listeners.notices) }
        ensures same { self.new ≡ self.old }
    {
        self.listeners.share_notices(alloc)
    }

    /// Returns whether a run is active on the store.
    pub fn running(&self) -> bool
        ensures { result ≡ self.now.running }
    {
        self.running
    }

    /// Begins a run on the store. Refused with trap 21 exactly if one is active, and then nothing is changed.
    pub fn begin_run(&mut self) -> Result<ActiveRun, Trap>
        ensures refused { IfErr result (λ trap. (trap ≡ Trap.RecursiveRun) × (self.old.running ≡ true)) }
        ensures begun { OnOk result (self.old.running ≡ false) }
        ensures store { self.new ≡ record self.old { running = true } }
    {
        if self.running {
            return Err(Trap::RecursiveRun);
        }
        self.running = true;
        Ok(ActiveRun { begun: () })
    }

    /// Ends the run on the store.
    pub fn end_run(&mut self, run: ActiveRun)
        ensures { self.new ≡ record self.old { running = false } }
    {
        let ActiveRun { begun: () } = run;
        self.running = false;
    }
}
