//! A test of the words of a call.
ghost use Rattle.std.specs.Prelude.{◌≡◌, ◌<◌, ◌^◌, IfSome, IsSome, length};
ghost use Rattle.machine_data.specs.declared.records.Turn.{Turn};
ghost use Rattle.machine_rules.specs.Scripts.{export_at};
ghost use Rattle.ops_turns.specs.Turn.{CoreInOrder, given};
ghost use Rattle.ops_turns.specs.WellFormed.{IsWellFormed};
ghost use Rattle.task_loop.specs.CallStarts.{KeepsStore, StartsOrStops};
ghost use Rattle.task_loop.specs.LoopCalls.{callee_of};

use task_group::TaskGroupHook;
use task_loop::{Component, Func, FuncCallConcurrent, TaskError};
use task_store::Store;

/// Starts a call as `Func::start_call_concurrent` does. A run that isn't proved stops here if the component has no such export, or it
/// takes another number of words.
pub fn start_watched<T, H, G: TaskGroupHook>(
    func: Func,
    component: &Component,
    store: &mut Store<T, H, G>,
    params: &[u64],
) -> Result<FuncCallConcurrent, TaskError>
    requires covered { IsWellFormed component.now }
    requires there { IsSome (export_at component.now (callee_of func)) }
    requires params { IfSome (export_at component.now (callee_of func)) (λ e. length params.now ≡ e.params) }
    requires order { (p : Turn) × CoreInOrder component.now p store.old.state.core }
    requires given { given store.old.state.core < 2 ^ 61 }
    ensures does { StartsOrStops G.listens component.now (callee_of func) params.now store.old result store.new }
    ensures keeps { KeepsStore component.now store.old store.new }
{
    let takes = func.param_count(component);
    prove!(
        takes as usize == params.len(),
        "the export takes so many words"
    );
    func.start_call_concurrent(component, store, params)
}
