//! What is let go with a store.
ghost use Rattle.std.specs.Prelude.{◌≡◌, false, true};
ghost use Rattle.task_store.specs.Drops.{LetsGo};

use crate::store::Store;
use std::alloc::Global;
use store_works::HostWorks;
use task_group::TaskGroupHook;

/// Lets go what a store holds for calls that are under way, for its owner to call before the store goes, as a work that is dropped may
/// still want what else the store has: of a concurrent store all groups are finished, no call is taken any more, and each work of the
/// host is dropped. The threads' records, which are their strands, go with the store. A store that isn't concurrent stays as it is.
pub fn run_manual_drop_routines<T, H: Drop, G: TaskGroupHook>(
    alloc: Global,
    store: &mut Store<T, H, G>,
)
    ensures concurrent { store.old.concurrent ≡ true → LetsGo store.old store.new }
    ensures other { store.old.concurrent ≡ false → store.new ≡ store.old }
{
    if store.concurrent {
        store.set_trapped();
        store.works = HostWorks::new(alloc);
    }
}
