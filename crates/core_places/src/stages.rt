//! The stages of host works: the live ones are a list, and are counted.
ghost use Rattle.core_places.specs.Moved.{live_key};
ghost use Rattle.std.specs.Prelude.{◌≡◌, IfSome, IsSome, Option, ℕ, option_and_then, option_map, true};
ghost use Rattle.table_lists.specs.Index.{Refiles};
ghost use Rattle.table_links.specs.Links.{is_made, list_of};
ghost use Rattle.machine_data.specs.Read.{is_live};
ghost use Rattle.machine_data.specs.Write.{set_stage};
ghost use Rattle.core_records.specs.RecordPlaces.{Rises, live_chain};
ghost use Rattle.core_records.specs.Seen.{IsSoundCore, parts_of, seen};
ghost use Rattle.core_records.specs.Sound.{bare};
ghost use Rattle.core_primitives.specs.StateView.{on_core, work_of};

use core_counts::{is_moving, recounted};
use core_primitives::WorkId;
use core_records::{CoreParts, LiveWork, Node};
use machine_data::{Stage, Work};
use table_links::Links;
use task_wait::put_in_order;

fn is_live(work: &Work) -> bool
    ensures { result ≡ is_live work.now }
{
    matches!(work.stage, Stage::Live)
}

// The chain that a work of the stage is filed in.
fn stage_chain(parts: &CoreParts, stage: Stage) -> Option<usize>
    ensures { option_and_then (live_chain (bare (parts_of parts.now))) (live_key stage) ≡ result }
{
    match stage {
        Stage::Live => parts.live,
        Stage::FirstPoll | Stage::Queued | Stage::Finishing | Stage::Ended => None,
    }
}

// The node is in this chain alone, where its number belongs, or in none.
fn file_live(links: &mut Links<LiveWork>, node: Node, chain: Option<usize>, work: LiveWork)
    requires made { is_made links.old node.index ≡ true }
    requires live { IfSome chain (λ c. IsSome (list_of links.old c)) }
    ensures links { Refiles links.old links.new node.index (option_map (λ c. (c, work)) chain) }
    ensures rising { (o : Option ℕ) → Rises links.old o → Rises links.new o }
{
    links.no_node_is_twice();
    links.remove(node);
    if let Some(chain) = chain {
        put_in_order(links, chain, node, work);
    }
}

/// Writes the stage of a work. A work that becomes live goes among the live ones by its number: in constant time where
/// it is the greatest, as it is where works become live in the order in which they were made.
#[inline(always)]
pub fn set_stage(parts: &mut CoreParts, work: WorkId, stage: Stage)
    requires { IsSoundCore parts.old }
    ensures sound { IsSoundCore parts.new }
    ensures new { seen parts.new ≡ on_core (set_stage (work_of (seen parts.old) work) stage) (seen parts.old) }
{
    if let Some(found) = core_records::work(parts, work) {
        let old = *found;
        let chain = stage_chain(parts, stage);
        let mut new = old;
        new.work.stage = stage;
        let live = LiveWork {
            number: old.number,
            place: work.rep(),
        };
        file_live(&mut parts.polled, old.live, chain, live);
        parts.kept.live = recounted(parts.kept.live, is_live(&old.work), is_live(&new.work));
        parts.kept.moving = recounted(
            parts.kept.moving,
            is_moving(&old.work),
            is_moving(&new.work),
        );
        let entry = parts.works.get_mut_unchecked(work);
        entry.work.stage = stage;
    }
}
