//! The live work that is polled next. The live works are in order of number, so it is the one after the work that was polled last.
ghost use Rattle.std.specs.List.{find};
ghost use Rattle.std.specs.Prelude.{◌≡◌, IsSome, is_some, nat_lt, option_map, true};
ghost use Rattle.table_links.specs.Links.{AreLinked, IsLinks, entries, list_of};
ghost use Rattle.machine_data.specs.Read.{is_stage_live, stage_of};
ghost use Rattle.machine_data.specs.declared.component.HostDef.{HostDef as Left};
ghost use Rattle.machine_data.specs.declared.records.Course.TheVariants as courses;
ghost use Rattle.core_records.specs.RecordPlaces.{Rises};
ghost use Rattle.core_records.specs.Seen.{IsSoundCore, seen};
ghost use Rattle.machine_rules.specs.Works.{next_polled, poll_of, polled_course};
ghost use Rattle.core_primitives.specs.Polls.{PendsWith};
ghost use Rattle.core_primitives.specs.StateView.{work_of};
ghost use Rattle.core_removals.specs.Walks.{HasNext, IsLiveNode, Walk, live_numbers};
ghost use Rattle.core_primitives.specs.Changes.{CountsPoll};

use core_primitives::WorkId;
use core_records::{CoreParts, LiveWork, Node, work_at};
use machine_data::{Course, HostDef};

// Where the search begins: at the node of the work that was polled last, if it is in the chain and not above, else at
// the first, as where none was polled.
fn search_start(parts: &CoreParts, chain: usize, polled: u64) -> Option<(Node, LiveWork)>
    requires live { IsSome (list_of parts.now.polled chain) }
    requires rising { Rises parts.now.polled (Some chain) }
    ensures walk { Walk (HasNext polled (entries parts.now.polled chain)) (entries parts.now.polled chain) (option_map (λ e. (e.0.index, e.1)) result) }
    ensures links { IsLinks parts.now.polled }
    ensures linked { AreLinked parts.now.polled chain (entries parts.now.polled chain) }
{
    parts.polled.no_node_is_twice();
    parts.polled.nodes_have_values(chain);
    if polled > 0 {
        if let Some(node) = parts.polled_last {
            if parts.polled.is_made(node) {
                if let Some((found, work)) = parts.polled.get(node) {
                    if found == chain && work.number <= polled {
                        return Some((node, work));
                    }
                }
            }
        }
    }
    parts.polled.first(chain)
}

// The first work of the chain whose number is above this one, where none before `start` is.
fn first_from(
    parts: &CoreParts,
    chain: usize,
    polled: u64,
    start: Option<(Node, LiveWork)>,
) -> Option<WorkId>
    requires sound { IsSoundCore parts.now }
    requires is { parts.now.live ≡ Some chain }
    requires walk { Walk (HasNext polled (entries parts.now.polled chain)) (entries parts.now.polled chain) (option_map (λ e. (e.0.index, e.1)) start) }
    requires links { IsLinks parts.now.polled }
    requires linked { AreLinked parts.now.polled chain (entries parts.now.polled chain) }
    ensures { option_map (λ id. work_of (seen parts.now) id) result ≡ find (nat_lt polled) (live_numbers (entries parts.now.polled chain)) }
{
    let mut next = start;
    while let Some((node, work)) = next {
        if polled < work.number {
            return Some(work_at(parts, work.place));
        }
        next = parts.polled.next(node);
    }
    None
}

// The first work of the chain whose number is above this one.
fn first_above(parts: &CoreParts, chain: usize, polled: u64) -> Option<WorkId>
    requires sound { IsSoundCore parts.now }
    requires is { parts.now.live ≡ Some chain }
    ensures { option_map (λ id. work_of (seen parts.now) id) result ≡ next_polled polled (seen parts.now).core }
{
    let start = search_start(parts, chain, polled);
    first_from(parts, chain, polled, start)
}

/// Returns the live work that is polled next, where those with numbers up to this one were. Where this one is the number of the
/// work that was polled last, or 0, that takes constant time.
pub fn next_polled(parts: &CoreParts, polled: u64) -> Option<WorkId>
    requires { IsSoundCore parts.now }
    ensures { option_map (λ id. work_of (seen parts.now) id) result ≡ next_polled polled (seen parts.now).core }
{
    match parts.live {
        Some(chain) => first_above(parts, chain, polled),
        None => None,
    }
}

// Whether a live work is after this node, whose work has this number.
#[inline(always)]
fn has_more(parts: &CoreParts, node: Node, number: u64) -> bool
    requires sound { IsSoundCore parts.now }
    requires stands { IsLiveNode node.index number parts.now }
    ensures { result ≡ is_some (next_polled number (seen parts.now).core) }
{
    let Some(chain) = parts.live else {
        unreachable!()
    };
    parts.polled.no_node_is_twice();
    parts.polled.nodes_have_values(chain);
    let after = parts.polled.next(node);
    first_from(parts, chain, number, after).is_some()
}

// One poll fewer is left, where so many are. An open work stays open.
#[inline(always)]
fn count_down(course: &mut Course)
    ensures { (left : Left) → PendsWith left (polled_course course.old) → course.new ≡ courses.Continues left }
{
    if let Course::Continues {
        host: HostDef::Settled {
            polls: Some(polls),
            ..
        },
    } = course
    {
        *polls = polls.saturating_sub(1);
    }
}

/// Counts a poll at which a live work was pending: one poll fewer is left of it, or it is never to end, as before. Answers whether
/// a live work comes after it.
pub fn count_poll(parts: &mut CoreParts, work: WorkId) -> bool
    requires sound { IsSoundCore parts.old }
    requires live { is_stage_live (stage_of (work_of (seen parts.old) work) (seen parts.old).core) ≡ true }
    requires pends { (left : Left) × PendsWith left (poll_of (work_of (seen parts.old) work) (seen parts.old).core) }
    ensures sound { IsSoundCore parts.new }
    ensures new { CountsPoll work (seen parts.old) (seen parts.new) }
    ensures more { result ≡ is_some (next_polled (work_of (seen parts.old) work) (seen parts.new).core) }
{
    let entry = parts.works.get_mut_unchecked(work);
    count_down(&mut entry.work.course);
    let number = entry.number;
    let node = entry.live;
    parts.polled_last = Some(node);
    has_more(parts, node, number)
}
