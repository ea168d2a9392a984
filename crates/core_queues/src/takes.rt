//! The taking of what is first.
ghost use Rattle.std.specs.Prelude.{◌≡◌, IfSome, is_none, option_map, true};
ghost use Rattle.machine_data.specs.Read.{next_entry};
ghost use Rattle.core_records.specs.Seen.{IsSoundCore, seen};
ghost use Rattle.machine_rules.specs.Takes.{popped};
ghost use Rattle.core_primitives.specs.Names.{entry_in};
ghost use Rattle.core_primitives.specs.StateView.{on_core};

use crate::order_keys::{entry_id, first_marked};
use crate::removals::leave;
use core_primitives::EntryId;
use core_records::{CoreParts, thread_at};
use machine_data::Mark;

/// Removes the entry that is taken next from its mark, and returns it.
#[inline(always)]
pub fn take_next(parts: &mut CoreParts) -> Option<(Mark, EntryId)>
    requires { IsSoundCore parts.old }
    ensures sound { IsSoundCore parts.new }
    ensures next { option_map (λ e. (e.0, entry_in (seen parts.old).tags e.1)) result ≡ next_entry (seen parts.old).core }
    ensures taken { IfSome result (λ e. seen parts.new ≡ on_core (popped e.0) (seen parts.old)) }
    ensures none { is_none result ≡ true → parts.new ≡ parts.old }
{
    match parts.switch {
        Some(first) => {
            let id = EntryId::Thread(thread_at(parts, first.place));
            parts.switch = None;
            Some((Mark::Switch, id))
        }
        None => match first_marked(&parts.marks, parts.high) {
            Some(queued) => {
                let id = entry_id(parts, queued);
                leave(parts, queued);
                Some((Mark::High, id))
            }
            None => match first_marked(&parts.marks, parts.low) {
                Some(queued) => {
                    let id = entry_id(parts, queued);
                    leave(parts, queued);
                    Some((Mark::Low, id))
                }
                None => None,
            },
        },
    }
}
