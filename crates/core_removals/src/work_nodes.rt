ghost use Rattle.std.specs.Prelude.{◌≡◌, IfOk, IsSome, OnOk};
ghost use Rattle.core_records.specs.Seen.{IsSoundCore, parts_of, seen};
ghost use Rattle.core_records.specs.Sound.{bare};
ghost use Rattle.core_removals.specs.LooseWorks.{AreWorkLoose};

use crate::work_marks::open_live;
use core_makes::{
    make_live_node, make_mark_node, make_place_chain, make_ready_work_node, open_high,
};
use core_records::CoreParts;
use machine_data::NoMemory;
use table_links::Node;

/// The nodes and the chain of a host work, made before it: its node among the ready members of a set,
/// that among the live works, that among the entries of a mark, and the chain of the threads that are
/// blocked on it.
#[derive(Clone, Copy)]
pub struct WorkNodes {
    pub ready: Node,
    pub live: Node,
    pub mark: Node,
    pub blocked: usize,
}

/// Makes the nodes and the chain that a host work is to have, with the chains of high and of the live works. If it is out of
/// memory, all is as before.
pub(crate) fn new_work_nodes(parts: &mut CoreParts) -> Result<WorkNodes, NoMemory>
    requires { IsSoundCore parts.old }
    ensures sound { IsSoundCore parts.new }
    ensures seen { seen parts.new ≡ seen parts.old }
    ensures loose { IfOk result (λ nodes. AreWorkLoose (bare (parts_of parts.new)) nodes) }
    ensures high { OnOk result (IsSome parts.new.high) }
    ensures live { OnOk result (IsSome parts.new.live) }
{
    open_high(parts)?;
    open_live(parts)?;
    let blocked = make_place_chain(parts)?;
    let ready = make_ready_work_node(parts)?;
    let live = make_live_node(parts)?;
    let mark = make_mark_node(parts)?;
    Ok(WorkNodes {
        ready,
        live,
        mark,
        blocked,
    })
}
