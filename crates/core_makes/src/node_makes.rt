ghost use Rattle.std.specs.Prelude.{◌≡◌, IfOk, OnOk};
ghost use Rattle.core_makes.specs.Extends.{Extends};
ghost use Rattle.core_makes.specs.LooseCalls.{AreCallLoose, AreNextLoose, AreThreadLoose, IsWaitChainLoose, IsWaitLoose};
ghost use Rattle.core_records.specs.Names.{keeps_waits};
ghost use Rattle.table_links.specs.Links.{Unmade, spot_at};
ghost use Rattle.core_records.specs.Seen.{IsSoundCore, parts_of, seen};
ghost use Rattle.core_records.specs.Sound.{bare};

use crate::{
    make_caller_chain, make_caller_node, make_instance_queue_node, make_mark_node,
    make_place_chain, make_place_node, make_ready_call_node, make_wait_chain, make_wait_node,
};
use core_records::CoreParts;
use machine_data::{ExportKind, NoMemory, Version};
use table_links::Node;

/// The nodes and chains of a thread, made before it: its node where it waits, that among the waiting threads of its call if a
/// cancel may take any of these, its nodes among the entries of a mark and of its instance there, that among callers, and the
/// chains of its callers and of the threads under it.
#[derive(Clone, Copy)]
pub struct ThreadNodes {
    pub node: Node,
    pub wait: Option<Node>,
    pub mark: Node,
    pub instance_queue: Node,
    pub caller: Node,
    pub callers: usize,
    pub under: usize,
}

/// The node and the chains of a call, made before it: its node among the ready members of a set, the chain of the threads that
/// are blocked on it, and that of its own threads that wait, if a cancel may take any of these.
#[derive(Clone, Copy)]
pub struct CallNodes {
    pub ready: Node,
    pub blocked: usize,
    pub waits: Option<usize>,
}

// The node of a thread among the waiting ones of its call, if it is to have one. If it is out of memory, all is as before.
#[inline(always)]
fn new_wait_node(parts: &mut CoreParts, waits: bool) -> Result<Option<Node>, NoMemory>
    requires { IsSoundCore parts.old }
    ensures sound { IsSoundCore parts.new }
    ensures seen { seen parts.new ≡ seen parts.old }
    ensures loose { IfOk result (λ node. IsWaitLoose (bare (parts_of parts.new)) waits node) }
    ensures extends { OnOk result (Extends parts.old parts.new) }
{
    if waits {
        let node = make_wait_node(parts)?;
        Ok(Some(node))
    } else {
        Ok(None)
    }
}

// The chain of the waiting threads of a call, if it is to have one. If it is out of memory, all is as before.
#[inline(always)]
fn new_wait_chain(parts: &mut CoreParts, waits: bool) -> Result<Option<usize>, NoMemory>
    requires { IsSoundCore parts.old }
    ensures sound { IsSoundCore parts.new }
    ensures seen { seen parts.new ≡ seen parts.old }
    ensures loose { IfOk result (λ chain. IsWaitChainLoose (bare (parts_of parts.new)) waits chain) }
    ensures extends { OnOk result (Extends parts.old parts.new) }
{
    if waits {
        let chain = make_wait_chain(parts)?;
        Ok(Some(chain))
    } else {
        Ok(None)
    }
}

// Whether the waiting threads of a call of such an export are kept, as a cancel may take any of these.
#[inline(always)]
pub fn keeps_waits(version: Version, kind: ExportKind) -> bool
    ensures { result ≡ keeps_waits version kind }
{
    match version {
        Version::One => false,
        Version::Two => match kind {
            ExportKind::Sync => false,
            ExportKind::Blocking => false,
            ExportKind::Stackful => true,
            ExportKind::Callback => true,
        },
    }
}

// The nodes and chains that a thread is to have. If it is out of memory, all is as before.
#[inline(always)]
pub fn new_thread_nodes(parts: &mut CoreParts, waits: bool) -> Result<ThreadNodes, NoMemory>
    requires { IsSoundCore parts.old }
    ensures sound { IsSoundCore parts.new }
    ensures seen { seen parts.new ≡ seen parts.old }
    ensures loose { IfOk result (λ nodes. AreThreadLoose (bare (parts_of parts.new)) waits nodes) }
    ensures under { IfOk result (λ nodes. spot_at parts.old.places nodes.under ≡ Unmade) }
    ensures extends { OnOk result (Extends parts.old parts.new) }
{
    let under = make_place_chain(parts)?;
    let node = make_place_node(parts)?;
    let wait = new_wait_node(parts, waits)?;
    let mark = make_mark_node(parts)?;
    let instance_queue = make_instance_queue_node(parts)?;
    let caller = make_caller_node(parts)?;
    let callers = make_caller_chain(parts)?;
    Ok(ThreadNodes {
        node,
        wait,
        mark,
        instance_queue,
        caller,
        callers,
        under,
    })
}

// The node and the chain that a call is to have. If it is out of memory, all is as before.
#[inline(always)]
pub fn new_call_nodes(parts: &mut CoreParts, waits: bool) -> Result<CallNodes, NoMemory>
    requires { IsSoundCore parts.old }
    ensures sound { IsSoundCore parts.new }
    ensures seen { seen parts.new ≡ seen parts.old }
    ensures loose { IfOk result (λ nodes. AreCallLoose (bare (parts_of parts.new)) waits nodes) }
    ensures extends { OnOk result (Extends parts.old parts.new) }
{
    let ready = make_ready_call_node(parts)?;
    let blocked = make_place_chain(parts)?;
    let waits = new_wait_chain(parts, waits)?;
    Ok(CallNodes {
        ready,
        blocked,
        waits,
    })
}

// Those of a call and of its first thread. If it is out of memory, all is as before.
#[inline(always)]
pub fn new_call_thread_nodes(
    parts: &mut CoreParts,
    kind: ExportKind,
) -> Result<(CallNodes, ThreadNodes), NoMemory>
    requires { IsSoundCore parts.old }
    ensures sound { IsSoundCore parts.new }
    ensures seen { seen parts.new ≡ seen parts.old }
    ensures loose { IfOk result (λ nodes. AreNextLoose parts.new kind nodes) }
    ensures extends { OnOk result (Extends parts.old parts.new) }
{
    let waits = keeps_waits(parts.version, kind);
    let call = new_call_nodes(parts, waits)?;
    let thread = new_thread_nodes(parts, waits)?;
    Ok((call, thread))
}
