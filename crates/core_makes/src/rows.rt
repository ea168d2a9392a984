ghost use Rattle.core_makes.specs.Makes.{MakesChain, MakesNode, with_instance_queues_of};
ghost use Rattle.core_records.specs.Seen.{IsSoundCore};

use core_records::CoreParts;
use machine_data::NoMemory;
use table_links::Node;

/// Makes a new chain among the entries of marks, which hangs on nothing yet. If it is out of memory, all is as before.
#[inline(always)]
pub fn make_mark_chain(parts: &mut CoreParts) -> Result<usize, NoMemory>
    requires { IsSoundCore parts.old }
    ensures { MakesChain parts.old.marks parts.new.marks parts.old parts.new (record parts.old { marks = parts.new.marks }) result }
{
    match parts.marks.make_chain() {
        Ok(chain) => Ok(chain),
        Err(why) => Err(why),
    }
}

/// Makes a new node among the entries of marks, which hangs on nothing yet. If it is out of memory, all is as before.
#[inline(always)]
pub fn make_mark_node(parts: &mut CoreParts) -> Result<Node, NoMemory>
    requires { IsSoundCore parts.old }
    ensures { MakesNode parts.old.marks parts.new.marks parts.old parts.new (record parts.old { marks = parts.new.marks }) result }
{
    match parts.marks.make_node() {
        Ok(node) => Ok(node),
        Err(why) => Err(why),
    }
}

/// Makes a new chain among the entries of instances at a mark, which hangs on nothing yet. If it is out of memory, all is as
/// before.
#[inline(always)]
pub fn make_instance_queue_chain(parts: &mut CoreParts) -> Result<usize, NoMemory>
    requires { IsSoundCore parts.old }
    ensures { MakesChain parts.old.instance_queues parts.new.instance_queues parts.old parts.new (with_instance_queues_of parts.new parts.old) result }
{
    match parts.instance_queues.make_chain() {
        Ok(chain) => Ok(chain),
        Err(why) => Err(why),
    }
}

/// Makes a new node among the entries of instances at a mark, which hangs on nothing yet. If it is out of memory, all is as
/// before.
#[inline(always)]
pub fn make_instance_queue_node(parts: &mut CoreParts) -> Result<Node, NoMemory>
    requires { IsSoundCore parts.old }
    ensures { MakesNode parts.old.instance_queues parts.new.instance_queues parts.old parts.new (with_instance_queues_of parts.new parts.old) result }
{
    match parts.instance_queues.make_node() {
        Ok(node) => Ok(node),
        Err(why) => Err(why),
    }
}
