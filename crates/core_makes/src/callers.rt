ghost use Rattle.core_makes.specs.Makes.{MakesChain, MakesNode};
ghost use Rattle.core_records.specs.Seen.{IsSoundCore};

use core_records::CoreParts;
use machine_data::NoMemory;
use table_links::Node;

/// Makes a new chain among the callers of threads, which hangs on nothing yet. If it is out of memory, all is as before.
#[inline(always)]
pub fn make_caller_chain(parts: &mut CoreParts) -> Result<usize, NoMemory>
    requires { IsSoundCore parts.old }
    ensures { MakesChain parts.old.behind parts.new.behind parts.old parts.new (record parts.old { behind = parts.new.behind }) result }
{
    match parts.behind.make_chain() {
        Ok(chain) => Ok(chain),
        Err(why) => Err(why),
    }
}

/// Makes a new node among the callers of threads, which hangs on nothing yet. If it is out of memory, all is as before.
#[inline(always)]
pub fn make_caller_node(parts: &mut CoreParts) -> Result<Node, NoMemory>
    requires { IsSoundCore parts.old }
    ensures { MakesNode parts.old.behind parts.new.behind parts.old parts.new (record parts.old { behind = parts.new.behind }) result }
{
    match parts.behind.make_node() {
        Ok(node) => Ok(node),
        Err(why) => Err(why),
    }
}
