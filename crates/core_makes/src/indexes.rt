ghost use Rattle.core_makes.specs.Makes.{MakesChain, MakesNode};
ghost use Rattle.core_records.specs.Seen.{IsSoundCore};

use core_records::CoreParts;
use machine_data::NoMemory;
use table_links::Node;

/// Makes a new chain among the places of threads, which hangs on nothing yet. If it is out of memory, all is as before.
#[inline(always)]
pub fn make_place_chain(parts: &mut CoreParts) -> Result<usize, NoMemory>
    requires { IsSoundCore parts.old }
    ensures { MakesChain parts.old.places parts.new.places parts.old parts.new (record parts.old { places = parts.new.places }) result }
{
    match parts.places.make_chain() {
        Ok(chain) => Ok(chain),
        Err(why) => Err(why),
    }
}

/// Makes a new node among the places of threads, which hangs on nothing yet. If it is out of memory, all is as before.
#[inline(always)]
pub fn make_place_node(parts: &mut CoreParts) -> Result<Node, NoMemory>
    requires { IsSoundCore parts.old }
    ensures { MakesNode parts.old.places parts.new.places parts.old parts.new (record parts.old { places = parts.new.places }) result }
{
    match parts.places.make_node() {
        Ok(node) => Ok(node),
        Err(why) => Err(why),
    }
}

/// Makes a new chain among the waiting threads of calls, which hangs on nothing yet. If it is out of memory, all is as before.
#[inline(always)]
pub fn make_wait_chain(parts: &mut CoreParts) -> Result<usize, NoMemory>
    requires { IsSoundCore parts.old }
    ensures { MakesChain parts.old.waits parts.new.waits parts.old parts.new (record parts.old { waits = parts.new.waits }) result }
{
    match parts.waits.make_chain() {
        Ok(chain) => Ok(chain),
        Err(why) => Err(why),
    }
}

/// Makes a new node among the waiting threads of calls, which hangs on nothing yet. If it is out of memory, all is as before.
#[inline(always)]
pub fn make_wait_node(parts: &mut CoreParts) -> Result<Node, NoMemory>
    requires { IsSoundCore parts.old }
    ensures { MakesNode parts.old.waits parts.new.waits parts.old parts.new (record parts.old { waits = parts.new.waits }) result }
{
    match parts.waits.make_node() {
        Ok(node) => Ok(node),
        Err(why) => Err(why),
    }
}

/// Makes a new chain among the ready calls of sets, which hangs on nothing yet. If it is out of memory, all is as before.
#[inline(always)]
pub fn make_ready_call_chain(parts: &mut CoreParts) -> Result<usize, NoMemory>
    requires { IsSoundCore parts.old }
    ensures { MakesChain parts.old.ready_calls parts.new.ready_calls parts.old parts.new (record parts.old { ready_calls = parts.new.ready_calls }) result }
{
    match parts.ready_calls.make_chain() {
        Ok(chain) => Ok(chain),
        Err(why) => Err(why),
    }
}

/// Makes a new node among the ready calls of sets, which hangs on nothing yet. If it is out of memory, all is as before.
#[inline(always)]
pub fn make_ready_call_node(parts: &mut CoreParts) -> Result<Node, NoMemory>
    requires { IsSoundCore parts.old }
    ensures { MakesNode parts.old.ready_calls parts.new.ready_calls parts.old parts.new (record parts.old { ready_calls = parts.new.ready_calls }) result }
{
    match parts.ready_calls.make_node() {
        Ok(node) => Ok(node),
        Err(why) => Err(why),
    }
}

/// Makes a new chain among the ready host works of sets, which hangs on nothing yet. If it is out of memory, all is as before.
#[inline(always)]
pub fn make_ready_work_chain(parts: &mut CoreParts) -> Result<usize, NoMemory>
    requires { IsSoundCore parts.old }
    ensures { MakesChain parts.old.ready_works parts.new.ready_works parts.old parts.new (record parts.old { ready_works = parts.new.ready_works }) result }
{
    match parts.ready_works.make_chain() {
        Ok(chain) => Ok(chain),
        Err(why) => Err(why),
    }
}

/// Makes a new node among the ready host works of sets, which hangs on nothing yet. If it is out of memory, all is as before.
#[inline(always)]
pub fn make_ready_work_node(parts: &mut CoreParts) -> Result<Node, NoMemory>
    requires { IsSoundCore parts.old }
    ensures { MakesNode parts.old.ready_works parts.new.ready_works parts.old parts.new (record parts.old { ready_works = parts.new.ready_works }) result }
{
    match parts.ready_works.make_node() {
        Ok(node) => Ok(node),
        Err(why) => Err(why),
    }
}

/// Makes a new chain among the host works that are polled, which hangs on nothing yet. If it is out of memory, all is as before.
#[inline(always)]
pub fn make_live_chain(parts: &mut CoreParts) -> Result<usize, NoMemory>
    requires { IsSoundCore parts.old }
    ensures { MakesChain parts.old.polled parts.new.polled parts.old parts.new (record parts.old { polled = parts.new.polled }) result }
{
    match parts.polled.make_chain() {
        Ok(chain) => Ok(chain),
        Err(why) => Err(why),
    }
}

/// Makes a new node among the host works that are polled, which hangs on nothing yet. If it is out of memory, all is as before.
#[inline(always)]
pub fn make_live_node(parts: &mut CoreParts) -> Result<Node, NoMemory>
    requires { IsSoundCore parts.old }
    ensures { MakesNode parts.old.polled parts.new.polled parts.old parts.new (record parts.old { polled = parts.new.polled }) result }
{
    match parts.polled.make_node() {
        Ok(node) => Ok(node),
        Err(why) => Err(why),
    }
}
