ghost use Rattle.std.specs.Prelude.{◌≡◌, IsSome, None, OnOk, false, true, ℕ};
ghost use Rattle.machine_data.specs.Maps.{get};
ghost use Rattle.machine_data.specs.Read.{goal_of};
ghost use Rattle.machine_data.specs.Write.{give_result, take_result};
ghost use Rattle.machine_data.specs.declared.records.Goal.TheVariants as goals;
ghost use Rattle.core_records.specs.Image.{HasRoom};
ghost use Rattle.core_records.specs.Seen.{IsSoundCore, seen};
ghost use Rattle.core_primitives.specs.StateView.{call_of, on_core};

use core_primitives::CallId;
use core_records::{CoreParts, ResultRoom};
use machine_data::NoMemory;

/// Returns what the call with this number has returned to main, which has not taken it.
#[inline(always)]
pub fn result(parts: &CoreParts, call: u64) -> Option<u64>
    ensures { result ≡ get (seen parts.now).core.results call }
{
    parts.results.result(call)
}

/// Returns whether something was returned to main that it has not taken.
#[inline(always)]
pub fn has_results(parts: &CoreParts) -> bool
    ensures none { result ≡ false → (call : ℕ) → get (seen parts.now).core.results call ≡ None }
    ensures some { result ≡ true → (call : ℕ) × IsSome (get (seen parts.now).core.results call) }
{
    parts.results.has_given()
}

/// Gives main the result of a call that it made. The room was taken when the call was made.
pub fn give_result(parts: &mut CoreParts, call: CallId, value: u64)
    requires sound { IsSoundCore parts.old }
    requires main { goal_of (call_of (seen parts.old) call) (seen parts.old).core ≡ goals.Main }
    ensures sound { IsSoundCore parts.new }
    ensures new { seen parts.new ≡ on_core (give_result (call_of (seen parts.old) call) value) (seen parts.old) }
{
    match core_records::call(parts, call) {
        Some(found) => {
            let number = found.number;
            match parts.results.room(number) {
                Some(room) => {
                    let room = ResultRoom {
                        given: Some(value),
                        lives: room.lives,
                    };
                    parts.results.write(number, room);
                }
                None => unreachable!(),
            }
        }
        None => unreachable!(),
    }
}

/// Makes room for the result of a call by main that is to be made. If it is out of memory, all is as before; a room that is never
/// used isn't seen.
pub fn make_room(parts: &mut CoreParts, call: u64) -> Result<(), NoMemory>
    requires { IsSoundCore parts.old }
    ensures sound { IsSoundCore parts.new }
    ensures seen { seen parts.new ≡ seen parts.old }
    ensures room { OnOk result (HasRoom call parts.new.results) }
    ensures only { parts.new ≡ record parts.old { results = parts.new.results } }
{
    match parts.results.make(call) {
        Ok(()) => Ok(()),
        Err(why) => Err(why),
    }
}

/// Takes the result of a call for main. The result's room stays as long as the call.
pub fn take_result(parts: &mut CoreParts, call: u64)
    requires { IsSoundCore parts.old }
    ensures sound { IsSoundCore parts.new }
    ensures new { seen parts.new ≡ on_core (take_result call) (seen parts.old) }
{
    if let Some(room) = parts.results.room(call) {
        let room = ResultRoom {
            given: None,
            lives: room.lives,
        };
        parts.results.write(call, room);
    }
}

/// Frees the room of a call that is gone: its room stays as long as main has not taken the result that is in it.
pub fn close_room(parts: &mut CoreParts, call: u64)
    requires sound { IsSoundCore parts.old }
    requires gone { get (seen parts.old).core.calls call ≡ None }
    ensures sound { IsSoundCore parts.new }
    ensures seen { seen parts.new ≡ seen parts.old }
    ensures only { parts.new ≡ record parts.old { results = parts.new.results } }
{
    if let Some(room) = parts.results.room(call) {
        let room = ResultRoom {
            given: room.given,
            lives: false,
        };
        parts.results.write(call, room);
    }
}
