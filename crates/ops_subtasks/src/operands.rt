//! The words that a call passes.
ghost use Rattle.std.specs.Prelude.{◌≡◌, ◌≤◌, length, take};
ghost use Rattle.machine_data.specs.Read.{registers_of};
ghost use Rattle.machine_rules.specs.Scripts.{values_in};
ghost use Rattle.core_primitives.specs.StateView.{thread_of};

use core_primitives::{Primitives, ThreadId};
use machine_data::Operand;
use ops_guests::value_of;

/// Writes the values of a call's operands, at most 16, into the first words.
pub fn read_operands<W: Primitives>(
    w: &W,
    thread: ThreadId,
    operands: &[Operand],
    words: &mut [u64; 16],
)
    requires { length operands.now ≤ 16 }
    ensures { take (length operands.now) words.new ≡ values_in (registers_of (thread_of (W.view w.now) thread) (W.view w.now).core) operands.now }
{
    for place in 0..operands.len() {
        words[place] = value_of(w, thread, operands[place]);
    }
}
