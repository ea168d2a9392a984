ghost use Rattle.std.specs.Prelude.{◌≡◌, IsSome, OnOk};
ghost use Rattle.core_records.specs.Seen.{IsSoundCore, seen};

use crate::make_mark_chain;
use core_records::CoreParts;
use machine_data::NoMemory;

/// Makes the chain of high, where there is none. If it is out of memory, all is as before.
pub fn open_high(parts: &mut CoreParts) -> Result<(), NoMemory>
    requires { IsSoundCore parts.old }
    ensures sound { IsSoundCore parts.new }
    ensures seen { seen parts.new ≡ seen parts.old }
    ensures there { OnOk result (IsSome parts.new.high) }
    ensures only { parts.new ≡ record parts.old { marks = parts.new.marks; high = parts.new.high } }
{
    if parts.high.is_some() {
        return Ok(());
    }
    match make_mark_chain(parts) {
        Ok(chain) => {
            parts.high = Some(chain);
            Ok(())
        }
        Err(why) => Err(why),
    }
}

/// Makes the chain of low, where there is none. If it is out of memory, all is as before.
pub fn open_low(parts: &mut CoreParts) -> Result<(), NoMemory>
    requires { IsSoundCore parts.old }
    ensures sound { IsSoundCore parts.new }
    ensures seen { seen parts.new ≡ seen parts.old }
    ensures there { OnOk result (IsSome parts.new.low) }
    ensures only { parts.new ≡ record parts.old { marks = parts.new.marks; low = parts.new.low } }
{
    if parts.low.is_some() {
        return Ok(());
    }
    match make_mark_chain(parts) {
        Ok(chain) => {
            parts.low = Some(chain);
            Ok(())
        }
        Err(why) => Err(why),
    }
}
