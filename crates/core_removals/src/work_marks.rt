ghost use Rattle.std.specs.Prelude.{◌≡◌, IsSome, OnOk};
ghost use Rattle.core_records.specs.Seen.{IsSoundCore, seen};

use core_makes::make_live_chain;
use core_records::CoreParts;
use machine_data::NoMemory;

/// Makes the chain of the live works, where there is none. If it is out of memory, all is as before.
pub fn open_live(parts: &mut CoreParts) -> Result<(), NoMemory>
    requires { IsSoundCore parts.old }
    ensures sound { IsSoundCore parts.new }
    ensures seen { seen parts.new ≡ seen parts.old }
    ensures there { OnOk result (IsSome parts.new.live) }
    ensures only { parts.new ≡ record parts.old { polled = parts.new.polled; live = parts.new.live } }
{
    if parts.live.is_some() {
        return Ok(());
    }
    match make_live_chain(parts) {
        Ok(chain) => {
            parts.live = Some(chain);
            Ok(())
        }
        Err(why) => Err(why),
    }
}
