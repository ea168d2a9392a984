//! Aborters beside one another.
ghost use Rattle.std.specs.Thread.{IsSync};
ghost use Rattle.beside_works.specs.Aborters.{HaveRun};

use crate::gate::Gate;
use crate::line::{Aborter, line_at};
use machine_data::Seq;
use std::thread::{Threads, join_mut};

/// Runs the aborters of these lines beside one another, by halves of halves, until each half is one aborter: each is in a thread of
/// its own, where threads can be made, and else they run one after another.
pub fn run_aborters<R: Threads + Sync, G: Gate + Sync>(
    rt: &R,
    gate: &G,
    lines: &[Seq<u32>],
    aborters: &mut [Aborter],
)
    ensures { HaveRun lines.now aborters.old aborters.new }
{
    if aborters.len() < 2 {
        if let Some(aborter) = aborters.first_mut() {
            let line = line_at(lines, aborter.number);
            aborter.run(gate, line);
        }
        return;
    }
    let (front, back) = aborters.split_at_mut(aborters.len() / 2);
    join_mut(
        rt,
        &mut ||
            requires { IsSync R.row }
            ensures { HaveRun lines.entry.now front.entry.now front.exit.now }
        { run_aborters(rt, gate, lines, front) },
        &mut ||
            requires { IsSync R.row }
            ensures { HaveRun lines.entry.now back.entry.now back.exit.now }
        { run_aborters(rt, gate, lines, back) },
    );
}
