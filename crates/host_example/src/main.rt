//! A host without a line of proof: a guest asks it for numbers, which it reads from standard input, and the run is printed.
#![tactic(auto)]

use std::alloc::Global;
use std::io::{self, BufRead, Lines, Write};
use vatbramble_host::{CallOnce, HostFunctions, HostPoll, Hosted};

// A guest that adds three numbers of the host.
const GUEST: &[u8] = b"scenario 1
handles 100
table 100
idle trap
host number never
instance adder
export sum stackful 0
call_sync r1 number
add r0 r1
call_sync r1 number
add r0 r1
call_sync r1 number
add r0 r1
ret r0
exit
";

// The host's value: the lines of its input.
#[derive(Drop)]
struct Numbers<R: BufRead + Drop> {
    lines: Lines<R, Global>,
}

impl<R: BufRead + Drop> HostFunctions for Numbers<R> {
    // Answers the next number, and fails if there is none.
    fn call(&mut self, _place: u32) -> HostPoll {
        let Some(Ok(line)) = self.lines.next() else {
            return HostPoll::Failed;
        };
        match line.trim().parse() {
            Ok(number) => HostPoll::Value(number),
            Err(_) => HostPoll::Failed,
        }
    }
}

fn main(rt: HostRuntime) -> anyhow::Result<()> {
    let guest = Hosted::read_component(rt.alloc(), GUEST)?.with_open_host("number")?;
    let sum = guest.func("adder", "sum")?;
    let lines = rt.reader().lines(rt.alloc());
    let run = guest.run_with(rt.alloc(), Numbers { lines }, CallOnce::of(sum, &[]), 1000)?;
    let report = run.print(rt.alloc())?;
    io::writer(&rt).write_all(report.as_slice())?;
    Ok(())
}
