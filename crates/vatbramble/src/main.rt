//! Runs scenarios of component calls: see the repository's README.
#![tactic(auto)]

use beside_main::{OpenGate, tool_beside};
use choice_run::choice_tool;
use serve_main::serve_tool;
use std::alloc::AllocError;
use std::process::ExitCode;
use std::{env, io};
use task_run::{StdSink, StdSource, tool};

// The status if it is out of memory.
const NO_MEMORY: u8 = 1;

// The words behind the program's name; none if one of them isn't text.
fn words(rt: &HostRuntime) -> Result<Vec<String>, AllocError> {
    let mut words = Vec::new(rt.alloc());
    match env::args(rt) {
        Ok(args) => {
            for word in args.skip(1) {
                words.push(word)?;
            }
        }
        Err(error) if error.kind() == io::ErrorKind::OutOfMemory => return Err(AllocError),
        Err(_) => {}
    }
    Ok(words)
}

fn main(rt: HostRuntime) -> ExitCode {
    let Ok(words) = words(&rt) else {
        return ExitCode::from(NO_MEMORY);
    };
    let mut source = StdSource::new(rt.reader());
    let mut sink = StdSink::new(io::writer(&rt));
    let words = words.as_slice();
    let status = match words.first() {
        Some(word) if word.as_bytes() == b"serve".as_slice() => {
            serve_tool(rt.alloc(), words, &mut source, &mut sink)
        }
        Some(word) if word.as_bytes() == b"beside".as_slice() => {
            tool_beside(&rt, rt.alloc(), words, &mut source, &mut sink, &OpenGate).status
        }
        Some(word) if word.as_bytes() == b"choose".as_slice() => {
            choice_tool(rt.alloc(), words, &mut source, &mut sink)
        }
        _ => tool(rt.alloc(), words, &mut source, &mut sink).status,
    };
    ExitCode::from(status)
}
