//! A host with a main of its own: it hands the result of one call on to the next, and prints what
//! the run was. The repository's docs/EMBEDDING.md walks through it.
#![tactic(auto)]

mod parts;
mod relay;
mod run;

use std::io;
use std::io::Write;
use text_report::Page;

fn main(rt: HostRuntime) -> io::Result<()> {
    let component = parts::component(rt.alloc())?;
    let Ok((trace, outcome)) = run::relayed(rt.alloc(), &component, 20) else {
        return Err(io::Error::from(io::ErrorKind::OutOfMemory));
    };
    let mut out = io::writer(&rt);
    let mut page = Page::new(rt.alloc())?;
    let mut labels = trace.labels();
    'pages: while page.fill(&mut labels) {
        out.write_all(page.as_slice())?;
        page.clear();
    }
    page.add_outcome(outcome);
    out.write_all(page.as_slice())
}
