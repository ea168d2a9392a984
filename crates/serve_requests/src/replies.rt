//! The lines that say replies.
ghost use Rattle.serve_requests.specs.Replies.{reply_line, reply_lines};
ghost use Rattle.std.specs.Prelude.{◌≡◌, ◌++◌, IfOk, OnOk};

use crate::Reply;
use machine_data::NoMemory;
use std::alloc::{AllocError, Global};

// Adds the line of a reply, if there is one.
fn add_reply(
    alloc: Global,
    out: &mut Vec<u8>,
    number: usize,
    reply: Reply,
) -> Result<(), AllocError>
    ensures { OnOk result (out.new.items ≡ out.old.items ++ reply_line number reply) }
{
    let line = match reply {
        Reply::None => return Ok(()),
        Reply::Value(value) => format!(in alloc; "reply {number} = {value}\n")?,
        Reply::Refused(trap) => format!(in alloc; "reply {number} refused {trap}\n")?,
    };
    out.extend_from_slice(line.as_bytes())
}

fn lines_of(alloc: Global, replies: &[Reply]) -> Result<Vec<u8>, AllocError>
    ensures { IfOk result (λ out. out.items ≡ reply_lines 1 replies.now) }
{
    let mut out = Vec::new(alloc);
    let mut at = 0;
    'replies: while at < replies.len() {
        add_reply(alloc, &mut out, at + 1, replies[at])?;
        at += 1;
    }
    Ok(out)
}

/// Prints replies, in order: a line `reply K = V` or `reply K refused T` for each that isn't None, the k-th of them being K.
pub fn print_replies(alloc: Global, replies: &[Reply]) -> Result<Vec<u8>, NoMemory>
    ensures { IfOk result (λ out. out.items ≡ reply_lines 1 replies.now) }
{
    Ok(lines_of(alloc, replies)?)
}
