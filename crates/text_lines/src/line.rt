//! One line, apart from where it is.
ghost use Rattle.std.specs.Prelude.{◌≡◌, map};
ghost use Rattle.text_lines.specs.Line.{frame_after, line_after};
ghost use Rattle.text_lines.specs.Gives.{Gives};

use crate::calls::{call_line_after, main_op_after};
use crate::fields::numbers;
use crate::keyword::{FrameKeyword, Keyword};
use crate::ops::{data_op_after, operand_after, set_op_after, task_op_after, thread_op_after};
use crate::parts::{head_after, part_after};
use crate::tokens::Name;
use machine_data::{ExportKind, IdleLine, Op, Operand, Seq, Version};
use std::alloc::{AllocError, Global};

/// A line of the text's head.
#[derive(Drop)]
pub enum HeadLine {
    /// `scenario 1` or `scenario 2`
    Title(Version),
    Handles(u32),
    Table(u32),
    Idle(IdleLine),
}

/// What a host's work does.
#[derive(Clone, Copy)]
pub enum HostWork {
    /// `polls N value V`: it pends N times and then gives V.
    Value(u32, u64),
    /// `polls N fail`: it pends N times and then fails.
    Fail(u32),
    /// `never`: it never ends.
    Never,
}

/// A line that opens a part of the component.
#[derive(Drop)]
pub enum PartLine {
    Host(Name, HostWork),
    Instance(Name),
    /// A name, a kind and a number of parameters.
    Export(Name, ExportKind, u32),
    React,
    /// A slot.
    Thread(u8),
    /// A slot.
    Bad(u8),
}

/// A callee's name: of an export with its instance, or of a host.
#[derive(Drop)]
pub enum CalleeName {
    Export(Name, Name),
    Host(Name),
}

/// A call of a guest, its callee by name.
#[derive(Drop)]
pub enum NamedCall {
    /// The register of the answer, that of the result, the callee and its operands.
    Call(u8, u8, CalleeName, Seq<Operand>),
    /// The register of the result, the callee and its operands.
    CallSync(u8, CalleeName, Seq<Operand>),
}

/// An op of main, its callee by name: an instance and an export, or a host.
#[derive(Drop)]
pub enum NamedOp {
    Start(Name, Name, Seq<Operand>),
    Finish(u32, u8),
    Spawn(Name),
    Abort(u32),
    Await(u32),
    Quiet,
    Ready(Name, Name),
}

/// What a line says; names are unresolved.
#[derive(Drop)]
pub enum Line {
    Head(HeadLine),
    Part(PartLine),
    /// An op that names no callee.
    Op(Op),
    Call(NamedCall),
    Main,
    MainOp(NamedOp),
    Answer(Operand),
    /// Numbers of spawns.
    Aborter(Seq<u32>),
    End,
}

/// Why no line was read.
#[derive(Clone, Copy)]
pub enum LineError {
    NoMemory,
    Bad,
}

impl From<AllocError> for LineError {
    ghost use Rattle.text_lines.specs.declared.line.LineError.TheVariants.{NoMemory};

    ghost from_gives = { λ _ e. e ≡ NoMemory };

    fn from(_e: AllocError) -> LineError {
        LineError::NoMemory
    }
}

// The line around main's ops that the tokens after its first one complete.
#[inline(never)]
#[tactic(auto, unfolding(crate::specs::Line::frame_after))]
fn frame_after(alloc: Global, token: FrameKeyword, tokens: &[&[u8]]) -> Result<Line, LineError>
    ensures { Gives result (frame_after token (map (λ w. w.now) tokens.now)) }
{
    match token {
        FrameKeyword::Main => tokens
            .is_empty()
            .then_some(Line::Main)
            .ok_or(LineError::Bad),
        FrameKeyword::Answer => Ok(Line::Answer(operand_after(tokens).ok_or(LineError::Bad)?)),
        FrameKeyword::Aborter => Ok(Line::Aborter(numbers(alloc, tokens)?)),
        FrameKeyword::End => tokens.is_empty().then_some(Line::End).ok_or(LineError::Bad),
    }
}

/// Returns the line that a keyword and the tokens after it spell, in the one spelling that it has. Numbers that count earlier lines
/// are at most 4,095 here.
#[tactic(auto, unfolding(crate::specs::Line::line_after))]
pub fn line_after(alloc: Global, keyword: Keyword, tokens: &[&[u8]]) -> Result<Line, LineError>
    ensures { Gives result (line_after keyword (map (λ w. w.now) tokens.now)) }
{
    match keyword {
        Keyword::Head(token) => Ok(Line::Head(head_after(token, tokens).ok_or(LineError::Bad)?)),
        Keyword::Part(token) => Ok(Line::Part(part_after(alloc, token, tokens)?)),
        Keyword::Data(token) => {
            let op = data_op_after(token, tokens).ok_or(LineError::Bad)?;
            Ok(Line::Op(Op::Data(op)))
        }
        Keyword::Task(token) => {
            let op = task_op_after(token, tokens).ok_or(LineError::Bad)?;
            Ok(Line::Op(Op::Task(op)))
        }
        Keyword::Set(token) => {
            let op = set_op_after(token, tokens).ok_or(LineError::Bad)?;
            Ok(Line::Op(Op::Set(op)))
        }
        Keyword::Call(token) => call_line_after(alloc, token, tokens),
        Keyword::Thread(token) => {
            let op = thread_op_after(token, tokens).ok_or(LineError::Bad)?;
            Ok(Line::Op(Op::Thread(op)))
        }
        Keyword::Main(token) => Ok(Line::MainOp(main_op_after(alloc, token, tokens)?)),
        Keyword::Frame(token) => frame_after(alloc, token, tokens),
    }
}
