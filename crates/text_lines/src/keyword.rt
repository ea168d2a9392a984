//! The tokens with which lines begin, by what they are about.
ghost use Rattle.std.specs.Prelude.{◌≡◌, find};
ghost use Rattle.std.specs.Str.{bytes_eq};
ghost use Rattle.text_lines.specs.Keyword.{head_keyword, part_keyword, data_keyword, task_keyword, set_keyword, call_keyword, thread_keyword, main_keyword, frame_keyword, keyword_text, keywords_three, keywords_four, keywords_five, keywords_six, keywords_seven, keywords_eight, keywords_long, keyword_at};

/// A token of the text's head.
#[derive(Clone, Copy)]
pub enum HeadKeyword {
    Scenario,
    Handles,
    Table,
    Idle,
}

/// A token that opens a part of the component.
#[derive(Clone, Copy)]
pub enum PartKeyword {
    Host,
    Instance,
    Export,
    React,
    Thread,
    Bad,
}

/// An op on registers and on the instance's memory cells.
#[derive(Clone, Copy)]
pub enum DataKeyword {
    Set,
    Add,
    Handle,
    Load,
    Store,
    SkipEq,
}

/// An op that ends a task or an activation, or that says whether the instance takes calls.
#[derive(Clone, Copy)]
pub enum TaskKeyword {
    Ret,
    RetBad,
    TaskCancel,
    Exit,
    CbYield,
    CbWait,
    Code,
    BpInc,
    BpDec,
}

/// An op on waitable sets.
#[derive(Clone, Copy)]
pub enum SetKeyword {
    New,
    Drop,
    Wait,
    Poll,
    Join,
}

/// An op on subtasks.
#[derive(Clone, Copy)]
pub enum CallKeyword {
    Call,
    CallSync,
    Cancel,
    CancelSync,
    Drop,
}

/// An op on the task's own threads.
#[derive(Clone, Copy)]
pub enum ThreadKeyword {
    New,
    Index,
    ResumeLater,
    Suspend,
    Yield,
    SuspendThenResume,
    YieldThenResume,
    SuspendThenPromote,
    YieldThenPromote,
}

/// An op of main.
#[derive(Clone, Copy)]
pub enum MainKeyword {
    Start,
    Finish,
    Spawn,
    Abort,
    Await,
    Quiet,
    Ready,
}

/// A token around the ops of main.
#[derive(Clone, Copy)]
pub enum FrameKeyword {
    Main,
    Answer,
    Aborter,
    End,
}

/// The token with which a line begins.
#[derive(Clone, Copy)]
pub enum Keyword {
    Head(HeadKeyword),
    Part(PartKeyword),
    Data(DataKeyword),
    Task(TaskKeyword),
    Set(SetKeyword),
    Call(CallKeyword),
    Thread(ThreadKeyword),
    Main(MainKeyword),
    Frame(FrameKeyword),
}

impl HeadKeyword {
    /// Returns the token itself.
    pub fn text(self) -> &'static [u8]
        ensures { result.now ≡ head_keyword self }
    {
        match self {
            HeadKeyword::Scenario => b"scenario",
            HeadKeyword::Handles => b"handles",
            HeadKeyword::Table => b"table",
            HeadKeyword::Idle => b"idle",
        }
    }
}

impl PartKeyword {
    /// Returns the token itself.
    pub fn text(self) -> &'static [u8]
        ensures { result.now ≡ part_keyword self }
    {
        match self {
            PartKeyword::Host => b"host",
            PartKeyword::Instance => b"instance",
            PartKeyword::Export => b"export",
            PartKeyword::React => b"react",
            PartKeyword::Thread => b"thread",
            PartKeyword::Bad => b"bad",
        }
    }
}

impl DataKeyword {
    /// Returns the token itself.
    pub fn text(self) -> &'static [u8]
        ensures { result.now ≡ data_keyword self }
    {
        match self {
            DataKeyword::Set => b"set",
            DataKeyword::Add => b"add",
            DataKeyword::Handle => b"handle",
            DataKeyword::Load => b"load",
            DataKeyword::Store => b"store",
            DataKeyword::SkipEq => b"skip_eq",
        }
    }
}

impl TaskKeyword {
    /// Returns the token itself.
    pub fn text(self) -> &'static [u8]
        ensures { result.now ≡ task_keyword self }
    {
        match self {
            TaskKeyword::Ret => b"ret",
            TaskKeyword::RetBad => b"ret_bad",
            TaskKeyword::TaskCancel => b"task_cancel",
            TaskKeyword::Exit => b"exit",
            TaskKeyword::CbYield => b"cb_yield",
            TaskKeyword::CbWait => b"cb_wait",
            TaskKeyword::Code => b"code",
            TaskKeyword::BpInc => b"bp_inc",
            TaskKeyword::BpDec => b"bp_dec",
        }
    }
}

impl SetKeyword {
    /// Returns the token itself.
    pub fn text(self) -> &'static [u8]
        ensures { result.now ≡ set_keyword self }
    {
        match self {
            SetKeyword::New => b"set_new",
            SetKeyword::Drop => b"set_drop",
            SetKeyword::Wait => b"wait",
            SetKeyword::Poll => b"poll",
            SetKeyword::Join => b"join",
        }
    }
}

impl CallKeyword {
    /// Returns the token itself.
    pub fn text(self) -> &'static [u8]
        ensures { result.now ≡ call_keyword self }
    {
        match self {
            CallKeyword::Call => b"call",
            CallKeyword::CallSync => b"call_sync",
            CallKeyword::Cancel => b"cancel",
            CallKeyword::CancelSync => b"cancel_sync",
            CallKeyword::Drop => b"drop",
        }
    }
}

impl ThreadKeyword {
    /// Returns the token itself.
    pub fn text(self) -> &'static [u8]
        ensures { result.now ≡ thread_keyword self }
    {
        match self {
            ThreadKeyword::New => b"thread_new",
            ThreadKeyword::Index => b"thread_index",
            ThreadKeyword::ResumeLater => b"resume_later",
            ThreadKeyword::Suspend => b"suspend",
            ThreadKeyword::Yield => b"yield",
            ThreadKeyword::SuspendThenResume => b"suspend_then_resume",
            ThreadKeyword::YieldThenResume => b"yield_then_resume",
            ThreadKeyword::SuspendThenPromote => b"suspend_then_promote",
            ThreadKeyword::YieldThenPromote => b"yield_then_promote",
        }
    }
}

impl MainKeyword {
    /// Returns the token itself.
    pub fn text(self) -> &'static [u8]
        ensures { result.now ≡ main_keyword self }
    {
        match self {
            MainKeyword::Start => b"start",
            MainKeyword::Finish => b"finish",
            MainKeyword::Spawn => b"spawn",
            MainKeyword::Abort => b"abort",
            MainKeyword::Await => b"await",
            MainKeyword::Quiet => b"quiet",
            MainKeyword::Ready => b"ready",
        }
    }
}

impl FrameKeyword {
    /// Returns the token itself.
    pub fn text(self) -> &'static [u8]
        ensures { result.now ≡ frame_keyword self }
    {
        match self {
            FrameKeyword::Main => b"main",
            FrameKeyword::Answer => b"answer",
            FrameKeyword::Aborter => b"aborter",
            FrameKeyword::End => b"end",
        }
    }
}

const THREE: [Keyword; 5] = [
    Keyword::Data(DataKeyword::Set),
    Keyword::Data(DataKeyword::Add),
    Keyword::Task(TaskKeyword::Ret),
    Keyword::Part(PartKeyword::Bad),
    Keyword::Frame(FrameKeyword::End),
];

const FOUR: [Keyword; 11] = [
    Keyword::Data(DataKeyword::Load),
    Keyword::Task(TaskKeyword::Exit),
    Keyword::Head(HeadKeyword::Idle),
    Keyword::Part(PartKeyword::Host),
    Keyword::Task(TaskKeyword::Code),
    Keyword::Set(SetKeyword::Wait),
    Keyword::Set(SetKeyword::Poll),
    Keyword::Set(SetKeyword::Join),
    Keyword::Call(CallKeyword::Call),
    Keyword::Call(CallKeyword::Drop),
    Keyword::Frame(FrameKeyword::Main),
];

const FIVE: [Keyword; 10] = [
    Keyword::Data(DataKeyword::Store),
    Keyword::Main(MainKeyword::Start),
    Keyword::Head(HeadKeyword::Table),
    Keyword::Part(PartKeyword::React),
    Keyword::Thread(ThreadKeyword::Yield),
    Keyword::Main(MainKeyword::Spawn),
    Keyword::Main(MainKeyword::Abort),
    Keyword::Main(MainKeyword::Await),
    Keyword::Main(MainKeyword::Quiet),
    Keyword::Main(MainKeyword::Ready),
];

const SIX: [Keyword; 8] = [
    Keyword::Data(DataKeyword::Handle),
    Keyword::Main(MainKeyword::Finish),
    Keyword::Part(PartKeyword::Export),
    Keyword::Part(PartKeyword::Thread),
    Keyword::Task(TaskKeyword::BpInc),
    Keyword::Task(TaskKeyword::BpDec),
    Keyword::Call(CallKeyword::Cancel),
    Keyword::Frame(FrameKeyword::Answer),
];

const SEVEN: [Keyword; 7] = [
    Keyword::Data(DataKeyword::SkipEq),
    Keyword::Task(TaskKeyword::RetBad),
    Keyword::Head(HeadKeyword::Handles),
    Keyword::Task(TaskKeyword::CbWait),
    Keyword::Set(SetKeyword::New),
    Keyword::Thread(ThreadKeyword::Suspend),
    Keyword::Frame(FrameKeyword::Aborter),
];

const EIGHT: [Keyword; 4] = [
    Keyword::Head(HeadKeyword::Scenario),
    Keyword::Part(PartKeyword::Instance),
    Keyword::Task(TaskKeyword::CbYield),
    Keyword::Set(SetKeyword::Drop),
];

const LONG: [Keyword; 10] = [
    Keyword::Task(TaskKeyword::TaskCancel),
    Keyword::Call(CallKeyword::CallSync),
    Keyword::Call(CallKeyword::CancelSync),
    Keyword::Thread(ThreadKeyword::New),
    Keyword::Thread(ThreadKeyword::Index),
    Keyword::Thread(ThreadKeyword::ResumeLater),
    Keyword::Thread(ThreadKeyword::SuspendThenResume),
    Keyword::Thread(ThreadKeyword::YieldThenResume),
    Keyword::Thread(ThreadKeyword::SuspendThenPromote),
    Keyword::Thread(ThreadKeyword::YieldThenPromote),
];

impl Keyword {
    /// Returns the token itself.
    pub fn text(self) -> &'static [u8]
        ensures { result.now ≡ keyword_text self }
    {
        match self {
            Keyword::Head(token) => token.text(),
            Keyword::Part(token) => token.text(),
            Keyword::Data(token) => token.text(),
            Keyword::Task(token) => token.text(),
            Keyword::Set(token) => token.text(),
            Keyword::Call(token) => token.text(),
            Keyword::Thread(token) => token.text(),
            Keyword::Main(token) => token.text(),
            Keyword::Frame(token) => token.text(),
        }
    }

    /// Returns the keyword that a token is. It is sought among those of the token's length, the frequent ones first.
    pub fn from_token(token: &[u8]) -> Option<Keyword>
        ensures { result ≡ keyword_at token.now }
    {
        match token.len() {
            3 => of_three(token),
            4 => of_four(token),
            5 => of_five(token),
            6 => of_six(token),
            7 => of_seven(token),
            8 => of_eight(token),
            _ => of_more(token),
        }
    }
}

fn of_three(token: &[u8]) -> Option<Keyword>
    ensures { result ≡ find (λ k. bytes_eq (keyword_text k) token.now) keywords_three }
{
    THREE.iter().copied().find(|k| k.text() == token)
}

fn of_four(token: &[u8]) -> Option<Keyword>
    ensures { result ≡ find (λ k. bytes_eq (keyword_text k) token.now) keywords_four }
{
    FOUR.iter().copied().find(|k| k.text() == token)
}

fn of_five(token: &[u8]) -> Option<Keyword>
    ensures { result ≡ find (λ k. bytes_eq (keyword_text k) token.now) keywords_five }
{
    FIVE.iter().copied().find(|k| k.text() == token)
}

fn of_six(token: &[u8]) -> Option<Keyword>
    ensures { result ≡ find (λ k. bytes_eq (keyword_text k) token.now) keywords_six }
{
    SIX.iter().copied().find(|k| k.text() == token)
}

fn of_seven(token: &[u8]) -> Option<Keyword>
    ensures { result ≡ find (λ k. bytes_eq (keyword_text k) token.now) keywords_seven }
{
    SEVEN.iter().copied().find(|k| k.text() == token)
}

fn of_eight(token: &[u8]) -> Option<Keyword>
    ensures { result ≡ find (λ k. bytes_eq (keyword_text k) token.now) keywords_eight }
{
    EIGHT.iter().copied().find(|k| k.text() == token)
}

#[inline(never)]
fn of_more(token: &[u8]) -> Option<Keyword>
    ensures { result ≡ find (λ k. bytes_eq (keyword_text k) token.now) keywords_long }
{
    LONG.iter().copied().find(|k| k.text() == token)
}
