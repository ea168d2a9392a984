//! A notice in a word of four bytes, where its group's number fits.
ghost use Rattle.std.specs.Prelude.{◌≡◌, ◌<◌, ◌+◌, ◌*◌, ◌^◌};
ghost use Rattle.task_group.specs.Packed.{code_of, kind_at, opened};

use machine_data::{Notice, NoticeKind};

/// The number that a group's has to be below, so that a notice of it fits a word.
pub const LARGE: u64 = 1 << 30;

#[inline(always)]
fn code_of(kind: NoticeKind) -> u32
    ensures is { result ≡ code_of kind }
    ensures small { result < 4 }
{
    match kind {
        NoticeKind::Start => 0,
        NoticeKind::Enter => 1,
        NoticeKind::Exit => 2,
        NoticeKind::Finish => 3,
    }
}

fn kind_at(code: u32) -> NoticeKind
    ensures { result ≡ kind_at code }
{
    if code == 0 {
        NoticeKind::Start
    } else if code == 1 {
        NoticeKind::Enter
    } else if code == 2 {
        NoticeKind::Exit
    } else {
        NoticeKind::Finish
    }
}

// The word of a notice.
#[inline(always)]
pub fn packed(notice: Notice) -> u32
    requires { notice.group < 2 ^ 30 }
    ensures { opened result ≡ notice }
{
    notice.group as u32 * 4 + code_of(notice.kind)
}

// The notice of a word.
pub fn opened(word: u32) -> Notice
    ensures { result ≡ opened word }
{
    Notice {
        kind: kind_at(word % 4),
        group: u64::from(word / 4),
    }
}
