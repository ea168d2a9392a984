ghost use Rattle.laws_choices.specs.Lines.{LastReadBack, LineShowsMember, LineShowsWaiter, LineTellsChoice, NextReadBack};

/// The choice that a label shows is written at the end of its line: the waiter is the last token, the member's handle the last but
/// one.
#[tactic(auto, using(crate::proofs::LineLemmas::line_shows_waiter, crate::proofs::LineLemmas::line_shows_member))]
pub fn lines_show_choices()
    ensures waiter { LineShowsWaiter }
    ensures member { LineShowsMember }
{}

/// The numbers at the end of a line are read back as they were written, if they have 64 bits.
#[tactic(auto, using(crate::proofs::LineLemmas::last_read_back, crate::proofs::LineLemmas::next_read_back))]
pub fn lines_are_read_back()
    ensures last { LastReadBack }
    ensures next { NextReadBack }
{}

/// Two labels that are lawful in one state, and that print one line, show one choice.
#[tactic(auto, using(crate::proofs::LineLemmas::line_tells_choice))]
pub fn line_tells_choice()
    ensures { LineTellsChoice }
{}
