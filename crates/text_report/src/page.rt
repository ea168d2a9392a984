ghost use Rattle.std.specs.Prelude.{◌≡◌, ◌<◌, ◌≤◌, ◌++◌, [], true, false, IfOk, drop, length, take};
ghost use Rattle.text_report.specs.Lines.{lines_of};
ghost use Rattle.machine_rules.specs.Texts.{line_text, outcome_text};

use crate::label::{LINE, label_line, outcome_line};
use machine_data::Outcome;
use run_trace::Labels;
use std::alloc::{AllocError, Global};
use std::marker::Model;

/// A full page has so many bytes. There is room for a line as long as no more rest on it. A file is written fastest by pieces of
/// such a size, each of which begins where the file's own pages do.
pub const PAGE: usize = 131_072;

/// Text that gathers in room that was made before. Adding a line takes no memory. A contract sees
/// the text that has gathered.
#[derive(Drop)]
pub struct Page {
    bytes: Vec<u8>,
    used: usize,
}

impl Model for Page {
    ghost use Rattle.std.specs.Prelude.{◌≡◌, ◌+◌, ◌≤◌, ℕ, List, length, take};
    ghost use Rattle.text_report.specs.declared.label.TheConstants.{LINE};
    ghost use Rattle.text_report.specs.declared.page.TheConstants.{PAGE};

    ghost Value = { List ℕ };

    ghost view = { λ p. take p.used p.bytes.items };

    ghost invariant = { λ p. (length p.bytes.items ≡ PAGE + LINE) × (p.used ≤ PAGE + LINE) };
}

impl Page {
    /// Makes an empty page. An error where its room can't be had.
    pub fn new(alloc: Global) -> Result<Page, AllocError>
        ensures { IfOk result (λ p. p ≡ []) }
    {
        let bytes = vec![in alloc; 0; PAGE + LINE]?;
        Ok(Page { bytes, used: 0 })
    }

    /// Adds lines of the labels that are left, up to a full page, and takes these labels away. Answers whether the page is full;
    /// else no labels are left. It is a function of its own, and goes over its own labels, so that its loop has all registers and
    /// all that it keeps is in them.
    #[inline(never)]
    pub fn fill(&mut self, labels: &mut Labels<'_>) -> bool
        ensures lines { self.new ++ lines_of labels.new ≡ self.old ++ lines_of labels.old }
        ensures full { result ≡ true → PAGE < length self.new }
        ensures done { result ≡ false → (labels.new ≡ []) × (length self.new ≤ PAGE) }
        ensures fewer { result ≡ true → length self.old ≤ PAGE → length labels.new < length labels.old }
    {
        let out = self.bytes.as_mut_slice();
        let mut at = self.used;
        let mut left = labels.rest();
        'lines: while at <= PAGE {
            let Some((head, numbers)) = Labels::take(&mut left) else {
                self.used = at;
                *labels = left;
                return false;
            };
            at = label_line(out, at, head, numbers);
        }
        self.used = at;
        *labels = left;
        true
    }

    /// Adds the line of an outcome.
    pub fn add_outcome(&mut self, outcome: Outcome)
        requires { length self.old ≤ PAGE }
        ensures { self.new ≡ self.old ++ line_text (outcome_text outcome) }
    {
        self.used = outcome_line(self.bytes.as_mut_slice(), self.used, outcome);
    }

    /// Returns the text.
    pub fn as_slice(&self) -> &[u8]
        ensures { result.now ≡ self.now }
    {
        &self.bytes[..self.used]
    }

    /// Returns the page that is full, without what is behind it.
    pub fn full(&self) -> &[u8]
        requires { PAGE ≤ length self.now }
        ensures { result.now ≡ take PAGE self.now }
    {
        &self.bytes[..PAGE]
    }

    /// Takes the bytes of a full page away. What is behind them moves to the front.
    pub fn take_full(&mut self)
        requires { PAGE ≤ length self.old }
        ensures rest { self.new ≡ drop PAGE self.old }
        ensures room { length self.new ≤ PAGE }
    {
        let behind = self.used - PAGE;
        let (page, rest) = self.bytes.as_mut_slice().split_at_mut(PAGE);
        page[..behind].copy_from_slice(&rest[..behind]);
        self.used = behind;
    }

    /// Begins anew.
    pub fn clear(&mut self)
        ensures { self.new ≡ [] }
    {
        self.used = 0;
    }
}
