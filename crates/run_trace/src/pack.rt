//! A head and its numbers into the list, which has room for them. A label whose kind has its first number in the head, mostly, is
//! added by `one`, `two` and `three`; one whose kind shows the head's number by `put_none`, `put_one` and `put_two`.
ghost use Rattle.run_trace.specs.Opened.{all, has_first, opened};
ghost use Rattle.run_trace.specs.Rest.{rest_of};
ghost use Rattle.run_trace.specs.Traced.{with_label};
ghost use Rattle.std.specs.Prelude.{◌≡◌, ◌<◌, [], ◌∷◌, true};

use crate::kinds::{Head, LARGE, LabelKind};
use crate::packed::PackedLabels;

// The numbers of a label after its first one.
#[derive(Clone, Copy)]
pub(crate) enum Rest {
    None,
    One(u64),
    Two(u64, u64),
}

impl PackedLabels {
    // Adds a head that has all numbers of its label.
    #[inline(always)]
    pub(crate) fn put_none(&mut self, kind: LabelKind, small: u32)
        requires { 0 < self.old.spare }
        ensures { self.new ≡ with_label self.old (opened kind small [] (all small [])) }
    {
        self.heads.push_reserved(Head {
            kind,
            count: 0,
            small,
        });
        self.spare -= 1;
    }

    // Adds a head and a number.
    #[inline(always)]
    pub(crate) fn put_one(&mut self, kind: LabelKind, small: u32, number: u64)
        requires { 0 < self.old.spare }
        ensures { self.new ≡ with_label self.old (opened kind small (number ∷ []) (all small (number ∷ []))) }
    {
        self.numbers.push_reserved(number);
        self.heads.push_reserved(Head {
            kind,
            count: 1,
            small,
        });
        self.spare -= 1;
    }

    // Adds a head and two numbers.
    #[inline(always)]
    pub(crate) fn put_two(&mut self, kind: LabelKind, small: u32, number: u64, next: u64)
        requires { 0 < self.old.spare }
        ensures { self.new ≡ with_label self.old (opened kind small (number ∷ next ∷ []) (all small (number ∷ next ∷ []))) }
    {
        self.numbers.push_reserved(number);
        self.numbers.push_reserved(next);
        self.heads.push_reserved(Head {
            kind,
            count: 2,
            small,
        });
        self.spare -= 1;
    }

    // Adds a head and three numbers.
    fn put_three(&mut self, kind: LabelKind, small: u32, number: u64, next: u64, last: u64)
        requires { 0 < self.old.spare }
        ensures { self.new ≡ with_label self.old (opened kind small (number ∷ next ∷ last ∷ []) (all small (number ∷ next ∷ last ∷ []))) }
    {
        self.numbers.push_reserved(number);
        self.numbers.push_reserved(next);
        self.numbers.push_reserved(last);
        self.heads.push_reserved(Head {
            kind,
            count: 3,
            small,
        });
        self.spare -= 1;
    }

    // A label whose first number fits no head is rare.
    #[cold]
    #[inline(never)]
    #[tactic(auto, using(crate::proofs::Appending::opened_first))]
    fn put_large(&mut self, kind: LabelKind, first: u64, rest: Rest)
        requires first { has_first kind ≡ true }
        requires room { 0 < self.old.spare }
        ensures { self.new ≡ with_label self.old (opened kind 0 [] (first ∷ rest_of rest)) }
    {
        match rest {
            Rest::None => self.put_one(kind, LARGE, first),
            Rest::One(second) => self.put_two(kind, LARGE, first, second),
            Rest::Two(second, third) => self.put_three(kind, LARGE, first, second, third),
        }
    }

    // Calls `put_large`. It is inlined, so that what such a label needs in memory is made where one comes.
    #[inline(always)]
    fn large(&mut self, kind: LabelKind, first: u64, rest: Rest)
        requires first { has_first kind ≡ true }
        requires room { 0 < self.old.spare }
        ensures { self.new ≡ with_label self.old (opened kind 0 [] (first ∷ rest_of rest)) }
    {
        self.put_large(kind, first, rest)
    }

    // A label of one number.
    #[inline(always)]
    #[tactic(auto, using(crate::proofs::Appending::all_small, crate::proofs::Appending::opened_first))]
    pub(crate) fn one(&mut self, kind: LabelKind, first: u64)
        requires first { has_first kind ≡ true }
        requires room { 0 < self.old.spare }
        ensures { self.new ≡ with_label self.old (opened kind 0 [] (first ∷ [])) }
    {
        if first < u64::from(LARGE) {
            self.put_none(kind, first as u32)
        } else {
            self.large(kind, first, Rest::None)
        }
    }

    // A label of two numbers.
    #[inline(always)]
    #[tactic(auto, using(crate::proofs::Appending::all_small, crate::proofs::Appending::opened_first))]
    pub(crate) fn two(&mut self, kind: LabelKind, first: u64, second: u64)
        requires first { has_first kind ≡ true }
        requires room { 0 < self.old.spare }
        ensures { self.new ≡ with_label self.old (opened kind 0 [] (first ∷ second ∷ [])) }
    {
        if first < u64::from(LARGE) {
            self.put_one(kind, first as u32, second)
        } else {
            self.large(kind, first, Rest::One(second))
        }
    }

    // Packs a label of two numbers, in a function of its own, for labels that are seldom.
    #[inline(never)]
    pub(crate) fn two_outlined(&mut self, kind: LabelKind, first: u64, second: u64)
        requires first { has_first kind ≡ true }
        requires room { 0 < self.old.spare }
        ensures { self.new ≡ with_label self.old (opened kind 0 [] (first ∷ second ∷ [])) }
    {
        self.two(kind, first, second)
    }

    // A label of three numbers.
    #[inline(always)]
    #[tactic(auto, using(crate::proofs::Appending::all_small, crate::proofs::Appending::opened_first))]
    pub(crate) fn three(&mut self, kind: LabelKind, first: u64, second: u64, third: u64)
        requires first { has_first kind ≡ true }
        requires room { 0 < self.old.spare }
        ensures { self.new ≡ with_label self.old (opened kind 0 [] (first ∷ second ∷ third ∷ [])) }
    {
        if first < u64::from(LARGE) {
            self.put_two(kind, first as u32, second, third)
        } else {
            self.large(kind, first, Rest::Two(second, third))
        }
    }

    // Packs a label of three numbers, in a function of its own.
    #[inline(never)]
    pub(crate) fn three_outlined(&mut self, kind: LabelKind, first: u64, second: u64, third: u64)
        requires first { has_first kind ≡ true }
        requires room { 0 < self.old.spare }
        ensures { self.new ≡ with_label self.old (opened kind 0 [] (first ∷ second ∷ third ∷ [])) }
    {
        self.three(kind, first, second, third)
    }
}
