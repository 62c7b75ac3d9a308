//! The labels of a `switch` (C11, 6.8.1 and 6.8.4.2).

ghost use Rattle.std.specs.Prelude.{◌≡◌, OnOk};
ghost use Rattle.c_check.specs.Draft.{Gives};
ghost use Rattle.c_check.specs.Labels as labels;
ghost use Rattle.c_check.specs.Labels.{with_case, is_repeated, has_case};

use crate::{Draft, Inside};
use c_const::Evaluated;
use c_types::Case;
use c_typing::Rule;
use rank_range::{Kind, convert};
use sqlite_items::Items;
use std::alloc::{AllocError, Global};

/// The labels of a `switch` so far. They are numbered in their order.
#[derive(Drop)]
pub struct Labels {
    /// The promoted kind of the value of the `switch`; nothing where that breaks a rule.
    pub kind: Option<Kind>,
    pub cases: Items<Case>,
    pub default: Option<u32>,
    pub count: u32,
}

impl Labels {
    pub fn none(alloc: Global, kind: Option<Kind>) -> Labels
        ensures { result ≡ labels.no_labels kind }
    {
        Labels {
            kind,
            cases: Items::new(alloc),
            default: None,
            count: 0,
        }
    }

    /// One more `case`. Its value is compared as one of the kind of the `switch`.
    fn add_case(&mut self, value: Option<u64>) -> Result<(), AllocError>
        ensures { OnOk result (self.new ≡ with_case value self.old) }
    {
        let label = self.count;
        self.count = label.wrapping_add(1);
        match value {
            Some(value) => self.cases.push(Case { value, label }),
            None => Ok(()),
        }
    }

    fn add_default(&mut self)
        ensures { self.new ≡ labels.with_default self.old }
    {
        let label = self.count;
        self.count = label.wrapping_add(1);
        if self.default.is_none() {
            self.default = Some(label);
        }
    }
}

impl Draft {
    /// `case` at a token, with its value.
    pub fn label_case(
        &mut self,
        inside: Inside,
        at: u32,
        value: Option<Evaluated>,
    ) -> Result<u32, AllocError>
        ensures { Gives result self.new (labels.case inside at value self.old) }
    {
        if !inside.is_switch {
            self.note(at, Rule::CaseOutside);
            return Ok(0);
        }
        let label = self.labels.count;
        let value = value_in(self.labels.kind, value);
        let is_repeated = is_repeated(self.labels.cases.as_slice(), value);
        self.labels.add_case(value)?;
        self.note_if(is_repeated, at, Rule::CaseRepeated);
        Ok(label)
    }

    /// `default` at a token.
    pub fn label_default(&mut self, inside: Inside, at: u32) -> u32
        ensures value { result ≡ (labels.default inside at self.old).0 }
        ensures state { self.new ≡ (labels.default inside at self.old).1 }
    {
        if !inside.is_switch {
            self.note(at, Rule::CaseOutside);
            return 0;
        }
        let label = self.labels.count;
        let is_second = self.labels.default.is_some();
        self.labels.add_default();
        self.note_if(is_second, at, Rule::SecondDefault);
        label
    }
}

/// The value of a `case`, converted to the kind of the `switch`.
fn value_in(kind: Option<Kind>, value: Option<Evaluated>) -> Option<u64>
    ensures { result ≡ labels.value_in kind value }
{
    let to = kind?;
    let Evaluated { kind: from, word } = value?;
    let word = word?;
    Some(convert(word, from, to))
}

fn is_repeated(cases: &[Case], value: Option<u64>) -> bool
    ensures { result ≡ is_repeated cases.now value }
{
    match value {
        Some(value) => has_case(cases, value),
        None => false,
    }
}

fn has_case(cases: &[Case], value: u64) -> bool
    ensures { result ≡ has_case cases.now value }
{
    for case in cases {
        if case.value == value {
            return true;
        }
    }
    false
}
