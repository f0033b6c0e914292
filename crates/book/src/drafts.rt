// What the lines of a book's text state together, while it is read.
ghost use Rattle.std.specs.Prelude.{◌≡◌, ◌≤◌, true, length, Some, None, MatchResult, All};
ghost use Rattle.std.specs.Option.{ForSome};
ghost use Rattle.refusal.specs.declared.Refusal.TheVariants.{PartsMisplaced};
ghost use Rattle.book.specs.Ranges.{lettered, InRange};
ghost use Rattle.book.specs.Statements.{Said, parts, rule as rule_said, RangedIn, Stated, book_form};
ghost use Rattle.book.specs.Texts.{stated_in};
ghost use Rattle.book.specs.Lines.{said_by};

use crate::books::Book;
use crate::lines::{Line, read_line};
use crate::rules::Rule;
use arrayvec::ArrayVec;
use refusal::Refusal;
use text::Draft;

// What the lines so far state. Where no number of parts stood there is no rule, and what there is keeps to its ranges.
#[derive(Drop)]
pub(crate) struct BookDraft {
    parts: Option<u8>,
    rules: ArrayVec<Rule, 128>,
    ghost no_rule_before: { parts ≡ None → length rules.items ≡ 0 },
    ghost parts_in_range: { ForSome parts (λ k. (1 ≤ k) × (k ≤ 32)) },
    ghost few_rules: { length rules.items ≤ 128 },
    ghost ranged: { ForSome parts (λ k. All (InRange k) rules.items) },
    ghost lettered: { All (λ u. lettered u.side ≡ true) rules.items },
}

impl BookDraft {
    ghost use Rattle.book.specs.Drafts.{stated_by, Adds};

    // Nothing yet.
    pub(crate) fn new() -> BookDraft
        ensures { stated_by result ≡ book_form.blank }
    {
        BookDraft {
            parts: None,
            rules: ArrayVec::new(),
        }
    }

    // Takes the number of parts.
    fn set_parts(&mut self, k: u32) -> Result<(), Refusal>
        ensures { Adds self.old (parts k) result self.new }
    {
        if self.parts.is_some() {
            return Err(Refusal::PartsMisplaced);
        }
        if !(1..=32).contains(&k) {
            return Err(Refusal::OutOfRange);
        }
        self.parts = Some(k as u8);
        Ok(())
    }

    // The number of parts, which has to stand before any rule.
    fn known_parts(&self) -> Result<u8, Refusal>
        ensures { MatchResult result (λ k. self.now.parts ≡ Some k) (λ r. (PartsMisplaced ≡ r) × (self.now.parts ≡ None)) }
    {
        self.parts.ok_or(Refusal::PartsMisplaced)
    }

    // Takes a rule whose numbers are in range.
    fn push(&mut self, rule: Rule) -> Result<(), Refusal>
        requires ranged { RangedIn self.old.parts rule }
        requires lettered { lettered rule.side ≡ true }
        ensures { Adds self.old (rule_said rule) result self.new }
    {
        if self.rules.is_full() {
            return Err(Refusal::TooManyRules);
        }
        self.rules.push(rule);
        Ok(())
    }

    // Takes what one more line states.
    fn add(&mut self, line: Line) -> Result<(), Refusal>
        ensures { Adds self.old (said_by line.entry) result self.new }
    {
        match line {
            Line::Note(_) => Ok(()),
            Line::Parts(k) => self.set_parts(k),
            Line::Cut(fields) => self.push(fields.rule(self.known_parts()?)?),
            Line::Pair(fields) => self.push(fields.rule(self.known_parts()?)?),
        }
    }
}

impl Draft for BookDraft {
    ghost use Rattle.book.specs.Drafts.{stated_by};

    type Whole = Book;

    ghost Said = { Said };

    ghost Sum = { Stated };

    ghost form = { book_form };

    ghost stated = { stated_by };

    ghost whole = { stated_in };

    fn take(&mut self, line: &[u8]) -> Result<(), Refusal> {
        self.add(read_line(line)?)
    }

    fn finish(self) -> Result<Book, Refusal> {
        let BookDraft { parts, rules } = self;
        let parts = parts.ok_or(Refusal::NoRule)?;
        if rules.is_empty() {
            return Err(Refusal::NoRule);
        }
        Ok(Book { parts, rules })
    }
}
