// Groups of three lines: the quantities, the prices and the challenges of a proof.
ghost use Rattle.std.specs.Prelude.{◌≡◌, ◌<◌, length, IfOk, Some, vec_items, OnOk};
ghost use Rattle.std.specs.Option.{option_map};
ghost use Rattle.text.specs.Words.{line_left};
ghost use Rattle.text.specs.Lines.{text_left, next_line, behind_line};
ghost use Rattle.proof_write.specs.Groups.{words_left, numbers_of, numbers_in, list_in, ReadGroup};

use crate::stop::Stop;
use std::alloc::{AllocError, Global};
use text::lines::Lines;
use text::words::{Words, is, number};

// The lists of a group.
#[derive(Drop)]
pub struct Group {
    pub quantities: Vec<u32>,
    pub prices: Vec<u32>,
    pub challenges: Vec<u32>,
}

// The numbers that the words left write; None where a word writes none.
fn numbers_left(heap: Global, words: Words) -> Result<Option<Vec<u32>>, AllocError>
    ensures { IfOk result (λ o. option_map vec_items o ≡ numbers_of (words_left (line_left words.entry))) }
{
    let mut numbers = Vec::new(heap);
    for word in words {
        let Some(n) = number(word) else {
            return Ok(None);
        };
        numbers.push(n)?;
    }
    Ok(Some(numbers))
}

// The numbers behind a line's first word; None where the line has not this form.
fn numbers_of(heap: Global, line: &[u8], name: &str) -> Result<Option<Vec<u32>>, AllocError>
    ensures { IfOk result (λ o. option_map vec_items o ≡ numbers_in name.now line.now) }
{
    let mut words = Words::from(line);
    match words.next() {
        Some(first) if is(first, name) => numbers_left(heap, words),
        _ => Ok(None),
    }
}

// The lines of a text that are left, and how many were taken.
#[derive(Drop)]
pub struct Groups<'a> {
    lines: Lines<'a>,
    taken: usize,
}

impl<'a> Groups<'a> {
    // All groups of a text.
    pub fn all(text: &'a [u8]) -> Groups<'a>
        ensures { text_left result.lines ≡ text.now }
    {
        Groups {
            lines: Lines::from(text),
            taken: 0,
        }
    }

    // Whether no line is left.
    pub fn is_empty(&self) -> bool {
        self.lines.rest.is_empty()
    }

    // The list of the next line, whose first word is to be this name.
    fn list(&mut self, heap: Global, name: &str) -> Result<Vec<u32>, Stop>
        ensures list { IfOk result (λ v. list_in name.now (next_line (text_left self.old.lines)) ≡ Some v.items) }
        ensures left { text_left self.new.lines ≡ behind_line (text_left self.old.lines) }
        ensures less { OnOk result (length (text_left self.new.lines) < length (text_left self.old.lines)) }
    {
        self.taken = self.taken.saturating_add(1);
        let line = self.lines.next().ok_or(Stop::Missing(self.taken))?;
        numbers_of(heap, line, name)?.ok_or(Stop::NotUnderstood(self.taken))
    }

    // The group of the next three lines.
    pub fn group(&mut self, heap: Global) -> Result<Group, Stop>
        ensures group { IfOk result (λ g. ReadGroup (text_left self.old.lines) g) }
        ensures less { OnOk result (length (text_left self.new.lines) < length (text_left self.old.lines)) }
    {
        let quantities = self.list(heap, "quantities")?;
        let prices = self.list(heap, "prices")?;
        let challenges = self.list(heap, "challenges")?;
        Ok(Group {
            quantities,
            prices,
            challenges,
        })
    }
}
