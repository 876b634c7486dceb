//! Answers that come one after another, the same ones shown together.
use case_text::Said;
use std::alloc::Global;

/// The numbers whose answers were added and are not shown yet: those from `from` on, which have this one answer.
#[derive(Drop)]
pub(crate) struct Groups {
    from: u64,
    next: u64,
    answer: Vec<u8>,
}

impl Groups {
    pub(crate) fn new(alloc: Global) -> Groups {
        Groups {
            from: 0,
            next: 0,
            answer: Vec::new(alloc),
        }
    }

    /// Shows the numbers that have been added and their answer.
    pub(crate) fn end(&self, to: &mut Said) {
        if self.from < self.next {
            to.push_number(self.from);
            to.push(" to ");
            to.push_number(self.next - 1);
            to.push(": ");
            to.push_bytes(&self.answer);
        }
    }

    /// Adds the answer of the next number.
    pub(crate) fn add(&mut self, to: &mut Said, answer: Vec<u8>) {
        if self.answer != answer {
            self.end(to);
            self.from = self.next;
            self.answer = answer;
        }
        self.next = self.next.saturating_add(1);
    }
}
