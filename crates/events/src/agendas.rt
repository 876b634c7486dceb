//! Agendas: the places at which something waits, the least of which comes next.
ghost use Rattle.std.specs.Prelude.{◌≡◌, ◌<◌, ◌≤◌, ◌↔◌, true, false, length, slice_set, IsTrue, MatchOption, IfOk};
ghost use Rattle.netlist.specs.Conditions.{most_signals};
ghost use Rattle.events.specs.Agendas.{IsFirst, AreClear};

use crate::bitmaps::{first_word, least_in, no_words, put, sum_up, take_out};
use std::alloc::{AllocError, Global};
use std::marker::Model;

/// A set of places below a bound: a bit for each, a bit for each word of these that isn't 0, and again.
#[derive(Drop)]
pub struct Agenda {
    bound: usize,
    fine: Vec<u64>,
    middle: Vec<u64>,
    coarse: Vec<u64>,
}

impl Model for Agenda {
    ghost use Rattle.std.specs.Prelude.{Bool, List};
    ghost use Rattle.events.specs.inner.Bitmaps.{bits_from, AreLevels};

    ghost Value = { List Bool };

    ghost view = { λ a. bits_from a.fine.items 0 a.bound };

    ghost invariant = { λ a. AreLevels a.bound a.fine.items a.middle.items a.coarse.items };
}

impl Agenda {
    /// An agenda without a place. Only this call takes memory.
    pub fn new(alloc: Global, bound: usize) -> Result<Agenda, AllocError>
        requires { bound ≤ most_signals }
        ensures size { IfOk result (λ a. length a ≡ bound) }
        ensures clear { IfOk result AreClear }
    {
        Ok(Agenda {
            bound,
            fine: no_words(alloc, bound / 64 + 1)?,
            middle: no_words(alloc, bound / 4096 + 1)?,
            coarse: no_words(alloc, bound / 262144 + 1)?,
        })
    }

    /// Marks a place.
    #[inline(always)]
    pub fn insert(&mut self, place: usize)
        requires { place < length self.old }
        ensures { self.new ≡ slice_set self.old place true }
    {
        put(&mut self.fine, place);
        put(&mut self.middle, place / 64);
        put(&mut self.coarse, place / 4096);
    }

    /// Takes the mark from the least place that has one.
    #[inline(always)]
    pub fn take_least(&mut self) -> Option<usize>
        ensures least { MatchOption result (AreClear self.old) (IsFirst self.old) }
        ensures taken { MatchOption result (self.new ≡ self.old) (λ place. self.new ≡ slice_set self.old place false) }
    {
        let Some(first) = first_word(&self.coarse) else {
            return None;
        };
        let high = least_in(&self.coarse, first);
        let word = least_in(&self.middle, high);
        let place = least_in(&self.fine, word);
        take_out(&mut self.fine, place);
        sum_up(&mut self.middle, &self.fine, word);
        sum_up(&mut self.coarse, &self.middle, high);
        Some(place)
    }

    /// The least place that has a mark.
    pub fn least(&self) -> Option<usize>
        ensures { MatchOption result (AreClear self.now) (IsFirst self.now) }
    {
        let Some(first) = first_word(&self.coarse) else {
            return None;
        };
        let high = least_in(&self.coarse, first);
        let word = least_in(&self.middle, high);
        Some(least_in(&self.fine, word))
    }

    /// Whether no place has a mark.
    pub fn is_empty(&self) -> bool
        ensures { IsTrue result ↔ AreClear self.now }
    {
        self.least().is_none()
    }

    /// Takes the marks from all places.
    pub fn clear(&mut self)
        ensures size { length self.new ≡ length self.old }
        ensures clear { AreClear self.new }
    {
        self.fine.fill(0);
        self.middle.fill(0);
        self.coarse.fill(0);
    }
}
