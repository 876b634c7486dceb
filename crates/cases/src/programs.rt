//! The two programs as calls, each alone in its function.
ghost use Rattle.std.specs.Thread.{IsSync};

use crate::meeting::Meeting;
use atpg_top::top;
use case_runs::{Program, Ran, Runner};
use check_command::check_top;
use outside::{Gate, OpenGate};
use std::alloc::Global;
use std::sync::Wait;
use std::thread::Threads;

fn run_whole<R: Threads + Wait + Sync, G: Gate + Sync>(
    rt: &R,
    alloc: Global,
    words: &[String],
    ran: &mut Ran,
    stage: &G,
) {
    ran.status = top(
        rt,
        alloc,
        words,
        &mut ran.shelf,
        &mut ran.out,
        &mut ran.err,
        stage,
    );
}

fn run_meeting<R: Threads + Wait + Sync>(rt: &R, alloc: Global, words: &[String], ran: &mut Ran) {
    let stage = Meeting::new();
    run_whole(rt, alloc, words, ran, &stage);
    ran.has_met = stage.went_well();
}

fn run_check(alloc: Global, words: &[String], ran: &mut Ran) {
    ran.status = check_top(alloc, words, &mut ran.shelf, &mut ran.out, &mut ran.err);
}

/// Runs the programs with the threads of this runtime.
#[derive(Drop)]
pub struct Both<'a, R> {
    pub rt: &'a R,
}

impl<R: Threads + Wait + Sync> Runner for Both<'_, R> {
    ghost ready = { λ _. IsSync R.row };

    fn run(&self, alloc: Global, program: Program, words: &[String], ran: &mut Ran) {
        match program {
            Program::Whole => run_whole(self.rt, alloc, words, ran, &OpenGate),
            Program::Meeting => run_meeting(self.rt, alloc, words, ran),
            Program::Check => run_check(alloc, words, ran),
        }
    }
}
