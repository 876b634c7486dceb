//! The lines of the input, taken one by one.
ghost use Rattle.std.specs.Prelude.{⊤};

use crate::case::{Case, add_file, push_failing, showing_of};
use crate::checks;
use crate::files::put_text;
use crate::groups::Groups;
use crate::runs::{Program, Runner, run};
use crate::telling::{asked_of, push_answer, tell};
use case_text::{Named, Pushed, Said, Script, cut, play, text_of};
use std::alloc::{AllocError, Global};
use std::marker::Model;

/// Runs what a line asks, and adds what came.
fn push_ran<R: Runner>(to: &mut Said, runner: &R, case: &mut Case, line: &str) -> Pushed
    requires { R.ready runner.now }
{
    let asked = asked_of(line);
    let ran = run(runner, to.alloc, case, asked.program, asked.words)?;
    tell(to, case, &ran, &asked)
}

/// `twice WORDS`: adds whether two runs leave the same status and outputs.
fn push_twice<R: Runner>(to: &mut Said, runner: &R, case: &Case, line: &str) -> Pushed
    requires { R.ready runner.now }
{
    let words = cut(line).1;
    let first = run(runner, to.alloc, case, Program::Whole, words)?;
    let second = run(runner, to.alloc, case, Program::Whole, words)?;
    to.push_line(line);
    to.push_line(if first.is_as(&second) {
        "the same"
    } else {
        "not the same"
    });
    Ok(())
}

/// The status and the outputs of a run of the words with this text in place of a file's.
fn answer<R: Runner>(
    runner: &R,
    alloc: Global,
    case: &mut Case,
    name: &str,
    text: &[u8],
    words: &str,
) -> Result<Vec<u8>, AllocError>
    requires { R.ready runner.now }
{
    put_text(&mut case.files, name, text)?;
    let ran = run(runner, alloc, case, Program::Whole, words)?;
    let mut answer = Said::new(alloc);
    push_answer(&mut answer, case, &ran);
    answer.end()
}

fn push_answers<R: Runner>(
    to: &mut Said,
    runner: &R,
    case: &mut Case,
    name: &str,
    whole: &[u8],
    words: &str,
) -> Pushed
    requires { R.ready runner.now }
{
    let mut groups = Groups::new(to.alloc);
    for length in 0..whole.len() {
        let answer = answer(runner, to.alloc, case, name, &whole[..length], words)?;
        groups.add(to, answer);
    }
    groups.end(to);
    Ok(())
}

/// `cut NAME WORDS`: runs the words over each proper prefix of a file, in its place. Lengths one after another with one answer stand together.
fn push_cut<R: Runner>(to: &mut Said, runner: &R, case: &mut Case, line: &str) -> Pushed
    requires { R.ready runner.now }
{
    to.push_line(line);
    let (name, words) = cut(cut(line).1);
    let whole = Vec::from_slice(to.alloc, text_of(&case.files, name))?;
    push_answers(to, runner, case, name, &whole, words)?;
    put_text(&mut case.files, name, &whole)
}

/// Takes a line that tells of a case.
fn take(to: &mut Said, texts: &[Named], case: &mut Case, line: &str) -> Pushed {
    let (verb, rest) = cut(line);
    match verb {
        "file" => return add_file(&mut case.files, to.alloc, texts, rest),
        "shelf-fails" => return push_failing(&mut case.shelf, rest),
        "out-fails" => return push_failing(&mut case.out, rest),
        "err-fails" => return push_failing(&mut case.err, rest),
        "out-as" => case.out_as = showing_of(rest),
        "err-as" => case.err_as = showing_of(rest),
        "case" => {
            *case = Case::new(to.alloc);
            to.push("\n");
            to.push_line(line);
        }
        _ => return checks::take(to, texts, case, line),
    }
    Ok(())
}

/// Takes a line that isn't a text's.
fn take_any<R: Runner>(
    to: &mut Said,
    runner: &R,
    texts: &[Named],
    case: &mut Case,
    line: &str,
) -> Pushed
    requires { R.ready runner.now }
{
    match cut(line).0 {
        "run" | "keep" | "meet" | "check" => push_ran(to, runner, case, line),
        "twice" => push_twice(to, runner, case, line),
        "cut" => push_cut(to, runner, case, line),
        _ => take(to, texts, case, line),
    }
}

/// Each line tells of a case, or runs it.
#[derive(Drop)]
struct Cases<'a, R: Runner> {
    runner: &'a R,
    case: Case,
}

// Callers see nothing of it; so that `take`, to which a script may ask nothing, knows that its runner may run programs.
impl<'a, R: Runner> Model for Cases<'a, R> {
    ghost Value = { ⊤ };

    ghost view = { λ _. tt };

    ghost invariant = { λ cases. R.ready cases.runner.now };
}

impl<R: Runner> Script for Cases<'_, R> {
    fn take(&mut self, alloc: Global, texts: &[Named], line: &str) -> Result<Vec<u8>, AllocError> {
        let mut to = Said::new(alloc);
        take_any(&mut to, self.runner, texts, &mut self.case, line)?;
        to.end()
    }
}

/// What comes of an input on cases.
pub fn report<R: Runner>(alloc: Global, given: &str, runner: &R) -> Result<Vec<u8>, AllocError>
    requires { R.ready runner.now }
{
    let mut cases = Cases {
        runner,
        case: Case::new(alloc),
    };
    play(alloc, given, &mut cases)
}
