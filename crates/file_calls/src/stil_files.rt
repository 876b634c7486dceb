//! STIL files of patterns, and what is read of them.
ghost use Rattle.netlist.specs.Designs.{IsDesign};

use crate::setups::{Setup, set_up};
use crate::vectors::push_vectors;
use case_nets::{all_drawn, patterns_of as patterns_named};
use case_text::{Args, Pushed, Said, cut, cut_at, number, push_checksum, show, small};
use cubes::Pattern;
use netlist::Core;
use rand_pcg::Pcg32;
use std::alloc::{AllocError, Global};
use stil_patterns::{applied_patterns, are_patterns, patterns_of, stil_of};
use stil_read::{StilFault, read_stil};
use stil_write::{StilFile, write_stil};

/// Adds patterns, a blank before each.
fn push_patterns(to: &mut Said, patterns: &[Pattern]) {
    to.push("patterns");
    for pattern in patterns {
        to.push(" ");
        to.push_bits(pattern.inputs());
        to.push("/");
        to.push_bits(pattern.cells());
    }
    to.push("\n");
}

/// Adds the patterns of which the text is the file.
fn push_exact(to: &mut Said, setup: &Setup<'_>, file: &StilFile) -> Pushed {
    match patterns_of(to.alloc, setup.core, &setup.chains, file, &setup.holds) {
        Ok(Some(patterns)) => push_patterns(to, &patterns),
        Ok(None) => to.push("no patterns\n"),
        Err(_) => return Err(AllocError),
    }
    Ok(())
}

/// Adds the patterns that a file applies, whatever it strobes.
fn push_found(to: &mut Said, setup: &Setup<'_>, file: &StilFile) -> Pushed {
    let netlist = setup.core.netlist();
    match applied_patterns(to.alloc, netlist, &setup.chains, &setup.holds, file) {
        Ok(patterns) => push_patterns(to, &patterns),
        Err(_) => return Err(AllocError),
    }
    Ok(())
}

/// Adds the patterns of a text: those of which it is the file, or those that it applies.
fn push_read(to: &mut Said, setup: &Setup<'_>, text: &[u8], is_exact: bool) -> Pushed {
    match read_stil(to.alloc, text) {
        Ok(file) => {
            if is_exact {
                push_exact(to, setup, &file)
            } else {
                push_found(to, setup, &file)
            }
        }
        Err(StilFault::NotStil) => {
            to.push("not stil\n");
            Ok(())
        }
        Err(StilFault::NoMemory) => Err(AllocError),
    }
}

/// `applied STIL CHAINS HELD`: the patterns of the netlist that the file applies.
pub fn push_applied(to: &mut Said, core: &Core, args: &Args<'_>, text: &[u8]) -> Pushed
    requires { IsDesign core.now }
{
    let setup = set_up(to.alloc, core, args.second, args.last)?;
    push_read(to, &setup, text, false)
}

/// A text with another word where a word stands last.
fn with_other(alloc: Global, text: &[u8], old: &str, new: &str) -> Result<Vec<u8>, AllocError> {
    let whole = str::from_utf8(text).unwrap_or("");
    let (before, behind) = whole.rsplit_once(old).unwrap_or((whole, ""));
    let mut other = Said::new(alloc);
    other.push(before);
    other.push(new);
    other.push(behind);
    other.end()
}

/// Adds the file and what is read of it, or what is read of it once a word is another.
fn push_written(
    to: &mut Said,
    setup: &Setup<'_>,
    file: &StilFile,
    other: Option<(&str, &str)>,
) -> Pushed {
    let text = write_stil(to.alloc, file)?;
    let Some((old, new)) = other else {
        show(to, &text);
        return push_read(to, setup, &text, true);
    };
    let text = with_other(to.alloc, &text, old, new)?;
    push_read(to, setup, &text, true)
}

/// The same of the file of patterns, if they are patterns that obey.
fn push_file(
    to: &mut Said,
    setup: &Setup<'_>,
    patterns: &[Pattern],
    other: Option<(&str, &str)>,
) -> Pushed {
    if !are_patterns(setup.core.netlist(), &setup.holds, patterns) {
        to.push("no patterns that obey\n");
        return Ok(());
    }
    match stil_of(to.alloc, setup.core, &setup.chains, patterns, &setup.holds) {
        Ok(file) => push_written(to, setup, &file, other),
        Err(_) => Err(AllocError),
    }
}

/// `drawn-stil CHAINS SEED COUNT`: the checksum of the file of so many drawn patterns and of what is read of it.
pub fn push_drawn_file(to: &mut Said, core: &Core, args: &Args<'_>) -> Pushed
    requires { IsDesign core.now }
{
    let mut random = Pcg32::new(number(args.second), 54);
    let patterns = all_drawn(to.alloc, core, small(args.last), &mut random)?;
    let setup = set_up(to.alloc, core, args.first, "-")?;
    let mut said = Said::new(to.alloc);
    push_file(&mut said, &setup, &patterns, None)?;
    push_checksum(to, "", &said.end()?);
    Ok(())
}

/// `vectors CHAINS HELD: PATTERNS`: the vectors of patterns.
/// `stil CHAINS HELD: PATTERNS`: the file of patterns, and of which patterns its text is read as the file.
/// `stil-but CHAINS HELD OLD NEW: PATTERNS`: of which patterns the text is read as the file once a word is another where it stands last.
pub fn push_stil(to: &mut Said, core: &Core, verb: &str, text: &str) -> Pushed
    requires { IsDesign core.now }
{
    let (head, texts) = cut_at(text, ": ");
    let args = Args::of(head);
    let setup = set_up(to.alloc, core, args.first, args.second)?;
    let patterns = patterns_named(to.alloc, core, texts)?;
    match verb {
        "vectors" => push_vectors(to, &setup, &patterns),
        "stil" => push_file(to, &setup, &patterns, None),
        _ => push_file(to, &setup, &patterns, Some(cut(args.last))),
    }
}
