//! The names of the files that a request reads and writes.
ghost use Rattle.std.specs.Prelude.{◌≡◌, ◌++◌, IfOk, OnOk, option_map};
ghost use Rattle.std.specs.List.{find, list_any};
ghost use Rattle.std.specs.Option.{option_to_list};
ghost use Rattle.std.specs.Str.{bytes_eq};
ghost use Rattle.commands.specs.Names.{file_name_of, file_names_of};
ghost use Rattle.command_line.specs.CommandLine.{IsInRange, command_line_of, grade_file, if_nameless, is_nameless, nameless_prefix, run_reads, scan_reads, stil_file, written_over};
ghost use Rattle.command_line.specs.inner.Files.{AreNamed, IsNamed};

use crate::WordsRefusal;
use crate::requests::{Request, RunNames};
use commands::{FileName, file_names, is_among};
use std::alloc::{AllocError, Global};

// Whether files whose names begin so have none of their own.
fn is_nameless(prefix: &str) -> bool
    ensures { result ≡ is_nameless prefix.now }
{
    prefix.is_empty() || prefix.ends_with("/")
}

fn if_nameless<'a>(prefix: &'a str) -> Option<&'a str>
    ensures { option_map (λ t. t.now) result ≡ if_nameless prefix.entry.now }
{
    if is_nameless(prefix) {
        Some(prefix)
    } else {
        None
    }
}

// What the names of the files begin with that a request writes, where that leaves them nameless.
fn nameless_prefix<'a>(request: &Request<'a>) -> Option<&'a str>
    ensures { option_map (λ t. t.now) result ≡ nameless_prefix (command_line_of request.now) }
{
    match request {
        Request::Run { names, .. } => if_nameless(names.prefix),
        Request::Transition { prefix, .. } => if_nameless(prefix),
        Request::Grade { prefix, .. } => if_nameless(prefix),
        _ => None,
    }
}

/// The name of the file of grades.
pub fn grade_name<'a>(prefix: &'a str) -> FileName<'a>
    ensures { file_name_of result ≡ grade_file prefix.entry.now }
{
    FileName {
        given: prefix,
        ending: ".grade",
    }
}

// The name of a STIL file, by itself or by what stands before its ending.
fn stil_name<'a>(given: &'a str) -> FileName<'a>
    ensures { file_name_of result ≡ stil_file given.entry.now }
{
    if given.ends_with(".stil") {
        FileName::of(given)
    } else {
        FileName {
            given,
            ending: ".stil",
        }
    }
}

// Puts a name behind others, where it is given.
fn push_given<'a>(
    names: &mut Vec<FileName<'a>>,
    name: Option<FileName<'a>>,
) -> Result<(), AllocError>
    ensures { OnOk result (file_names_of names.new.items ≡ file_names_of names.old.items ++ option_to_list (option_map file_name_of name.entry)) }
{
    if let Some(name) = name {
        names.push(name)?;
    }
    Ok(())
}

/// The names of the files that `scan` reads, in order.
pub fn scan_reads<'a>(
    alloc: Global,
    net: &'a str,
    order: Option<&'a str>,
) -> Result<Vec<FileName<'a>>, AllocError>
    ensures { IfOk result (λ reads. file_names_of reads.items ≡ scan_reads net.entry.now (option_map (λ t. t.now) order.entry)) }
{
    let mut reads = Vec::new(alloc);
    reads.push(FileName::of(net))?;
    push_given(&mut reads, order.map(FileName::of))?;
    Ok(reads)
}

/// The names of the files that `run` reads, in order.
pub fn run_reads<'a>(alloc: Global, names: RunNames<'a>) -> Result<Vec<FileName<'a>>, AllocError>
    ensures { IfOk result (λ reads. file_names_of reads.items
        ≡ run_reads names.entry.net.now (option_map (λ t. t.now) names.entry.order) (option_map (λ t. t.now) names.entry.list) (option_map (λ t. t.now) names.entry.first)) }
{
    let mut reads = Vec::new(alloc);
    reads.push(FileName::of(names.net))?;
    push_given(&mut reads, names.order.map(FileName::of))?;
    push_given(&mut reads, names.list.map(FileName::of))?;
    push_given(&mut reads, names.first.map(stil_name))?;
    Ok(reads)
}

// The first of these names that is one of those.
fn first_among<'a>(names: &[FileName<'a>], written: &[FileName<'_>]) -> Option<FileName<'a>>
    ensures { option_map file_name_of result ≡ find (λ t. list_any (bytes_eq t) (file_names_of written.now)) (file_names_of names.now) }
{
    for name in names {
        if is_among(name, written) {
            return Some(*name);
        }
    }
    None
}

// The first file that a request reads and would write over.
fn written_over<'a>(
    alloc: Global,
    request: &Request<'a>,
) -> Result<Option<FileName<'a>>, AllocError>
    ensures { IfOk result (λ name. option_map file_name_of name ≡ written_over (command_line_of request.now)) }
{
    match request {
        Request::Scan {
            net,
            out,
            order,
            ..
        } => {
            let reads = scan_reads(alloc, net, *order)?;
            Ok(first_among(reads.as_slice(), &[FileName::of(out)]))
        }
        Request::Run { names, .. } => {
            let reads = run_reads(alloc, *names)?;
            Ok(first_among(reads.as_slice(), &file_names(names.prefix)))
        }
        Request::Transition { net, prefix, .. } => {
            Ok(first_among(&[FileName::of(net)], &file_names(prefix)))
        }
        Request::Grade {
            net,
            stil,
            prefix,
            ..
        } => {
            let reads = [FileName::of(net), FileName::of(stil)];
            Ok(first_among(&reads, &[grade_name(prefix)]))
        }
        _ => Ok(None),
    }
}

// What is wrong with the names of a request's files: the prefix first.
fn refusal_of<'a>(alloc: Global, request: &Request<'a>) -> Option<WordsRefusal<'a>>
    ensures { AreNamed (command_line_of request.now) result }
{
    if let Some(prefix) = nameless_prefix(request) {
        return Some(WordsRefusal::BadPrefix(prefix));
    }
    match written_over(alloc, request) {
        Ok(Some(name)) => Some(WordsRefusal::WritesOver(name)),
        Ok(None) => None,
        Err(_) => Some(WordsRefusal::NoMemory),
    }
}

/// The request, if the names of its files are in order.
pub(crate) fn with_files<'a>(
    alloc: Global,
    request: Request<'a>,
) -> Result<Request<'a>, WordsRefusal<'a>>
    ensures line { IsNamed (command_line_of request.entry) result }
    ensures in_range { IsInRange request.entry → IfOk result IsInRange }
{
    match refusal_of(alloc, &request) {
        Some(refusal) => Err(refusal),
        None => Ok(request),
    }
}
