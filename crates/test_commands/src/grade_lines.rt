//! The text of a test's grades: how many stuck lines it detects, and then each line, and what the test tells of it.
ghost use Rattle.std.specs.Prelude.{◌≡◌, ◌<◌, ◌++◌, IfOk, OnOk, codes, count_by, decimal, length};
ghost use Rattle.std.specs.List.{All};
ghost use Rattle.netlist.specs.Lines.{signal_of};
ghost use Rattle.statement.specs.Netlists.{signals};
ghost use Rattle.statement.specs.declared.lines.Fault.{Fault as Stuck};
ghost use Rattle.test_commands.specs.Grades.{grade_counts, grade_line, grade_lines, grade_numbers, grade_text, grades_text, is_detected, is_undetected, is_unknown};
ghost use Rattle.test_commands.specs.inner.GradeTrials.{IsGradeOutput};

use crate::pins::Pins;
use command_steps::OneFile;
use fault_universe::{FaultSet, push_text};
use grade::Grade;
use itoa::Buffer;
use netlist::{Fault, Netlist, NoMemory};
use std::alloc::{AllocError, Global};

fn is_detected(grade: Grade) -> bool
    ensures { result ≡ is_detected grade }
{
    matches!(grade, Grade::Detected(_, _))
}

fn is_undetected(grade: Grade) -> bool
    ensures { result ≡ is_undetected grade }
{
    matches!(grade, Grade::Undetected)
}

fn is_unknown(grade: Grade) -> bool
    ensures { result ≡ is_unknown grade }
{
    matches!(grade, Grade::Unknown)
}

fn detected_count(grades: &[Grade]) -> usize
    ensures { result ≡ count_by is_detected grades.now }
{
    grades.iter().filter(|grade| is_detected(**grade)).count()
}

fn undetected_count(grades: &[Grade]) -> usize
    ensures { result ≡ count_by is_undetected grades.now }
{
    grades.iter().filter(|grade| is_undetected(**grade)).count()
}

fn unknown_count(grades: &[Grade]) -> usize
    ensures { result ≡ count_by is_unknown grades.now }
{
    grades.iter().filter(|grade| is_unknown(**grade)).count()
}

/// Adds a word and a number.
fn push_number(text: &mut Vec<u8>, word: &[u8], number: usize) -> Result<(), AllocError>
    ensures { OnOk result (text.new.items ≡ text.old.items ++ (word.now ++ decimal number)) }
{
    text.extend_from_slice(word)?;
    text.extend_from_slice(Buffer::new().format(number).as_bytes())?;
    Ok(())
}

/// Adds the line of counts.
fn push_numbers(
    text: &mut Vec<u8>,
    faults: usize,
    detected: usize,
    undetected: usize,
    unknown: usize,
) -> Result<(), AllocError>
    ensures { OnOk result (text.new.items ≡ text.old.items ++ grade_numbers faults detected undetected unknown) }
{
    push_number(text, b"faults ", faults)?;
    push_number(text, b" detected ", detected)?;
    push_number(text, b" undetected ", undetected)?;
    push_number(text, b" unknown ", unknown)?;
    text.extend_from_slice(b"\n")?;
    Ok(())
}

/// The line of counts.
fn counts_line(alloc: Global, grades: &[Grade]) -> Result<Vec<u8>, AllocError>
    ensures { IfOk result (λ line. line.items ≡ grade_counts grades.now) }
{
    let mut line = Vec::new(alloc);
    let detected = detected_count(grades);
    let undetected = undetected_count(grades);
    let unknown = unknown_count(grades);
    push_numbers(&mut line, grades.len(), detected, undetected, unknown)?;
    Ok(line)
}

/// Adds a cycle and the pin that is wrong there.
fn push_strobe(text: &mut Vec<u8>, cycle: u64, pin: &[u8]) -> Result<(), AllocError>
    ensures { OnOk result (text.new.items ≡ text.old.items ++ (codes " detected " ++ (decimal cycle ++ (codes " " ++ (pin.now ++ codes "\n"))))) }
{
    text.extend_from_slice(b" detected ")?;
    text.extend_from_slice(Buffer::new().format(cycle).as_bytes())?;
    text.extend_from_slice(b" ")?;
    text.extend_from_slice(pin)?;
    text.extend_from_slice(b"\n")?;
    Ok(())
}

/// Adds a grade, by pins of the scanned netlist.
fn push_grade(text: &mut Vec<u8>, pins: &Pins<'_>, grade: Grade) -> Result<(), AllocError>
    requires { IsGradeOutput pins.now grade }
    ensures { OnOk result (text.new.items ≡ text.old.items ++ grade_text pins.now grade) }
{
    match grade {
        Grade::Detected(cycle, output) => push_strobe(text, cycle, pins.name(output)),
        Grade::Undetected => text.extend_from_slice(b" undetected\n"),
        Grade::Unknown => text.extend_from_slice(b" unknown\n"),
    }
}

/// Adds the line of a fault of the design.
fn push_line(
    text: &mut Vec<u8>,
    design: &Netlist,
    pins: &Pins<'_>,
    fault: Fault,
    grade: Grade,
) -> Result<(), AllocError>
    requires signal { signal_of fault.line < length (signals design.now) }
    requires output { IsGradeOutput pins.now grade }
    ensures { OnOk result (text.new.items ≡ text.old.items ++ grade_line design.now pins.now fault grade) }
{
    push_text(text, design, fault)?;
    push_grade(text, pins, grade)
}

/// Adds a line for each fault of the design.
fn push_lines(
    text: &mut Vec<u8>,
    design: &Netlist,
    pins: &Pins<'_>,
    faults: &FaultSet,
    grades: &[Grade],
) -> Result<(), AllocError>
    requires size { length grades.now ≡ length faults.now }
    requires signals { All (λ (f : Stuck). signal_of f.line < length (signals design.now)) faults.now }
    requires outputs { All (IsGradeOutput pins.now) grades.now }
    ensures { OnOk result (text.new.items ≡ text.old.items ++ grade_lines design.now pins.now faults.now grades.now) }
{
    for i in 0..faults.len() {
        let grade = grades[i as usize];
        push_line(text, design, pins, faults.fault(i), grade)?;
    }
    Ok(())
}

/// The head of the text, and the line of counts.
fn begun(alloc: Global, line: &[u8]) -> Result<Vec<u8>, AllocError>
    ensures { IfOk result (λ text. text.items ≡ codes "atpg grade 1\n" ++ line.now) }
{
    let mut text = Vec::new(alloc);
    text.extend_from_slice(b"atpg grade 1\n")?;
    text.extend_from_slice(line)?;
    Ok(text)
}

/// The text of these grades of the design's faults, and the line of counts.
pub fn grade_texts(
    alloc: Global,
    design: &Netlist,
    scanned: &Netlist,
    faults: &FaultSet,
    grades: &[Grade],
) -> Result<OneFile, NoMemory>
    requires size { length grades.now ≡ length faults.now }
    requires signals { All (λ (f : Stuck). signal_of f.line < length (signals design.now)) faults.now }
    requires outputs { All (IsGradeOutput scanned.now) grades.now }
    ensures text { IfOk result (λ p. p.text.items ≡ grades_text design.now scanned.now faults.now grades.now) }
    ensures line { IfOk result (λ p. p.line.items ≡ grade_counts grades.now) }
{
    let line = counts_line(alloc, grades)?;
    let mut text = begun(alloc, line.as_slice())?;
    let pins = Pins::of(alloc, scanned)?;
    push_lines(&mut text, design, &pins, faults, grades)?;
    Ok(OneFile { text, line })
}
