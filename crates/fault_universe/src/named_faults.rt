//! Faults by their texts.
ghost use Rattle.std.specs.Prelude.{◌≡◌, ◌≢◌, ◌^◌, ◌<◌, ◌↔◌, ◌++◌, ◌∷◌, ℕ, Bool, List, IfSome, IsTrue, MatchOption, Some, codes, decimal, length, slice_get};
ghost use Rattle.std.specs.List.{All, Contains};
ghost use Rattle.statement.specs.declared.lines.Line.TheVariants.{Pin, Out};
ghost use Rattle.statement.specs.Netlists.{signals};
ghost use Rattle.netlist.specs.Conditions.{IsSound};
ghost use Rattle.fault_universe.specs.Universe.{all_lines};
ghost use Rattle.statement.specs.Faults.{universe_of, fault_text, value_text};
ghost use Rattle.fault_universe.specs.inner.Written.{IsLineNamed};
ghost use Rattle.netlist.specs.Lines.{signal_of};

use crate::fault_sets::branches;
use crate::signal_names::SignalNames;
use netlist::{Fault, Line, Netlist, SignalId};
use plain_text::split_at;

/// What every netlist is.
fn sound<N: SignalNames>(names: &N)
    ensures { IsSound (N.named names.now) }
{
    names.netlist().sound();
}

/// The number that is written so.
fn number(digits: &[u8]) -> Option<u32>
    ensures within { IfSome result (λ k. k < 2 ^ 32) }
    ensures cases { MatchOption result ((k : ℕ) → k < 2 ^ 32 → digits.now ≢ decimal k) (λ k. digits.now ≡ decimal k) }
{
    let Some(number) = plain_text::number(digits) else {
        return None;
    };
    if number <= u32::MAX as u64 {
        Some(number as u32)
    } else {
        None
    }
}

/// The stem that is written so, behind `stem `.
fn stem_named<N: SignalNames>(names: &N, name: &[u8]) -> Option<Line>
    ensures { IsLineNamed (N.named names.now) (codes "stem " ++ name.now) result }
{
    sound(names);
    match names.signal(name) {
        Some(x) => Some(Line::Stem(x)),
        None => None,
    }
}

/// The output that is written so, behind `out `.
fn out_named<N: SignalNames>(names: &N, name: &[u8]) -> Option<Line>
    ensures { IsLineNamed (N.named names.now) (codes "out " ++ name.now) result }
{
    sound(names);
    match names.signal(name) {
        Some(y) => Some(Line::Out(y)),
        None => None,
    }
}

/// The pin that is written so, behind `pin `.
fn pin_named<N: SignalNames>(names: &N, text: &[u8]) -> Option<Line>
    ensures { IsLineNamed (N.named names.now) (codes "pin " ++ text.now) result }
{
    sound(names);
    let Some(parts) = split_at(text, b' ') else {
        return None;
    };
    let Some(z) = names.signal(parts.0) else {
        return None;
    };
    match number(parts.1) {
        Some(k) => Some(Line::Pin(z, k)),
        None => None,
    }
}

/// The line that is written so, whether or not the netlist has it.
fn line_named<N: SignalNames>(names: &N, text: &[u8]) -> Option<Line>
    ensures { IsLineNamed (N.named names.now) text.now result }
{
    if let Some(name) = text.strip_prefix(b"stem ") {
        return stem_named(names, name);
    }
    if let Some(name) = text.strip_prefix(b"out ") {
        return out_named(names, name);
    }
    if let Some(pin) = text.strip_prefix(b"pin ") {
        return pin_named(names, pin);
    }
    None
}

/// A line's text and the value that it is stuck at.
fn split_value(text: &[u8]) -> Option<(&[u8], bool)>
    ensures { MatchOption result ((line : List ℕ) (value : Bool) → text.now ≢ line ++ value_text value) (λ p. text.now ≡ p.0.now ++ value_text p.1) }
{
    if let Some(line) = text.strip_suffix(b"/0") {
        return Some((line, false));
    }
    if let Some(line) = text.strip_suffix(b"/1") {
        return Some((line, true));
    }
    None
}

/// Whether the netlist has a branch at this pin.
fn has_pin(netlist: &Netlist, z: SignalId, k: u32) -> bool
    requires { z < length (signals netlist.now) }
    ensures { IsTrue result ↔ Contains (all_lines netlist.now) (Pin z k) }
{
    netlist.sound();
    match netlist.pins(z).get(k as usize) {
        Some(x) => !branches(netlist, *x).is_empty(),
        None => false,
    }
}

/// Whether the netlist has a branch at this output.
fn has_out(netlist: &Netlist, y: SignalId) -> bool
    requires { y < length (signals netlist.now) }
    ensures { IsTrue result ↔ Contains (all_lines netlist.now) (Out y) }
{
    netlist.sound();
    match branches(netlist, y).last() {
        Some(reader) => reader.is(&Line::Out(y)),
        None => false,
    }
}

fn has_line(netlist: &Netlist, line: &Line) -> bool
    requires { signal_of line.now < length (signals netlist.now) }
    ensures { IsTrue result ↔ Contains (all_lines netlist.now) line.now }
{
    netlist.sound();
    match line {
        Line::Stem(_) => true,
        Line::Pin(z, k) => has_pin(netlist, *z, *k),
        Line::Out(y) => has_out(netlist, *y),
    }
}

fn has_named_line<N: SignalNames>(names: &N, line: &Line) -> bool
    requires { signal_of line.now < length (signals (N.named names.now)) }
    ensures { IsTrue result ↔ Contains (all_lines (N.named names.now)) line.now }
{
    has_line(names.netlist(), line)
}

/// The fault of the netlist that is written so. It takes no memory.
/// Over a netlist its names are passed over one by one; over an index of them it takes the same time however many there are.
pub fn fault_named<N: SignalNames>(names: &N, bytes: &[u8]) -> Option<Fault>
    ensures { MatchOption result (All (λ fault. fault_text (N.named names.now) fault ≢ bytes.now) (universe_of (N.named names.now))) (λ fault. Contains (universe_of (N.named names.now)) fault × (fault_text (N.named names.now) fault ≡ bytes.now)) }
{
    sound(names);
    let Some(parts) = split_value(bytes) else {
        return None;
    };
    let Some(line) = line_named(names, parts.0) else {
        return None;
    };
    if has_named_line(names, &line) {
        Some(Fault {
            line,
            value: parts.1,
        })
    } else {
        None
    }
}
