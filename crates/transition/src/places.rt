//! Which trees of a batch keep FAN's rule on a line's own two frames.
//!
//! FAN splits on places alone: fanout stems, and free signals that something bound, a cell or an output reads (head lines). On the netlist of a batch
//! more signals are places, since each slow line reads its signal once more. So the roles of the two frames with no slow line are kept, made once, and
//! a line's own three gates are added in thought:
//!
//! - Its signal of the first frame has one reader more, so what reads that signal is bound. What is bound whatever the line has that effect anyway; the
//!   rest is a chain of gates, each the only reader of the one before it.
//! - Its readers in the second frame are reached from the fault. Where they aren't bound whatever the line, there is one, and again a chain.
//! - Its signal of the second frame is read by the gate that makes it late, which is bound; by that gate alone, if the line is a stem.
//!
//! Cells are never bound, and inputs only where they are held, at which nothing splits. What a tie cell or a held input reaches counts as bound here, and
//! so as no place but where it is a stem: such a tree may be refused that keeps the rule, and its line is searched once more than it had to be.
//!
//! The alternatives are the roles on each line's own frames, which cost a netlist for each line, and to search each such line on them, which costs more.
//! A tree with an Open isn't taken at all: whether the search could have ended there depends on the head lines too.
ghost use Rattle.netlist.specs.Designs.{IsDesign};
ghost use Rattle.netlist.specs.Holds.{AreHoldsOf};
ghost use Rattle.netlist.specs.Lines.{IsLineOf};
ghost use Rattle.statement.specs.Netlists.{signals};
ghost use Rattle.std.specs.Prelude.{◌≡◌, ◌<◌, ◌≤◌, length};

use crate::cores::batch_core;
use evidence::Found;
use head_lines::{Role, is_gate, roles_of};
use netlist::{Core, Fault, Holds, Line, Netlist, NoMemory, SignalId};
use redundancy_cert::Node;
use std::alloc::{AllocError, Global};
use transition_frames::source_of;

/// A signal of the two frames with no slow line.
#[derive(Clone, Copy)]
struct Signal {
    role: Role,
    readers: usize,
    /// The gate, free as well, that alone reads what is free and no head line.
    above: Option<SignalId>,
}

/// The signals of the two frames with no slow line, by number; none where these can't be made, and no tree is taken then.
#[derive(Drop)]
pub(crate) struct PlaceRule {
    signals: Vec<Signal>,
}

/// The numbers that a slow line's signal has in the two frames.
#[derive(Clone, Copy)]
struct SlowLine {
    first: usize,
    second: usize,
    is_stem: bool,
}

fn gate_above(role: Role, readers: &[Line]) -> Option<SignalId> {
    match (role, readers.first()) {
        (Role::Inner, Some(Line::Pin(z, _))) => Some(*z),
        _ => None,
    }
}

/// The signals of a netlist, where these are their roles.
fn signals_of(alloc: Global, netlist: &Netlist, roles: &[Role]) -> Result<Vec<Signal>, AllocError>
    requires { length roles.now ≡ length (signals netlist.now) }
{
    netlist.sound();
    let mut signals = Vec::with_capacity(alloc, roles.len())?;
    for x in 0..roles.len() {
        let readers = netlist.readers(SignalId(x as u32));
        signals.push(Signal {
            role: roles[x],
            readers: readers.len(),
            above: gate_above(roles[x], readers),
        })?;
    }
    Ok(signals)
}

fn slow_line(netlist: &Netlist, fault: &Fault) -> SlowLine
    requires design { IsDesign netlist.now }
    requires line { IsLineOf netlist.now fault.now.line }
{
    netlist.sound();
    let first = source_of(netlist, &fault.line).index();
    let second = if first < netlist.inputs().len() {
        first
    } else {
        first + netlist.definitions().len()
    };
    SlowLine {
        first,
        second,
        is_stem: matches!(&fault.line, Line::Stem(_)),
    }
}

/// Whether two or more lines read a signal.
fn is_fanout(slow: &SlowLine, x: usize, signal: &Signal) -> bool {
    if x == slow.first {
        return signal.readers > 0 || x == slow.second;
    }
    signal.readers > 1 && !(slow.is_stem && x == slow.second)
}

/// That of slow lines on this netlist of the two frames.
fn rule_on(alloc: Global, core: &Core, holds: &Holds) -> Result<PlaceRule, NoMemory>
    requires { AreHoldsOf core.now holds.now }
{
    // A stuck output binds nothing.
    let nowhere = Fault {
        line: Line::Out(SignalId(0)),
        value: false,
    };
    let roles = roles_of(alloc, core, &nowhere, holds)?;
    let signals = signals_of(alloc, core.netlist(), &roles)?;
    Ok(PlaceRule { signals })
}

impl PlaceRule {
    /// That of a design's slow lines under held inputs.
    #[tactic(auto, using(crate::proofs::BatchLemmas::held_in_batch))]
    pub(crate) fn of(alloc: Global, netlist: &Netlist, holds: &Holds) -> Result<PlaceRule, NoMemory>
        requires design { IsDesign netlist.now }
        requires holds { AreHoldsOf netlist.now holds.now }
    {
        match batch_core(alloc, netlist, &[])? {
            Some(core) => rule_on(alloc, &core, holds),
            None => Ok(PlaceRule {
                signals: Vec::new(alloc),
            }),
        }
    }

    /// Whether a signal stands in the chain of only readers that begins behind another.
    fn is_above(&self, x: usize, start: usize) -> bool {
        let mut at = start;
        for _step in 0..self.signals.len() {
            let Some(
                Signal {
                    above: Some(next),
                    ..
                },
            ) = self.signals.get(at)
            else {
                return false;
            };
            at = next.index();
            if at == x {
                return true;
            }
        }
        false
    }

    fn is_bound(&self, slow: &SlowLine, x: usize, signal: &Signal) -> bool {
        matches!(signal.role, Role::Bound)
            || self.is_above(x, slow.first)
            || self.is_above(x, slow.second)
    }

    /// Whether what is free is a head line, being read as it is.
    fn has_end(&self, slow: &SlowLine, x: usize, signal: &Signal) -> bool {
        if x == slow.first || x == slow.second || matches!(signal.role, Role::Head) {
            return true;
        }
        match signal.above {
            Some(gate) => {
                self.is_above(gate.index(), slow.first) || self.is_above(gate.index(), slow.second)
            }
            None => false,
        }
    }

    fn may_split(&self, slow: &SlowLine, x: usize) -> bool {
        let Some(signal) = self.signals.get(x) else {
            return false;
        };
        is_fanout(slow, x, signal)
            || self.has_end(slow, x, signal) && !self.is_bound(slow, x, signal)
    }

    fn may_force(&self, slow: &SlowLine, x: usize) -> bool {
        let Some(signal) = self.signals.get(x) else {
            return false;
        };
        self.has_end(slow, x, signal) || self.is_bound(slow, x, signal)
    }

    fn may_stand(&self, slow: &SlowLine, node: &Node) -> bool {
        match node {
            Node::Closed | Node::Open => true,
            Node::Split(x) => self.may_split(slow, x.index()),
            Node::Forced(x, _) => self.may_force(slow, x.index()),
        }
    }

    fn may_stand_all(&self, slow: &SlowLine, nodes: &[Node]) -> bool {
        for node in nodes {
            if !self.may_stand(slow, node) {
                return false;
            }
        }
        true
    }

    /// Whether an answer of a batch keeps the rule on a line's own frames.
    pub(crate) fn keeps(&self, netlist: &Netlist, fault: &Fault, found: &Found) -> bool
        requires design { IsDesign netlist.now }
        requires line { IsLineOf netlist.now fault.now.line }
    {
        let slow = slow_line(netlist, fault);
        match found {
            Found::Test(_, _) => true,
            Found::Closed(tree) => self.may_stand_all(&slow, tree.nodes()),
            Found::Refuted(_) | Found::Partial(_) => false,
        }
    }
}
