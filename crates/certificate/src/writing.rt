//! Certificates as text.
ghost use Rattle.std.specs.Prelude.{◌≡◌, ◌<◌, ◌++◌, codes, length, IfOk, OnOk};
ghost use Rattle.std.specs.List.{All, flat_map};
ghost use Rattle.statement.specs.Netlists.{name_of};
ghost use Rattle.netlist.specs.Netlist.{signal_count};
ghost use Rattle.statement.specs.declared.lines.Fault.{Fault};
ghost use Rattle.evidence.specs.declared.kinds.Evidence.{Evidence};
ghost use Rattle.certificate.specs.Certificates.{node_text, evidence_text, evidence_line, certificate_text, HasSignal, HasSignals, HasSmallNumbers, IsNamed};

use crate::kinds::{first_line, has_refutation};
use evidence::Evidence;
use fault_universe::push_text;
use netlist::{Core, Fault, Netlist, NoMemory, SignalId};
use redundancy_cert::Node;
use refutation_text::push_steps;
use std::alloc::{AllocError, Global};

/// Adds a word and a signal's name.
fn push_signal(
    text: &mut Vec<u8>,
    netlist: &Netlist,
    word: &[u8],
    signal: SignalId,
) -> Result<(), AllocError>
    requires { signal < signal_count netlist.now }
    ensures { OnOk result (text.new.items ≡ text.old.items ++ (word.now ++ name_of netlist.now signal)) }
{
    text.extend_from_slice(word)?;
    text.extend_from_slice(netlist.name(signal))?;
    Ok(())
}

fn push_node(text: &mut Vec<u8>, netlist: &Netlist, node: &Node) -> Result<(), AllocError>
    requires { HasSignal netlist.now node.now }
    ensures { OnOk result (text.new.items ≡ text.old.items ++ node_text netlist.now node.now) }
{
    match node {
        Node::Closed => text.extend_from_slice(b" !"),
        Node::Open => text.extend_from_slice(b" ?"),
        Node::Split(x) => push_signal(text, netlist, b" S ", *x),
        Node::Forced(x, bit) => {
            push_signal(text, netlist, b" F ", *x)?;
            text.extend_from_slice(if *bit { b" 1" } else { b" 0" })
        }
    }
}

/// Adds the nodes of a tree, each behind a blank.
pub fn push_nodes(text: &mut Vec<u8>, netlist: &Netlist, nodes: &[Node]) -> Result<(), AllocError>
    requires { All (HasSignal netlist.now) nodes.now }
    ensures { OnOk result (text.new.items ≡ text.old.items ++ flat_map (node_text netlist.now) nodes.now) }
{
    for node in nodes {
        push_node(text, netlist, node)?;
    }
    Ok(())
}

/// Adds the nodes of a tree, or `R` and the steps of a refutation, each behind a blank.
pub fn push_evidence(
    text: &mut Vec<u8>,
    netlist: &Netlist,
    evidence: &Evidence,
) -> Result<(), AllocError>
    requires { HasSignals netlist.now evidence.now }
    ensures text { OnOk result (text.new.items ≡ text.old.items ++ evidence_text netlist.now evidence.now) }
    ensures within { OnOk result (HasSmallNumbers evidence.now) }
{
    match evidence {
        Evidence::Tree(tree) => push_nodes(text, netlist, tree.nodes()),
        Evidence::Refutation(refutation) => {
            text.extend_from_slice(b" R")?;
            push_steps(text, refutation.steps())
        }
    }
}

fn push_line(
    text: &mut Vec<u8>,
    netlist: &Netlist,
    fault: Fault,
    evidence: &Evidence,
) -> Result<(), AllocError>
    requires { IsNamed netlist.now (fault, evidence.now) }
    ensures text { OnOk result (text.new.items ≡ text.old.items ++ evidence_line netlist.now (fault, evidence.now)) }
    ensures within { OnOk result (HasSmallNumbers evidence.now) }
{
    push_text(text, netlist, fault)?;
    push_evidence(text, netlist, evidence)?;
    text.extend_from_slice(b"\n")?;
    Ok(())
}

fn push_lines(
    text: &mut Vec<u8>,
    netlist: &Netlist,
    evidence: &[(Fault, Evidence)],
) -> Result<(), AllocError>
    requires { All (IsNamed netlist.now) evidence.now }
    ensures text { OnOk result (text.new.items ≡ text.old.items ++ flat_map (evidence_line netlist.now) evidence.now) }
    ensures within { OnOk result (All (λ (p : Fault × Evidence). HasSmallNumbers p.1) evidence.now) }
{
    for pair in evidence {
        push_line(text, netlist, pair.0, &pair.1)?;
    }
    Ok(())
}

/// The certificate of this evidence, each with its fault, in this order.
pub fn write_evidence(
    alloc: Global,
    core: &Core,
    evidence: &[(Fault, Evidence)],
) -> Result<Vec<u8>, NoMemory>
    requires { All (IsNamed core.now) evidence.now }
    ensures text { IfOk result (λ text. text.items ≡ certificate_text core.now evidence.now) }
    ensures within { IfOk result (λ text. All (λ (p : Fault × Evidence). HasSmallNumbers p.1) evidence.now) }
{
    let mut text = Vec::new(alloc);
    let first = first_line(has_refutation(evidence));
    if text.extend_from_slice(first).is_err() {
        return Err(NoMemory);
    }
    match push_lines(&mut text, core.netlist(), evidence) {
        Ok(()) => Ok(text),
        Err(_) => Err(NoMemory),
    }
}
