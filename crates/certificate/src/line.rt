//! A line: a fault and its evidence.
ghost use Rattle.std.specs.Prelude.{List, MatchOption, MatchResult};
ghost use Rattle.statement.specs.declared.lines.Fault.{Fault};
ghost use Rattle.redundancy_cert.specs.declared.nodes.Node.{Node};
ghost use Rattle.certificate.specs.Certificates.{IsCertFault, IsTextOf, NoText};
ghost use Rattle.certificate.specs.inner.Parts.{AreNodes, IsFaultAt, NoFaultAt, IsLineOf};
ghost use Rattle.certificate.specs.Words.{IsEnd};
ghost use Rattle.redundancy_cert.specs.Trees.{IsOneTree};
ghost use Rattle.refutation_text.specs.Texts.{AreSteps, NoSteps};
ghost use Rattle.evidence.specs.declared.kinds.Evidence.{Evidence};

use crate::node::node_at;
use crate::one_tree::is_one_tree;
use crate::reading::CertFault;
use crate::word::cut_fault;
use evidence::{Evidence, Refutation};
use fault_universe::fault_named;
use name_index::NameIndex;
use netlist::Fault;
use redundancy_cert::{Node, Tree};
use refutation_text::{TextFault, read_steps};
use std::alloc::Global;

/// The fault that a line begins with, and the text behind it.
fn fault_at<'a>(names: &NameIndex, line: &'a [u8]) -> Option<(Fault, &'a [u8])>
    ensures { MatchOption result (NoFaultAt names.now line.now) (λ p. IsFaultAt names.now line.now p.0 p.1.now) }
{
    names.netlist().sound();
    let Some(parts) = cut_fault(line) else {
        return None;
    };
    match fault_named(names, parts.0) {
        Some(fault) => Some((fault, parts.1)),
        None => None,
    }
}

/// The nodes that a text stands for.
fn read_nodes(alloc: Global, names: &NameIndex, text: &[u8]) -> Result<Vec<Node>, CertFault>
    requires { IsEnd text.now }
    ensures { MatchResult result (λ nodes. AreNodes names.now text.now nodes.items) (IsCertFault ((nodes : List Node) → ¬ AreNodes names.now text.now nodes)) }
{
    names.netlist().sound();
    let mut nodes = Vec::new(alloc);
    let mut rest = text;
    while !rest.is_empty() {
        let Some(next) = node_at(names, rest) else {
            return Err(CertFault::NotCertificate);
        };
        let Ok(()) = nodes.push(next.0) else {
            return Err(CertFault::NoMemory);
        };
        rest = next.1;
    }
    Ok(nodes)
}

/// The tree that a text stands for.
fn read_tree(alloc: Global, names: &NameIndex, text: &[u8]) -> Result<Tree, CertFault>
    requires { IsEnd text.now }
    ensures { MatchResult result (λ tree. AreNodes names.now text.now tree × IsOneTree tree) (IsCertFault ((nodes : List Node) → AreNodes names.now text.now nodes → ¬ IsOneTree nodes)) }
{
    names.netlist().sound();
    let nodes = read_nodes(alloc, names, text)?;
    if is_one_tree(&nodes) {
        Ok(Tree::new(nodes))
    } else {
        Err(CertFault::NotCertificate)
    }
}

/// The refutation whose steps a text stands for.
fn read_refutation(alloc: Global, text: &[u8]) -> Result<Refutation, CertFault>
    ensures { MatchResult result (AreSteps text.now) (IsCertFault (NoSteps text.now)) }
{
    match read_steps(alloc, text) {
        Ok(steps) => Ok(Refutation::new(steps)),
        Err(TextFault::NotSteps) => Err(CertFault::NotCertificate),
        Err(TextFault::NoMemory) => Err(CertFault::NoMemory),
    }
}

/// The evidence that a text stands for.
pub fn evidence_of(alloc: Global, names: &NameIndex, text: &[u8]) -> Result<Evidence, CertFault>
    requires { IsEnd text.now }
    ensures { MatchResult result (IsTextOf names.now text.now) (IsCertFault (NoText names.now text.now)) }
{
    if let Some(steps) = text.strip_prefix(b" R") {
        let refutation = read_refutation(alloc, steps)?;
        return Ok(Evidence::Refutation(refutation));
    }
    let tree = read_tree(alloc, names, text)?;
    Ok(Evidence::Tree(tree))
}

/// The fault and the evidence that a line stands for.
pub(crate) fn read_line(
    alloc: Global,
    names: &NameIndex,
    line: &[u8],
) -> Result<(Fault, Evidence), CertFault>
    ensures { MatchResult result (IsLineOf names.now line.now) (IsCertFault ((p : Fault × Evidence) → ¬ IsLineOf names.now line.now p)) }
{
    names.netlist().sound();
    let Some(fault) = fault_at(names, line) else {
        return Err(CertFault::NotCertificate);
    };
    let evidence = evidence_of(alloc, names, fault.1)?;
    Ok((fault.0, evidence))
}
