//! Trees, refutations and patterns of texts as evidence for a list of fault classes.
ghost use Rattle.std.specs.Prelude.{◌≤◌, IsTrue, IfOk, IfSome, vec_len};
ghost use Rattle.std.specs.List.{All};
ghost use Rattle.redundancy_cert.specs.Trees.{DecidesSignal};
ghost use Rattle.evidence.specs.declared.kinds.Evidence.TheVariants.{Tree as TreeOf};
ghost use Rattle.list_core.specs.Batches.{IsTrueBatch};
ghost use Rattle.list_core.specs.States.{MaySettle};
ghost use Rattle.word_sim.specs.Words.{HasWidthsOf};

use crate::topics::Topic;
use case_nets::{nodes_of, patterns_of};
use certificate::is_one_tree;
use cubes::Pattern;
use evidence::{Evidence, Refutation};
use list_core::{About, Claim, Left};
use netlist::NoMemory;
use redundancy_cert::{Tree, TreeFault, check_tree};
use refutation::Step;
use refutation_check::{RefutationFault, check_refutation};
use refutation_text::{TextFault, read_steps};
use std::alloc::{AllocError, Global};
use word_sim::{Batch, hits};

/// Whether the tree fits the claim's fault, and has as many closed ends as the limit where it leaves one open.
fn may_settle<J: About>(
    topic: &Topic<'_, J>,
    claim: &Claim<J>,
    tree: &Tree,
) -> Result<bool, AllocError>
    requires { All (DecidesSignal J.subject.netlist) tree.now }
    ensures { IfOk result (λ fits. IsTrue fits → MaySettle J.subject claim.now.fault (TreeOf tree.now)) }
{
    let fault = claim.fault();
    match check_tree(topic.alloc, topic.core, &fault, tree, topic.holds) {
        Ok(counts) => Ok(counts.left_open == 0 || counts.closed == u64::from(claim.limit())),
        Err(TreeFault::BadTree(_)) => Ok(false),
        Err(TreeFault::NoMemory) => Err(AllocError),
    }
}

/// The tree of a text, where it may settle the claim.
fn tree_for<J: About>(
    topic: &Topic<'_, J>,
    claim: &Claim<J>,
    text: &str,
) -> Result<Option<Evidence>, AllocError>
    ensures { IfOk result (λ found. IfSome found (MaySettle J.subject claim.now.fault)) }
{
    let nodes = nodes_of(topic.alloc, topic.core.netlist(), text)?;
    if !is_one_tree(&nodes) {
        return Ok(None);
    }
    let tree = Tree::new(nodes);
    if !may_settle(topic, claim, &tree)? {
        return Ok(None);
    }
    Ok(Some(Evidence::Tree(tree)))
}

/// The steps of a text, in which each semicolon is a comma, since semicolons part calls.
fn steps_of(alloc: Global, text: &str) -> Result<Option<Vec<Step>>, AllocError> {
    let mut bytes = Vec::with_capacity(alloc, text.len())?;
    for byte in text.bytes() {
        bytes.push(if byte == b',' { b';' } else { byte })?;
    }
    match read_steps(alloc, &bytes) {
        Ok(steps) => Ok(Some(steps)),
        Err(TextFault::NotSteps) => Ok(None),
        Err(TextFault::NoMemory) => Err(AllocError),
    }
}

/// The refutation of a text, where it is one of the claim's fault.
fn refutation_for<J: About>(
    topic: &Topic<'_, J>,
    claim: &Claim<J>,
    text: &str,
) -> Result<Option<Evidence>, AllocError>
    requires { IsTrue topic.now }
    ensures { IfOk result (λ found. IfSome found (MaySettle J.subject claim.now.fault)) }
{
    let Some(steps) = steps_of(topic.alloc, text)? else {
        return Ok(None);
    };
    let fault = claim.fault();
    match check_refutation(topic.alloc, topic.core, &fault, &steps, topic.holds) {
        Ok(()) => Ok(Some(Evidence::Refutation(Refutation::new(steps)))),
        Err(RefutationFault::BadStep(_) | RefutationFault::Unfinished) => Ok(None),
        Err(RefutationFault::NoMemory) => Err(AllocError),
    }
}

/// The evidence of a text, where it may settle the claim: a tree, or a refutation behind `R` where there may be one.
pub fn evidence_for<J: About>(
    topic: &Topic<'_, J>,
    claim: &Claim<J>,
    text: &str,
) -> Result<Option<Evidence>, AllocError>
    ensures { IfOk result (λ found. IfSome found (MaySettle J.subject claim.now.fault)) }
{
    match text.strip_prefix('R') {
        Some(steps) if topic.refutes => refutation_for(topic, claim, steps),
        _ => tree_for(topic, claim, text),
    }
}

/// These patterns, with what they hit of these classes.
fn batch_with<J: About>(
    topic: &Topic<'_, J>,
    left: &Left<J>,
    patterns: Vec<Pattern>,
) -> Result<Batch, AllocError>
    requires few { vec_len patterns ≤ 64 }
    requires wide { All (HasWidthsOf J.subject.netlist) patterns.items }
    ensures { IfOk result (IsTrueBatch J.subject) }
{
    match hits(topic.alloc, topic.core, &patterns, left.classes()) {
        Ok(hits) => Ok(Batch::new(patterns, hits)),
        Err(_) => Err(AllocError),
    }
}

/// The patterns of a text, at most 64, with what they hit of these classes.
fn batch_for<J: About>(
    topic: &Topic<'_, J>,
    left: &Left<J>,
    text: &str,
) -> Result<Option<Batch>, AllocError>
    ensures { IfOk result (λ batch. IfSome batch (IsTrueBatch J.subject)) }
{
    let patterns = patterns_of(topic.alloc, topic.core, text)?;
    if patterns.len() > 64 {
        return Ok(None);
    }
    match batch_with(topic, left, patterns) {
        Ok(batch) => Ok(Some(batch)),
        Err(_) => Err(AllocError),
    }
}

/// The same of classes for which there may have been no memory.
pub fn batch_of<J: About>(
    topic: &Topic<'_, J>,
    left: Result<Left<J>, NoMemory>,
    text: &str,
) -> Result<Option<Batch>, AllocError>
    ensures { IfOk result (λ batch. IfSome batch (IsTrueBatch J.subject)) }
{
    match left {
        Ok(left) => batch_for(topic, &left, text),
        Err(_) => Err(AllocError),
    }
}
