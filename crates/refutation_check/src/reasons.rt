//! Whether a reason can't be, where the signals may have these pairs.
ghost use Rattle.std.specs.Prelude.{◌≡◌, ◌<◌, ◌↔◌, length, IfOk, IsTrue, OnOk};
ghost use Rattle.std.specs.List.{All};
ghost use Rattle.refutation.specs.Refutations.{IsContradicted, IsLemmaBlocked, IsNever, IsNoneSo, clauses};
ghost use Rattle.refutation_check.specs.inner.Bases.{IsBasisOf};
ghost use Rattle.refutation_check.specs.inner.Reasons.{AreWithin};
ghost use Rattle.refutation_check.specs.inner.Trails.{Grows};

use crate::bases::Basis;
use crate::gates::is_gate_blocked;
use crate::images::told_at;
use crate::pair_sets::is_apart;
use crate::sets::Sets;
use crate::sweeps::leaves_nothing;
use refutation::{Literal, Pairs, Reason, Step};
use std::alloc::AllocError;

/// Whether the literal can't be.
fn is_never(told: &[Pairs], literal: &Literal) -> bool
    requires { literal.now.signal < length told.now }
    ensures { IsTrue result ↔ IsNever told.now literal.now }
{
    is_apart(told_at(told, literal.signal), literal.pairs)
}

/// Whether no literal of the clause can be.
fn is_none_so(told: &[Pairs], clause: &[Literal]) -> bool
    requires { AreWithin (length told.now) clause.now }
    ensures { IsTrue result ↔ IsNoneSo told.now clause.now }
{
    for k in 0..clause.len() {
        let never = is_never(told, &clause[k]);
        if !never {
            return false;
        }
    }
    true
}

/// Whether there is such a lemma, and no literal of it can be.
fn is_lemma_blocked(lemmas: &[Step], told: &[Pairs], k: u32) -> bool
    requires { All (AreWithin (length told.now)) (clauses lemmas.now) }
    ensures { IsTrue result ↔ IsLemmaBlocked (clauses lemmas.now) told.now k }
{
    let k = k as usize;
    if k >= lemmas.len() {
        return false;
    }
    is_none_so(told, lemmas[k].clause())
}

/// Whether the reason can't be.
pub(crate) fn is_contradicted(
    basis: &Basis<'_>,
    sets: &mut Sets,
    reason: &Reason,
) -> Result<bool, AllocError>
    requires { IsBasisOf sets.old basis.now }
    ensures grows { Grows sets.old sets.new }
    ensures same { OnOk result (sets.new ≡ sets.old) }
    ensures so { IfOk result (λ b. IsTrue b
        ↔ IsContradicted basis.now.netlist.now basis.now.fault.now (clauses basis.now.lemmas.now) sets.old.told reason.now) }
{
    let netlist = basis.netlist;
    let fault = basis.fault;
    match reason {
        Reason::Gate(id) => Ok(is_gate_blocked(netlist, fault, sets.told(), *id)),
        Reason::Lemma(k) => Ok(is_lemma_blocked(basis.lemmas, sets.told(), *k)),
        Reason::Way => sets.is_no_way(netlist, fault),
        Reason::Gates => leaves_nothing(netlist, fault, sets, basis.from),
    }
}
