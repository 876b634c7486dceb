//! Which gates the cycles of a burst have to evaluate: the shift path, while the chains shift.
//!
//! What settles where all that changes is X stays in every cycle wherever it is known, since three values only grow known. Of the other gates those
//! are chosen that a cell's pin or a strobed output reads, backwards; that nothing is missing is then checked, forwards.
ghost use Rattle.std.specs.Prelude.{◌≡◌, ◌≢◌, ◌<◌, ◌≤◌, ◌^◌, ◌⊎◌, ℕ, true, false, [], length, ◌++◌, ◌∷◌, IfOk, OnOk, Some, slice_get, slice_index_or};
ghost use Rattle.std.specs.List.{All, Contains};
ghost use Rattle.statement.specs.Netlists.{Definition as Equation, gates, signals, is_cell};
ghost use Rattle.netlist.specs.Netlist.{IsGateAt};
ghost use Rattle.netlist.specs.Conditions.{IsSound};
ghost use Rattle.statement.specs.declared.kinds.Tri.TheVariants.{X};
ghost use Rattle.netlist.specs.ThreeValues.{is_x};
ghost use Rattle.scan_play.specs.Steps.{HasSteps, AreOrderedSteps, IsReady};
ghost use Rattle.scan_play.specs.inner.Plans.{AreCellsMarked, AreMarked, AreOutputsMarked, AreReady};

use netlist::{Core, Definition, Netlist, SignalId, Tri};
use std::alloc::AllocError;

/// The gates that were chosen for a burst, and room to choose in.
#[derive(Drop)]
pub struct Plan {
    read: Vec<bool>,
    ready: Vec<bool>,
    pub steps: Vec<SignalId>,
}

impl Plan {
    /// No gate is chosen.
    pub fn new(alloc: std::alloc::Global) -> Plan {
        Plan {
            read: Vec::new(alloc),
            ready: Vec::new(alloc),
            steps: Vec::new(alloc),
        }
    }
}

/// Whether a signal is marked.
fn is_marked(marks: &[bool], x: SignalId) -> bool
    ensures { result ≡ true → slice_get marks.now x ≡ Some true }
{
    match marks.get(x.index()) {
        Some(mark) => *mark,
        None => false,
    }
}

/// Marks a signal.
fn mark(marks: &mut Vec<bool>, x: SignalId)
    ensures { (y : ℕ) → slice_get marks.new.items y ≡ Some true → (y ≡ x) ⊎ (slice_get marks.old.items y ≡ Some true) }
{
    if x.index() < marks.len() {
        marks[x.index()] = true;
    }
}

/// Whether a value is X.
fn is_x(value: Tri) -> bool
    ensures { result ≡ is_x value }
{
    match value {
        Tri::X => true,
        Tri::Zero | Tri::One => false,
    }
}

/// Whether nothing is known of a signal.
#[tactic(auto, using(crate::proofs::PlanMarks::none_there, crate::proofs::PlanMarks::read_there))]
fn is_unknown(base: &[Tri], x: SignalId) -> bool
    ensures { result ≡ is_x (slice_index_or base.now x X) }
{
    match base.get(x.index()) {
        Some(value) => is_x(*value),
        None => true,
    }
}

/// Whether an output is strobed in some cycle of a burst in which these strobes stay: behind them strobes change.
fn is_strobed(strobe: &[Tri], output: usize) -> bool
    ensures { result ≡ false → slice_get strobe.now output ≡ Some X }
{
    match strobe.get(output) {
        Some(Tri::X) => false,
        _ => true,
    }
}

/// Marks these signals.
fn mark_all(ids: &[SignalId], marks: &mut Vec<bool>) {
    for x in ids {
        mark(marks, *x);
    }
}

/// Marks what a gate reads.
fn mark_reads(netlist: &Netlist, gate: SignalId, marks: &mut Vec<bool>) {
    let inputs = netlist.inputs().len();
    if gate.index() < inputs {
        return;
    }
    let place = gate.index() - inputs;
    if place < netlist.definitions().len() {
        mark_all(netlist.definitions()[place].pins(), marks);
    }
}

/// Marks what the cells read.
fn mark_cells(netlist: &Netlist, marks: &mut Vec<bool>) {
    for definition in netlist.definitions() {
        if definition.kind().is_flip_flop() {
            mark_all(definition.pins(), marks);
        }
    }
}

/// Marks the outputs that are strobed.
fn mark_outputs(netlist: &Netlist, strobe: &[Tri], marks: &mut Vec<bool>) {
    let outputs = netlist.outputs();
    for k in 0..outputs.len() {
        if is_strobed(strobe, k) {
            mark(marks, outputs[k]);
        }
    }
}

/// So many marks that aren't set.
fn clear_marks(count: usize, marks: &mut Vec<bool>) -> Result<(), AllocError> {
    marks.clear();
    for _done in 0..count {
        marks.push(false)?;
    }
    Ok(())
}

/// Marks what is read by the cells and the strobed outputs, by way of gates that aren't known.
fn mark_backwards(core: &Core, strobe: &[Tri], base: &[Tri], marks: &mut Vec<bool>) {
    let netlist = core.netlist();
    mark_cells(netlist, marks);
    mark_outputs(netlist, strobe, marks);
    let order = core.order();
    for k in 0..order.len() {
        let gate = order[order.len() - 1 - k];
        if is_marked(marks, gate) && is_unknown(base, gate) {
            mark_reads(netlist, gate, marks);
        }
    }
}

/// Adds a gate that is marked and not known.
fn push_step(
    base: &[Tri],
    marks: &[bool],
    gate: SignalId,
    steps: &mut Vec<SignalId>,
) -> Result<(), AllocError>
    ensures { OnOk result ((steps.new.items ≡ steps.old.items ++ gate ∷ []) ⊎ (steps.new.items ≡ steps.old.items)) }
{
    if !is_marked(marks, gate) {
        return Ok(());
    }
    if is_unknown(base, gate) {
        steps.push(gate)?;
    }
    Ok(())
}

/// The gates that are marked and not known, in order.
fn choose(
    core: &Core,
    base: &[Tri],
    marks: &[bool],
    steps: &mut Vec<SignalId>,
) -> Result<(), AllocError>
    ensures { OnOk result (All (IsGateAt core.now) steps.new.items) }
{
    steps.clear();
    for gate in core.order() {
        push_step(base, marks, *gate, steps)?;
    }
    Ok(())
}

/// Whether the value of a signal is there before any gate is evaluated.
fn is_ready(netlist: &Netlist, base: &[Tri], x: SignalId) -> bool
    requires sound { IsSound netlist.now }
    requires within { x < length (signals netlist.now) }
    requires size { length base.now ≡ length (signals netlist.now) }
    ensures { result ≡ true → IsReady netlist.now base.now [] x }
{
    if x.index() < netlist.inputs().len() {
        return true;
    }
    if netlist.definition(x).kind().is_flip_flop() {
        return true;
    }
    !is_unknown(base, x)
}

/// Marks what is ready before any gate is evaluated.
fn mark_ready(netlist: &Netlist, base: &[Tri], ready: &mut Vec<bool>) -> Result<(), AllocError>
    requires sound { IsSound netlist.now }
    requires size { length base.now ≡ length (signals netlist.now) }
    ensures { OnOk result (AreReady netlist.now base.now [] ready.new.items) }
{
    ready.clear();
    for x in 0..base.len() {
        ready.push(is_ready(netlist, base, SignalId(x as u32)))?;
    }
    Ok(())
}

/// Whether these signals are marked.
fn are_marked(ids: &[SignalId], marks: &[bool]) -> bool
    ensures { result ≡ true → AreMarked marks.now ids.now }
{
    for x in ids {
        if !is_marked(marks, *x) {
            return false;
        }
    }
    true
}

/// Whether all that a gate reads is marked.
fn reads_marked(netlist: &Netlist, gate: SignalId, marks: &[bool]) -> bool
    requires sound { IsSound netlist.now }
    requires gate { IsGateAt netlist.now gate }
    ensures { result ≡ true → (g : Equation) → Contains (gates netlist.now) g → g.id ≡ gate → AreMarked marks.now g.pins }
{
    are_marked(netlist.definition(gate).pins(), marks)
}

/// Whether each of these gates reads only what is ready when it is evaluated. Each is then marked as ready.
fn is_path(netlist: &Netlist, base: &[Tri], steps: &[SignalId], ready: &mut Vec<bool>) -> bool
    requires sound { IsSound netlist.now }
    requires gates { All (IsGateAt netlist.now) steps.now }
    requires ready { AreReady netlist.now base.now [] ready.old.items }
    ensures { result ≡ true → AreOrderedSteps netlist.now base.now steps.now × AreReady netlist.now base.now steps.now ready.new.items }
{
    for gate in steps {
        if !reads_marked(netlist, *gate, ready) {
            return false;
        }
        mark(ready, *gate);
    }
    true
}

/// Whether all that a definition reads is marked, if it is a cell.
fn is_cell_marked(definition: &Definition, marks: &[bool]) -> bool
    ensures { result ≡ true → is_cell definition.now ≡ true → AreMarked marks.now definition.now.pins }
{
    if definition.kind().is_flip_flop() {
        return are_marked(definition.pins(), marks);
    }
    true
}

/// Whether all that the cells read is marked.
fn are_cells_marked(netlist: &Netlist, marks: &[bool]) -> bool
    ensures { result ≡ true → AreCellsMarked netlist.now marks.now }
{
    for definition in netlist.definitions() {
        if !is_cell_marked(definition, marks) {
            return false;
        }
    }
    true
}

/// Whether an output is marked, if it is strobed.
fn is_output_marked(strobe: &[Tri], k: usize, output: SignalId, marks: &[bool]) -> bool
    ensures { result ≡ true → slice_get strobe.now k ≢ Some X → slice_get marks.now output ≡ Some true }
{
    if is_strobed(strobe, k) {
        return is_marked(marks, output);
    }
    true
}

/// Whether the outputs that are strobed are marked.
fn are_outputs_marked(netlist: &Netlist, strobe: &[Tri], marks: &[bool]) -> bool
    ensures { result ≡ true → AreOutputsMarked netlist.now strobe.now marks.now }
{
    let outputs = netlist.outputs();
    for k in 0..outputs.len() {
        if !is_output_marked(strobe, k, outputs[k], marks) {
            return false;
        }
    }
    true
}

impl Plan {
    /// Chooses the gates that have to be evaluated where these values stay. Answers whether they will do. Of a value that isn't X only that it
    /// stays is asked, so for many machines at once any will do that isn't X where it stays in each.
    pub fn choose_steps(
        &mut self,
        core: &Core,
        strobe: &[Tri],
        base: &[Tri],
    ) -> Result<bool, AllocError>
        requires { length base.now ≡ length (signals core.now) }
        ensures { IfOk result (λ yes. yes ≡ true → HasSteps core.now strobe.now base.now self.new.steps.items) }
    {
        let netlist = core.netlist();
        netlist.sound();
        clear_marks(base.len(), &mut self.read)?;
        mark_backwards(core, strobe, base, &mut self.read);
        choose(core, base, &self.read, &mut self.steps)?;
        mark_ready(netlist, base, &mut self.ready)?;
        if !is_path(netlist, base, &self.steps, &mut self.ready) {
            return Ok(false);
        }
        Ok(
            are_cells_marked(netlist, &self.ready)
                && are_outputs_marked(netlist, strobe, &self.ready),
        )
    }
}
