//! The first look at a fault: what gates imply of it alone, over the whole netlist, on the sets of pairs that signals may have. Most refutations end there, before
//! the part of the netlist that a search takes part in is made. (Arc consistency: Mackworth, Consistency in networks of relations, 1977.)
//!
//! Before it stands what needs no fault: the bits that ties and held inputs give. Then: what isn't reached is the same in both worlds, the line has the
//! other bit than it is stuck at, and what each way to an observed signal goes through differs.
ghost use Rattle.netlist.specs.Holds.{AreHoldsOf};

use crate::known_facts::Facts;
use crate::literals::{bit_of, literal, variable_of};
use crate::reaches::Reach;
use crate::sets::{
    ANY, DIFFERS, Fold, SAME, Tables, before_stuck, faulty_is, good_is, stuck_at, turned,
};
use decisions::gate_of;
use flat_netlist::{NONE, Shape, Whole, at, byte_at, driver, fill_bytes, number_of, put_byte};
use netlist::{Core, Fault, Holds, Line, SignalId};
use std::alloc::{AllocError, Global};

/// The reason of what each way goes through, among numbers of gates, and of what is known of the fault's line.
const PASSED: u32 = NONE;

const GIVEN: u32 = NONE - 1;

/// A gate with more pins waits until nothing else does.
const WIDE: u32 = 8;

/// A set that has lost pairs, by its gate or another reason.
#[derive(Clone, Copy)]
struct Narrowing {
    signal: u32,
    reason: u32,
}

/// Where a fault acts.
#[derive(Clone, Copy)]
struct Acting {
    stem: u32,
    slot: u32,
    site: u32,
    carried: u32,
    bit: u8,
}

/// What came of the look.
#[derive(Clone, Copy)]
pub enum Seen {
    /// No way is open.
    NoWay,
    /// Gates leave nothing.
    Nothing,
    Open,
}

/// Room for first looks, one after the other.
#[derive(Drop)]
pub struct FirstLook {
    alloc: Global,
    tables: Tables,
    pub reach: Reach,
    pub facts: Facts,
    /// By input, how it is held (2 where it isn't), of which the next is made; by signal, what it may be with no fault.
    held: Vec<u8>,
    known: Vec<u8>,
    sets: Vec<u8>,
    trail: Vec<Narrowing>,
    head: u32,
    acting: Acting,
    /// Of the pins of a gate: what those before make, and their sets.
    before: Vec<u8>,
    values: Vec<u8>,
    /// Wide gates that wait.
    waits: Vec<u8>,
    waiting: Vec<u32>,
    needed: Vec<u8>,
}

/// How a gate folds its pins, and whether it turns over what comes of it.
fn fold_of(shape: Shape) -> Option<(Fold, bool)> {
    match shape {
        Shape::Source => None,
        Shape::Controlled { by: 0, to } => Some((Fold::And, to == 1)),
        Shape::Controlled { by: _, to } => Some((Fold::Or, to == 0)),
        Shape::Parity { odd } => Some((Fold::Xor, odd == 1)),
    }
}

/// How an input is held.
fn held_bit(core: &Core, holds: &Holds, signal: u32) -> u8
    requires { AreHoldsOf core.now holds.now }
{
    if (signal as usize) >= core.netlist().inputs().len() {
        return 2;
    }
    match holds.held(signal) {
        None => 2,
        Some(bit) => u8::from(bit),
    }
}

impl FirstLook {
    /// Nothing is known.
    pub fn new(alloc: Global) -> FirstLook {
        FirstLook {
            alloc,
            tables: Tables::new(alloc),
            reach: Reach::new(alloc),
            facts: Facts::new(alloc),
            held: Vec::new(alloc),
            known: Vec::new(alloc),
            sets: Vec::new(alloc),
            trail: Vec::new(alloc),
            head: 0,
            acting: Acting {
                stem: NONE,
                slot: NONE,
                site: NONE,
                carried: NONE,
                bit: 0,
            },
            before: Vec::new(alloc),
            values: Vec::new(alloc),
            waits: Vec::new(alloc),
            waiting: Vec::new(alloc),
            needed: Vec::new(alloc),
        }
    }

    /// What was learned of faults before is forgotten.
    pub fn forget(&mut self) {
        self.known.clear();
    }

    // ---- gates

    #[inline(always)]
    fn set(&self, signal: u32) -> u8 {
        byte_at(&self.sets, signal)
    }

    /// A signal has only pairs of the set; false where it has none left.
    fn narrow(&mut self, signal: u32, set: u8, reason: u32) -> Result<bool, AllocError> {
        let now = self.set(signal);
        let later = now & set;
        if later != now {
            self.trail.push(Narrowing { signal, reason })?;
            put_byte(&mut self.sets, signal, later);
        }
        Ok(later != 0)
    }

    /// What comes through a pin, and back.
    fn through(&self, slot: u32, set: u8) -> u8 {
        if slot == self.acting.slot {
            stuck_at(self.acting.bit, set)
        } else {
            set
        }
    }

    fn back_through(&self, slot: u32, set: u8) -> u8 {
        if slot == self.acting.slot {
            before_stuck(self.acting.bit, set)
        } else {
            set
        }
    }

    /// What the pins of a gate make together.
    fn fold_pins(&mut self, whole: &Whole, gate: u32, fold: Fold) -> Result<u8, AllocError> {
        self.before.clear();
        self.values.clear();
        let mut made = fold.unit();
        let (start, end) = whole.graph.pins_of(gate);
        for slot in start..end {
            let value = self.through(slot, self.set(whole.graph.pin(slot)));
            self.before.push(made)?;
            self.values.push(value)?;
            made = self.tables.image(fold, made, value);
        }
        Ok(made)
    }

    /// The pins have only pairs that make one of the set.
    fn narrow_pins(
        &mut self,
        whole: &Whole,
        gate: u32,
        fold: Fold,
        wanted: u8,
    ) -> Result<bool, AllocError> {
        let mut after = fold.unit();
        let (start, end) = whole.graph.pins_of(gate);
        for slot in (start..end).rev() {
            let k = slot.wrapping_sub(start);
            let others = self.tables.image(fold, byte_at(&self.before, k), after);
            let left = self.back_through(slot, self.tables.back(fold, others, wanted));
            if !self.narrow(whole.graph.pin(slot), left, gate)? {
                return Ok(false);
            }
            after = self.tables.image(fold, after, byte_at(&self.values, k));
        }
        Ok(true)
    }

    /// The lines of a gate have only pairs that it allows; false where one has none left.
    fn look_at_gate(&mut self, whole: &Whole, gate: u32) -> Result<bool, AllocError> {
        let Some((fold, turns)) = fold_of(whole.graph.shape(gate)) else {
            return Ok(true);
        };
        let folded = self.fold_pins(whole, gate, fold)?;
        let plain = if turns { turned(folded) } else { folded };
        let is_stuck = gate == self.acting.stem;
        let bit = self.acting.bit;
        let made = if is_stuck {
            stuck_at(bit, plain)
        } else {
            plain
        };
        if !self.narrow(gate, made, gate)? {
            return Ok(false);
        }
        let left = self.set(gate);
        let wanted = if is_stuck {
            before_stuck(bit, left)
        } else {
            left
        };
        let wanted = if turns { turned(wanted) } else { wanted };
        self.narrow_pins(whole, gate, fold, wanted)
    }

    fn wait(&mut self, gate: u32) -> Result<(), AllocError> {
        if byte_at(&self.waits, gate) == 0 {
            put_byte(&mut self.waits, gate, 1);
            self.waiting.push(gate)?;
        }
        Ok(())
    }

    /// A gate is looked at, at once or later; what comes to no observed signal says nothing.
    fn visit(&mut self, whole: &Whole, gate: u32) -> Result<bool, AllocError> {
        if !whole.comes_to_point(gate) {
            return Ok(true);
        }
        let (start, end) = whole.graph.pins_of(gate);
        if end.wrapping_sub(start) <= WIDE {
            return self.look_at_gate(whole, gate);
        }
        self.wait(gate)?;
        Ok(true)
    }

    fn visit_readers(&mut self, whole: &Whole, signal: u32) -> Result<bool, AllocError> {
        let (start, end) = whole.graph.readers_of(signal);
        for slot in start..end {
            if !self.visit(whole, whole.graph.reader(slot))? {
                return Ok(false);
            }
        }
        Ok(true)
    }

    /// The next narrowing, or wide gate; None where nothing waits.
    fn step(&mut self, whole: &Whole) -> Result<Option<bool>, AllocError> {
        if let Some(next) = self.trail.get(self.head as usize) {
            let signal = next.signal;
            self.head = self.head.wrapping_add(1);
            if !self.visit(whole, signal)? {
                return Ok(Some(false));
            }
            return Ok(Some(self.visit_readers(whole, signal)?));
        }
        match self.waiting.pop() {
            None => Ok(None),
            Some(gate) => {
                put_byte(&mut self.waits, gate, 0);
                Ok(Some(self.look_at_gate(whole, gate)?))
            }
        }
    }

    /// All that gates imply; false where a signal has no pair left. Each signal is narrowed four times at most.
    fn spread(&mut self, whole: &Whole) -> Result<bool, AllocError> {
        for _count in 0..whole.count().saturating_mul(8) {
            match self.step(whole)? {
                None => return Ok(true),
                Some(false) => return Ok(false),
                Some(true) => {}
            }
        }
        Ok(true)
    }

    // ---- what needs no fault

    /// What a signal may be by its pins, or by how it is held.
    fn know(&mut self, whole: &Whole, signal: u32) -> Result<(), AllocError> {
        let Some((fold, turns)) = fold_of(whole.graph.shape(signal)) else {
            return Ok(());
        };
        let folded = self.fold_pins(whole, signal, fold)?;
        let made = if turns { turned(folded) } else { folded };
        put_byte(&mut self.sets, signal, made & SAME);
        Ok(())
    }

    fn know_gates(&mut self, whole: &Whole) -> Result<(), AllocError> {
        for place in 1..whole.place_count() {
            self.know(whole, whole.gate_at(place))?;
        }
        Ok(())
    }

    fn know_inputs(&mut self) {
        for input in 0..number_of(self.held.len()) {
            let bit = byte_at(&self.held, input);
            if bit < 2 {
                put_byte(&mut self.sets, input, SAME & good_is(bit));
            }
        }
    }

    /// Whether the inputs are held as they were.
    fn is_held_as_before(&self, core: &Core, holds: &Holds) -> bool
        requires { AreHoldsOf core.now holds.now }
    {
        for input in 0..number_of(self.held.len()) {
            if byte_at(&self.held, input) != held_bit(core, holds, input) {
                return false;
            }
        }
        true
    }

    fn take_holds(&mut self, core: &Core, holds: &Holds) -> Result<(), AllocError>
        requires { AreHoldsOf core.now holds.now }
    {
        self.held.clear();
        for input in 0..number_of(core.netlist().inputs().len()) {
            self.held.push(held_bit(core, holds, input))?;
        }
        Ok(())
    }

    /// Of a set with no fault: the pairs of its bits without the fault.
    fn keep_known(&mut self) -> Result<(), AllocError> {
        self.known.clear();
        for set in &self.sets {
            self.known.push(match *set {
                1 => good_is(0),
                8 => good_is(1),
                _ => ANY,
            })?;
        }
        Ok(())
    }

    /// What needs no fault, unless it is known.
    fn begin_known(&mut self, core: &Core, whole: &Whole, holds: &Holds) -> Result<(), AllocError>
        requires { AreHoldsOf core.now holds.now }
    {
        let inputs = number_of(core.netlist().inputs().len());
        let is_made = number_of(self.known.len()) == whole.count();
        if is_made && number_of(self.held.len()) == inputs && self.is_held_as_before(core, holds) {
            return Ok(());
        }
        self.take_holds(core, holds)?;
        self.forget_fault();
        fill_bytes(&mut self.sets, whole.count(), SAME)?;
        fill_bytes(&mut self.waits, whole.count(), 0)?;
        fill_bytes(&mut self.needed, whole.count(), 0)?;
        self.facts.begin(whole.count())?;
        self.know_inputs();
        self.know_gates(whole)?;
        self.keep_known()
    }

    // ---- a fault

    fn forget_fault(&mut self) {
        self.acting = Acting {
            stem: NONE,
            slot: NONE,
            site: NONE,
            carried: NONE,
            bit: 0,
        };
        self.trail.clear();
        self.waiting.clear();
        self.head = 0;
    }

    /// What a signal may be that the fault doesn't reach.
    fn plain_set(&self, signal: u32) -> u8 {
        SAME & byte_at(&self.known, signal)
    }

    fn take_back_narrowed(&mut self) {
        for k in 0..number_of(self.trail.len()) {
            if let Some(narrowing) = self.trail.get(k as usize) {
                let signal = narrowing.signal;
                let set = self.plain_set(signal);
                put_byte(&mut self.sets, signal, set);
            }
        }
    }

    fn take_back_reached(&mut self) {
        for k in 0..number_of(self.reach.reached.len()) {
            let signal = at(&self.reach.reached, k);
            let set = self.plain_set(signal);
            put_byte(&mut self.sets, signal, set);
        }
    }

    fn take_back_waiting(&mut self) {
        for gate in &self.waiting {
            put_byte(&mut self.waits, *gate, 0);
        }
    }

    /// What the last fault left is taken back.
    fn clear(&mut self) {
        self.take_back_narrowed();
        self.take_back_reached();
        self.take_back_waiting();
        self.forget_fault();
    }

    /// Where a fault acts.
    fn find(&mut self, core: &Core, whole: &Whole, fault: &Fault) {
        self.acting.bit = u8::from(fault.value);
        match &fault.line {
            Line::Stem(x) => {
                self.acting.stem = x.0;
                self.acting.site = x.0;
                self.acting.carried = x.0;
            }
            Line::Out(x) => self.acting.carried = x.0,
            Line::Pin(z, k) => {
                self.acting.carried = driver(core, *z, *k).0;
                if gate_of(core, *z).is_some() {
                    self.acting.site = z.0;
                    self.acting.slot = whole.graph.pins_of(z.0).0.wrapping_add(*k);
                }
            }
        }
    }

    /// What the fault reaches may be any pair, for all that is known.
    fn open_reached(&mut self) {
        for k in 0..number_of(self.reach.reached.len()) {
            let signal = at(&self.reach.reached, k);
            let set = byte_at(&self.known, signal);
            put_byte(&mut self.sets, signal, set);
        }
    }

    /// The line has the other bit than it is stuck at, and a stuck stem its own with the fault.
    fn excite(&mut self) -> Result<bool, AllocError> {
        let carried = self.acting.carried;
        let bit = self.acting.bit;
        if !self.narrow(carried, good_is(1 ^ (bit & 1)), GIVEN)? {
            return Ok(false);
        }
        if self.acting.stem == carried {
            return self.narrow(carried, faulty_is(bit), GIVEN);
        }
        Ok(true)
    }

    /// What each way goes through differs.
    fn pass(&mut self) -> Result<bool, AllocError> {
        for k in (0..number_of(self.reach.dominators.len())).rev() {
            let signal = at(&self.reach.dominators, k);
            if !self.narrow(signal, DIFFERS, PASSED)? {
                return Ok(false);
            }
        }
        Ok(true)
    }

    /// Gates with a pin or an output of which something is known without a fault.
    fn visit_reached(&mut self, whole: &Whole) -> Result<bool, AllocError> {
        for k in 0..number_of(self.reach.reached.len()) {
            let signal = at(&self.reach.reached, k);
            if self.has_known_pin(whole, signal) && !self.visit(whole, signal)? {
                return Ok(false);
            }
        }
        Ok(true)
    }

    fn has_known_pin(&self, whole: &Whole, gate: u32) -> bool {
        let (start, end) = whole.graph.pins_of(gate);
        for slot in start..end {
            if byte_at(&self.known, whole.graph.pin(slot)) != ANY {
                return true;
            }
        }
        false
    }

    fn go_on(&mut self, whole: &Whole) -> Result<bool, AllocError> {
        Ok(
            self.excite()?
                && self.pass()?
                && self.visit(whole, self.acting.carried)?
                && self.visit_readers(whole, self.acting.carried)?
                && self.visit_reached(whole)?
                && self.spread(whole)?,
        )
    }

    /// The look at a fault.
    pub fn look(
        &mut self,
        core: &Core,
        whole: &Whole,
        fault: &Fault,
        holds: &Holds,
    ) -> Result<Seen, AllocError>
        requires { AreHoldsOf core.now holds.now }
    {
        self.tables.begin()?;
        self.clear();
        self.begin_known(core, whole, holds)?;
        self.find(core, whole, fault);
        self.reach.begin(whole)?;
        self.reach.go(whole, self.acting.site)?;
        if self.acting.site != NONE && self.reach.reached.len() == 0 {
            return Ok(Seen::NoWay);
        }
        self.open_reached();
        if self.go_on(whole)? {
            return Ok(Seen::Open);
        }
        Ok(Seen::Nothing)
    }

    // ---- what the last narrowing rests on

    fn need(&mut self, signal: u32) {
        put_byte(&mut self.needed, signal, 1);
    }

    fn need_lines(&mut self, whole: &Whole, gate: u32) {
        self.need(gate);
        let (start, end) = whole.graph.pins_of(gate);
        for slot in start..end {
            self.need(whole.graph.pin(slot));
        }
    }

    /// What a narrowing rests on is needed, if it is; a signal that is passed is found.
    fn trace(
        &mut self,
        whole: &Whole,
        narrowing: Narrowing,
        found: &mut Vec<SignalId>,
    ) -> Result<(), AllocError> {
        if byte_at(&self.needed, narrowing.signal) == 0 {
            return Ok(());
        }
        match narrowing.reason {
            GIVEN => Ok(()),
            PASSED => {
                found.push(SignalId(narrowing.signal))?;
                Ok(())
            }
            gate => {
                self.need_lines(whole, gate);
                Ok(())
            }
        }
    }

    fn forget_lines(&mut self, whole: &Whole, narrowing: Narrowing) {
        put_byte(&mut self.needed, narrowing.signal, 0);
        let (start, end) = whole.graph.pins_of(narrowing.reason);
        for slot in start..end {
            put_byte(&mut self.needed, whole.graph.pin(slot), 0);
        }
    }

    fn forget_needed(&mut self, whole: &Whole) {
        for k in 0..self.trail.len() {
            if let Some(narrowing) = self.trail.get(k) {
                let narrowing = *narrowing;
                self.forget_lines(whole, narrowing);
            }
        }
    }

    /// Whether gates leave something where a signal has this bit, whatever the fault.
    fn may_be(&mut self, whole: &Whole, signal: u32, bit: u8) -> Result<bool, AllocError> {
        self.clear();
        self.reach.forget();
        Ok(self.narrow(signal, good_is(bit), GIVEN)? && self.spread(whole)?)
    }

    /// Whether a signal has this bit under each pattern that obeys the held inputs, as gates tell by themselves. It is a fact then.
    pub fn learn(&mut self, whole: &Whole, signal: u32, bit: u8) -> Result<(), AllocError> {
        if self.facts.of(signal).is_some() || byte_at(&self.known, signal) != ANY {
            return Ok(());
        }
        if self.may_be(whole, signal, 1 ^ (bit & 1))? {
            self.clear();
            return Ok(());
        }
        self.rest_on_traced(whole)?;
        self.take_fact(signal, bit)
    }

    /// The next fact rests on those by which nothing was left.
    fn rest_on_traced(&mut self, whole: &Whole) -> Result<(), AllocError> {
        let mut found = Vec::new(self.alloc);
        self.trace_all(whole, &mut found)?;
        self.rest_on_needed(whole)?;
        self.forget_needed(whole);
        self.clear();
        Ok(())
    }

    /// A signal has this bit from now on.
    fn take_fact(&mut self, signal: u32, bit: u8) -> Result<(), AllocError> {
        self.facts.add(literal(signal, bit))?;
        put_byte(&mut self.known, signal, good_is(bit));
        put_byte(&mut self.sets, signal, SAME & good_is(bit));
        Ok(())
    }

    /// The next fact rests on those of all lines that are needed.
    fn rest_on_needed(&mut self, whole: &Whole) -> Result<(), AllocError> {
        for fact in 0..self.facts.count() {
            if byte_at(&self.needed, variable_of(self.facts.literal(fact))) != 0 {
                self.facts.rest(fact)?;
            }
        }
        Ok(())
    }

    /// Adds the facts of lines that are needed.
    fn add_needed(&self, facts: &mut Vec<u32>) -> Result<(), AllocError> {
        for fact in 0..self.facts.count() {
            if byte_at(&self.needed, variable_of(self.facts.literal(fact))) != 0 {
                facts.push(fact)?;
            }
        }
        Ok(())
    }

    fn trace_all(&mut self, whole: &Whole, found: &mut Vec<SignalId>) -> Result<(), AllocError> {
        if let Some(last) = self.trail.last() {
            let signal = last.signal;
            self.need(signal);
        }
        for k in (0..self.trail.len()).rev() {
            if let Some(narrowing) = self.trail.get(k) {
                let narrowing = *narrowing;
                self.trace(whole, narrowing, found)?;
            }
        }
        Ok(())
    }

    /// Adds the signals that have to differ so that gates leave nothing, and the facts that this rests on.
    pub fn passed(
        &mut self,
        whole: &Whole,
        found: &mut Vec<SignalId>,
        facts: &mut Vec<u32>,
    ) -> Result<(), AllocError> {
        self.trace_all(whole, found)?;
        self.add_needed(facts)?;
        self.forget_needed(whole);
        Ok(())
    }
}
