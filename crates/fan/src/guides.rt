//! What a decision is made for: objectives, traced back to head lines, to inputs and cells, and to fanout stems; one of them alone (`tracing`), or
//! all together by votes (`voting`). Nothing stands on it but the speed of the search.
ghost use Rattle.std.specs.Prelude.{◌≡◌, ⊤};
ghost use Rattle.pair_sim.specs.Sims.{IsNotBlocked};

use crate::cases::RoledCase;
use crate::frontier::Frontier;
use crate::paths::Paths;
use crate::tracing::{Course, Way, objective, trace_from};
use crate::voting::{trace_back, want_decided, want_excited, want_through};
use crate::wants::Wants;
use decisions::{Aim, Effects, Measures, Orders, Places, salt_of};
use head_lines::Role;
use netlist::{Core, Fault, SignalId};
use pair_sim::PairSim;
use redundancy_cert::Side;
use std::alloc::{AllocError, Global};
use std::marker::Model;

/// Whether a signal is a head line.
pub(crate) fn has_head(roles: &[Role], signal: SignalId) -> bool {
    match roles.get(signal.index()) {
        None => false,
        Some(role) => matches!(role, Role::Head),
    }
}

/// Which objectives are traced back.
#[derive(Clone, Copy, Drop)]
pub(crate) enum Objectives {
    /// The lowest one alone.
    One,
    /// All of them together.
    All,
}

/// Where the backtrace stops before head lines, inputs and cells. All objectives together stop at a stem of which both bits are wanted, too.
#[derive(Clone, Copy, Drop)]
pub(crate) enum Stop {
    Heads,
    /// At the first fanout stem outside what the fault may reach.
    Stems,
}

/// What a guide leaves to the next one.
#[derive(Drop)]
pub(crate) struct GuideRoom {
    wants: Wants,
    paths: Paths,
    effects: Effects,
    frontier: Frontier,
    places: Places,
}

// Contracts see nothing of it, nor of a guide: no answer rests on them. (So what they are made of stands in no proof of the functions that hand them on.)
impl Model for GuideRoom {
    ghost Value = { ⊤ };

    ghost view = { λ _. tt };
}

impl GuideRoom {
    /// Room for a netlist with these orders of pins.
    pub(crate) fn of(alloc: Global, core: &Core, orders: &Orders) -> Result<GuideRoom, AllocError> {
        Ok(GuideRoom {
            wants: Wants::of(alloc, core)?,
            paths: Paths::of(alloc, core)?,
            effects: Effects::new(alloc),
            frontier: Frontier::of(alloc, core)?,
            places: Places::of(alloc, orders.count())?,
        })
    }
}

/// What leads the search: how it goes back, what is wanted, and the D-frontier. Signals with an effect are looked for before any decision.
#[derive(Drop)]
pub(crate) struct Guide<'a> {
    pub(crate) course: Course<'a>,
    objectives: Objectives,
    wants: Wants,
    paths: Paths,
    pub(crate) effects: Effects,
    pub(crate) frontier: Frontier,
}

impl<'a> Model for Guide<'a> {
    ghost Value = { ⊤ };

    ghost view = { λ _. tt };
}

impl<'a> Guide<'a> {
    /// In a room, whatever it held.
    pub(crate) fn of(
        measures: &'a Measures,
        orders: &'a Orders,
        fault: &Fault,
        room: GuideRoom,
    ) -> Guide<'a> {
        let GuideRoom {
            wants,
            paths,
            effects,
            frontier,
            places,
        } = room;
        Guide {
            course: Course::of(measures, orders, places, salt_of(fault)),
            objectives: Objectives::All,
            wants,
            paths,
            effects,
            frontier,
        }
    }

    /// The room, for another search.
    pub(crate) fn into_room(self) -> GuideRoom {
        let Guide {
            course,
            objectives: _,
            wants,
            paths,
            effects,
            frontier,
        } = self;
        GuideRoom {
            wants,
            paths,
            effects,
            frontier,
            places: course.into_places(),
        }
    }

    /// From here on it goes back so, to pins by what bits cost.
    pub(crate) fn go_back(&mut self, objectives: Objectives, stop: Stop) {
        self.objectives = objectives;
        self.course.go(Way::ByCost, stop);
    }

    /// From here on it goes back from the lowest objective to head lines, to pins by a hash.
    pub(crate) fn go_anyhow(&mut self, round: u32) {
        self.objectives = Objectives::One;
        self.course.go(Way::ByHash(round), Stop::Heads);
    }

    /// Another search begins.
    pub(crate) fn begin(&mut self) {
        self.effects.begin();
    }

    /// Looks at what the trail of labels has gained by the last of so many decisions; at first, where there is none, at what has an effect without one.
    pub(crate) fn follow(
        &mut self,
        roled: &RoledCase,
        labels: &PairSim,
        depth: usize,
    ) -> Result<(), AllocError>
        requires same { labels.now.netlist ≡ roled.now.case.core.now }
        requires not_blocked { IsNotBlocked labels.now }
    {
        self.course.reach(depth);
        if depth > 0 {
            return self.frontier.follow(roled.case.core, labels, depth);
        }
        self.effects
            .follow(roled.case.core, &roled.case.fault, labels)?;
        self.frontier.begin(&roled.case, &self.effects, labels)
    }
}

/// The lowest objective alone, traced back.
fn lowest_aim(
    roled: &RoledCase,
    guide: &mut Guide,
    labels: &PairSim,
    stack: &[Side],
) -> Result<Option<Aim>, AllocError>
    requires same { labels.now.netlist ≡ roled.now.case.core.now }
    requires not_blocked { IsNotBlocked labels.now }
{
    let lowest = objective(
        roled,
        &mut guide.course,
        &guide.frontier,
        labels,
        stack,
        &mut guide.paths,
    )?;
    let Some(aim) = lowest else {
        return Ok(None);
    };
    Ok(trace_from(roled, &mut guide.course, labels, aim))
}

/// The decided bits of gates, and that the effect goes on, traced back together.
fn want_all(
    roled: &RoledCase,
    guide: &mut Guide,
    labels: &PairSim,
    stack: &[Side],
) -> Result<(), AllocError>
    requires same { labels.now.netlist ≡ roled.now.case.core.now }
    requires not_blocked { IsNotBlocked labels.now }
{
    want_decided(roled, &mut guide.course, labels, &mut guide.wants, stack)?;
    let measures = guide.course.measures();
    let nearest = guide
        .frontier
        .nearest(roled.case.core, measures, labels, &mut guide.paths)?;
    match nearest {
        None => Ok(()),
        Some(gate) => want_through(
            roled.case.core,
            &mut guide.course,
            labels,
            &mut guide.wants,
            gate,
        ),
    }
}

/// What to decide, if the labels tell.
pub(crate) fn best_aim(
    roled: &RoledCase,
    guide: &mut Guide,
    labels: &PairSim,
    stack: &[Side],
) -> Result<Option<Aim>, AllocError>
    requires same { labels.now.netlist ≡ roled.now.case.core.now }
    requires not_blocked { IsNotBlocked labels.now }
{
    if matches!(guide.objectives, Objectives::One) {
        return lowest_aim(roled, guide, labels, stack);
    }
    guide.wants.begin();
    if !want_excited(roled, labels, &mut guide.wants)? {
        want_all(roled, guide, labels, stack)?;
    }
    trace_back(roled, &mut guide.course, labels, &mut guide.wants)
}
