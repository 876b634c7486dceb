//! Vectors of patterns.
use crate::setups::Setup;
use case_text::{Pushed, Said};
use cubes::Pattern;
use netlist::Tri;
use scan_play::{Burst, Cycle, vectors_of};
use std::alloc::AllocError;
use stil_patterns::are_patterns;

/// Adds a cycle: what the inputs are driven with, what the outputs are strobed for, and whether the clock has a pulse.
fn push_cycle(to: &mut Said, cycle: &Cycle) {
    to.push("cycle ");
    to.push_bits(&cycle.drive);
    to.push(" ");
    for strobe in &cycle.strobe {
        to.push(match strobe {
            Tri::Zero => "L",
            Tri::One => "H",
            Tri::X => "X",
        });
    }
    to.push(if cycle.pulse { " P\n" } else { " 0\n" });
}

fn push_burst(to: &mut Said, burst: &Burst) -> Pushed {
    for t in 0..burst.count {
        let cycle = burst.cycle(to.alloc, t)?;
        push_cycle(to, &cycle);
    }
    Ok(())
}

pub fn push_vectors(to: &mut Said, setup: &Setup<'_>, patterns: &[Pattern]) -> Pushed {
    if !are_patterns(setup.core.netlist(), &setup.holds, patterns) {
        to.push("no patterns that obey\n");
        return Ok(());
    }
    let Ok(vectors) = vectors_of(to.alloc, setup.core, &setup.chains, patterns, &setup.holds) else {
        return Err(AllocError);
    };
    for burst in vectors.bursts() {
        push_burst(to, burst)?;
    }
    Ok(())
}
