//! What files of patterns are made for.
ghost use Rattle.netlist.specs.Designs.{IsDesign};

use case_nets::{chains_of, holds_of};
use case_text::small;
use netlist::{Core, Holds};
use scan_insert::Chains;
use std::alloc::{AllocError, Global};
use std::marker::Model;

/// A design, with its cells in chains and some inputs held.
#[derive(Drop)]
pub struct Setup<'a> {
    pub core: &'a Core,
    pub chains: Chains,
    pub holds: Holds,
}

// Contracts see nothing of it: the chains and the held inputs of each are those of its design.
impl<'a> Model for Setup<'a> {
    ghost use Rattle.std.specs.Prelude.{⊤};
    ghost use Rattle.netlist.specs.Designs.{IsDesign};
    ghost use Rattle.netlist.specs.Holds.{AreHoldsOf};
    ghost use Rattle.scan_insert.specs.Scanned.{AreChainsOf};

    ghost Value = { ⊤ };

    ghost view = { λ _. tt };

    ghost invariant = { λ s. IsDesign s.core.now × AreChainsOf s.core.now s.chains × AreHoldsOf s.core.now s.holds };
}

/// With so many chains and these inputs held.
pub fn set_up<'a>(
    alloc: Global,
    core: &'a Core,
    asked: &str,
    held: &str,
) -> Result<Setup<'a>, AllocError>
    requires { IsDesign core.now }
{
    let holds = holds_of(alloc, core, held)?;
    let chains = chains_of(alloc, core.netlist(), small(asked).max(1))?;
    Ok(Setup {
        core,
        chains,
        holds,
    })
}
