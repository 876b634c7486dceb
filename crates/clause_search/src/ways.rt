//! Where a difference is stopped on its ways to the observed points. (The cut of the X-path check: Goel, An implicit enumeration algorithm to generate tests
//! for combinational logic circuits, 1981.) What lies behind the places where it is stopped is no cause, so what is learned of it is short.
use crate::causes::Asked;
use crate::meetings::Met;
use implications::{Cone, Trail};
use std::alloc::{AllocError, Global};

#[derive(Drop)]
pub(crate) struct Ways {
    met: Met,
}

impl Ways {
    pub(crate) fn new(alloc: Global) -> Ways {
        Ways {
            met: Met::new(alloc),
        }
    }

    pub(crate) fn begin(&mut self, count: u32) -> Result<(), AllocError> {
        self.met.begin(count)
    }

    /// A signal on a way: it is asked of, or known to agree, which stops the way, or the gates that read it come next.
    fn pass(
        &mut self,
        cone: &Cone,
        trail: &Trail,
        asked: &Asked,
        number: u32,
        found: &mut Vec<u32>,
    ) -> Result<(), AllocError> {
        let variable = cone.difference(number);
        if variable == asked.variable {
            return Ok(());
        }
        if trail.value(variable) == 0 && asked.is_before(trail, variable) {
            found.push(trail.literal_of(variable))?;
            return Ok(());
        }
        let (start, end) = cone.readers_of(number);
        for slot in start..end {
            self.met.meet(cone.reader(slot))?;
        }
        Ok(())
    }

    fn pass_all(
        &mut self,
        cone: &Cone,
        trail: &Trail,
        asked: &Asked,
        found: &mut Vec<u32>,
    ) -> Result<(), AllocError> {
        for k in 0..cone.reached() {
            if k >= self.met.count() {
                break;
            }
            let number = self.met.get(k);
            self.pass(cone, trail, asked, number, found)?;
        }
        Ok(())
    }

    /// Adds the literals that stop each way from where the fault acts, but for the signal that is asked of.
    pub(crate) fn add_stops(
        &mut self,
        cone: &Cone,
        trail: &Trail,
        asked: &Asked,
        found: &mut Vec<u32>,
    ) -> Result<(), AllocError> {
        self.met.forget();
        self.met.meet(cone.site)?;
        self.pass_all(cone, trail, asked, found)
    }
}
