//! What a walk has met, in order, each once.
use flat_netlist::{at, byte_at, fill_bytes, number_of, put_byte};
use std::alloc::{AllocError, Global};

#[derive(Drop)]
pub(crate) struct Met {
    marks: Vec<u8>,
    found: Vec<u32>,
}

impl Met {
    pub(crate) fn new(alloc: Global) -> Met {
        Met {
            marks: Vec::new(alloc),
            found: Vec::new(alloc),
        }
    }

    /// Nothing of so many is met.
    pub(crate) fn begin(&mut self, count: u32) -> Result<(), AllocError> {
        self.found.clear();
        fill_bytes(&mut self.marks, count, 0)
    }

    /// Nothing is met.
    pub(crate) fn forget(&mut self) {
        for one in &self.found {
            put_byte(&mut self.marks, *one, 0);
        }
        self.found.clear();
    }

    pub(crate) fn has(&self, one: u32) -> bool {
        byte_at(&self.marks, one) != 0
    }

    pub(crate) fn meet(&mut self, one: u32) -> Result<(), AllocError> {
        if !self.has(one) {
            put_byte(&mut self.marks, one, 1);
            self.found.push(one)?;
        }
        Ok(())
    }

    pub(crate) fn count(&self) -> u32 {
        number_of(self.found.len())
    }

    pub(crate) fn get(&self, k: u32) -> u32 {
        at(&self.found, k)
    }
}
