//! What is known of networks that aren't in memory.
ghost use Rattle.std.specs.Prelude.{◌≡◌, ℕ, OnOk, Some, None, cond, nat_eq};
ghost use Rattle.wgr_opening.specs.Outlines.{outline_in};

use std::alloc::{AllocError, Global};
use std::collections::HashMap;
use wgr_outline::Outline;

/// Outlines of networks, by the ids of their rows. Of a network without an entry nothing is known.
#[derive(Drop)]
pub struct Outlines {
    outlines: HashMap<u32, Outline>,
}

impl Outlines {
    /// Of no network.
    pub fn new(alloc: Global) -> Outlines
        ensures { (id : ℕ) → outline_in result id ≡ None }
    {
        Outlines {
            outlines: HashMap::new(alloc),
        }
    }

    /// That of the network of this id, if one is known.
    pub fn outline(&self, id: u32) -> Option<Outline>
        ensures { result ≡ outline_in self.now id }
    {
        self.outlines.get(&id).copied()
    }

    /// Gives this outline to the network of this id, in place of the one that it had.
    pub fn put(&mut self, id: u32, outline: Outline) -> Result<(), AllocError>
        ensures { OnOk result ((other : ℕ) → outline_in self.new other ≡ cond (nat_eq id other) (Some outline) (outline_in self.old other)) }
    {
        match self.outlines.insert(id, outline) {
            Ok(_) => Ok(()),
            Err(_) => Err(AllocError),
        }
    }

    /// Forgets the outline of the network of this id.
    pub fn forget(&mut self, id: u32)
        ensures { (other : ℕ) → outline_in self.new other ≡ cond (nat_eq id other) None (outline_in self.old other) }
    {
        self.outlines.remove(&id);
    }
}
