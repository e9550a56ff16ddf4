// The five lists of a constraint system in lent stores. Follows frontend/src/lower/mod.rs; the checks are added.
#![tactic(auto)]

ghost use Rattle.std.specs.Prelude.{◌≡◌, ◌*◌, ◌≤◌, take};
ghost use Rattle.refusal.specs.Refusals.{fault_in};
ghost use Rattle.lower.specs.Accepted.{MAX_WIRES};
ghost use Rattle.lower.specs.Stores.{stores_of, system_in};
ghost use Rattle.lower.specs.Faults.{memory_fault, places_fault, definition_fault, fault_of};

use operand::TermStores;
use refusal::Refusal;

mod definitions;
mod full;
mod places;

pub const MAX_WIRES: usize = 4096;

pub const MAX_DEFINITIONS: usize = 1024;

// And, Imul, Bmul and Zero together.
pub const MAX_OTHERS: usize = 1024;

// Terms of a system to fuse or to fill back.
pub const MAX_TERMS: u64 = 8192;

// Terms of a system to write or to evaluate: an accepted one and what fusing adds to it.
pub const MAX_WRITTEN_TERMS: u64 = 24576;

// How many wires there are, rows of each kind, and definitions.
#[derive(Clone, Copy)]
pub struct Sizes {
    pub wires: usize,
    pub ands: usize,
    pub imuls: usize,
    pub bmuls: usize,
    pub zeros: usize,
    pub linears: usize,
}

// A constraint system as its owner lends it: the terms, the operand numbers of the four kinds of rows, and the definitions, destinations
// beside right sides. The lists may be longer than `sizes` says.
#[derive(Clone, Copy)]
pub struct LentSystem<'a> {
    pub stores: TermStores<'a>,
    pub ands: &'a [u64],
    pub imuls: &'a [u64],
    pub bmuls: &'a [u64],
    pub zeros: &'a [u64],
    pub dsts: &'a [u16],
    pub rhss: &'a [u64],
    pub sizes: Sizes,
}

impl<'a> LentSystem<'a> {
    // What every entry point checks first: 3, 4 and 5 in one pass, then 6. `limit` is how many terms there may be.
    #[tactic(auto, using(crate::proofs::Refusals::exit_else), unfolding(crate::specs::Faults::memory_fault))]
    pub fn check(&self, limit: u64) -> Result<(), Refusal>
        ensures { fault_in result ≡ memory_fault limit self.now.sizes (stores_of self.now) }
    {
        self.check_places()?;
        full::check_counts(self, limit)
    }

    // 8, 9 and 10, each over the whole system before the next, where `check` has found nothing.
    pub fn check_definitions(&self) -> Result<(), Refusal>
        requires places_sound { places_fault self.now.sizes (stores_of self.now) ≡ 0 }
        requires wires_bound { self.now.sizes.wires ≤ MAX_WIRES }
        ensures { fault_in result ≡ definition_fault (system_in self.now) }
    {
        if definitions::is_twice(self.destinations()) {
            return Err(Refusal::Twice);
        }
        if definitions::has_empty(self.right_sides()) {
            return Err(Refusal::Empty);
        }
        if definitions::has_double(self) {
            return Err(Refusal::Double);
        }
        Ok(())
    }

    // Everything up to 10.
    #[tactic(auto, using(crate::proofs::Refusals::exit_else, crate::proofs::Checks::memory_places, crate::proofs::Checks::memory_wires), unfolding(crate::specs::Faults::fault_of))]
    pub fn check_all(&self, limit: u64) -> Result<(), Refusal>
        ensures { fault_in result ≡ fault_of limit self.now.sizes (stores_of self.now) }
    {
        self.check(limit)?;
        self.check_definitions()
    }

    // Lists in tag order: 3, 4 and 5 as they are met.
    #[tactic(auto, using(crate::proofs::Refusals::exit_else), unfolding(crate::specs::Faults::places_fault))]
    pub fn check_places(&self) -> Result<(), Refusal>
        ensures { fault_in result ≡ places_fault self.now.sizes (stores_of self.now) }
    {
        let stores = &self.stores;
        let z = self.sizes;
        places::check_rows(stores, self.ands, 3, z.ands, z.wires)?;
        places::check_rows(stores, self.imuls, 4, z.imuls, z.wires)?;
        places::check_rows(stores, self.bmuls, 6, z.bmuls, z.wires)?;
        places::check_rows(stores, self.zeros, 1, z.zeros, z.wires)?;
        places::check_definitions(stores, self.dsts, self.rhss, z.linears, z.wires)
    }

    // The lists, each as long as its count asks.
    pub fn and_operands(&self) -> &'a [u64]
        requires { places_fault self.now.sizes (stores_of self.now) ≡ 0 }
        ensures { result.now ≡ take (3 * self.now.sizes.ands) self.now.ands.now }
    {
        &self.ands[..3 * self.sizes.ands]
    }

    pub fn imul_operands(&self) -> &'a [u64]
        requires { places_fault self.now.sizes (stores_of self.now) ≡ 0 }
        ensures { result.now ≡ take (4 * self.now.sizes.imuls) self.now.imuls.now }
    {
        &self.imuls[..4 * self.sizes.imuls]
    }

    pub fn bmul_operands(&self) -> &'a [u64]
        requires { places_fault self.now.sizes (stores_of self.now) ≡ 0 }
        ensures { result.now ≡ take (6 * self.now.sizes.bmuls) self.now.bmuls.now }
    {
        &self.bmuls[..6 * self.sizes.bmuls]
    }

    pub fn zero_operands(&self) -> &'a [u64]
        requires { places_fault self.now.sizes (stores_of self.now) ≡ 0 }
        ensures { result.now ≡ take self.now.sizes.zeros self.now.zeros.now }
    {
        &self.zeros[..self.sizes.zeros]
    }

    pub fn destinations(&self) -> &'a [u16]
        requires { places_fault self.now.sizes (stores_of self.now) ≡ 0 }
        ensures { result.now ≡ take self.now.sizes.linears self.now.dsts.now }
    {
        &self.dsts[..self.sizes.linears]
    }

    pub fn right_sides(&self) -> &'a [u64]
        requires { places_fault self.now.sizes (stores_of self.now) ≡ 0 }
        ensures { result.now ≡ take self.now.sizes.linears self.now.rhss.now }
    {
        &self.rhss[..self.sizes.linears]
    }
}
