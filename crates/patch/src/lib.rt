// Expansion and the patched lists. Follows frontend/src/pass/fusion/patch.rs.
#![tactic(auto)]

use operand::TermStores;

pub mod build;
pub mod expand;
pub mod rebuild;

// What expansion reads: the terms and the right sides, which definition each wire has, what is decided of it, and the masks.
#[derive(Clone, Copy)]
pub struct LentSource<'a> {
    pub stores: TermStores<'a>,
    pub rhss: &'a [u64],
    pub table: &'a [u16],
    pub decisions: &'a [u64],
    pub alive: &'a [u64],
}

// How many terms a store of new terms has, and whether a term found no room.
#[derive(Clone, Copy, Debug, PartialEq, Eq)]
pub struct Cursor {
    pub count: usize,
    pub full: bool,
}

// The same, and how many operand numbers the list of new ones has.
#[derive(Clone, Copy, Debug, PartialEq, Eq)]
pub struct Progress {
    pub cursor: Cursor,
    pub at: usize,
}
