// Definitions decided one after the other, each after all its uses.
ghost use Rattle.std.specs.Prelude.{◌≡◌, set};
ghost use Rattle.commit_set.specs.Numbers.{decision_number};
ghost use Rattle.commit_set.specs.Steps.{held_by, decide_in, decided_from, Able, Ready};

use operand::{LinDefId, TermStores};

// What a decision is found from: right sides, and for each definition the list of its uses.
#[derive(Clone, Copy)]
pub struct UseLists<'a> {
    pub stores: TermStores<'a>,
    pub rhss: &'a [u64],
    pub first: &'a [u16],
    pub uses: &'a [u64],
}

impl UseLists<'_> {
    fn decide_one(&self, slots: u8, decisions: &mut [u64], d: LinDefId)
        requires { Able slots (held_by self.now) decisions.old d.0 }
        ensures { decisions.new ≡ set decisions.old d.0 (decision_number (decide_in slots (held_by self.now) decisions.old d.0)) }
    {
        let i = d.0 as usize;
        let ts = self.stores.terms(self.rhss[i]);
        let h = self.first[i] as usize;
        let decision = crate::search::decide(ts, h, self.uses, &*decisions, slots);
        decisions[i] = decision.number();
    }

    // Those that stand in `order`.
    pub fn decide_from(&self, order: &[u16], slots: u8, decisions: &mut [u64])
        requires { Ready slots (held_by self.now) order.now decisions.old }
        ensures { decisions.new ≡ decided_from slots (held_by self.now) order.now decisions.old }
    {
        for d in order {
            self.decide_one(slots, &mut *decisions, LinDefId(*d));
        }
    }
}
