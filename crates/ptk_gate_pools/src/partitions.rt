//! What is kept of a partition as a whole: its section's numbers, its status and its last step.

ghost use Rattle.std.specs.Prelude.{◌≡◌, ◌<◌, length};
ghost use Rattle.ptk_gate_pools.specs.Held.{limits_here};
ghost use Rattle.ptk_gate_pools.specs.Moves.{with_status, with_last_step};

use crate::pools::Pools;
use ptk_words::{Entry, Limits, Status};

impl Pools {
    /// The numbers of the partition's section.
    pub fn limits(&self) -> Limits
        ensures { result ≡ limits_here self.now }
    {
        let p = self.hand;
        self.limits[p.index()]
    }

    /// The partition has this status.
    #[tactic(auto, using(crate::proofs::Hands::handed))]
    pub fn give_status(&mut self, status: Status)
        ensures { self.new ≡ record self.old { here = with_status status self.old.here } }
    {
        let p = self.hand;
        self.statuses[p.index()] = status;
    }

    /// The last step is this one.
    #[tactic(auto, using(crate::proofs::Hands::handed))]
    pub fn note_last(&mut self, entry: Entry)
        ensures { self.new ≡ record self.old { here = with_last_step entry self.old.here } }
    {
        let p = self.hand;
        self.lasts[p.index()] = Some(entry);
    }

    /// The last step is this one, or there is none.
    #[tactic(auto, using(crate::proofs::Hands::handed))]
    pub fn set_last(&mut self, last: Option<Entry>)
        ensures { self.new ≡ record self.old { here = record self.old.here { last = last } } }
    {
        let p = self.hand;
        self.lasts[p.index()] = last;
    }
}
