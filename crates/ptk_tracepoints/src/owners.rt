//! Which mutexes have another owner.

ghost use Rattle.std.specs.Prelude.{◌<◌, length};

use crate::event::Event;
use crate::part::{PartState, mutex_at};
use crate::tracer::Probe;
use ptk_system::System;
use ptk_words::PartId;

impl PartState {
    /// Tells of the mutexes that have another owner from a tick on.
    #[inline(always)]
    pub(crate) fn tell_owners<P: Probe>(
        &mut self,
        system: &System<'_>,
        p: PartId,
        tick: u64,
        probe: &mut P,
    ) -> Result<(), P::Fault>
        requires { p < length system.now.config.sections }
    {
        self.count_mutexes(system, p);
        for place in 0..self.used {
            self.tell_owner(system, p, place, tick, probe)?;
        }
        Ok(())
    }

    /// Tells of the mutex that has another owner from a tick on, if one has: a quiet call gives one another owner at
    /// most. It is looked for from the one on that had another owner last.
    pub(crate) fn tell_one_owner<P: Probe>(
        &mut self,
        system: &System<'_>,
        p: PartId,
        tick: u64,
        probe: &mut P,
    ) -> Result<(), P::Fault>
        requires { p < length system.now.config.sections }
    {
        self.count_mutexes(system, p);
        let (first, used) = (self.latest, self.used);
        for k in 0..used {
            let place = (first + k) % used;
            if self.tell_owner(system, p, place, tick, probe)? {
                self.latest = place;
                return Ok(());
            }
        }
        Ok(())
    }

    /// Tells of the mutex at a place if it has another owner from a tick on. Returns whether it has.
    #[inline(always)]
    fn tell_owner<P: Probe>(
        &mut self,
        system: &System<'_>,
        p: PartId,
        place: usize,
        tick: u64,
        probe: &mut P,
    ) -> Result<bool, P::Fault>
        requires partition { p < length system.now.config.sections }
        requires place { place < 64 }
    {
        let mutex = mutex_at(place);
        let owner = system.owner_thread(p, mutex);
        if self.owners[place] == owner {
            return Ok(false);
        }
        self.owners[place] = owner;
        probe.see(p, &Event::Owner { mutex, owner, tick })?;
        Ok(true)
    }
}
