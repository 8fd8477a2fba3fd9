//! The life of numbers.

ghost use Rattle.std.specs.Prelude.{◌≡◌, ◌<◌, [], Some, None, length, slice_set, if◌then◌else◌};
ghost use Rattle.std.specs.Option.{is_some};
ghost use Rattle.ptk_words.specs.Pools.{least_free, pool_get, pool_set};
ghost use Rattle.ptk_words.specs.Parts.{part_of};
ghost use Rattle.ptk_words_model.specs.Condition.{waiters_on};
ghost use Rattle.ptk_mutex.specs.Sound.{AreSynced, IsSound};
ghost use Rattle.ptk_cond.specs.Pool.{with_new_condition};

use ptk_mutex::Roster;
use ptk_words::{ConditionNo, PartId};

/// The condition variable in use whose number the word is; None of another word (own choice).
#[tactic(auto, using(crate::proofs::Numbers::numbers))]
pub fn numbered(roster: &Roster, p: PartId, word: u32) -> Option<ConditionNo>
    requires { p < length roster.now.table.threads }
    ensures { result ≡ (if is_some (pool_get (part_of roster.now.conditions p) word) then Some word else None) }
{
    if word == 0 {
        return None;
    }
    let _limit = roster.condition_limit(p);
    if roster.is_condition_word(p, word) {
        Some(ConditionNo::new(word as u8))
    } else {
        None
    }
}

/// A new condition variable, without waiters, at the least free number; None, and nothing changes, where no number is
/// free (pthread_cond_init).
pub fn init(roster: &mut Roster, p: PartId) -> Option<ConditionNo>
    requires { p < length roster.old.table.threads }
    ensures told { result ≡ least_free (part_of roster.old.conditions p) }
    ensures roster { roster.new ≡ record roster.old { conditions = slice_set roster.old.conditions p (with_new_condition (part_of roster.old.conditions p)) } }
    ensures ready { AreSynced p roster.old → AreSynced p roster.new }
    ensures sound { IsSound roster.old → IsSound roster.new }
{
    open_free(roster, p)
}

/// The number is free (pthread_cond_destroy).
pub fn destroy(roster: &mut Roster, p: PartId, c: ConditionNo)
    requires partition { p < length roster.old.table.threads }
    requires unused { waiters_on (pool_get (part_of roster.old.conditions p) c) ≡ [] }
    ensures roster { roster.new ≡ record roster.old { conditions = slice_set roster.old.conditions p (pool_set (part_of roster.old.conditions p) c None) } }
    ensures ready { AreSynced p roster.old → AreSynced p roster.new }
    ensures sound { IsSound roster.old → IsSound roster.new }
{
    roster.close_condition(p, c);
}

/// A new condition variable, without waiters, at the least free number; None, and nothing changes, where no number is
/// free.
#[tactic(auto, using(crate::proofs::Numbers::numbers))]
fn open_free(roster: &mut Roster, p: PartId) -> Option<ConditionNo>
    requires { p < length roster.old.table.threads }
    ensures told { result ≡ least_free (part_of roster.old.conditions p) }
    ensures roster { roster.new ≡ record roster.old { conditions = slice_set roster.old.conditions p (with_new_condition (part_of roster.old.conditions p)) } }
{
    let free = roster.free_condition(p);
    if let Some(c) = free {
        roster.open_condition(p, c);
    }
    free
}
