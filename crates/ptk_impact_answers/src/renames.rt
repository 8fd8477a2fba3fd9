//! The partitions that have another name in the new configuration.

ghost use Rattle.std.specs.Prelude.{◌≡◌, ◌⊎◌, None, IfErr};
ghost use Rattle.ptk_impact_answers.specs.Refusals.{IsFirstFault};

use ptk_main_tools::Fault;
use std::alloc::Global;

/// The greatest number of renames: each configuration has at most this many partitions.
const MOST_RENAMES: usize = 8;

/// A partition that has another name.
#[derive(Clone, Copy)]
pub(crate) struct Rename<'a> {
    /// The old name.
    pub(crate) old: &'a str,
    /// The new name.
    pub(crate) new: &'a str,
}

/// The partitions that have another name.
#[derive(Drop)]
pub(crate) struct Renames<'a> {
    items: Vec<Rename<'a>>,
}

impl<'a> Renames<'a> {
    /// The renames that a text states, `OLD=NEW` with commas between them; none if there is no text. A fault if one is
    /// no such pair, has the old or the new name of an earlier one, or there are more than eight, which names it as the
    /// name of no partition, or if memory ran out.
    pub(crate) fn read(alloc: Global, text: Option<&'a str>) -> Result<Renames<'a>, Fault<'a>>
        ensures { IfErr result (IsFirstFault None) }
    {
        let mut renames = Renames {
            items: Vec::new(alloc),
        };
        let Some(mut rest) = text else {
            return Ok(renames);
        };
        for _taken in 0..MOST_RENAMES {
            match rest.split_once(',') {
                Some((first, others)) => {
                    renames.add(first)?;
                    rest = others;
                }
                None => {
                    renames.add(rest)?;
                    return Ok(renames);
                }
            }
        }
        Err(Fault::NoPartition(rest))
    }

    /// Adds the rename that a text states. A fault if it states none or one that has the old or the new name of one of
    /// these, which names it as the name of no partition, or if memory ran out.
    fn add(&mut self, text: &'a str) -> Result<(), Fault<'a>>
        ensures { IfErr result (IsFirstFault None) }
    {
        let Some((old, new)) = text.split_once('=') else {
            return Err(Fault::NoPartition(text));
        };
        let is_taken = self.items.iter().any(|it| it.old == old || it.new == new);
        if is_taken {
            return Err(Fault::NoPartition(text));
        }
        match self.items.push(Rename { old, new }) {
            Ok(()) => Ok(()),
            Err(_) => Err(Fault::NoMemory),
        }
    }

    /// The renames, in the order written.
    pub(crate) fn as_slice(&self) -> &[Rename<'a>] {
        self.items.as_slice()
    }

    /// The name that the new partition of this name had. None if the partition that had it has another name now.
    pub(crate) fn old_name<'b>(&'b self, name: &'b str) -> Option<&'b str> {
        for rename in &self.items {
            if rename.new == name {
                return Some(rename.old);
            }
        }
        if self.items.iter().any(|rename| rename.old == name) {
            None
        } else {
            Some(name)
        }
    }

    /// The name that the old partition of this name has now. None if another partition has it now.
    pub(crate) fn new_name<'b>(&'b self, name: &'b str) -> Option<&'b str> {
        for rename in &self.items {
            if rename.old == name {
                return Some(rename.new);
            }
        }
        if self.items.iter().any(|rename| rename.new == name) {
            None
        } else {
            Some(name)
        }
    }
}
