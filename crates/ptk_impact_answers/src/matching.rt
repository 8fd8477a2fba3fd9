//! Two configurations, partition by partition.

ghost use Rattle.std.specs.Prelude.{◌≡◌, ◌<◌, None, IfErr, IfSome, OnOk, length};
ghost use Rattle.ptk_impact_answers.specs.Refusals.{IsFirstFault, missing_of};

use crate::answer::Question;
use crate::comparison::{Comparison, Pair};
use crate::form::{Form, put_alone, put_beginning, put_comparison, put_counts};
use crate::refusal::refusal_if_changed;
use crate::release::Release;
use crate::renames::Renames;
use crate::tally::Tally;
use ptk_impact::Impact;
use ptk_main_runs::PutFault;
use ptk_main_tools::Fault;
use std::alloc::{AllocError, Global};
use std::io::Write;

/// Two configurations, and which of their partitions have another name.
#[derive(Drop)]
pub(crate) struct Releases<'a, 'f> {
    old: Release<'a, 'f>,
    new: Release<'a, 'f>,
    renames: Renames<'a>,
}

impl<'a, 'f> Releases<'a, 'f> {
    /// Two configurations, with the renames of a question. A fault if an image is missing, a name is no partition's, or
    /// memory ran out.
    pub(crate) fn of(
        alloc: Global,
        old: Release<'a, 'f>,
        new: Release<'a, 'f>,
        question: &Question<'a>,
    ) -> Result<Releases<'a, 'f>, Fault<'a>>
        ensures first { IfErr result (IsFirstFault (missing_of old.entry new.entry)) }
        ensures there { OnOk result (missing_of old.entry new.entry ≡ None) }
    {
        if let Some(name) = old.missing_image() {
            return Err(Fault::MissingFile(name));
        }
        if let Some(name) = new.missing_image() {
            return Err(Fault::MissingFile(name));
        }
        let renames = Renames::read(alloc, question.rename)?;
        let releases = Releases { old, new, renames };
        match releases.unknown_name(question.partition) {
            Some(name) => Err(Fault::NoPartition(name)),
            None => Ok(releases),
        }
    }

    /// The first name that no partition has: of a rename in the old or the new configuration, else the asked one in
    /// both.
    fn unknown_name(&self, asked: Option<&'a str>) -> Option<&'a str> {
        for rename in self.renames.as_slice() {
            if self.old.place_of(rename.old).is_none() {
                return Some(rename.old);
            }
            if self.new.place_of(rename.new).is_none() {
                return Some(rename.new);
            }
        }
        let name = asked?;
        if self.new.place_of(name).is_none() && self.old.place_of(name).is_none() {
            Some(name)
        } else {
            None
        }
    }

    /// Writes the whole answer, and returns the counts.
    pub(crate) fn put<W: Write>(
        &self,
        form: Form,
        alloc: Global,
        question: &Question<'_>,
        out: &mut W,
    ) -> Result<Tally, PutFault> {
        let mut tally = Tally::new();
        put_beginning(form, out)?;
        for place in 0..self.new.sections().len() {
            self.put_new(form, alloc, place, question, &mut tally, out)?;
        }
        for section in self.old.sections() {
            if question.is_for(section.name()) && self.after(section.name()).is_none() {
                put_alone(form, alloc, &tally, section.name(), "gone", out)?;
                tally.count_removed();
            }
        }
        put_counts(form, &tally, out)?;
        Ok(tally)
    }

    /// Writes how the new partition at this place, if it is asked for, differs from the old one that it was.
    fn put_new<W: Write>(
        &self,
        form: Form,
        alloc: Global,
        place: usize,
        question: &Question<'_>,
        tally: &mut Tally,
        out: &mut W,
    ) -> Result<(), PutFault>
        requires { place < length self.now.new.config.now.sections }
    {
        let name = self.new.name_at(place);
        if !self.is_new_asked(name, question) {
            return Ok(());
        }
        let Some(before) = self.before(name) else {
            put_alone(form, alloc, tally, name, "new", out)?;
            tally.count_added();
            return Ok(());
        };
        let places = Pair {
            old: before,
            new: place,
        };
        let Ok(comparison) = self.comparison(alloc, places) else {
            return Err(PutFault::Memory);
        };
        put_comparison(form, alloc, tally, &comparison, out)?;
        tally.count(&comparison.impact);
        Ok(())
    }

    /// Whether the new partition of this name is asked for, by its name or by the one that it had.
    fn is_new_asked(&self, name: &str, question: &Question<'_>) -> bool {
        if question.is_for(name) {
            return true;
        }
        match self.renames.old_name(name) {
            Some(old) => question.is_for(old),
            None => false,
        }
    }

    /// The place of the old partition that the new one of this name was.
    fn before(&self, name: &str) -> Option<usize>
        ensures { IfSome result (λ place. place < length self.now.old.config.now.sections) }
    {
        self.old.place_of(self.renames.old_name(name)?)
    }

    /// The place of the new partition that the old one of this name is.
    fn after(&self, name: &str) -> Option<usize> {
        self.new.place_of(self.renames.new_name(name)?)
    }

    /// What stands between the old and the new partition at these places. An error if memory ran out.
    fn comparison(&self, alloc: Global, places: Pair<usize>) -> Result<Comparison<'_>, AllocError>
        requires old { places.old < length self.now.old.config.now.sections }
        requires new { places.new < length self.now.new.config.now.sections }
    {
        let old = self.old.subject(places.old);
        let new = self.new.subject(places.new);
        let impact = Impact::between(&old, &new);
        let refusals = Pair {
            old: refusal_if_changed(alloc, &impact, &old)?,
            new: refusal_if_changed(alloc, &impact, &new)?,
        };
        let before = old.section();
        let after = new.section();
        Ok(Comparison {
            names: Pair {
                old: before.name(),
                new: after.name(),
            },
            files: Pair {
                old: before.image(),
                new: after.image(),
            },
            places,
            impact,
            refusals,
        })
    }
}
