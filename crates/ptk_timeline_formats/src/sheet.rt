//! What is written, up to a tick.

use crate::change::Change;
use crate::events::{put_event, put_events_head};
use crate::fault::PutFault;
use crate::vcd::{is_signal, put_values, put_vcd_head};
use ptk_config::Config;
use ptk_disasm::Symbols;
use ptk_words::PartId;
use std::alloc::Global;
use std::io::Write;

/// The formats.
#[derive(Clone, Copy)]
pub enum Form {
    /// The Value Change Dump (IEEE 1364-2005, section 18).
    Vcd,
    /// The Trace Event Format.
    Events,
}

/// What is written in a format: of the ticks from one up to another, and the latest of which something is. Before it is
/// begun, nothing is written.
#[derive(Drop)]
pub(crate) struct Sheet<'a, 's> {
    pub(crate) form: Form,
    pub(crate) alloc: Global,
    pub(crate) config: &'a Config,
    pub(crate) symbols: &'a Symbols<'s>,
    pub(crate) from: u64,
    pub(crate) to: u64,
    pub(crate) at: u64,
    pub(crate) is_begun: bool,
}

impl Sheet<'_, '_> {
    /// Writes what is before the first values.
    pub(crate) fn put_head<W: Write>(&self, out: &mut W) -> Result<(), PutFault> {
        match self.form {
            Form::Vcd => Ok(put_vcd_head(self.config, self.from, out)?),
            Form::Events => put_events_head(self.alloc, self.config, self.from, self.to, out),
        }
    }

    /// Writes what is between the first values and what changes.
    pub(crate) fn put_first_end<W: Write>(&self, out: &mut W) -> Result<(), PutFault> {
        match self.form {
            Form::Vcd => Ok(out.write_all(b"$end\n")?),
            Form::Events => Ok(()),
        }
    }

    /// Writes what changes of a partition at a tick, after the line of the tick if the format has one. A dump writes
    /// nothing of a change that no signal shows.
    pub(crate) fn put<W: Write>(
        &mut self,
        p: PartId,
        tick: u64,
        change: &Change<'_>,
        out: &mut W,
    ) -> Result<(), PutFault> {
        if !self.is_begun {
            return Ok(());
        }
        match self.form {
            Form::Vcd if is_signal(change) => {
                self.reach(tick, out)?;
                Ok(put_values(p, change, out)?)
            }
            Form::Vcd => Ok(()),
            Form::Events => put_event(self.alloc, self.symbols, p, tick, change, out),
        }
    }

    /// Writes that what follows is of a tick: nothing if the last was of it too (IEEE 1364-2005, 18.2.1).
    pub(crate) fn reach<W: Write>(&mut self, tick: u64, out: &mut W) -> Result<(), PutFault> {
        let is_later = self.at < tick;
        self.at = tick;
        if is_later {
            writeln!(out, "#{tick}")?;
        }
        Ok(())
    }
}
