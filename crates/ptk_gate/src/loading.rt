//! Images into memory, before the first decision.

ghost use Rattle.std.specs.Prelude.{◌≡◌, ℕ, ◌^◌, ◌<◌, ◌≤◌, ◌+◌, length, Ok, Err};
ghost use Rattle.ptk_words.specs.Image.{ImageParts};
ghost use Rattle.ptk_words_model.specs.Run.{empty_part, fits, main_thread, with_image};
ghost use Rattle.ptk_words_invariant.specs.Well.{IsWell};
ghost use Rattle.ptk_gate_pools.specs.Kept.{part_at, put_part, limits_at};
ghost use Rattle.ptk_gate_pools.specs.Held.{limits_here};
ghost use Rattle.ptk_gate.specs.Whole.{IsBlank};

use crate::tables::Tables;
use ptk_gate_pools::Pools;
use ptk_gate_threads::{begin, halt};
use ptk_words::{
    Cpu, ImageFault, Limits, PartId, Phase, Policy, Priority, RA, RETURN_GATE, SP, Status, Thread,
    ThreadNo,
};

/// The priority of main (own choice).
const MAIN_PRIORITY: u8 = 16;

impl Tables {
    /// Loads an image into a partition that has none: the text to address 0, the data after it, and main, of
    /// SCHED_FIFO and priority 16, starts at the entry. Where text, data and bss do not fit below all stacks the
    /// partition is halted as refused, and nothing else changes.
    #[tactic(auto, using(crate::proofs::Loads::loads, ptk_gate_pools::proofs::Hands::lifting))]
    pub fn load(&mut self, p: PartId, entry: u32, text: &[u8], data: &[u8], bss: u32)
        requires partition { p < length self.old.limits }
        requires blank { part_at p self.old ≡ empty_part (limits_at p self.old) (part_at p self.old).console.coming }
        requires text { length text.now < 2 ^ 32 }
        requires initial { length «data».now < 2 ^ 32 }
        ensures { self.new ≡ put_part p (with_image (limits_at p self.old) (Ok (record { entry = entry; text = text.now; «data» = «data».now; bss = bss })) (part_at p self.old)) self.old }
    {
        self.pools.take(p);
        load(&mut self.pools, entry, text, data, bss);
    }

    /// A partition whose image has this fault is halted as refused; nothing else changes.
    #[tactic(auto, using(crate::proofs::Loads::refusals, ptk_gate_pools::proofs::Hands::lifting))]
    pub fn refuse_image(&mut self, p: PartId, fault: ImageFault)
        requires partition { p < length self.old.limits }
        requires blank { part_at p self.old ≡ empty_part (limits_at p self.old) (part_at p self.old).console.coming }
        ensures { self.new ≡ put_part p (with_image (limits_at p self.old) (Err fault) (part_at p self.old)) self.old }
    {
        self.pools.take(p);
        refuse_image(&mut self.pools, fault);
    }
}

/// Loads an image into the partition in hand, which has none, or halts it as refused where the image does not fit.
fn load(pools: &mut Pools, entry: u32, text: &[u8], data: &[u8], bss: u32)
    requires well { IsWell (limits_here pools.old) pools.old.here }
    requires threads { 1 ≤ (limits_here pools.old).threads }
    requires blank { IsBlank (limits_here pools.old) pools.old.here }
    requires text { length text.now < 2 ^ 32 }
    requires initial { length «data».now < 2 ^ 32 }
    ensures { pools.new ≡ record pools.old { here = with_image (limits_here pools.old) (Ok (record { entry = entry; text = text.now; «data» = «data».now; bss = bss })) pools.old.here } }
{
    let limits = pools.limits();
    if fits(&limits, text, data, bss) {
        pools.fill_memory(text, data);
        let main = main_thread(&limits, entry);
        begin(pools, ThreadNo::new(1), main);
    } else {
        halt(pools, Status::Refused(ImageFault::Unfit));
    }
}

/// The partition in hand, which has no image, is halted: its image has this fault.
fn refuse_image(pools: &mut Pools, fault: ImageFault)
    requires blank { IsBlank (limits_here pools.old) pools.old.here }
    ensures { pools.new ≡ record pools.old { here = with_image (limits_here pools.old) (Err fault) pools.old.here } }
{
    halt(pools, Status::Refused(fault));
}

/// Whether text, data and bss lie below all stacks.
fn fits(limits: &Limits, text: &[u8], data: &[u8], bss: u32) -> bool
    requires text { length text.now < 2 ^ 32 }
    requires initial { length «data».now < 2 ^ 32 }
    ensures { (entry : ℕ) → result ≡ fits limits.now (record { entry = entry; text = text.now; «data» = «data».now; bss = bss }) }
{
    let stacks = u64::from(limits.threads) * u64::from(limits.stack);
    let room = u64::from(limits.memory).saturating_sub(stacks);
    text.len() as u64 + data.len() as u64 + u64::from(bss) <= room
}

/// Main, of SCHED_FIFO and priority 16, at its entry (own choice).
fn main_thread(limits: &Limits, entry: u32) -> Thread
    ensures { (image : ImageParts) → image.entry ≡ entry → result ≡ main_thread limits.now image }
{
    let mut cpu = Cpu::at(entry);
    cpu.set_register(SP, limits.memory);
    cpu.set_register(RA, RETURN_GATE);
    Thread {
        cpu,
        policy: Policy::Fifo,
        priority: Priority::new(MAIN_PRIORITY),
        used: 0,
        is_main: true,
        is_detached: false,
        joiner: None,
        result: 0,
        phase: Phase::Normal,
        wait: None,
    }
}
