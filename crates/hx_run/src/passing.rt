// The marked loops that a run comes to.

ghost use Rattle.std.specs.Prelude.{◌≡◌, ◌<◌, length};
ghost use Rattle.hx_word.specs.Rooms.{HasEntryRoom, HasEndRoom};
ghost use Rattle.hx_board.specs.Calls.{IsOwnFrame};
ghost use Rattle.hx_pool.specs.Setups.{StaysOwn};
ghost use Rattle.hx_run.specs.Runs.{IsBehind};

use hx_board::Job;
use hx_exec::executable::Executable;
use hx_frame::Frame;
use hx_pool::{Gate, PoolError, Run, Station};
use hx_tree::outcome::Counts;
use hx_word::entry::{Entry, RegionEnd};
use hx_word::plain::{Open, Plain};
use std::alloc::Global;
use std::marker::PhantomData;
use std::sync::Wait;

/// Both together; a count stays at its greatest number once it is there.
pub(crate) fn add_up(a: Counts, b: Counts) -> Counts {
    Counts {
        regions: a.regions.saturating_add(b.regions),
        turns: a.turns.saturating_add(b.turns),
        repeats: a.repeats.saturating_add(b.repeats),
        violations: a.violations.saturating_add(b.violations),
        restarts: a.restarts.saturating_add(b.restarts),
        holds: a.holds.saturating_add(b.holds),
        abandons: a.abandons.saturating_add(b.abandons),
        discarded: a.discarded.saturating_add(b.discarded),
        spared: a.spared.saturating_add(b.spared),
    }
}

/// Regions and whole turns as the plain machine counts them, and the rest as its loops have counted it.
pub(crate) fn counted(plain: Counts, loops: Counts) -> Counts
    ensures regions { result.regions ≡ plain.regions }
    ensures turns { result.turns ≡ plain.turns }
{
    Counts {
        regions: plain.regions,
        turns: plain.turns,
        ..loops
    }
}

/// What a run keeps from marked loop to marked loop: the first worker's frame, and room for the entry and the end of each.
#[derive(Drop)]
pub(crate) struct Desk<'c, R: Run> {
    code: &'c Executable,
    frame: Frame<'c>,
    entry: Entry,
    end: RegionEnd,
    run: PhantomData<R>,
    ghost own_code: { code.now ≡ R.setup.code },
    ghost own_frame: { IsOwnFrame R.setup frame },
    ghost entry_room: { HasEntryRoom code.now entry },
    ghost end_room: { HasEndRoom code.now end },
}

impl<'c, R: Run> Desk<'c, R> {
    /// Room for the loops of a code that has some.
    pub(crate) fn new(
        alloc: Global,
        code: &'c Executable,
        station: &Station<'c, R>,
    ) -> Result<Desk<'c, R>, PoolError>
        requires own { code.now ≡ R.setup.code }
        requires regions { 0 < length code.now.regions }
    {
        let frame = station.frame(alloc)?;
        let entry = Entry::with_room(alloc, code, 0)?;
        let end = RegionEnd::with_room(alloc, code)?;
        Ok(Desk {
            code,
            frame,
            entry,
            end,
            run: PhantomData,
        })
    }

    /// Runs a marked loop that has opened, to its end: the machine behind it, and what the loop has counted. It takes no memory.
    pub(crate) fn pass<'p, W: Wait, G: Gate>(
        &mut self,
        rt: &W,
        station: &Station<'_, R>,
        opened: Open<'p>,
        gate: &G,
    ) -> (Plain<'p>, Counts)
        requires own { opened.code ≡ R.setup.code }
        ensures behind { IsBehind opened.entry result.0 }
    {
        let code = self.code;
        pass_region(
            rt,
            code,
            station,
            opened,
            &mut self.entry,
            &mut self.frame,
            &mut self.end,
            gate,
        )
    }
}

// The same over the parts of a desk.
fn pass_region<'c, R: Run, W: Wait, G: Gate>(
    rt: &W,
    code: &Executable,
    station: &Station<'_, R>,
    opened: Open<'c>,
    entry: &mut Entry,
    frame: &mut Frame<'_>,
    end: &mut RegionEnd,
    gate: &G,
) -> (Plain<'c>, Counts)
    requires code { code.now ≡ R.setup.code }
    requires own { opened.code ≡ code.now }
    requires frame { IsOwnFrame R.setup frame.old }
    requires entry_room { HasEntryRoom code.now entry.old }
    requires end_room { HasEndRoom code.now end.old }
    ensures behind { IsBehind opened.entry result.0 }
    ensures frame { StaysOwn frame.old frame.new }
    ensures entry_room { HasEntryRoom code.now entry.new }
    ensures end_room { HasEndRoom code.now end.new }
{
    code.known();
    opened.entry_into(entry);
    let job = Job {
        code,
        region: opened.region(),
    };
    station.region(rt, &job, entry, frame, end, gate);
    let counts = end.counts;
    (opened.resume(end), counts)
}
