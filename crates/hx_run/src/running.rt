// A source and an input to a finish.

ghost use Rattle.std.specs.Prelude.{◌≡◌, ◌<◌, ◌≤◌, ◌⊎◌, ◌↔◌, length, All, IfOk, IfErr, OnOk, IsErrOf, IsTrue};
ghost use Rattle.std.specs.Int.{w32};
ghost use Rattle.std.specs.Int.RustNames.{FitsSigned};
ghost use Rattle.hx_code.specs.Machine.{InputFits};
ghost use Rattle.hx_run.specs.Headline.{AreInRange, IsFinishOf, IsPlainRanOf, RefusesRun};
ghost use Rattle.hx_pool.specs.Setups.{crew_setup};
ghost use Rattle.hx_run.specs.Runs.{IsOpening, EndsSo, PlainlySo, RefusesInput};

use crate::passing::{Desk, add_up, counted};
use crate::refusal::Refusal;
use crate::source::executable_of;
use hx_exec::executable::Executable;
use hx_pool::{Gate, PoolError, Run, Seat, Station};
use hx_tree::limits::{TABLE_LIMIT, WORKER_LIMIT};
use hx_tree::outcome::{Counts, Finish, Settings};
use hx_word::plain::{Paused, Plain, Ran};
use std::alloc::Global;
use std::marker::{Brand, Model, PhantomData};
use std::sync::Wait;
use std::thread;
use std::thread::Threads;

/// How many words the plain machine runs before it is asked again.
const STEPS_AT_ONCE: u64 = 1024;

/// The input of a run, by which types name it.
pub(crate) trait Given {
    ghost use Rattle.std.specs.Prelude.{List, ℤ};

    ghost input: { List ℤ };
}

impl Given for Brand {
    ghost use Rattle.std.specs.Prelude.{[]};

    ghost input = { [] };
}

/// How a run has ended. That it has ended so is known by the type alone, since a thread's scope hands on no more.
#[derive(Drop)]
struct RanSo<R: Run, I: Given> {
    finish: Finish,
    run: PhantomData<R>,
    given: PhantomData<I>,
}

impl<R: Run, I: Given> Model for RanSo<R, I> {
    ghost use Rattle.hx_tree.specs.declared.outcome.Finish.{Finish};
    ghost use Rattle.hx_run.specs.Runs.{EndsSo};

    ghost Value = { Finish };

    ghost view = { λ r. r.finish };

    ghost invariant = { λ r. EndsSo R.setup.code I.input r.finish };
}

impl<R: Run, I: Given> RanSo<R, I> {
    fn new(finish: Finish) -> RanSo<R, I>
        requires { EndsSo R.setup.code I.input finish }
    {
        RanSo {
            finish,
            run: PhantomData,
            given: PhantomData,
        }
    }

    // The finish, of which this is known.
    fn into_finish(self) -> Finish
        ensures { EndsSo R.setup.code I.input result }
    {
        let RanSo {
            finish,
            run: _,
            given: _,
        } = self;
        finish
    }
}

/// A machine before its first word, and what its marked loops are run with.
#[derive(Drop)]
struct Begun<'c, R: Run, I: Given> {
    plain: Plain<'c>,
    desk: Desk<'c, R>,
    given: PhantomData<I>,
    ghost begun: { IsOpening R.setup.code I.input plain },
}

impl<'c, R: Run, I: Given> Begun<'c, R, I> {
    fn new(plain: Plain<'c>, desk: Desk<'c, R>) -> Begun<'c, R, I>
        requires { IsOpening R.setup.code I.input plain }
    {
        Begun {
            plain,
            desk,
            given: PhantomData,
        }
    }
}

impl<R: Run, I: Given> Begun<'_, R, I> {
    // Goes on to the run's end.
    fn run<W: Wait, G: Gate>(self, rt: &W, station: &Station<'_, R>, gate: &G) -> RanSo<R, I> {
        let Begun {
            plain,
            mut desk,
            given: _,
        } = self;
        RanSo::new(run_to_end::<R, I, W, G>(rt, plain, station, &mut desk, gate))
    }
}

// The run on this thread, and a thread for each seat that serves until it is over, with a stack of so many bytes where that is told. A
// thread that can't be started leaves fewer workers.
fn with_others<R: Run + Send + Sync, I: Given, W: Threads + Wait + Sync, G: Gate>(
    rt: &W,
    station: &Station<'_, R>,
    others: Vec<Seat<'_, R>>,
    stack: Option<usize>,
    gate: &G,
    begun: Begun<'_, R, I>,
) -> RanSo<R, I> {
    thread::scope(thread::scope_env(), rt, |scope| {
        for seat in others {
            let builder = match stack {
                Some(size) => thread::Builder::new().stack_size(size),
                None => thread::Builder::new(),
            };
            let started = builder.spawn_scoped(scope, move || seat.serve(rt, station, gate));
            if started.is_err() {
                break;
            }
        }
        let ran = begun.run(rt, station, gate);
        station.close(rt);
        ran
    })
}

// Goes from marked loop to marked loop, to the run's end. It takes no memory.
fn run_to_end<R: Run, I: Given, W: Wait, G: Gate>(
    rt: &W,
    first: Plain<'_>,
    station: &Station<'_, R>,
    desk: &mut Desk<'_, R>,
    gate: &G,
) -> Finish
    requires { IsOpening R.setup.code I.input first }
    ensures { EndsSo R.setup.code I.input result }
{
    let mut plain = first;
    let mut loops = Counts::plain(0, 0);
    for _ in rt.forever() {
        match plain.to_region(STEPS_AT_ONCE) {
            Paused::Ended(outcome, counts) => {
                let counts = counted(counts, loops);
                return Finish { outcome, counts };
            }
            Paused::More(more) => plain = more,
            Paused::At(open) => {
                let (behind, counts) = desk.pass(rt, station, open, gate);
                loops = add_up(loops, counts);
                plain = behind;
            }
        }
    }
    unreachable!()
}

// A run of code without marked loops, to its end.
fn run_alone<R: Run, I: Given, W: Wait>(rt: &W, first: Plain<'_>) -> Finish
    requires { IsOpening R.setup.code I.input first }
    ensures { EndsSo R.setup.code I.input result }
{
    let mut plain = first;
    for _ in rt.forever() {
        match plain.run(STEPS_AT_ONCE) {
            Ran::Ended(outcome, counts) => return Finish { outcome, counts },
            Ran::More(more) => plain = more,
        }
    }
    unreachable!()
}

// What the marked loops of a code are run with: the caller's part, and the seats of the other workers.
fn places_at<'c, R: Run>(
    alloc: Global,
    code: &'c Executable,
    station: &Station<'c, R>,
) -> Result<(Desk<'c, R>, Vec<Seat<'c, R>>), PoolError>
    requires own { code.now ≡ R.setup.code }
    requires regions { 0 < length code.now.regions }
{
    let others = Seat::others(alloc, station)?;
    let desk = Desk::new(alloc, code, station)?;
    Ok((desk, others))
}

// Runs code to its end, its marked loops by one crew at one station, whose workers start once.
fn run_branded<'c, R: Run + Send + Sync, I: Given, W: Threads + Wait + Sync, G: Gate>(
    alloc: Global,
    rt: &W,
    code: &'c Executable,
    input: &[i32],
    crew: Settings,
    stack: Option<usize>,
    gate: &G,
) -> Result<Finish, Refusal>
    requires own { crew_setup code.now crew ≡ R.setup }
    requires workers { 1 ≤ crew.workers }
    requires given { input.now ≡ I.input }
    ensures ended { IfOk result (EndsSo R.setup.code I.input) }
    ensures fits { OnOk result (InputFits code.now input.now) }
    ensures refused { IfErr result (RefusesInput code.now input.now) }
{
    let plain = Plain::new(alloc, code, input)?;
    if code.regions().is_empty() {
        return Ok(run_alone::<R, I, W>(rt, plain));
    }
    let station: Station<'c, R> = Station::new(alloc, code, crew)?;
    let (desk, others) = places_at(alloc, code, &station)?;
    let begun: Begun<'c, R, I> = Begun::new(plain, desk);
    let ran = with_others(rt, &station, others, stack, gate, begun);
    Ok(ran.into_finish())
}

// Runs code to its end, its marked loops on threads.
fn run_code<W: Threads + Wait + Sync, G: Gate>(
    alloc: Global,
    rt: &W,
    code: &Executable,
    input: &[i32],
    settings: Settings,
    stack: Option<usize>,
    gate: &G,
) -> Result<Finish, Refusal>
    ensures ended { IfOk result (EndsSo code.now input.now) }
    ensures fits { OnOk result (InputFits code.now input.now) }
    ensures refused { IfErr result (RefusesInput code.now input.now) }
{
    let crew = Settings {
        workers: settings.workers.max(1),
        marks: settings.marks,
        buffer: settings.buffer,
    };
    run_branded::<Brand, Brand, W, G>(alloc, rt, code, input, crew, stack, gate)
}

// The numbers of an input are numbers of 32 bits, which the counters of loops are computed in. It changes nothing.
fn known(input: &[i32])
    ensures { All (FitsSigned w32) input.now }
{
    for word in input {
        let _number = *word;
    }
}

/// What so many words of a run come to.
#[derive(Drop)]
pub enum PlainRan {
    /// The run is over.
    Ended(Finish),
    /// It isn't.
    More,
}

// Runs code for at most so many words.
fn run_code_for(
    alloc: Global,
    code: &Executable,
    input: &[i32],
    steps: u64,
) -> Result<PlainRan, Refusal>
    ensures ran { IfOk result (PlainlySo code.now input.now steps) }
    ensures fits { OnOk result (InputFits code.now input.now) }
    ensures refused { IfErr result (RefusesInput code.now input.now) }
{
    let plain = Plain::new(alloc, code, input)?;
    match plain.run(steps) {
        Ran::Ended(outcome, counts) => Ok(PlainRan::Ended(Finish { outcome, counts })),
        Ran::More(_more) => Ok(PlainRan::More),
    }
}

/// Whether the settings are in range: 1 to 16 workers, and 1 to 4,096 words for read marks and for a write buffer each.
pub fn are_in_range(settings: Settings) -> bool
    ensures { IsTrue result ↔ AreInRange settings }
{
    settings.workers >= 1
        && settings.workers <= WORKER_LIMIT
        && settings.marks >= 1
        && settings.marks <= TABLE_LIMIT
        && settings.buffer >= 1
        && settings.buffer <= TABLE_LIMIT
}

/// Runs the program of a source on an input, to its end, the turns of its marked loops ahead of one another on as many threads as the
/// settings have workers. The gate is told where each worker stands.
///
/// Where `run` answers a finish, the source spells an accepted program, and the printed text, the final globals, the end or
/// fault, and the whole turns are those of that program with `pfor` read as `for` and `pwhile` as `while` on one thread. Whether
/// it answers isn't promised, since the program may run forever. Refusals, in this order: 60 exactly where the settings are out
/// of range; those of `compile`; 61 where the input doesn't fit the program, which the source then spells. 50, 62 and the other
/// refusals for want of memory say nothing of the source.
pub fn run<R: Threads + Wait + Sync, G: Gate>(
    alloc: Global,
    rt: &R,
    source: &[u8],
    input: &[i32],
    settings: Settings,
    gate: &G,
) -> Result<Finish, Refusal>
    ensures finish { IfOk result (IsFinishOf source.now input.now) }
    ensures settings { IsErrOf result Refusal.Settings ↔ (AreInRange settings → ⊥) }
    ensures refused { IfErr result (λ e. (e ≡ Refusal.Settings) ⊎ RefusesRun source.now input.now e) }
{
    run_on(alloc, rt, source, input, settings, None, gate)
}

/// `run` with stacks of so many bytes for the threads that it starts, or as large as is usual. No thread has a stack that is too
/// large, so then the caller alone runs the program. Refusals are those of `run`.
pub fn run_on<R: Threads + Wait + Sync, G: Gate>(
    alloc: Global,
    rt: &R,
    source: &[u8],
    input: &[i32],
    settings: Settings,
    stack: Option<usize>,
    gate: &G,
) -> Result<Finish, Refusal>
    ensures finish { IfOk result (IsFinishOf source.now input.now) }
    ensures settings { IsErrOf result Refusal.Settings ↔ (AreInRange settings → ⊥) }
    ensures refused { IfErr result (λ e. (e ≡ Refusal.Settings) ⊎ RefusesRun source.now input.now e) }
{
    if !are_in_range(settings) {
        return Err(Refusal::Settings);
    }
    run_in_range(alloc, rt, source, input, settings, stack, gate)
}

// `run_on`, where the settings were tested.
fn run_in_range<R: Threads + Wait + Sync, G: Gate>(
    alloc: Global,
    rt: &R,
    source: &[u8],
    input: &[i32],
    settings: Settings,
    stack: Option<usize>,
    gate: &G,
) -> Result<Finish, Refusal>
    ensures finish { IfOk result (IsFinishOf source.now input.now) }
    ensures refused { IfErr result (RefusesRun source.now input.now) }
{
    known(input);
    let code = executable_of(alloc, source)?;
    run_code(alloc, rt, &code, input, settings, stack, gate)
}

/// Runs the program of a source on an input, for at most so many words of its code on one thread.
///
/// `Ended` is as in `run`; `More` means that the code of the source hasn't ended after so many words. Refusals are those of
/// `run` but for 60.
pub fn run_plain(
    alloc: Global,
    source: &[u8],
    input: &[i32],
    steps: u64,
) -> Result<PlainRan, Refusal>
    ensures ran { IfOk result (IsPlainRanOf source.now input.now steps) }
    ensures refused { IfErr result (RefusesRun source.now input.now) }
{
    known(input);
    let code = executable_of(alloc, source)?;
    run_code_for(alloc, &code, input, steps)
}
