// Document 01, a run of ticks over the lent arrays: each is run only if all its records fit in the trace, and ticks in which
// nothing can happen are passed over.
#![tactic(auto)]

ghost use Rattle.std.specs.Prelude.{◌≡◌, false, cond, List, ℕ, suc, ◌+◌, ◌-◌, ◌*◌, ◌<◌, ◌≤◌, ◌^◌, length};
ghost use Rattle.limits.specs.Limits.{max_tasks};
ghost use Rattle.words.specs.Words.{words_of};
ghost use Rattle.events.specs.Events.{event_count};
ghost use Rattle.arrays.specs.Arrays.{Sized};
ghost use Rattle.steps.specs.Flat.{end_from, between, WholeBodies};
ghost use Rattle.step.specs.Step.{given, Ready};
ghost use Rattle.room.specs.Room.{rows_most};
ghost use Rattle.quiet.specs.Quiet.{Distinct, Wakes, OthersLater};
ghost use Rattle.run.specs.Run.{Watched, Asked, Ends, Turned, run_flat};

use step::Clock;

// How a run of ticks ended: the clock after it, the ticks run, and whether the trace was too full for the next one. No Result: clock
// and ticks hold either way.
#[derive(Clone, Copy)]
pub struct Ran {
    pub clock: Clock,
    pub ticks: u32,
    pub full: bool,
}

// A tick is run if all its records fit. Its events stand from the clock's place up to `last`, and only the rows of `calls` have
// their turn; their instants are then found anew.
fn tick_once(
    plan: &[u8],
    rows: &[u32],
    count: u32,
    events: &[u8],
    clock: Clock,
    last: u32,
    calls: u32,
    most: usize,
    wakes: &mut [u32; limits::ALL_TASKS],
    signals: &mut [u32],
    tasks: &mut [u32],
    latched: &mut [u32],
    held: &mut [u32],
    trace: &mut [u32],
) -> Ran
    requires ready { Ready count (event_count events.now) clock }
    requires sized { Sized (record { signals = signals.old; tasks = tasks.old; latched = latched.old; held = held.old }) }
    requires most_is { (most ≡ 2 * rows_most rows.now count 0) × (most ≤ 2 ^ 38) }
    requires at_inside { clock.at ≤ length trace.old }
    requires watched { Watched rows.now count tasks.old clock.tick wakes.old }
    requires whole_bodies { WholeBodies plan.now rows.now count }
    requires last_is { last ≡ end_from (words_of events.now) clock.tick (event_count events.now - clock.place) clock.place }
    requires others_later { OthersLater calls rows.now count (between (words_of events.now) clock.place last) clock.tick wakes.old }
    ensures turned { (left : ℕ) → Turned (given plan.now rows.now count events.now) (suc left) clock
        (record { signals = signals.old; tasks = tasks.old; latched = latched.old; held = held.old }) trace.old result
        (record { signals = signals.new; tasks = tasks.new; latched = latched.new; held = held.new }) trace.new }
    ensures moves { result.ticks ≡ cond result.full 0 1 }
    ensures watched { Watched rows.now count tasks.new result.clock.tick wakes.new }
{
    let fits = room::tick_fits(rows, count, events, clock, last, most, tasks, trace.len());
    if !fits {
        return Ran {
            clock,
            ticks: 0,
            full: true,
        };
    }
    let next = step::step(
        plan, rows, count, events, clock, last, calls, signals, tasks, latched, held, trace,
    );
    quiet::refresh(rows, count, tasks, next.tick, calls, wakes);
    Ran {
        clock: next,
        ticks: 1,
        full: false,
    }
}

// As many ticks as can be are passed over, at most `left`; it may be none. It looks for them only where the next tick calls no row
// and no event comes: elsewhere there are none, and a look costs time.
fn rest(
    rows: &[u32],
    count: u32,
    events: &[u8],
    clock: Clock,
    last: u32,
    calls: u32,
    left: u32,
    wakes: &[u32; limits::ALL_TASKS],
    tasks: &mut [u32],
) -> Ran
    requires bounds { (count ≤ max_tasks) × (clock.place ≤ event_count events.now) × (clock.tick + left < 2 ^ 31) }
    requires wakes_known { Wakes rows.now tasks.old count clock.tick wakes.now }
    ensures turned { (plan signals latched held trace : List ℕ) → clock.at ≤ length trace → Turned (given plan rows.now count events.now) left clock
        (record { signals = signals; tasks = tasks.old; latched = latched; held = held }) trace result
        (record { signals = signals; tasks = tasks.new; latched = latched; held = held }) trace }
    ensures wakes { Wakes rows.now tasks.new count result.clock.tick wakes.now }
    ensures still { result.ticks ≡ 0 → tasks.new ≡ tasks.old }
{
    if (calls != 0) | (last != clock.place) {
        return Ran {
            clock,
            ticks: 0,
            full: false,
        };
    }
    let ticks = quiet::pass(
        rows,
        count,
        events,
        clock.place,
        clock.tick,
        left,
        wakes,
        tasks,
    );
    Ran {
        clock: Clock {
            tick: clock.tick + ticks,
            place: clock.place,
            at: clock.at,
        },
        ticks,
        full: false,
    }
}

// One turn of a run: ticks that are passed over, or else a tick. In a tick only rows whose instant has come and rows that a
// release event asks for have their turn.
fn turn(
    plan: &[u8],
    rows: &[u32],
    count: u32,
    events: &[u8],
    clock: Clock,
    left: u32,
    most: usize,
    wakes: &mut [u32; limits::ALL_TASKS],
    signals: &mut [u32],
    tasks: &mut [u32],
    latched: &mut [u32],
    held: &mut [u32],
    trace: &mut [u32],
) -> Ran
    requires ready { Ready count (event_count events.now) clock }
    requires sized { Sized (record { signals = signals.old; tasks = tasks.old; latched = latched.old; held = held.old }) }
    requires most_is { (most ≡ 2 * rows_most rows.now count 0) × (most ≤ 2 ^ 38) }
    requires bounds { (clock.at ≤ length trace.old) × (0 < left) × (clock.tick + left < 2 ^ 31) }
    requires watched { Watched rows.now count tasks.old clock.tick wakes.old }
    requires whole_bodies { WholeBodies plan.now rows.now count }
    ensures turned { Turned (given plan.now rows.now count events.now) left clock
        (record { signals = signals.old; tasks = tasks.old; latched = latched.old; held = held.old }) trace.old result
        (record { signals = signals.new; tasks = tasks.new; latched = latched.new; held = held.new }) trace.new }
    ensures moves { result.full ≡ false → 0 < result.ticks }
    ensures watched { Watched rows.now count tasks.new result.clock.tick wakes.new }
{
    let last = step_events::end_of(
        events,
        clock.tick,
        clock.place,
        (events.len() / limits::EVENT_SIZE) as u32,
    );
    let calls = quiet::calls(rows, count, events, clock.place, last, wakes, clock.tick);
    let one = rest(rows, count, events, clock, last, calls, left, wakes, tasks);
    if one.ticks != 0 {
        return one;
    }
    tick_once(
        plan, rows, count, events, clock, last, calls, most, wakes, signals, tasks, latched, held,
        trace,
    )
}

// So many ticks, one after the other, up to the first whose records do not all fit.
pub fn run_ticks(
    plan: &[u8],
    rows: &[u32],
    count: u32,
    events: &[u8],
    clock: Clock,
    asked: u32,
    signals: &mut [u32],
    tasks: &mut [u32],
    latched: &mut [u32],
    held: &mut [u32],
    trace: &mut [u32],
) -> Ran
    requires asked { Asked count (event_count events.now) asked clock }
    requires sized { Sized (record { signals = signals.old; tasks = tasks.old; latched = latched.old; held = held.old }) }
    requires distinct { Distinct rows.now count }
    requires whole_bodies { WholeBodies plan.now rows.now count }
    ensures { Ends clock result (record { signals = signals.new; tasks = tasks.new; latched = latched.new; held = held.new }) trace.old trace.new
        (run_flat (given plan.now rows.now count events.now) (length trace.old) asked clock.tick clock.place
        (record { signals = signals.old; tasks = tasks.old; latched = latched.old; held = held.old })) }
{
    let most = room::most_entries(rows, count);
    let mut wakes = quiet::no_wakes(count);
    let mut now = clock;
    let mut done: u32 = 0;
    // A turn may be many ticks, so this is no `for`.
    while done < asked {
        let one = turn(
            plan,
            rows,
            count,
            events,
            now,
            asked - done,
            most,
            &mut wakes,
            signals,
            tasks,
            latched,
            held,
            trace,
        );
        now = one.clock;
        done += one.ticks;
        if one.full {
            return Ran {
                clock: now,
                ticks: done,
                full: true,
            };
        }
    }
    Ran {
        clock: now,
        ticks: done,
        full: false,
    }
}
