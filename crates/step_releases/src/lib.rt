// Document 01, 'One tick', step 2 over the lent arrays: releases.
#![tactic(auto)]

ghost use Rattle.std.specs.Prelude.{◌≡◌, List, ℕ, ◌+◌, ◌*◌, ◌-◌, ◌<◌, ◌≤◌, ◌^◌, eqb, length, replicate, ◌&&◌};
ghost use Rattle.limits.specs.Limits.{max_tasks, max_ports};
ghost use Rattle.words.specs.Words.{words_of};
ghost use Rattle.events.specs.Events.{event_of};
ghost use Rattle.trace.specs.Trace.{over, entry, ignored_kind};
ghost use Rattle.tick.specs.Turns.{requests, released};
ghost use Rattle.arrays.specs.Arrays.{Does, row_field};
ghost use Rattle.steps.specs.Flat.{between, task_of_row, latched_at, latch, is_due, answer_row, grant, each_row, called};
ghost use Rattle.step_releases.specs.Asked.{asked_of, closed, Ignored, Started};

use arrays::{get, put, row_field, task_field};
use events::EventKind;
use trace::{Entry, Kind};
use words::word;

// Whether an event asks a task to start.
fn asks(events: &[u8], p: u32, task: u32) -> bool
    ensures { result ≡ (eqb (event_of (words_of events.now) p).kind 1 && eqb (event_of (words_of events.now) p).target task) }
{
    let at = p as usize * 4;
    match EventKind::try_from(word(events, at + 1)) {
        Ok(EventKind::Release) => word(events, at + 2) == task,
        Ok(EventKind::Set) => false,
        Err(_) => false,
    }
}

// How many of the events from a place to another release a task.
fn requests_of(events: &[u8], from: u32, to: u32, task: u32) -> u32
    ensures { result ≡ requests task (between (words_of events.now) from to) }
{
    let mut n = 0;
    for p in from..to {
        n += u32::from(asks(events, p, task));
    }
    n
}

// All inputs of the task of a row are latched: eight ports, 0 beyond its inputs.
fn latch_row(rows: &[u32], row: u32, signals: &[u32], latched: &mut [u32])
    ensures { latched.new ≡ latch rows.now row signals.now max_ports 0 latched.old }
{
    let task = row_field(rows, row, arrays::TASK);
    for p in 0..limits::PORTS {
        let value = latched_at(rows, row, signals, p);
        put(latched, task as usize * arrays::PORTS + p as usize, value);
    }
}

fn latched_at(rows: &[u32], row: u32, signals: &[u32], p: u32) -> u32
    ensures { result ≡ latched_at rows.now row signals.now p }
{
    if p < row_field(rows, row, arrays::INPUT_COUNT) {
        let signal = get(
            rows,
            row as usize * arrays::WIDTH + (arrays::INPUTS + p as usize),
        );
        get(signals, signal as usize)
    } else {
        0
    }
}

// The instant of a tick, and the places between which its events stand.
#[derive(Clone, Copy)]
pub struct Instant {
    pub t: u32,
    pub first: u32,
    pub last: u32,
}

// Whether a periodic task is due.
fn is_due(t: u32, offset: u32, period: u32) -> bool
    requires { 0 < period }
    ensures { result ≡ is_due t offset period }
{
    offset <= t && (t - offset) % period == 0
}

// How often the task of a row is asked to start: the release events of the tick, or 1 where a periodic task is due.
pub fn asked_of(rows: &[u32], row: u32, events: &[u8], moment: Instant) -> u32
    ensures { result ≡ asked_of moment.t rows.now (between (words_of events.now) moment.first moment.last) row }
{
    let task = row_field(rows, row, arrays::TASK);
    let period = row_field(rows, row, arrays::PERIOD);
    if period == 0 {
        return requests_of(events, moment.first, moment.last, task);
    }
    let offset = row_field(rows, row, arrays::OFFSET);
    u32::from(is_due(moment.t, offset, period))
}

// So many records of an event that is ignored.
fn ignore(t: u32, task: u32, count: u32, trace: &mut [u32], from: usize) -> usize
    requires { from < 2 ^ 63 }
    ensures { Ignored trace.old trace.new from result count (entry t ignored_kind task) }
{
    let mut at = from;
    for _ in 0..count {
        trace::put(trace, at, Entry::new(t, Kind::Ignored, task));
        at += 5;
    }
    at
}

// The task of a row starts: ACTIVE, its execution time to go, released now, its inputs latched.
fn start_row(
    rows: &[u32],
    row: u32,
    t: u32,
    signals: &[u32],
    tasks: &mut [u32],
    latched: &mut [u32],
)
    ensures { Started rows.now row t signals.now tasks.old tasks.new latched.old latched.new }
{
    let task = row_field(rows, row, arrays::TASK);
    let execution = row_field(rows, row, arrays::EXECUTION);
    writes::start_task(tasks, task, execution, t);
    latch_row(rows, row, signals, latched);
}

// The task of a row, asked to start so many times, is released, with a record of it; all times but the first are ignored.
#[tactic(auto, unfolding(steps::specs::Flat::answer_row, trace::specs::Trace::over))]
fn release_row(
    rows: &[u32],
    row: u32,
    t: u32,
    asked: u32,
    signals: &[u32],
    tasks: &mut [u32],
    latched: &mut [u32],
    trace: &mut [u32],
    from: usize,
) -> usize
    requires { (0 < asked) × (from < 2 ^ 62 + 2 ^ 43) }
    ensures does { (held : List ℕ) → Does (record { signals = signals.now; tasks = tasks.new; latched = latched.new; held = held }) trace.old trace.new from result
        (answer_row t rows.now row (record { signals = signals.now; tasks = tasks.old; latched = latched.old; held = held }) (released (asked - 1))) }
    ensures near { result ≤ from + 2 ^ 35 }
{
    let task = row_field(rows, row, arrays::TASK);
    start_row(rows, row, t, signals, tasks, latched);
    trace::put(trace, from, Entry::new(t, Kind::Release, task));
    ignore(t, task, asked - 1, trace, from + 5)
}

// Whether nothing comes of a task's turn, whatever is due: it is periodic, and neither READY nor ACTIVE without a deadline.
fn is_closed(period: u32, status: u32, deadline: u32) -> bool
    ensures { result ≡ closed period status deadline }
{
    !(period == 0) & !(status == arrays::READY) & (!(status == arrays::ACTIVE) | !(deadline == 0))
}

// The turn of one row. Whether a periodic task is due takes a division, so it is asked only where something can come of it.
fn grant_row(
    rows: &[u32],
    row: u32,
    events: &[u8],
    moment: Instant,
    signals: &[u32],
    tasks: &mut [u32],
    latched: &mut [u32],
    trace: &mut [u32],
    from: usize,
) -> usize
    requires { from < 2 ^ 62 + 2 ^ 43 }
    ensures does { (held : List ℕ) → Does (record { signals = signals.now; tasks = tasks.new; latched = latched.new; held = held }) trace.old trace.new from result
        (grant moment.t rows.now (between (words_of events.now) moment.first moment.last) row (record { signals = signals.now; tasks = tasks.old; latched = latched.old; held = held })) }
    ensures near { result ≤ from + 2 ^ 35 }
{
    let t = moment.t;
    let task = row_field(rows, row, arrays::TASK);
    let period = row_field(rows, row, arrays::PERIOD);
    let deadline = row_field(rows, row, arrays::DEADLINE);
    let status = task_field(tasks, task, arrays::STATUS);
    if is_closed(period, status, deadline) {
        return from;
    }
    let asked = asked_of(rows, row, events, moment);
    if asked == 0 {
        return from;
    }
    if status == arrays::READY {
        return release_row(rows, row, t, asked, signals, tasks, latched, trace, from);
    }
    if period == 0 {
        return ignore(t, task, asked, trace, from);
    }
    trace::put(trace, from, Entry::new(t, Kind::Overrun, task));
    writes::reset_task(tasks, task, arrays::ERROR);
    from + 5
}

// Step 2: each of the first `count` rows whose bit stands in `calls`, in its turn; the word at which the records end.
pub fn releases(
    rows: &[u32],
    count: u32,
    events: &[u8],
    moment: Instant,
    calls: u32,
    signals: &[u32],
    tasks: &mut [u32],
    latched: &mut [u32],
    trace: &mut [u32],
    from: usize,
) -> usize
    requires { (count ≤ max_tasks) × (from < 2 ^ 62 + 2 ^ 42) }
    ensures does { (held : List ℕ) → Does (record { signals = signals.now; tasks = tasks.new; latched = latched.new; held = held }) trace.old trace.new from result
        (each_row (called calls (grant moment.t rows.now (between (words_of events.now) moment.first moment.last))) count 0 (record { signals = signals.now; tasks = tasks.old; latched = latched.old; held = held })) }
    ensures near { result ≤ from + 2 ^ 39 }
{
    let mut at = from;
    for row in turns::rows(calls, count) {
        at = grant_row(
            rows, row, events, moment, signals, tasks, latched, trace, at,
        );
    }
    at
}
