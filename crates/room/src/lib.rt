// Whether all records of the next tick fit in the trace. Mostly a bound says so, which costs a few sums; only where the bound does
// not fit are the records counted, on a copy of the tasks. The counting of a row has code of its own, which asks the steps only
// what their turns go by, and writes neither trace nor signals.
#![tactic(auto)]

ghost use Rattle.std.specs.Prelude.{◌≡◌, List, ℕ, ◌+◌, ◌*◌, ◌-◌, ◌≤◌, ◌^◌, leb, length};
ghost use Rattle.limits.specs.Limits.{max_tasks};
ghost use Rattle.words.specs.Words.{words_of};
ghost use Rattle.events.specs.Events.{event_count};
ghost use Rattle.arrays.specs.Arrays.{Arrays};
ghost use Rattle.steps.specs.Flat.{each_row, lapse, end_from, between, grant, runs_flat};
ghost use Rattle.step.specs.Step.{given, Ready, step_flat};
ghost use Rattle.room.specs.Room.{rows_most, Counts};

use arrays::{row_field, task_field};
use step::Clock;
use step_releases::Instant;
use writes::{reset_task, start_task};

const FIELDS: usize = limits::ALL_TASKS * arrays::FIELDS;

// Twice the most records of step 1: the part of the bound that is the same for every tick of a plan.
pub fn most_entries(rows: &[u32], count: u32) -> usize
    requires { count ≤ max_tasks }
    ensures value { result ≡ 2 * rows_most rows.now count 0 }
    ensures small { result ≤ 2 ^ 38 }
{
    let mut sum: usize = 0;
    for j in 0..count {
        sum += row_field(rows, j, arrays::OUTPUT_COUNT) as usize + 1;
    }
    2 * sum
}

// Step 1 of one row: how many records it has.
fn count_lapse(rows: &[u32], row: u32, t: u32, tasks: &mut [u32]) -> usize
    ensures counts { Counts (lapse t rows.now row) tasks.old tasks.new result }
    ensures small { result ≤ 2 ^ 32 }
{
    let task = row_field(rows, row, arrays::TASK);
    let deadline = row_field(rows, row, arrays::DEADLINE);
    let release = task_field(tasks, task, arrays::RELEASE);
    let status = task_field(tasks, task, arrays::STATUS);
    if step_deadlines::ends_now(t, release, deadline) {
        if status == arrays::FINISHED {
            reset_task(tasks, task, arrays::READY);
            return row_field(rows, row, arrays::OUTPUT_COUNT) as usize;
        }
        if status == arrays::ACTIVE {
            reset_task(tasks, task, arrays::ERROR);
            return 1;
        }
    }
    0
}

// Step 1 of each of the first `count` rows.
fn count_lapses(rows: &[u32], count: u32, t: u32, tasks: &mut [u32]) -> usize
    requires { count ≤ max_tasks }
    ensures counts { Counts (each_row (lapse t rows.now) count 0) tasks.old tasks.new result }
    ensures small { result ≤ 2 ^ 36 }
{
    let mut sum: usize = 0;
    for j in 0..count {
        sum += count_lapse(rows, j, t, tasks);
    }
    sum
}

// Step 2 of one row: how many records it has. One that starts has a record for it and one for each further event, so as many as
// it is asked.
fn count_grant(rows: &[u32], row: u32, events: &[u8], moment: Instant, tasks: &mut [u32]) -> usize
    ensures counts { Counts (grant moment.t rows.now (between (words_of events.now) moment.first moment.last) row) tasks.old tasks.new result }
    ensures small { result ≤ 2 ^ 32 }
{
    let task = row_field(rows, row, arrays::TASK);
    let period = row_field(rows, row, arrays::PERIOD);
    let deadline = row_field(rows, row, arrays::DEADLINE);
    let status = task_field(tasks, task, arrays::STATUS);
    let asked = step_releases::asked_of(rows, row, events, moment) as usize;
    if status == arrays::READY {
        if asked != 0 {
            start_task(
                tasks,
                task,
                row_field(rows, row, arrays::EXECUTION),
                moment.t,
            );
            return asked;
        }
        return 0;
    }
    if period == 0 {
        return asked;
    }
    if (status == arrays::ACTIVE) & (asked != 0) & (deadline == 0) {
        reset_task(tasks, task, arrays::ERROR);
        return 1;
    }
    0
}

// Step 2 of each of the first `count` rows.
fn count_grants(
    rows: &[u32],
    count: u32,
    events: &[u8],
    moment: Instant,
    tasks: &mut [u32],
) -> usize
    requires { count ≤ max_tasks }
    ensures counts { Counts (each_row (grant moment.t rows.now (between (words_of events.now) moment.first moment.last)) count 0) tasks.old tasks.new result }
    ensures small { result ≤ 2 ^ 36 }
{
    let mut sum: usize = 0;
    for j in 0..count {
        sum += count_grant(rows, j, events, moment, tasks);
    }
    sum
}

// Step 3: how many records it has. A task that ends in this tick and has no deadline writes its outputs.
fn count_writes(rows: &[u32], count: u32, tasks: &[u32]) -> usize
    requires { count ≤ max_tasks }
    ensures counts { (t : ℕ) (words : List ℕ) (a : Arrays) → a.tasks ≡ tasks.now → result ≡ length (runs_flat t words rows.now count a).entries }
    ensures small { result ≤ 2 ^ 32 }
{
    let row = choice::running_row(rows, count, tasks);
    if row < count {
        let task = row_field(rows, row, arrays::TASK);
        let deadline = row_field(rows, row, arrays::DEADLINE);
        let remaining = task_field(tasks, task, arrays::REMAINING);
        if (remaining <= 1) & (deadline == 0) {
            return row_field(rows, row, arrays::OUTPUT_COUNT) as usize;
        }
    }
    0
}

// The word of the trace at which the records of the next tick would end. Signals and ports have no say in how many they are. It is
// rarely asked for: said to be cold, it is not joined with the ticks that are run, which it made slower.
#[cold]
fn records_end(
    rows: &[u32],
    count: u32,
    events: &[u8],
    clock: Clock,
    last: u32,
    tasks: &[u32],
) -> usize
    requires ready { Ready count (event_count events.now) clock }
    requires last_is { last ≡ end_from (words_of events.now) clock.tick (event_count events.now - clock.place) clock.place }
    requires tasks_len { length tasks.now ≡ max_tasks * 4 }
    ensures { (plan : List ℕ) (a : Arrays) → a.tasks ≡ tasks.now
        → result ≡ clock.at + 5 * length (step_flat (given plan rows.now count events.now) clock.tick clock.place a).entries }
{
    let moment = Instant {
        t: clock.tick,
        first: clock.place,
        last,
    };
    let mut copied = [0u32; FIELDS];
    copied.copy_from_slice(tasks);
    let lapses = count_lapses(rows, count, clock.tick, &mut copied);
    let grants = count_grants(rows, count, events, moment, &mut copied);
    let writes = count_writes(rows, count, &copied);
    clock.at + 5 * (lapses + grants + writes)
}

// Whether the records of the next tick all end within so many words of the trace.
pub fn tick_fits(
    rows: &[u32],
    count: u32,
    events: &[u8],
    clock: Clock,
    last: u32,
    most: usize,
    tasks: &[u32],
    words: usize,
) -> bool
    requires ready { Ready count (event_count events.now) clock }
    requires last_is { last ≡ end_from (words_of events.now) clock.tick (event_count events.now - clock.place) clock.place }
    requires tasks_len { length tasks.now ≡ max_tasks * 4 }
    requires most_is { (most ≡ 2 * rows_most rows.now count 0) × (most ≤ 2 ^ 38) }
    ensures { (plan : List ℕ) (a : Arrays) → a.tasks ≡ tasks.now
        → result ≡ leb (clock.at + 5 * length (step_flat (given plan rows.now count events.now) clock.tick clock.place a).entries) words }
{
    let asked = (last - clock.place) as usize;
    let bound = clock.at + 5 * (most + count as usize * asked);
    if bound <= words {
        return true;
    }
    let end = records_end(rows, count, events, clock, last, tasks);
    end <= words
}
