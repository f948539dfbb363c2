// Document 01, 'One tick', step 1: deadlines, over the lent arrays.
#![tactic(auto)]

ghost use Rattle.std.specs.Prelude.{◌≡◌, List, ℕ, ◌+◌, ◌<◌, ◌≤◌, ◌^◌};
ghost use Rattle.limits.specs.Limits.{max_tasks};
ghost use Rattle.arrays.specs.Arrays.{Does};
ghost use Rattle.steps.specs.Flat.{ends_now, lapse, each_row, called};

use arrays::{row_field, task_field};
use trace::{Entry, Kind};
use writes::{reset_task, write_row};

// Whether a deadline above 0, counted from a release, is now. The sum is taken in 64 bits and cannot wrap.
pub fn ends_now(t: u32, release: u32, deadline: u32) -> bool
    ensures { result ≡ ends_now t release deadline }
{
    let end = release as u64 + deadline as u64;
    !(deadline == 0) & (t as u64 == end)
}

// The turn of one row.
#[tactic(auto, unfolding(steps::specs::Flat::lapse, trace::specs::Trace::over))]
fn lapse_row(
    rows: &[u32],
    row: u32,
    t: u32,
    held: &[u32],
    signals: &mut [u32],
    tasks: &mut [u32],
    trace: &mut [u32],
    from: usize,
) -> usize
    requires { from < 2 ^ 63 }
    ensures does { (latched : List ℕ) → Does (record { signals = signals.new; tasks = tasks.new; latched = latched; held = held.now }) trace.old trace.new from result
        (lapse t rows.now row (record { signals = signals.old; tasks = tasks.old; latched = latched; held = held.now })) }
    ensures near { result ≤ from + 2 ^ 35 }
{
    let task = row_field(rows, row, arrays::TASK);
    let deadline = row_field(rows, row, arrays::DEADLINE);
    let release = task_field(tasks, task, arrays::RELEASE);
    let status = task_field(tasks, task, arrays::STATUS);
    if ends_now(t, release, deadline) {
        if status == arrays::FINISHED {
            let at = write_row(rows, row, t, held, signals, trace, from);
            reset_task(tasks, task, arrays::READY);
            return at;
        }
        if status == arrays::ACTIVE {
            trace::put(trace, from, Entry::new(t, Kind::Miss, task));
            reset_task(tasks, task, arrays::ERROR);
            return from + 5;
        }
    }
    from
}

// Step 1: each of the first `count` rows whose bit stands in `calls`, in its turn; the word at which the records end.
pub fn deadlines(
    rows: &[u32],
    count: u32,
    t: u32,
    calls: u32,
    held: &[u32],
    signals: &mut [u32],
    tasks: &mut [u32],
    trace: &mut [u32],
    from: usize,
) -> usize
    requires { (count ≤ max_tasks) × (from < 2 ^ 62 + 2 ^ 42) }
    ensures does { (latched : List ℕ) → Does (record { signals = signals.new; tasks = tasks.new; latched = latched; held = held.now }) trace.old trace.new from result
        (each_row (called calls (lapse t rows.now)) count 0 (record { signals = signals.old; tasks = tasks.old; latched = latched; held = held.now })) }
    ensures near { result ≤ from + 2 ^ 39 }
{
    let mut at = from;
    for row in turns::rows(calls, count) {
        at = lapse_row(rows, row, t, held, signals, tasks, trace, at);
    }
    at
}
