// Document 01, 'One tick', what its steps share over the lent arrays: the writing of held outputs (steps 1 and 3), the reset of a
// task (steps 1, 2 and 3), and its start (step 2).
#![tactic(auto)]

ghost use Rattle.std.specs.Prelude.{◌≡◌, ◌+◌, ◌<◌, ◌≤◌, ◌^◌};
ghost use Rattle.arrays.specs.Arrays.{active, with_field};
ghost use Rattle.steps.specs.Flat.{task_of_row, reset, row_writes};
ghost use Rattle.writes.specs.Writes.{Wrote};

use arrays::{get, put, row_field};
use trace::Entry;

// The task of a row writes its held outputs to its signals, with a record each; the word at which the records end.
pub fn write_row(
    rows: &[u32],
    row: u32,
    t: u32,
    held: &[u32],
    signals: &mut [u32],
    trace: &mut [u32],
    from: usize,
) -> usize
    requires { from < 2 ^ 63 }
    ensures wrote { Wrote signals.old signals.new trace.old trace.new from result t (task_of_row rows.now row) (row_writes rows.now row held.now) }
    ensures near { result ≤ from + 2 ^ 35 }
{
    let task = row_field(rows, row, arrays::TASK);
    let count = row_field(rows, row, arrays::OUTPUT_COUNT);
    let mut at = from;
    for p in 0..count {
        let signal = get(
            rows,
            row as usize * arrays::WIDTH + (arrays::OUTPUTS + p as usize),
        );
        let value = get(held, task as usize * arrays::PORTS + p as usize);
        put(signals, signal as usize, value);
        trace::put(trace, at, Entry::write(t, task, signal, value));
        at += 5;
    }
    at
}

// A task becomes READY or ERROR: remaining ticks and release instant are 0, the machine state stays.
pub fn reset_task(tasks: &mut [u32], task: u32, status: u32)
    ensures { tasks.new ≡ reset status task tasks.old }
{
    let at = task as usize * arrays::FIELDS;
    put(tasks, at, status);
    put(tasks, at + 1, 0);
    put(tasks, at + 2, 0);
}

// A task becomes ACTIVE: so many ticks to go, released at t.
pub fn start_task(tasks: &mut [u32], task: u32, execution: u32, t: u32)
    ensures { tasks.new ≡ with_field (with_field (with_field tasks.old task 0 active) task 1 execution) task 2 t }
{
    let at = task as usize * arrays::FIELDS;
    put(tasks, at, arrays::ACTIVE);
    put(tasks, at + 1, execution);
    put(tasks, at + 2, t);
}
