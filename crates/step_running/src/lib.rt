// Document 01, 'One tick', step 3 over the lent arrays: the most urgent ACTIVE task runs for a tick.
#![tactic(auto)]

ghost use Rattle.std.specs.Prelude.{◌≡◌, ◌+◌, ◌<◌, ◌≤◌, ◌^◌};
ghost use Rattle.limits.specs.Limits.{max_tasks};
ghost use Rattle.words.specs.Words.{words_of};
ghost use Rattle.plan.specs.File.{task_of, body_part};
ghost use Rattle.body.specs.Body.{body};
ghost use Rattle.body.specs.Steps.{Whole};
ghost use Rattle.arrays.specs.Arrays.{Does};
ghost use Rattle.steps.specs.Flat.{task_of_row, ports_of, work, runs_flat, WholeBodies};
ghost use Rattle.step_running.specs.Finish.{Ran, Finished};

use arrays::{put, row_field, task_field};
use writes::{reset_task, write_row};

// A task's body on its latched inputs and held outputs: the machine state that it leaves. The ports are cut to those that there
// are, so that nothing need be known of the task number.
fn run_ports(part: &[u8], task: u32, machine: u32, latched: &[u32], held: &mut [u32]) -> u32
    requires { Whole part.now }
    ensures { Ran (body (task_of (words_of part.now)) (ports_of latched.now task) machine (ports_of held.old task)) task held.old held.new result }
{
    let at = task as usize * arrays::PORTS;
    let past = at + arrays::PORTS;
    let first = at.min(latched.len());
    let last = past.min(latched.len());
    let start = at.min(held.len());
    let end = past.min(held.len());
    body::run_lent(part, &latched[first..last], machine, &mut held[start..end])
}

// The body of a task runs, and the task is FINISHED.
fn finish_task(plan: &[u8], task: u32, tasks: &mut [u32], latched: &[u32], held: &mut [u32])
    requires { Whole (body_part plan.now task) }
    ensures { Finished (words_of plan.now) task latched.now tasks.old tasks.new held.old held.new }
{
    let machine = task_field(tasks, task, arrays::MACHINE);
    let next = run_ports(plan::task_part(plan, task), task, machine, latched, held);
    let at = task as usize * arrays::FIELDS;
    put(tasks, at, arrays::FINISHED);
    put(tasks, at + 1, 0);
    put(tasks, at + 3, next);
}

// The task of a row runs for a tick; the word at which its records end.
fn work_row(
    plan: &[u8],
    rows: &[u32],
    row: u32,
    t: u32,
    signals: &mut [u32],
    tasks: &mut [u32],
    latched: &[u32],
    held: &mut [u32],
    trace: &mut [u32],
    from: usize,
) -> usize
    requires from_bound { from < 2 ^ 63 }
    requires whole { Whole (body_part plan.now (task_of_row rows.now row)) }
    ensures does { Does (record { signals = signals.new; tasks = tasks.new; latched = latched.now; held = held.new }) trace.old trace.new from result
        (work t (words_of plan.now) rows.now row (record { signals = signals.old; tasks = tasks.old; latched = latched.now; held = held.old })) }
    ensures near { result ≤ from + 2 ^ 35 }
{
    let task = row_field(rows, row, arrays::TASK);
    let deadline = row_field(rows, row, arrays::DEADLINE);
    let rest = task_field(tasks, task, arrays::REMAINING).saturating_sub(1);
    if rest != 0 {
        put(tasks, task as usize * arrays::FIELDS + 1, rest);
        return from;
    }
    finish_task(plan, task, tasks, latched, held);
    if deadline != 0 {
        return from;
    }
    let at = write_row(rows, row, t, held, signals, trace, from);
    reset_task(tasks, task, arrays::READY);
    at
}

// Step 3: the most urgent ACTIVE task runs for a tick, where there is one; the word at which its records end.
#[tactic(auto, unfolding(steps::specs::Flat::runs_flat, trace::specs::Trace::over))]
pub fn run_urgent(
    plan: &[u8],
    rows: &[u32],
    count: u32,
    t: u32,
    signals: &mut [u32],
    tasks: &mut [u32],
    latched: &[u32],
    held: &mut [u32],
    trace: &mut [u32],
    from: usize,
) -> usize
    requires bounds { (count ≤ max_tasks) × (from < 2 ^ 62 + 2 ^ 42) }
    requires whole_bodies { WholeBodies plan.now rows.now count }
    ensures does { Does (record { signals = signals.new; tasks = tasks.new; latched = latched.now; held = held.new }) trace.old trace.new from result
        (runs_flat t (words_of plan.now) rows.now count (record { signals = signals.old; tasks = tasks.old; latched = latched.now; held = held.old })) }
    ensures near { result ≤ from + 2 ^ 35 }
{
    let row = choice::running_row(rows, count, tasks);
    if row < count {
        return work_row(
            plan, rows, row, t, signals, tasks, latched, held, trace, from,
        );
    }
    from
}
