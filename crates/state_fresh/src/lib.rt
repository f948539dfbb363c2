// Document 01, 'Task states': the fresh state of a plan, and the all-zero one.
#![tactic(auto)]

ghost use Rattle.std.specs.Prelude.{◌≡◌, map, get_or};
ghost use Rattle.limits.specs.Limits.{max_signals, max_ports};
ghost use Rattle.words.specs.Words.{words_of};
ghost use Rattle.plan.specs.File.{task_of, plan_of};
ghost use Rattle.state.specs.State.{pad, value_at, idle, fresh_task, fresh, zero_state};
ghost use Rattle.state.specs.Steps.{fresh_at};

use limits::{ALL_PORTS, ALL_SIGNALS, ALL_TASKS};
use state::{State, Status, TaskState};
use std::array;
use words::word;

// What stands from T on.
fn idle_task() -> TaskState
    ensures { result ≡ idle }
{
    TaskState {
        status: Status::READY,
        remaining: 0,
        release: 0,
        machine: 0,
        latched: [0; ALL_PORTS],
        held: [0; ALL_PORTS],
    }
}

pub fn zero_state() -> State
    ensures { result ≡ zero_state }
{
    State {
        tick: 0,
        place: 0,
        signals: [0; ALL_SIGNALS],
        tasks: [idle_task(); ALL_TASKS],
    }
}

// The initial value of a signal; 0 where the plan has no such signal.
fn initial_value(plan: &[u8], signal: u32) -> u32
    ensures { result ≡ value_at (plan_of plan.now).signals signal }
{
    if signal < word(plan, plan::SIGNAL_COUNT) {
        word(plan, plan::start_of(plan, 0) as usize + signal as usize)
    } else {
        0
    }
}

fn fresh_signals(plan: &[u8]) -> [u32; ALL_SIGNALS]
    ensures { result ≡ pad max_signals 0 (plan_of plan.now).signals }
{
    array::from_fn(|i| initial_value(plan, i as u32))
}

// The initial value of the signal that a task writes at a position; 0 where it has no such output.
fn initial_output(plan: &[u8], part: &[u8], position: u32) -> u32
    ensures { result ≡ get_or (map (value_at (plan_of plan.now).signals) (task_of (words_of part.now)).outputs) position 0 }
{
    if position < word(part, plan::OUTPUT_COUNT) {
        let at = plan::outputs_at(part) + position as usize;
        initial_value(plan, word(part, at))
    } else {
        0
    }
}

fn fresh_outputs(plan: &[u8], part: &[u8]) -> [u32; ALL_PORTS]
    ensures { result ≡ pad max_ports 0 (map (value_at (plan_of plan.now).signals) (task_of (words_of part.now)).outputs) }
{
    array::from_fn(|i| initial_output(plan, part, i as u32))
}

fn fresh_task(plan: &[u8], part: &[u8]) -> TaskState
    ensures { result ≡ fresh_task (plan_of plan.now).signals (task_of (words_of part.now)) }
{
    TaskState {
        status: Status::READY,
        remaining: 0,
        release: 0,
        machine: word(part, plan::INITIAL),
        latched: [0; ALL_PORTS],
        held: fresh_outputs(plan, part),
    }
}

// Task i of a fresh state.
fn fresh_at(plan: &[u8], task: u32) -> TaskState
    ensures { result ≡ fresh_at (plan_of plan.now) task }
{
    if task < word(plan, plan::TASK_COUNT) {
        fresh_task(plan, plan::task_part(plan, task))
    } else {
        idle_task()
    }
}

// Total: for any bytes, so that nothing need be known of the plan where it is called.
pub fn fresh_state(plan: &[u8]) -> State
    ensures { result ≡ fresh (plan_of plan.now) }
{
    State {
        tick: 0,
        place: 0,
        signals: fresh_signals(plan),
        tasks: array::from_fn(|i| fresh_at(plan, i as u32)),
    }
}
