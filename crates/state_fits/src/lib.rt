// Document 01, 'Task states': whether a state fits a plan and its events (number 12).
#![tactic(auto, unfolding(plan::specs::File::task_of))]

ghost use Rattle.std.specs.Prelude.{◌≡◌, ◌≤◌, drop};
ghost use Rattle.limits.specs.Limits.{max_tasks};
ghost use Rattle.lists.specs.Lists.{tab, all};
ghost use Rattle.words.specs.Words.{words_of};
ghost use Rattle.plan.specs.File.{task_count, task_of, body_part, plan_of};
ghost use Rattle.events.specs.Events.{events_of, events_verdict};
ghost use Rattle.state.specs.State.{state_at};
ghost use Rattle.state.specs.Fits.{period_rule, in_flight_rule, status_rule, zeros_from, machine_rule, task_fits, is_idle, fits};
ghost use Rattle.state.specs.Steps.{place_rule};

use limits::ALL_TASKS;
use plan::{NoKind, TaskKind};
use state::{State, Status, TaskState};
use words::word;

// Whether all values from place n on are 0. A loop that asks all of them: with one that ends at the
// first other value, and arrays made by `from_fn` in `apart`, a call of one tick took a quarter longer.
fn zeros_from(values: &[u32], n: u32) -> bool
    ensures { result ≡ zeros_from n values.now }
{
    let mut good = true;
    for i in n as usize..values.len() {
        good &= values[i] == 0;
    }
    good
}

// The instants of accepted events never fall: two neighbours say what a count of all would.
fn place_holds(events: &[u8], tick: u32, place: u32) -> bool
    ensures { result ≡ place_rule events.now tick place }
{
    let count = events.len() / limits::EVENT_SIZE;
    let at = place as usize;
    let before = word(events, at.saturating_sub(1) * 4);
    let next = word(events, at * 4);
    (at <= count) & ((at == 0) | (before < tick)) & ((at == count) | (tick <= next))
}

fn period_holds(part: &[u8], tick: u32, release: u32) -> bool
    ensures { result ≡ period_rule tick (task_of (words_of part.now)) release }
{
    let period = word(part, plan::PERIOD);
    if period == 0 {
        return true;
    }
    let offset = word(part, plan::OFFSET);
    if release < offset {
        return false;
    }
    ((release - offset) % period == 0) & (tick as usize <= release as usize + period as usize)
}

// A task in flight: ACTIVE or FINISHED.
fn in_flight_holds(part: &[u8], tick: u32, release: u32) -> bool
    ensures { result ≡ in_flight_rule tick (task_of (words_of part.now)) release }
{
    let deadline = word(part, plan::DEADLINE);
    let in_time = (release < tick)
        & ((deadline == 0) | (tick as usize <= release as usize + deadline as usize));
    in_time & period_holds(part, tick, release)
}

fn active_holds(part: &[u8], tick: u32, remaining: u32, release: u32) -> bool
    ensures { result ≡ status_rule Status.ACTIVE tick (task_of (words_of part.now)) remaining release }
{
    let execution = word(part, plan::EXECUTION);
    ((1 <= remaining) & (remaining <= execution)) & in_flight_holds(part, tick, release)
}

fn finished_holds(part: &[u8], tick: u32, remaining: u32, release: u32) -> bool
    ensures { result ≡ status_rule Status.FINISHED tick (task_of (words_of part.now)) remaining release }
{
    let deadline = word(part, plan::DEADLINE);
    (remaining == 0) & (deadline != 0) & in_flight_holds(part, tick, release)
}

fn status_holds(part: &[u8], tick: u32, status: Status, remaining: u32, release: u32) -> bool
    ensures { result ≡ status_rule status tick (task_of (words_of part.now)) remaining release }
{
    match status {
        Status::READY | Status::ERROR => (remaining == 0) & (release == 0),
        Status::ACTIVE => active_holds(part, tick, remaining, release),
        Status::FINISHED => finished_holds(part, tick, remaining, release),
    }
}

fn machine_holds(part: &[u8], machine: u32) -> bool
    ensures { result ≡ machine_rule (task_of (words_of part.now)) machine }
{
    match TaskKind::try_from(word(part, plan::KIND)) {
        Ok(TaskKind::Supervisor) => (1 <= machine) & (machine <= limits::STATES),
        Ok(TaskKind::Controller) => machine == 0,
        Err(NoKind) => machine == 0,
    }
}

// A task of the plan.
fn task_fits(part: &[u8], tick: u32, x: &TaskState) -> bool
    ensures { result ≡ task_fits tick (task_of (words_of part.now)) x.now }
{
    status_holds(part, tick, x.status, x.remaining, x.release)
        & zeros_from(&x.latched, word(part, plan::INPUT_COUNT))
        & zeros_from(&x.held, word(part, plan::OUTPUT_COUNT))
        & machine_holds(part, x.machine)
}

// What stands from T on.
fn is_idle(x: &TaskState) -> bool
    ensures { result ≡ is_idle x.now }
{
    (x.status == Status::READY)
        & (x.remaining == 0)
        & (x.release == 0)
        & (x.machine == 0)
        & zeros_from(&x.latched, 0)
        & zeros_from(&x.held, 0)
}

// The tasks that the plan has, of the first `count`.
fn tasks_fit(plan: &[u8], tick: u32, tasks: [TaskState; ALL_TASKS], count: u32) -> bool
    requires { (count ≤ task_count (words_of plan.now)) × (count ≤ max_tasks) }
    ensures { result ≡ all (λ i. task_fits tick (task_of (words_of (body_part plan.now i))) (state_at tasks i)) (tab (λ i. i) 0 count) }
{
    (0..count).all(|i| task_fits(plan::task_part(plan, i), tick, &tasks[i as usize]))
}

// Those from `count` on, in a loop of their own: were both asked in one, all numbers of a task would be kept at hand for either.
fn rest_idle(tasks: [TaskState; ALL_TASKS], count: u32) -> bool
    ensures { result ≡ all is_idle (drop count tasks) }
{
    tasks.iter().skip(count as usize).all(|x| is_idle(x))
}

// For an accepted plan and accepted events: that instants never fall is what the event place is told by.
pub fn fits(plan: &[u8], events: &[u8], state: State) -> bool
    requires { (events_verdict plan.now events.now).number ≡ 0 }
    ensures { result ≡ fits (plan_of plan.now) (events_of events.now) state }
{
    let tick = state.tick;
    let tasks = state.tasks;
    let count = word(plan, plan::TASK_COUNT).min(limits::TASKS);
    (tick <= limits::TIME)
        & place_holds(events, tick, state.place)
        & zeros_from(&state.signals, word(plan, plan::SIGNAL_COUNT))
        & (tasks_fit(plan, tick, tasks, count) & rest_idle(tasks, count))
}
