// The public state taken apart into the arrays of numbers that the steps of a tick are lent, and put together again.
#![tactic(auto)]

ghost use Rattle.std.specs.Prelude.{◌≡◌, [], ◌*◌, ◌<◌, length};
ghost use Rattle.std.proofs.lemmas.List.Edits.{sets};
ghost use Rattle.limits.specs.Limits.{max_tasks, max_ports};
ghost use Rattle.whole.specs.Whole.{ports_in, task_in, whole, four_of, off_each};

use arrays::{get, put, task_field};
use limits::{ALL_PORTS, ALL_SIGNALS, ALL_TASKS};
use state::{State, Status, TaskState};

// A task's status, remaining ticks, release instant and machine state.
const NUMBERS: u32 = arrays::FIELDS as u32;

pub const FIELDS: usize = ALL_TASKS * arrays::FIELDS;

pub const PORTS_OF_ALL: usize = ALL_TASKS * ALL_PORTS;

// The eight ports of a task.
fn ports_in(ports: &[u32], task: u32) -> [u32; ALL_PORTS]
    ensures { result ≡ ports_in ports.now task }
{
    let mut out = [0u32; ALL_PORTS];
    for i in 0..limits::PORTS {
        let x = get(ports, task as usize * ALL_PORTS + i as usize);
        out[i as usize] = x;
    }
    out
}

// One task; the signals are no part of it.
#[tactic(auto, unfolding(state::specs::Numbers::status_of))]
fn task_in(tasks: &[u32], latched: &[u32], held: &[u32], task: u32) -> TaskState
    ensures { result ≡ task_in (record { signals = []; tasks = tasks.now; latched = latched.now; held = held.now }) task }
{
    TaskState {
        status: Status::from(task_field(tasks, task, arrays::STATUS)),
        remaining: task_field(tasks, task, arrays::REMAINING),
        release: task_field(tasks, task, arrays::RELEASE),
        machine: task_field(tasks, task, arrays::MACHINE),
        latched: ports_in(latched, task),
        held: ports_in(held, task),
    }
}

// Total: for arrays of any lengths, so that nothing need be known of them where it is called.
pub fn together(
    signals: [u32; ALL_SIGNALS],
    tick: u32,
    place: u32,
    tasks: &[u32],
    latched: &[u32],
    held: &[u32],
) -> State
    ensures { result ≡ record { tick = tick; place = place; signals = signals; tasks = whole (record { signals = signals; tasks = tasks.now; latched = latched.now; held = held.now }) } }
{
    // A loop, and one over the ports: with `from_fn`, and tests in `state_fits` that end early, a call of one tick took a quarter
    // longer. Every place is stored below. To fill them with a task that is read would call `task_in` in a second place: then the
    // compiler no longer makes it part of this loop, and tests each read for an array whose length it knows here.
    let empty = TaskState {
        status: Status::READY,
        remaining: 0,
        release: 0,
        machine: 0,
        latched: [0; ALL_PORTS],
        held: [0; ALL_PORTS],
    };
    let mut states = [empty; ALL_TASKS];
    for i in 0..limits::TASKS {
        let x = task_in(tasks, latched, held, i);
        states[i as usize] = x;
    }
    State {
        tick,
        place,
        signals,
        tasks: states,
    }
}

// The four numbers of a task.
#[tactic(auto, unfolding(state::specs::Numbers::number_of))]
fn four_of(x: &TaskState) -> [u32; arrays::FIELDS]
    ensures { result ≡ four_of x.now }
{
    [u32::from(x.status), x.remaining, x.release, x.machine]
}

// Values one after the other, from a place on.
fn put_all(out: &mut [u32], from: u32, values: &[u32])
    ensures { out.new ≡ sets out.old from values.now }
{
    for (i, x) in values.iter().enumerate() {
        put(out, from as usize + i, *x);
    }
}

// Stores the numbers and ports of task i. The task is lent, and not copied.
fn put_task(x: &TaskState, i: u32, tasks: &mut [u32], latched: &mut [u32], held: &mut [u32])
    requires { i < max_tasks }
    ensures tasks { tasks.new ≡ sets tasks.old (i * 4) (four_of x.now) }
    ensures latched { latched.new ≡ sets latched.old (i * max_ports) x.now.latched }
    ensures held { held.new ≡ sets held.old (i * max_ports) x.now.held }
    ensures ports { (length x.now.latched ≡ max_ports) × (length x.now.held ≡ max_ports) }
{
    put_all(tasks, i * NUMBERS, &four_of(x));
    put_all(latched, i * limits::PORTS, &x.latched);
    put_all(held, i * limits::PORTS, &x.held);
}

// Takes the tasks apart into the lent arrays, all in one pass.
pub fn take_apart(
    states: [TaskState; ALL_TASKS],
    tasks: &mut [u32],
    latched: &mut [u32],
    held: &mut [u32],
)
    requires { (length tasks.old ≡ max_tasks * 4) × (length latched.old ≡ max_tasks * max_ports) × (length held.old ≡ max_tasks * max_ports) }
    ensures tasks { tasks.new ≡ off_each four_of states }
    ensures latched { latched.new ≡ off_each (λ x. x.latched) states }
    ensures held { held.new ≡ off_each (λ x. x.held) states }
{
    for (i, x) in states.iter().enumerate() {
        put_task(x, i as u32, tasks, latched, held);
    }
}
