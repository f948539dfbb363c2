// The state as the steps of a tick hold it: arrays of numbers, lent from step to step, so that nothing of the state's size is
// copied in a tick. Reads past the end give 0 and stores past it do nothing, so no step asks what the plan is like.
#![tactic(auto)]

ghost use Rattle.std.specs.Prelude.{◌≡◌, ◌+◌, ◌*◌, get_or, set};
ghost use Rattle.arrays.specs.Arrays.{field, row_field};

// The statuses as numbers, and not `state::Status`: the definitions of steps/specs and the theorems of whole/specs speak of arrays of
// numbers.
pub const READY: u32 = 0;

pub const ACTIVE: u32 = 1;

pub const FINISHED: u32 = 2;

pub const ERROR: u32 = 3;

// The fields of a task, by the place at which each stands, and how many they are.
pub const STATUS: u32 = 0;

pub const REMAINING: u32 = 1;

pub const RELEASE: u32 = 2;

pub const MACHINE: u32 = 3;

pub const FIELDS: usize = 4;

// How many latched inputs, and held outputs, a task has.
pub const PORTS: usize = limits::ALL_PORTS;

// The fields of a row of the schedule that the steps of a tick read, by the place at which each stands; the input and output
// signals start at theirs. `plan_schedule` fills them.
pub const TASK: u32 = 0;

pub const PERIOD: u32 = 1;

pub const DEADLINE: u32 = 2;

pub const EXECUTION: u32 = 3;

pub const OFFSET: u32 = 4;

pub const INPUT_COUNT: u32 = 7;

pub const OUTPUT_COUNT: u32 = 8;

pub const INPUTS: usize = 16;

pub const OUTPUTS: usize = 24;

pub const WIDTH: usize = 32;

// Value i, and 0 where there is none.
pub fn get(values: &[u32], i: usize) -> u32
    ensures { result ≡ get_or values.now i 0 }
{
    values.get(i).copied().unwrap_or(0)
}

// x at place i; nothing where there is no such place. By a test and not by `get_mut`, which does not say what the values end as.
pub fn put(values: &mut [u32], i: usize, x: u32)
    ensures { values.new ≡ set values.old i x }
{
    if i < values.len() {
        values[i] = x;
    }
}

// Field f of a task: its status, remaining ticks, release instant or machine state.
pub fn task_field(tasks: &[u32], task: u32, f: u32) -> u32
    ensures { result ≡ field tasks.now task f }
{
    get(tasks, task as usize * FIELDS + f as usize)
}

// Field f of row j of the schedule.
pub fn row_field(rows: &[u32], row: u32, f: u32) -> u32
    ensures { result ≡ row_field rows.now row f }
{
    get(rows, row as usize * WIDTH + f as usize)
}
