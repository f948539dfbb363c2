// A state as a case gives it: its words, in the order in which `text` prints them.
ghost use Rattle.std.specs.Prelude.{◌+◌, ◌<◌, ◌≤◌};
ghost use Rattle.limits.specs.Limits.{max_tasks};

use crate::Stop;
use state::{State, Status, TaskState};
use std::array;
use words::word;

const STATE_WORDS: usize = 386;

pub(crate) const STATE_BYTES: usize = STATE_WORDS * 4;

// The words before the first task, and those of a task.
const BEFORE_TASKS: usize = 66;

const TASK_WORDS: usize = 20;

// The greatest number that stands for a status.
const LAST_STATUS: u32 = 3;

fn values_from<const N: usize>(words: &[u8], first: usize) -> [u32; N]
    requires { first + N ≤ STATE_WORDS }
{
    array::from_fn(|i| word(words, first + i))
}

fn task_from(words: &[u8], i: usize) -> Result<TaskState, Stop>
    requires { i < max_tasks }
{
    let at = BEFORE_TASKS + i * TASK_WORDS;
    let status = word(words, at);
    if status > LAST_STATUS {
        return Err(Stop::BadCase);
    }
    Ok(TaskState {
        status: Status::from(status),
        remaining: word(words, at + 1),
        release: word(words, at + 2),
        machine: word(words, at + 3),
        latched: values_from(words, at + 4),
        held: values_from(words, at + 12),
    })
}

// A bad case where there are more words or fewer than a state has, or a status above 3.
pub(crate) fn state_from(words: &[u8]) -> Result<State, Stop> {
    if words.len() != STATE_BYTES {
        return Err(Stop::BadCase);
    }
    Ok(State {
        tick: word(words, 0),
        place: word(words, 1),
        signals: values_from(words, 2),
        tasks: array::try_from_fn(|i| task_from(words, i))?,
    })
}
