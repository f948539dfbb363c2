#![tactic(auto)]

// Document 01, 'Task states': the kernel's state. What is fresh, and when a state fits, is defined in specs/; the code that makes
// and asks it stands in `state_fresh` and `state_fits`.
ghost use Rattle.std.specs.Prelude.{◌≡◌};
ghost use Rattle.state.specs.Numbers.{status_of, number_of};

use limits::{ALL_PORTS, ALL_SIGNALS, ALL_TASKS};

// "READY, ACTIVE, FINISHED, ERROR."
#[derive(Clone, Copy, PartialEq, Eq)]
pub enum Status {
    READY,
    ACTIVE,
    FINISHED,
    ERROR,
}

// The statuses as numbers, as the steps of a tick hold them and programs print them.
impl From<Status> for u32 {
    ghost from_gives = { λ status number. number ≡ number_of status };

    #[tactic(auto, unfolding(crate::specs::Numbers::number_of))]
    fn from(status: Status) -> u32 {
        match status {
            Status::READY => 0,
            Status::ACTIVE => 1,
            Status::FINISHED => 2,
            Status::ERROR => 3,
        }
    }
}

// Total: every number from 3 on stands for ERROR, so that no reader of numbers can stray.
impl From<u32> for Status {
    ghost from_gives = { λ number status. status ≡ status_of number };

    #[tactic(auto, unfolding(crate::specs::Numbers::status_of))]
    fn from(number: u32) -> Status {
        match number {
            0 => Status::READY,
            1 => Status::ACTIVE,
            2 => Status::FINISHED,
            _ => Status::ERROR,
        }
    }
}

// "Each task also has: remaining ticks, release instant, machine state, 8 latched inputs, 8 held outputs."
#[derive(Clone, Copy, PartialEq, Eq)]
pub struct TaskState {
    pub status: Status,
    pub remaining: u32,
    pub release: u32,
    pub machine: u32,
    pub latched: [u32; ALL_PORTS],
    pub held: [u32; ALL_PORTS],
}

#[derive(Clone, Copy, PartialEq, Eq)]
pub struct State {
    pub tick: u32,
    pub place: u32,
    pub signals: [u32; ALL_SIGNALS],
    pub tasks: [TaskState; ALL_TASKS],
}
