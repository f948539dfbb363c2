// Document 01, 'The plan file': the numbers of its words and where its parts start, each named once for all code that reads a
// plan. What the file says stands in specs/File.antt, when it is accepted and which number and place a refusal has in
// specs/Rules.antt, and the same as a person would write it in specs/Accepted.antt. The check stands in the crates plan_task
// and plan_check, the body reader in plan_body, the rows of a schedule in plan_schedule.
#![tactic(auto)]

ghost use Rattle.std.specs.Prelude.{◌≡◌, ◌<◌, ◌≤◌, ◌^◌};
ghost use Rattle.words.specs.Words.{words_of};
ghost use Rattle.plan.specs.File.{start_of, length_of, body_part, outputs_at, transitions_at, actions_at};
ghost use Rattle.plan.specs.Kinds.{IsTaskKind, IsActionKind};

use words::word;

// "Word 0: version 1. Word 1: signals S, 1..64. Word 2: tasks T, 1..16."
pub const VERSION: usize = 0;

pub const SIGNAL_COUNT: usize = 1;

pub const TASK_COUNT: usize = 2;

// "Then T + 1 pairs (start word, length in words)": the word of the first pair, and the words of each.
pub const CONTENTS_AT: usize = 3;

pub const ENTRY_WORDS: usize = 2;

// "Task body: priority, period, deadline, execution time, offset, kind, initial state, ni, no, nt, na; then ni input signals"
pub const PRIORITY: usize = 0;

pub const PERIOD: usize = 1;

pub const DEADLINE: usize = 2;

pub const EXECUTION: usize = 3;

pub const OFFSET: usize = 4;

pub const KIND: usize = 5;

pub const INITIAL: usize = 6;

pub const INPUT_COUNT: usize = 7;

pub const OUTPUT_COUNT: usize = 8;

pub const TRANSITION_COUNT: usize = 9;

pub const ACTION_COUNT: usize = 10;

pub const INPUTS_AT: usize = 11;

// "nt transitions (from, input position, order, to), na actions (state, kind, a, b, c)": the words of each.
pub const TRANSITION_WORDS: usize = 4;

pub const ACTION_WORDS: usize = 5;

// "the kind is 1 or 2"; "Kind 1 (supervisor)", "Kind 2 (controller)"
#[derive(Clone, Copy, PartialEq, Eq)]
pub enum TaskKind {
    Supervisor,
    Controller,
}

// "An action's kind is 1..4"; "1 set", "2 copy", "3 add", "4 move"
#[derive(Clone, Copy, PartialEq, Eq)]
pub enum ActionKind {
    Set = 1,
    Copy = 2,
    Add = 3,
    Move = 4,
}

// A word of a file that is the number of no kind.
#[derive(Clone, Copy, PartialEq, Eq)]
pub struct NoKind;

impl TryFrom<u32> for TaskKind {
    type Error = NoKind;

    ghost try_from_gives = { IsTaskKind };

    fn try_from(number: u32) -> Result<TaskKind, NoKind> {
        match number {
            1 => Ok(TaskKind::Supervisor),
            2 => Ok(TaskKind::Controller),
            _ => Err(NoKind),
        }
    }
}

impl TryFrom<u32> for ActionKind {
    type Error = NoKind;

    ghost try_from_gives = { IsActionKind };

    fn try_from(number: u32) -> Result<ActionKind, NoKind> {
        match number {
            1 => Ok(ActionKind::Set),
            2 => Ok(ActionKind::Copy),
            3 => Ok(ActionKind::Add),
            4 => Ok(ActionKind::Move),
            _ => Err(NoKind),
        }
    }
}

// The start word of an entry of the contents, 0 where the file has no such entry: entry 0 is the signals', entry i + 1 task i's.
pub fn start_of(bytes: &[u8], entry: usize) -> u32
    requires { entry ≤ 2 ^ 32 }
    ensures { result ≡ start_of (words_of bytes.now) entry }
{
    word(bytes, CONTENTS_AT + entry * ENTRY_WORDS)
}

// The length in words that stands beside it.
pub fn length_of(bytes: &[u8], entry: usize) -> u32
    requires { entry ≤ 2 ^ 32 }
    ensures { result ≡ length_of (words_of bytes.now) entry }
{
    word(bytes, CONTENTS_AT + 1 + entry * ENTRY_WORDS)
}

// The body part of task i, cut to the file where an entry reaches beyond it.
pub fn task_part(bytes: &[u8], task: u32) -> &[u8]
    ensures { result.now ≡ body_part bytes.now task }
{
    let entry = task as usize + 1;
    let start = start_of(bytes, entry);
    let size = length_of(bytes, entry);
    words::part(bytes, start, size)
}

// Where the lists of a body start. Their counts are any 32-bit numbers: the bounds are what callers need to add to a place
// safely.

// The word of a body at which its output signals start.
pub fn outputs_at(part: &[u8]) -> usize
    ensures value { result ≡ outputs_at (words_of part.now) }
    ensures small { result < 2 ^ 33 }
{
    INPUTS_AT + word(part, INPUT_COUNT) as usize
}

// The word at which its transitions start.
pub fn transitions_at(part: &[u8]) -> usize
    ensures value { result ≡ transitions_at (words_of part.now) }
    ensures small { (0 < result) × (result < 2 ^ 34) }
{
    outputs_at(part) + word(part, OUTPUT_COUNT) as usize
}

// The word at which its actions start.
pub fn actions_at(part: &[u8]) -> usize
    ensures value { result ≡ actions_at (words_of part.now) }
    ensures small { result < 2 ^ 35 }
{
    transitions_at(part) + word(part, TRANSITION_COUNT) as usize * TRANSITION_WORDS
}
