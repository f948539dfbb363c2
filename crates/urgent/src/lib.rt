// Document 01, 'One tick', step 3: "The choice of the running task reads the lent list of task records."
#![tactic(auto)]

ghost use Rattle.std.specs.Prelude.{◌≡◌};
ghost use Rattle.urgent.specs.Urgent.{key_of, least_rank};

// So many records are lent at a time. Rows stand in order of priority, so the first pair with an ACTIVE record ends the search.
pub const PAIR: u32 = 2;

const RECORDS: usize = PAIR as usize;

// What stands for no rank: above every rank that a task has, so that a fold by `min` may begin with it.
pub const NONE: u32 = limits::TOP_VALUE as u32;

// What the choice reads of a task: its status as a number, and its rank among all: the smaller, the more urgent.
#[derive(Clone, Copy)]
pub struct TaskRecord {
    pub status: u32,
    pub rank: u32,
}

// The rank of a record that is ACTIVE.
#[tactic(auto, unfolding(crate::specs::Urgent::key_of))]
fn key_of(one: TaskRecord) -> u32
    ensures { result ≡ key_of one }
{
    if one.status == arrays::ACTIVE {
        one.rank
    } else {
        NONE
    }
}

// The least rank of the ACTIVE records of a lent list, and NONE where there is none.
pub fn most_urgent(records: &[TaskRecord]) -> u32
    ensures { result ≡ least_rank records.now }
{
    records.iter().map(|one| key_of(*one)).fold(NONE, u32::min)
}

// The same of a pair that is passed by value: it lends its own copy, so whoever calls it lends nothing.
pub fn urgent_of(pair: [TaskRecord; RECORDS]) -> u32
    ensures { result ≡ least_rank pair }
{
    most_urgent(&pair)
}
