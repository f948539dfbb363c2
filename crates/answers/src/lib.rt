// Document 01, 'Numbers returned': what a call can answer.
#![tactic(auto)]

ghost use Rattle.std.specs.Prelude.{◌≡◌, eqb};
ghost use Rattle.answers.specs.Answers.{refused, said};

// Why a call is refused, or ends early: one case for each number above 0, with the place that goes with it. `refused`
// (specs/Answers.antt) sets out number and place of each.
#[derive(Clone, Copy, PartialEq, Eq)]
pub enum Refusal {
    PlanSize,
    PlanHead,
    PlanContents,
    TaskShape { task: u32 },
    TaskTiming { task: u32 },
    TaskBody { task: u32 },
    SamePriority { task: u32 },
    SameOutput { task: u32 },
    EventSize,
    EventInstant { record: u32 },
    EventContent { record: u32 },
    StateUnfit,
    TooManyTicks,
    TraceFull,
    NoSuchTask,
}

// What a call answers: number 0, or why not.
pub type Answer = Result<(), Refusal>;

impl Refusal {
    // The paper's number of a refusal.
    pub fn number(self) -> u32
        ensures { result ≡ (refused self).number }
    {
        match self {
            Refusal::PlanSize => 1,
            Refusal::PlanHead => 2,
            Refusal::PlanContents => 3,
            Refusal::TaskShape { .. } => 4,
            Refusal::TaskTiming { .. } => 5,
            Refusal::TaskBody { .. } => 6,
            Refusal::SamePriority { .. } => 7,
            Refusal::SameOutput { .. } => 8,
            Refusal::EventSize => 9,
            Refusal::EventInstant { .. } => 10,
            Refusal::EventContent { .. } => 11,
            Refusal::StateUnfit => 12,
            Refusal::TooManyTicks => 13,
            Refusal::TraceFull => 14,
            Refusal::NoSuchTask => 26,
        }
    }

    // The place that goes with it: a task, a record, or 0.
    pub fn place(self) -> u32
        ensures { result ≡ (refused self).place }
    {
        match self {
            Refusal::TaskShape { task }
            | Refusal::TaskTiming { task }
            | Refusal::TaskBody { task }
            | Refusal::SamePriority { task }
            | Refusal::SameOutput { task } => task,
            Refusal::EventInstant { record } | Refusal::EventContent { record } => record,
            Refusal::PlanSize
            | Refusal::PlanHead
            | Refusal::PlanContents
            | Refusal::EventSize
            | Refusal::StateUnfit
            | Refusal::TooManyTicks
            | Refusal::TraceFull
            | Refusal::NoSuchTask => 0,
        }
    }
}

// The paper's number of an answer.
pub fn number(answer: Answer) -> u32
    ensures { result ≡ (said answer).number }
{
    match answer {
        Ok(()) => 0,
        Err(refusal) => refusal.number(),
    }
}

// The place that goes with it.
pub fn place(answer: Answer) -> u32
    ensures { result ≡ (said answer).place }
{
    match answer {
        Ok(()) => 0,
        Err(refusal) => refusal.place(),
    }
}

// Whether the answer has number 0.
pub fn accepted(answer: Answer) -> bool
    ensures { result ≡ eqb (said answer).number 0 }
{
    answer.is_ok()
}
