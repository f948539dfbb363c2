// Document 01: the entries of the kernel. Each takes every input and ends with an answer from the paper's list.
#![tactic(auto)]

ghost use Rattle.std.specs.Prelude.{◌≡◌, ◌+◌, leb, cond};
ghost use Rattle.limits.specs.Limits.{max_time};
ghost use Rattle.answers.specs.Answers.{said, verdict};
ghost use Rattle.kernel.specs.Call.{Starts, call_verdict, Runs};

use answers::{Answer, Refusal};
use state::State;
use step::Clock;

// What a fresh start answers. No Result: a refusal comes with a state too, the all-zero one.
#[derive(Clone, Copy)]
pub struct Started {
    pub answer: Answer,
    pub state: State,
}

// What a run answers. No Result: a refusal comes with the state that was given, a full trace with the ticks that were run.
#[derive(Clone, Copy, PartialEq, Eq)]
pub struct Outcome {
    pub answer: Answer,
    pub ticks: u32,
    pub records: usize,
    pub state: State,
}

// The entry that starts: an answer and a state for any bytes.
pub fn fresh_start(plan: &[u8]) -> Started
    ensures { Starts plan.now result }
{
    let answer = plan_check::check(plan);
    if answers::accepted(answer) {
        let state = state_fresh::fresh_state(plan);
        return Started { answer, state };
    }
    let state = state_fresh::zero_state();
    Started { answer, state }
}

// Rule 13. The sum is taken in 64 bits and cannot wrap.
fn ticks_hold(tick: u32, asked: u32) -> bool
    ensures { result ≡ leb (tick + asked) max_time }
{
    let last = tick as u64 + asked as u64;
    last <= limits::TIME as u64
}

// The number and place of a call: the plan's and the events', then 12, then 13, or 0.
fn call_answer(plan: &[u8], events: &[u8], state: State, asked: u32) -> Answer
    ensures { said result ≡ call_verdict plan.now events.now state asked }
{
    event_check::check(plan, events)?;
    if !state_fits::fits(plan, events, state) {
        return Err(Refusal::StateUnfit);
    }
    if !ticks_hold(state.tick, asked) {
        return Err(Refusal::TooManyTicks);
    }
    Ok(())
}

// How a run that no rule refused ends: all asked ticks run, or the trace full before that.
fn end_answer(full: bool) -> Answer
    ensures { said result ≡ cond full (verdict 14 0) (verdict 0 0) }
{
    if full {
        Err(Refusal::TraceFull)
    } else {
        Ok(())
    }
}

// A run that no rule refuses: the plan is read once, the state taken apart, the ticks run, the state put together again.
fn run_accepted(plan: &[u8], events: &[u8], state: State, asked: u32, trace: &mut [u32]) -> Outcome
    requires { (call_verdict plan.now events.now state asked).number ≡ 0 }
    ensures { Runs plan.now events.now state asked trace.old trace.new result }
{
    let mut rows = [0u32; plan_schedule::WORDS];
    let count = plan_schedule::schedule_of(plan, &mut rows);
    let states = state.tasks;
    let mut signals = state.signals;
    let mut tasks = [0u32; apart::FIELDS];
    let mut latched = [0u32; apart::PORTS_OF_ALL];
    let mut held = [0u32; apart::PORTS_OF_ALL];
    apart::take_apart(states, &mut tasks, &mut latched, &mut held);
    let clock = Clock {
        tick: state.tick,
        place: state.place,
        at: 0,
    };
    let ran = run::run_ticks(
        plan,
        &rows,
        count,
        events,
        clock,
        asked,
        &mut signals,
        &mut tasks,
        &mut latched,
        &mut held,
        trace,
    );
    let after = ran.clock;
    let answer = end_answer(ran.full);
    let next = apart::together(signals, after.tick, after.place, &tasks, &latched, &held);
    Outcome {
        answer,
        ticks: ran.ticks,
        records: after.at / 5,
        state: next,
    }
}

// Runs so many ticks from a state, with the trace's records from its start. On 1..13 nothing is run: the state comes back as it
// was given, and no word of the trace is touched. 14 stops before the tick whose records do not all fit.
pub fn run(plan: &[u8], events: &[u8], state: State, asked: u32, trace: &mut [u32]) -> Outcome
    ensures { Runs plan.now events.now state asked trace.old trace.new result }
{
    let answer = call_answer(plan, events, state, asked);
    if !answers::accepted(answer) {
        return Outcome {
            answer,
            ticks: 0,
            records: 0,
            state,
        };
    }
    run_accepted(plan, events, state, asked, trace)
}

// The kernel's state as it goes from tick to tick.
#[derive(Clone, Copy)]
pub struct Kernel {
    pub state: State,
}

impl Kernel {
    // "The state goes in by value and the stepped state comes back": one tick.
    pub fn tick(self, plan: &[u8], events: &[u8], trace: &mut [u32]) -> Outcome
        ensures { Runs plan.now events.now self.state 1 trace.old trace.new result }
    {
        let state = self.state;
        run(plan, events, state, 1, trace)
    }
}
