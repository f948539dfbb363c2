// The benchmark's program: it reads a workload, then makes a pass over it for each byte that comes, and prints a line for each
// pass, so that the program at the other end can time it (tests/README.md has the form).
#![tactic(auto)]

use answers::Answer;
use input::{read_full, read_part};
use state::State;
use std::io::{self, Read};
use words::word;

const HEAD_BYTES: usize = 24;

// What is called in a pass.
#[derive(Clone, Copy)]
enum Call {
    // A run of so many ticks, the state handed on from call to call.
    HandOn { ticks: u32 },
    // A run of one tick, each from the same state.
    SameState,
    PlanCheck,
}

// What a pass is: so many calls of one kind.
#[derive(Clone, Copy)]
struct Workload<'a> {
    call: Call,
    calls: u32,
    plan: &'a [u8],
    events: &'a [u8],
}

// What a pass came to: the sum of the numbers that its calls returned, of their records, and the last tick.
#[derive(Drop)]
struct Pass {
    numbers: u64,
    records: u64,
    tick: u32,
}

fn call_of(mode: u32, ticks: u32) -> Call {
    match mode {
        1 => Call::HandOn { ticks },
        2 => Call::SameState,
        _ => Call::PlanCheck,
    }
}

impl Pass {
    fn new() -> Pass {
        Pass {
            numbers: 0,
            records: 0,
            tick: 0,
        }
    }

    fn add(&mut self, answer: Answer, records: usize) {
        self.numbers = self.numbers.wrapping_add(answers::number(answer) as u64);
        self.records = self.records.wrapping_add(records as u64);
    }
}

// The loops stand apart, since they are what is timed: one loop over a closure costs 30 ns a call, in which the closure clears and
// copies what the call returned.
impl Workload<'_> {
    fn hand_on(&self, begin: State, ticks: u32, trace: &mut [u32]) -> Pass {
        let mut pass = Pass::new();
        let mut state = begin;
        for _ in 0..self.calls {
            let ended = kernel::run(self.plan, self.events, state, ticks, trace);
            state = ended.state;
            pass.add(ended.answer, ended.records);
        }
        pass.tick = state.tick;
        pass
    }

    fn same_state(&self, begin: State, trace: &mut [u32]) -> Pass {
        let mut pass = Pass::new();
        for _ in 0..self.calls {
            let ended = kernel::run(self.plan, self.events, begin, 1, trace);
            pass.tick = ended.state.tick;
            pass.add(ended.answer, ended.records);
        }
        pass
    }

    fn check_plan(&self) -> Pass {
        let mut pass = Pass::new();
        for _ in 0..self.calls {
            pass.add(plan_check::check(self.plan), 0);
        }
        pass
    }

    fn one_pass(&self, begin: State, trace: &mut [u32]) -> Pass {
        match self.call {
            Call::HandOn { ticks } => self.hand_on(begin, ticks, trace),
            Call::SameState => self.same_state(begin, trace),
            Call::PlanCheck => self.check_plan(),
        }
    }
}

// Whether another pass is asked for: a byte each.
fn asked(input: &mut impl Read) -> io::Result<bool> {
    let mut one = [0u8; 1];
    Ok(read_full(input, &mut one)? == 1)
}

// The passes begin with one state: fresh, or after so many ticks. A proved loop has to end: no measurement uses up its turns.
fn passes(rt: &impl Print, input: &mut impl Read, work: &Workload, before: u32) -> io::Result<()> {
    let mut trace = [0u32; limits::TRACE_WORDS];
    let fresh = kernel::fresh_start(work.plan).state;
    let begin = kernel::run(work.plan, work.events, fresh, before, &mut trace).state;
    for _ in 0..u64::MAX {
        if !asked(input)? {
            break;
        }
        let pass = work.one_pass(begin, &mut trace);
        println!(rt; "{} {} {}", pass.numbers, pass.records, pass.tick)?;
    }
    Ok(())
}

fn main(rt: HostRuntime) -> io::Result<()> {
    let mut input = rt.stdin();
    let mut head = [0u8; HEAD_BYTES];
    let mut plan = [0u8; limits::PLAN_BYTES];
    let mut events = [0u8; limits::EVENT_BYTES];
    let Some(head) = read_part(&mut input, &mut head, HEAD_BYTES)? else {
        return Ok(());
    };
    let Some(plan) = read_part(&mut input, &mut plan, word(head, 4) as usize)? else {
        return Ok(());
    };
    let Some(events) = read_part(&mut input, &mut events, word(head, 5) as usize)? else {
        return Ok(());
    };
    let work = Workload {
        call: call_of(word(head, 0), word(head, 1)),
        calls: word(head, 2),
        plan,
        events,
    };
    passes(&rt, &mut input, &work, word(head, 3))
}
