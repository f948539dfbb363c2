// The test program: a stream of cases on standard input, one line of numbers for each (tests/README.md has the form).
// A case beyond the stream's limits, of an unknown entry or cut short prints `bad case` and ends the program.
#![tactic(auto)]

ghost use Rattle.std.specs.Prelude.{◌≤◌, length};

use event_reader::Reading;
use given::STATE_BYTES;
use input::{read_full, read_part};
use kernel::{Kernel, Outcome};
use state::State;
use std::io::{self, Read};
use text::{Shown, Told, Values, Words};
use words::word;

mod given;
mod text;

const HEAD_BYTES: usize = 24;

// The largest case.
const TRACE: usize = limits::TRACE_WORDS;

const PLAN_BYTES: usize = 41_752;

const EVENT_BYTES: usize = 16_400;

// Why the program ends before the stream does.
#[derive(Drop)]
pub(crate) enum Stop {
    BadCase,
    // The input cannot be read, or the output not be written.
    Failed(io::Error),
}

impl From<io::Error> for Stop {
    fn from(error: io::Error) -> Stop {
        Stop::Failed(error)
    }
}

#[derive(Clone, Copy)]
struct Case<'a> {
    entry: u32,
    argument: u32,
    // Words of the trace.
    room: usize,
    plan: &'a [u8],
    events: &'a [u8],
    state: &'a [u8],
}

// The next case; none at the stream's end.
fn read_case<'a>(
    input: &mut impl Read,
    plan: &'a mut [u8],
    events: &'a mut [u8],
    state: &'a mut [u8],
) -> Result<Option<Case<'a>>, Stop> {
    let mut head = [0u8; HEAD_BYTES];
    let got = read_full(input, &mut head)?;
    if got == 0 {
        return Ok(None);
    }
    let room = word(&head, 2) as usize;
    if got < HEAD_BYTES || TRACE < room {
        return Err(Stop::BadCase);
    }
    let plan_bytes = word(&head, 3) as usize;
    let event_bytes = word(&head, 4) as usize;
    let state_bytes = word(&head, 5) as usize * 4;
    Ok(Some(Case {
        entry: word(&head, 0),
        argument: word(&head, 1),
        room,
        plan: read_part(input, plan, plan_bytes)?.ok_or(Stop::BadCase)?,
        events: read_part(input, events, event_bytes)?.ok_or(Stop::BadCase)?,
        state: read_part(input, state, state_bytes)?.ok_or(Stop::BadCase)?,
    }))
}

impl Case<'_> {
    // Prints the case's line.
    fn answer(&self, rt: &impl Print) -> Result<(), Stop> {
        match self.entry {
            1 => println!(rt; "{}", Told(plan_check::check(self.plan)))?,
            2 => println!(rt; "{}", Told(event_check::check(self.plan, self.events)))?,
            3 => self.body(rt)?,
            4 => self.fresh(rt)?,
            5 => self.run(rt, kernel::fresh_start(self.plan).state)?,
            6 => self.run(rt, given::state_from(self.state)?)?,
            7 => self.reader(rt)?,
            _ => return Err(Stop::BadCase),
        }
        Ok(())
    }

    // Entry 3: number and place, then the words of the part handed back.
    fn body(&self, rt: &impl Print) -> io::Result<()> {
        let mut told = [0u32; 2];
        let part = plan_body::task_body(self.plan, self.argument, &mut told);
        println!(rt; "{} {}{}", told[0], told[1], Words(part))
    }

    // Entry 4: a fresh start.
    fn fresh(&self, rt: &impl Print) -> io::Result<()> {
        let started = kernel::fresh_start(self.plan);
        println!(rt; "{}{}", Told(started.answer), Shown(&started.state))
    }

    // Entries 5 and 6: every word of the lent trace is 4294967295. Where `Kernel::tick` differs, the line begins with words that
    // stand in no line that is expected, so that it fails whatever the run printed.
    fn run(&self, rt: &impl Print, state: State) -> Result<(), Stop> {
        let mut trace = [u32::MAX; TRACE];
        let trace = trace.get_mut(..self.room).ok_or(Stop::BadCase)?;
        let ended = kernel::run(self.plan, self.events, state, self.argument, trace);
        if self.argument == 1 && !self.tick_agrees(state, &ended, trace) {
            print!(rt; "Kernel::tick differs ")?;
        }
        println!(rt;
            "{} {} {}{}{}",
            Told(ended.answer),
            ended.ticks,
            ended.records,
            Values(trace),
            Shown(&ended.state)
        )?;
        Ok(())
    }

    // Whether `Kernel::tick` comes to the same as a run of one tick, to the last word of a trace of its own.
    fn tick_agrees(&self, state: State, ended: &Outcome, trace: &[u32]) -> bool
        requires { length trace.now ≤ TRACE }
    {
        let mut own = [u32::MAX; TRACE];
        let own = &mut own[..trace.len()];
        let stepped = Kernel { state }.tick(self.plan, self.events, own);
        stepped == *ended && &own[..] == trace
    }

    // Entry 7: 1, the record and the place that the reader moves on to; or 0 and the place where it stays.
    fn reader(&self, rt: &impl Print) -> io::Result<()> {
        match event_reader::read(self.events, self.argument as usize) {
            Reading::Record {
                instant,
                kind,
                target,
                value,
                next,
            } => println!(rt; "1 {instant} {kind} {target} {value} {next}"),
            Reading::End { place } => println!(rt; "0 {place}"),
        }
    }
}

// A proved loop has to end, and nothing says that a stream does: no run uses up its turns.
fn answer_stream(rt: &impl Print, input: &mut impl Read) -> Result<(), Stop> {
    let mut plan = [0u8; PLAN_BYTES];
    let mut events = [0u8; EVENT_BYTES];
    let mut state = [0u8; STATE_BYTES];
    for _ in 0..u64::MAX {
        match read_case(input, &mut plan, &mut events, &mut state)? {
            Some(case) => case.answer(rt)?,
            None => break,
        }
    }
    Ok(())
}

fn main(rt: HostRuntime) -> io::Result<()> {
    let mut input = rt.stdin();
    match answer_stream(&rt, &mut input) {
        Ok(()) => Ok(()),
        Err(Stop::BadCase) => println!(rt; "bad case"),
        Err(Stop::Failed(error)) => Err(error),
    }
}
