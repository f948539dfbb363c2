// The program of document 01, 'Trace and printing': ticks, plan and events on standard input, what the kernel does with them on
// standard output. Everything but reading and printing is in the libraries.
#![tactic(auto)]

use input::{read_full, read_part};
use std::io::{self, Read};
use words::word;

// Ticks to run, the plan's size and the events'.
const HEAD_BYTES: usize = 12;

// One step beyond what the kernel accepts: a part that is longer keeps its own number, 1 or 9.
const PLAN_BYTES: usize = limits::PLAN_BYTES + 4;

const EVENT_BYTES: usize = limits::EVENT_BYTES + limits::EVENT_SIZE;

// Words of a record.
const RECORD: usize = 5;

// Bytes that are dropped at a time.
const CHUNK: usize = 4096;

// Document 01's number for an input that is not as long as its sizes say.
const WRONG_LENGTH: u32 = 15;

// An input that cannot be read has ended.
#[derive(Drop)]
struct UpToError<R>(R);

impl<R: Read> Read for UpToError<R> {
    fn read(&mut self, buffer: &mut [u8]) -> io::Result<usize> {
        Ok(self.0.read(buffer).unwrap_or(0))
    }
}

// What the input asks for.
#[derive(Clone, Copy)]
struct Request<'a> {
    ticks: u32,
    plan: &'a [u8],
    events: &'a [u8],
}

// Reads so many bytes and drops them; none where the input ends before. Chunk by chunk: copied to a sink, the input would end at
// its first empty read, also inside a chunk.
fn drop_bytes(input: &mut impl Read, size: usize) -> Option<()> {
    let mut left = size;
    while left > 0 {
        let mut chunk = [0u8; CHUNK];
        let most = left.min(CHUNK);
        let got = read_full(input, &mut chunk[..most]).ok()?;
        if got == 0 {
            return None;
        }
        left -= got;
    }
    Some(())
}

// Reads a part of so many bytes and drops what goes beyond the buffer; none where the input ends before.
fn read_start<'a>(input: &mut impl Read, buffer: &'a mut [u8], size: usize) -> Option<&'a [u8]> {
    let held = size.min(buffer.len());
    let part = read_part(input, buffer, held).ok()??;
    drop_bytes(input, size - held)?;
    Some(part)
}

// Reads the input to its end; none where it is not as long as its sizes say.
fn read_request<'a>(
    input: &mut impl Read,
    plan: &'a mut [u8],
    events: &'a mut [u8],
) -> Option<Request<'a>> {
    let mut buffer = [0u8; HEAD_BYTES];
    let mut beyond = [0u8; 1];
    let head = read_part(input, &mut buffer, HEAD_BYTES).ok()??;
    let plan = read_start(input, plan, word(head, 1) as usize)?;
    let events = read_start(input, events, word(head, 2) as usize)?;
    if read_full(input, &mut beyond).ok()? > 0 {
        return None;
    }
    Some(Request {
        ticks: word(head, 0),
        plan,
        events,
    })
}

fn print_done(rt: &impl Print, ticks: u32, number: u32) -> io::Result<()> {
    println!(rt; "done {ticks} {number}")
}

// A line for each record: its five words, one space between.
fn print_records(rt: &impl Print, trace: &[u32], records: usize) -> io::Result<()> {
    let (lines, _) = trace.as_chunks::<RECORD>();
    for [instant, kind, task, signal, value] in lines.iter().take(records) {
        println!(rt; "{instant} {kind} {task} {signal} {value}")?;
    }
    Ok(())
}

// Starts fresh, runs, prints.
fn run_request(rt: &impl Print, asked: Request) -> io::Result<()> {
    let mut trace = [0u32; limits::TRACE_WORDS];
    let state = kernel::fresh_start(asked.plan).state;
    let ended = kernel::run(asked.plan, asked.events, state, asked.ticks, &mut trace);
    print_done(rt, ended.ticks, answers::number(ended.answer))?;
    print_records(rt, &trace, ended.records)
}

// Reads the input, and prints what the kernel does with it.
fn answer_input(rt: &impl Print, input: &mut impl Read) -> io::Result<()> {
    let mut plan = [0u8; PLAN_BYTES];
    let mut events = [0u8; EVENT_BYTES];
    match read_request(input, &mut plan, &mut events) {
        Some(asked) => run_request(rt, asked),
        None => print_done(rt, 0, WRONG_LENGTH),
    }
}

// What cannot be written is lost: the program ends with status 0 all the same (tests/README.md, 'Faults from outside').
fn main(rt: HostRuntime) {
    let mut input = UpToError(rt.stdin());
    let _ = answer_input(&rt, &mut input);
}
