// Document 01, 'Trace and printing': records of five words in a lent trace.
#![tactic(auto)]

ghost use Rattle.std.specs.Prelude.{◌≡◌};
ghost use Rattle.trace.specs.Trace.{entry, number_of, put_at, write_entry};

// "Kinds: 1 release, 2 write (one for each output, in position order), 3 deadline missed, 4 due while ACTIVE, 5 event ignored
// (one each)."
#[derive(Clone, Copy, PartialEq, Eq)]
pub enum Kind {
    Release = 1,
    Write = 2,
    Miss = 3,
    Overrun = 4,
    Ignored = 5,
}

// "Records of five words: instant, kind, task, signal, value"
#[derive(Clone, Copy)]
pub struct Entry {
    pub instant: u32,
    pub kind: u32,
    pub task: u32,
    pub signal: u32,
    pub value: u32,
}

impl Entry {
    // A record of any kind but a write: it has no signal and no value.
    pub fn new(instant: u32, kind: Kind, task: u32) -> Entry
        ensures { result ≡ entry instant (number_of kind) task }
    {
        Entry {
            instant,
            kind: kind as u32,
            task,
            signal: 0,
            value: 0,
        }
    }

    // A write record.
    pub fn write(instant: u32, task: u32, signal: u32, value: u32) -> Entry
        ensures { result ≡ write_entry instant task signal value }
    {
        Entry {
            instant,
            kind: Kind::Write as u32,
            task,
            signal,
            value,
        }
    }
}

// One record from a word on; nothing where it does not fit whole. Word by word: copied from an array of five, the record would be
// built twice.
pub fn put(trace: &mut [u32], at: usize, entry: Entry)
    ensures { trace.new ≡ put_at trace.old at entry }
{
    if at.saturating_add(5) <= trace.len() {
        trace[at] = entry.instant;
        trace[at + 1] = entry.kind;
        trace[at + 2] = entry.task;
        trace[at + 3] = entry.signal;
        trace[at + 4] = entry.value;
    }
}
