// Document 01, 'The event list': a reader that stands at one place in the lent list. The functions over the struct are thin:
// each leaves the work to `read_at` or `place_after`, which take a plain slice and a number.
#![tactic(auto)]

ghost use Rattle.std.specs.Prelude.{◌≡◌};
ghost use Rattle.event_reader.specs.Reader.{read_at, place_after};

use words::word;

#[derive(Clone, Copy)]
pub struct EventReader<'a> {
    pub events: &'a [u8],
    pub place: usize,
}

// The record where the reader stands and the place it moves on to; or no whole record is left, and it stays.
#[derive(Clone, Copy)]
pub enum Reading {
    Record {
        instant: u32,
        kind: u32,
        target: u32,
        value: u32,
        next: usize,
    },
    End {
        place: usize,
    },
}

// What stands at a place: any bytes, and any place, also one far past the end.
pub fn read_at(events: &[u8], place: usize) -> Reading
    ensures { result ≡ read_at events.now place }
{
    let records = events.len() / limits::EVENT_SIZE;
    if place < records {
        let at = place * 4;
        Reading::Record {
            instant: word(events, at),
            kind: word(events, at + 1),
            target: word(events, at + 2),
            value: word(events, at + 3),
            next: place + 1,
        }
    } else {
        Reading::End { place }
    }
}

// The place after one, or the same where no whole record is left.
fn place_after(events: &[u8], place: usize) -> usize
    ensures { result ≡ place_after events.now place }
{
    if place < events.len() / limits::EVENT_SIZE {
        place + 1
    } else {
        place
    }
}

impl<'a> EventReader<'a> {
    pub fn new(events: &'a [u8], place: usize) -> EventReader<'a>
        ensures { (result.events ≡ events.entry) × (result.place ≡ place) }
    {
        EventReader { events, place }
    }

    pub fn place(self) -> usize
        ensures { result ≡ self.entry.place }
    {
        self.place
    }

    // Hands out what stands where the reader does.
    pub fn next(self) -> Reading
        ensures { result ≡ read_at self.entry.events.now self.entry.place }
    {
        read_at(self.events, self.place)
    }

    // Moves on by one record, or stays at the end.
    pub fn moved(self) -> EventReader<'a>
        ensures { (result.events ≡ self.entry.events) × (result.place ≡ place_after self.entry.events.now self.entry.place) }
    {
        EventReader {
            events: self.events,
            place: place_after(self.events, self.place),
        }
    }
}

// The same by a reader made for the call: for callers that have a plain slice and a number.
pub fn read(events: &[u8], place: usize) -> Reading
    ensures { result ≡ read_at events.now place }
{
    EventReader::new(events, place).next()
}
