// Document 01, 'One tick', step 0 over the lent arrays: the events of a tick, and the signals that they set.
#![tactic(auto)]

ghost use Rattle.std.specs.Prelude.{◌≡◌, ◌-◌, ◌<◌, ◌≤◌, ◌^◌};
ghost use Rattle.words.specs.Words.{words_of};
ghost use Rattle.events.specs.Events.{event_of};
ghost use Rattle.tick.specs.Tick.{set_now};
ghost use Rattle.steps.specs.Flat.{end_from, between};
ghost use Rattle.step_events.specs.Events.{set_one};

use arrays::put;
use events::EventKind;
use words::word;

// The place after the last event of instant t, where those of t start at a place.
pub fn end_of(events: &[u8], t: u32, place: u32, count: u32) -> u32
    requires { (place ≤ count) × (count < 2 ^ 30) }
    ensures value { result ≡ end_from (words_of events.now) t (count - place) place }
    ensures bounds { (place ≤ result) × (result ≤ count) }
{
    for p in place..count {
        if word(events, p as usize * 4) != t {
            return p;
        }
    }
    count
}

// One event takes effect if it sets a signal.
fn set_signal(events: &[u8], p: u32, signals: &mut [u32])
    ensures { signals.new ≡ set_one (event_of (words_of events.now) p) signals.old }
{
    let at = p as usize * 4;
    match EventKind::try_from(word(events, at + 1)) {
        Ok(EventKind::Set) => put(signals, word(events, at + 2) as usize, word(events, at + 3)),
        Ok(EventKind::Release) => {}
        Err(_) => {}
    }
}

// Step 0: the set events from a place to another, in list order.
pub fn set_signals(events: &[u8], from: u32, to: u32, signals: &mut [u32])
    ensures { signals.new ≡ set_now (between (words_of events.now) from to) signals.old }
{
    for p in from..to {
        set_signal(events, p, signals);
    }
}
