// Document 01, 'The event list': what an event list says and which number and place a refusal has stand in specs/Events.antt, and
// when it is accepted, as a person would write it, in specs/Accepted.antt. The code stands in the crates event_reader and
// event_check, but for what several crates ask of an event: its kind.
#![tactic(auto)]

ghost use Rattle.events.specs.Kinds.{IsEventKind};

use plan::NoKind;

// "Kind 1 releases an event-driven task"; "Kind 2 sets a signal that no task writes."
#[derive(Clone, Copy, PartialEq, Eq)]
pub enum EventKind {
    Release,
    Set,
}

impl TryFrom<u32> for EventKind {
    type Error = NoKind;

    ghost try_from_gives = { IsEventKind };

    fn try_from(number: u32) -> Result<EventKind, NoKind> {
        match number {
            1 => Ok(EventKind::Release),
            2 => Ok(EventKind::Set),
            _ => Err(NoKind),
        }
    }
}
