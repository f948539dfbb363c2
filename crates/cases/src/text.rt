// The text of what is printed: numbers with one space between.
use answers::Answer;
use state::{State, TaskState};
use std::fmt;

// Number and place.
#[derive(Drop)]
pub(crate) struct Told(pub(crate) Answer);

// Each value, with a space before it.
#[derive(Drop)]
pub(crate) struct Values<'a>(pub(crate) &'a [u32]);

// Each word of a part, with a space before it.
#[derive(Drop)]
pub(crate) struct Words<'a>(pub(crate) &'a [u8]);

// The state's words, with a space before each: tick, event place, signals, and the tasks.
#[derive(Drop)]
pub(crate) struct Shown<'a>(pub(crate) &'a State);

#[derive(Drop)]
struct Task<'a>(&'a TaskState);

impl fmt::Display for Told {
    fn fmt<W: fmt::Write>(&self, f: &mut fmt::Formatter<W>) -> fmt::Result {
        write!(f, "{} {}", answers::number(self.0), answers::place(self.0))
    }
}

impl fmt::Display for Values<'_> {
    fn fmt<W: fmt::Write>(&self, f: &mut fmt::Formatter<W>) -> fmt::Result {
        for value in self.0 {
            write!(f, " {value}")?;
        }
        Ok(())
    }
}

impl fmt::Display for Words<'_> {
    fn fmt<W: fmt::Write>(&self, f: &mut fmt::Formatter<W>) -> fmt::Result {
        let (words, _) = self.0.as_chunks::<4>();
        for word in words {
            write!(f, " {}", u32::from_le_bytes(*word))?;
        }
        Ok(())
    }
}

impl fmt::Display for Task<'_> {
    fn fmt<W: fmt::Write>(&self, f: &mut fmt::Formatter<W>) -> fmt::Result {
        let task = self.0;
        write!(f, " {} {}", u32::from(task.status), task.remaining)?;
        write!(f, " {} {}", task.release, task.machine)?;
        write!(f, "{}{}", Values(&task.latched), Values(&task.held))
    }
}

impl fmt::Display for Shown<'_> {
    fn fmt<W: fmt::Write>(&self, f: &mut fmt::Formatter<W>) -> fmt::Result {
        let state = self.0;
        write!(
            f,
            " {} {}{}",
            state.tick,
            state.place,
            Values(&state.signals)
        )?;
        for task in &state.tasks {
            write!(f, "{}", Task(task))?;
        }
        Ok(())
    }
}
