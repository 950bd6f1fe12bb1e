// The lines of a script.
use super::commands::Command;
use super::words;
use std::alloc::{AllocError, Global};

#[derive(Clone, Copy)]
pub enum Line {
    // An empty line or a comment: it has no answer.
    Skipped,
    // A line that says no command.
    Unknown,
    Asks(Command),
}

impl Line {
    pub fn read(heap: Global, line: &[u8]) -> Result<Line, AllocError> {
        let Some(text) = words::text_of(line) else {
            return Ok(Line::Unknown);
        };
        if words::is_skipped(text) {
            return Ok(Line::Skipped);
        }
        let words = words::split(heap, text)?;
        let command = Command::read(heap, words.as_slice())?;
        Ok(command.map_or(Line::Unknown, Line::Asks))
    }
}
