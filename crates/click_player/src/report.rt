//! The reports of the player.

use crate::playing::Outcome;
use crate::script::{Case, ScriptFault, Step, Trouble};
use crate::sessions::Said;
use click_lines::push_words;
use std::alloc::{AllocError, Global};
use std::io::{self, Write};

/// The exit status of the player.
#[derive(Clone, Copy, Debug, PartialEq, Eq)]
pub enum Status {
    Passed,
    Failed,
    /// A fault of a script or of the arguments.
    Wrong,
    NoMemory,
    /// A file could not be read, or a report could not be written.
    DeviceFailed,
}

impl Status {
    /// Returns the number of the status.
    pub fn code(self) -> u8 {
        match self {
            Status::Passed => 0,
            Status::Failed => 1,
            Status::Wrong => 2,
            Status::NoMemory => 3,
            Status::DeviceFailed => 4,
        }
    }
}

/// The reports about a file.
#[derive(Drop)]
pub struct Report<'a> {
    pub host: &'a HostRuntime,
    pub file: &'a str,
    /// Whether a step whose reply is `out of memory` is played once more.
    pub again: bool,
}

impl<'a> Report<'a> {
    /// Reports that a step is played again.
    pub fn called_again(&self, line: usize) {
        let file = self.file;
        // A failed write does not change the outcome.
        let _ = println!(self.host; "{file}:{line}: out of memory; the step is played again");
    }

    /// Reports why a script cannot be read, and returns the status.
    pub fn faulty(&self, fault: ScriptFault) -> Status {
        match fault {
            ScriptFault::NoMemory => Status::NoMemory,
            ScriptFault::Malformed { line, why } => self.malformed(line, why),
        }
    }

    /// Reports why a step cannot be played, and returns the status.
    pub fn troubled(&self, line: usize, trouble: Trouble) -> Status {
        match trouble {
            Trouble::NoMemory => Status::NoMemory,
            Trouble::Malformed => self.malformed(
                line,
                "the words are not a step that is allowed here",
            ),
        }
    }

    fn malformed(&self, line: usize, why: &'static str) -> Status {
        let file = self.file;
        // A failed write does not change the status.
        let _ = eprintln!(self.host; "{file}:{line}: {why}");
        Status::Wrong
    }

    /// Reports the difference of a step, and returns whether the report was written.
    pub fn differs(
        &self,
        alloc: Global,
        case: &Case<'_>,
        step: &Step<'_>,
        said: &Said,
    ) -> Result<bool, AllocError> {
        let mut text = difference(alloc, self.file, case.sentence, step, said)?;
        text.push(b'\n')?;
        Ok(self.host.stdout().write_all(text.as_slice()).is_ok())
    }
}

/// Returns the text of a difference, without the last line end.
fn difference(
    alloc: Global,
    file: &str,
    sentence: &[u8],
    step: &Step<'_>,
    said: &Said,
) -> Result<Vec<u8>, AllocError> {
    let line = step.line;
    let mut text = format!(in alloc; "{file}:{line}: ")?.into_bytes();
    text.extend_from_slice(sentence)?;
    text.extend_from_slice(b"\n  expected: ")?;
    text.extend_from_slice(step.wanted)?;
    text.extend_from_slice(b"\n  actual:   ")?;
    text.extend_from_slice(said.reply.as_slice())?;
    if said.output.as_slice() != step.output {
        text.extend_from_slice(b"\n  expected output: ")?;
        push_words(&mut text, step.output)?;
        text.extend_from_slice(b"\n  actual output:   ")?;
        push_words(&mut text, said.output.as_slice())?;
    }
    Ok(text)
}
