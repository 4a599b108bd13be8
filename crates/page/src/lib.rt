// Where the programs print, and what several of them print alike.
#![tactic(auto)]

use sheet::Chain;
use std::fmt;
use std::fmt::Write;

// A file that is open by its number: 1 is standard output, 2 standard error.
#[derive(Clone, Copy)]
pub struct File(pub i32);

impl fmt::Write for File {
    fn write_str(&mut self, text: &str) -> fmt::Result {
        if io::write_all(self.0, text.as_bytes()) {
            Ok(())
        } else {
            Err(fmt::Error)
        }
    }
}

// What a program made, to standard output, or why it made nothing, to standard error. Whether it could be written is for the launcher to see.
pub fn send<E: fmt::Display + Drop>(made: Result<&[u8], E>) {
    match made {
        Ok(bytes) => {
            let _ = io::write_all(1, bytes);
        }
        Err(refusal) => {
            let _ = writeln!(File(2), "{refusal}");
        }
    }
}

// The two types below say nothing of what they print: what the programs print is tested and not proved (docs/AUDIT.md), and a proof of either
// would be one of a loop that writes.

// "each index with R": a line for each task.
#[derive(Clone, Copy)]
pub struct TaskLines<'a>(pub &'a [u32]);

impl fmt::Display for TaskLines<'_> {
    fn fmt<W: fmt::Write>(&self, f: &mut fmt::Formatter<W>) -> fmt::Result {
        for (task, response) in self.0.iter().enumerate() {
            writeln!(f, "task {task} response {response}")?;
        }
        Ok(())
    }
}

// "the chain's indices", on one line.
#[derive(Clone, Copy)]
pub struct ChainLine(pub Chain);

impl fmt::Display for ChainLine {
    fn fmt<W: fmt::Write>(&self, f: &mut fmt::Formatter<W>) -> fmt::Result {
        write!(f, "chain")?;
        for task in self.0.tasks() {
            write!(f, " {task}")?;
        }
        writeln!(f)
    }
}
