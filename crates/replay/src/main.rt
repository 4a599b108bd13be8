// Last night's log held to its sheet. The sheet comes on standard input and the log on file descriptor 3. Prints how many records the log has,
// how many paths were followed and the longest of them, the sampling figure of the chain, and whether the log agrees; or the refusal, behind
// the file that it is about.
#![tactic(auto)]

use answers::Refusal;
use night::{Longest, Replayed};
use page::File;
use std::fmt;
use std::fmt::Write;

// "the longest delay from release with its smallest job number, or none", and "the breaking record, or none"
fn print_replayed(out: &mut File, replayed: Replayed) -> fmt::Result {
    writeln!(out, "records {}", replayed.records)?;
    writeln!(out, "paths {}", replayed.paths)?;
    match replayed.longest {
        None => writeln!(out, "longest none")?,
        Some(Longest { ticks, job }) => writeln!(out, "longest {ticks} job {job}")?,
    }
    writeln!(out, "figure {}", replayed.figure.ticks)?;
    match replayed.breaking {
        None => writeln!(out, "agrees"),
        Some(record) => writeln!(out, "breaks at record {record}"),
    }
}

// A refusal, behind the file that it is about.
#[derive(Clone, Copy)]
enum Failure {
    Sheet(Refusal),
    Log(Refusal),
}

// What the replay refuses is about the log where the refusal is one of a log's. The sheet has been read by then: bytes that end too early, or
// that follow the last, are the log's. Crate `bellkettle` says the file by a number, as its promise (Numbers.file_of) does, and so this stands
// apart from it.
impl From<Refusal> for Failure {
    fn from(refusal: Refusal) -> Failure {
        match refusal {
            Refusal::Cut(_) | Refusal::Surplus(_) => Failure::Log(refusal),
            Refusal::LogTask | Refusal::LogKind | Refusal::LogTime => Failure::Log(refusal),
            _ => Failure::Sheet(refusal),
        }
    }
}

impl fmt::Display for Failure {
    fn fmt<W: fmt::Write>(&self, f: &mut fmt::Formatter<W>) -> fmt::Result {
        match self {
            Failure::Sheet(refusal) => write!(f, "sheet: {refusal}"),
            Failure::Log(refusal) => write!(f, "log: {refusal}"),
        }
    }
}

fn replay(bytes: &[u8], log: &[u8], table: &mut [u32]) -> Result<Replayed, Failure> {
    let s = sheet::read(bytes).map_err(Failure::Sheet)?;
    Ok(night::replay(s, log, table)?)
}

// What lies past the 179th byte never changes the answer of a sheet. A log has at most 18,945 bytes, and of what follows only whether anything
// does matters. So these buffers serve inputs of any length. Whether the output could be written is for the launcher to see.
fn main() {
    let mut table = [0u32; 8192];
    let mut input = io::buffer();
    let n = io::read_full(0, &mut input);
    let mut log = [0u8; 18946];
    let m = io::read_full(3, &mut log);
    let mut out = File(1);
    let _ = match replay(&input[..n], &log[..m], &mut table) {
        Ok(replayed) => print_replayed(&mut out, replayed),
        Err(failure) => writeln!(out, "{failure}"),
    };
}
