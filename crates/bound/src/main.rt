// The quick bound of each chain of one timing sheet, read from standard input, with no table and whatever the hyperperiod: the response of
// each task, then the chains, each with its bound; or the refusal.
#![tactic(auto)]

use answers::Refusal;
use page::{ChainLine, File, TaskLines};
use recurrence::QuickSuite;
use sheet::Sheet;
use std::fmt;
use std::fmt::Write;

// The order is that of report's print_report, which says why these are two. A sheet that was read has at most 16 tasks.
fn print_bounds(out: &mut File, s: Sheet, quick: QuickSuite) -> fmt::Result {
    let tasks = usize::from(s.count).min(16);
    write!(out, "{}", TaskLines(&quick.responses[..tasks]))?;
    let chains = usize::from(sheet::chain_count(s));
    for (&chain, figures) in s.chains.iter().zip(&quick.chains).take(chains) {
        write!(out, "{}", ChainLine(chain))?;
        writeln!(out, "bound {}", figures.bound)?;
    }
    Ok(())
}

// Everything is worked out before the first line is printed, so that a refusal stands alone.
fn bounds(bytes: &[u8]) -> Result<(Sheet, QuickSuite), Refusal> {
    let s = sheet::read(bytes)?;
    Ok((s, recurrence::suite(s)?))
}

// What lies past the 179th byte never changes the reader's answer, so a buffer of 4,096 serves inputs of any length. Whether the output could
// be written is for the launcher to see.
fn main() {
    let mut input = io::buffer();
    let n = io::read_full(0, &mut input);
    let mut out = File(1);
    let _ = match bounds(&input[..n]) {
        Ok((s, quick)) => print_bounds(&mut out, s, quick),
        Err(refusal) => writeln!(out, "{refusal}"),
    };
}
