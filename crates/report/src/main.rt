// The report of one timing sheet, read from standard input: document 01's lines, those of a chain once for each, or the refusal.
#![tactic(auto)]

use answers::Refusal;
use chain::{Suite, Summary};
use page::{ChainLine, File, TaskLines};
use schedule::Totals;
use sheet::Sheet;
use std::fmt;
use std::fmt::Write;

// "n, H, J, idle"
fn print_totals(out: &mut File, tasks: u8, totals: Totals) -> fmt::Result {
    writeln!(
        out,
        "tasks {tasks} hyperperiod {} jobs {} idle {}",
        totals.hyperperiod, totals.jobs, totals.idle
    )
}

// "the worst figure and its smallest release; the bound", and the margin "under its limit"
fn print_figures(out: &mut File, figures: Summary) -> fmt::Result {
    writeln!(
        out,
        "worst {} from {}",
        figures.worst, figures.sampling.release
    )?;
    writeln!(out, "bound {}", figures.bound)?;
    let sign = if figures.margin < 0 { "-" } else { "" };
    writeln!(out, "margin {sign}{}", arith::magnitude(figures.margin))
}

// "the report prints the chain lines once per chain". Bound prints its lines in this order too; what stands under a chain is of another type
// there, and a function over both would take it as a closure and be longer than what it saves. A sheet that was read has at most 16 tasks.
fn print_report(out: &mut File, s: Sheet, suite: Suite) -> fmt::Result {
    print_totals(out, s.count, suite.totals)?;
    let tasks = usize::from(s.count).min(16);
    write!(out, "{}", TaskLines(&suite.greatest[..tasks]))?;
    let chains = usize::from(sheet::chain_count(s));
    for (&chain, &figures) in s.chains.iter().zip(&suite.chains).take(chains) {
        write!(out, "{}", ChainLine(chain))?;
        print_figures(out, figures)?;
    }
    Ok(())
}

// Everything is worked out before the first line is printed, so that a refusal stands alone.
fn report(bytes: &[u8], table: &mut [u32]) -> Result<(Sheet, Suite), Refusal> {
    let s = sheet::read(bytes)?;
    Ok((s, chain::suite(s, table)?))
}

// What lies past the 179th byte never changes the reader's answer, so a buffer of 4,096 serves inputs of any length. Whether the output could
// be written is for the launcher to see.
fn main() {
    let mut table = [0u32; 8192];
    let mut input = io::buffer();
    let n = io::read_full(0, &mut input);
    let mut out = File(1);
    let _ = match report(&input[..n], &mut table) {
        Ok((s, suite)) => print_report(&mut out, s, suite),
        Err(refusal) => writeln!(out, "{refusal}"),
    };
}
