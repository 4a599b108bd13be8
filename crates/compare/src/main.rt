// Whether two timing sheets differ only below chain one. The old sheet comes on standard input, the new one on file descriptor 3; the answer
// goes to standard output: that it applies, what differs, or the refusal of one of them.
#![tactic(auto)]

use lower::{Obstacle, Which};
use page::File;
use sheet::Sheet;
use std::fmt;
use std::fmt::Write;

// Figures and responses do not know the limit of the chain, and its margin does.
fn print_applies(out: &mut File, old: Sheet, new: Sheet) -> fmt::Result {
    writeln!(out, "applies")?;
    if old.chains[0].limit == new.chains[0].limit {
        writeln!(
            out,
            "chain one has the same worst, release, bound, margin and responses, and need not be signed again"
        )
    } else {
        writeln!(
            out,
            "chain one has the same worst, release, bound and responses; its margin is under another limit"
        )
    }
}

// The sheets of some bytes, where nothing differs that chain one could feel.
fn compare(old: &[u8], new: &[u8]) -> Result<(Sheet, Sheet), Obstacle> {
    let old = sheet::read(old).map_err(|refusal| Obstacle::Refused(Which::Old, refusal))?;
    let new = sheet::read(new).map_err(|refusal| Obstacle::Refused(Which::New, refusal))?;
    lower::compare(old, new)?;
    Ok((old, new))
}

// What lies past the 179th byte never changes the reader's answer, so buffers of 4,096 serve inputs of any length. Whether the output could
// be written is for the launcher to see.
fn main() {
    let mut old = io::buffer();
    let n = io::read_full(0, &mut old);
    let mut new = io::buffer();
    let m = io::read_full(3, &mut new);
    let mut out = File(1);
    let _ = match compare(&old[..n], &new[..m]) {
        Ok((old, new)) => print_applies(&mut out, old, new),
        Err(obstacle) => writeln!(out, "{obstacle}"),
    };
}
