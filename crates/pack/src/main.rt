// A text on standard input as the bytes of its sheet on standard output. What is wrong with it, and at which line and column, goes to standard
// error: `refused` and the number of the refusal, or `mistake` and the number of the mistake.
#![tactic(auto)]

use answers::Refusal;
use page::send;
use std::fmt;
use text::Fault;

// Why a text is no sheet.
#[derive(Clone, Copy)]
enum Failure {
    Text(Fault),
    Sheet(Refusal),
}

impl From<Fault> for Failure {
    fn from(fault: Fault) -> Failure {
        Failure::Text(fault)
    }
}

impl From<Refusal> for Failure {
    fn from(refusal: Refusal) -> Failure {
        Failure::Sheet(refusal)
    }
}

impl fmt::Display for Failure {
    fn fmt<W: fmt::Write>(&self, f: &mut fmt::Formatter<W>) -> fmt::Result {
        match self {
            Failure::Text(fault) => write!(f, "{fault}"),
            Failure::Sheet(refusal) => write!(f, "{refusal}"),
        }
    }
}

// The bytes of a text's sheet, put into a buffer.
fn pack<'a>(text: &[u8], out: &'a mut [u8]) -> Result<&'a [u8], Failure> {
    let s = text::parse(text)?;
    let size = sheet::write(s, out)?;
    Ok(&out[..size])
}

// What lies past the 16,385th byte never changes the answer, so this buffer serves texts of any length. Whether the output could be written
// is for the launcher to see.
fn main() {
    let mut input = [0u8; 16385];
    let n = io::read_full(0, &mut input);
    let mut out = [0u8; 178];
    send(pack(&input[..n], &mut out));
}
