// A timing sheet on standard input as text on standard output, or the refusal on standard error.
#![tactic(auto)]

use answers::Refusal;
use page::send;

// The text of some bytes' sheet, put into a buffer.
fn show<'a>(bytes: &[u8], out: &'a mut [u8]) -> Result<&'a [u8], Refusal> {
    let s = sheet::read(bytes)?;
    let size = text::show(s, out)?;
    Ok(&out[..size])
}

// What lies past the 179th byte never changes the reader's answer, so a buffer of 4,096 serves inputs of any length. Whether the output could
// be written is for the launcher to see.
fn main() {
    let mut input = io::buffer();
    let n = io::read_full(0, &mut input);
    let mut out = io::buffer();
    send(show(&input[..n], &mut out));
}
