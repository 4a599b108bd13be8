// A timing sheet in another edition. Standard input has the edition that is wanted, as the character 1 or 2, and then the sheet; its bytes
// in that edition go to standard output, or the refusal to standard error.
#![tactic(auto)]

use answers::Refusal;
use page::send;
use sheet::Sheet;

// The sheet of some bytes, in the edition that a character asks for.
fn converted(edition: u8, bytes: &[u8]) -> Result<Sheet, Refusal> {
    let s = sheet::read(bytes)?;
    if edition == b'1' {
        sheet::to_first(s)
    } else {
        sheet::to_second(s)
    }
}

// Its bytes, put into a buffer. The last two lines stand in pack too: a call for them would be a promise and a theorem for two lines.
fn convert<'a>(edition: u8, bytes: &[u8], out: &'a mut [u8]) -> Result<&'a [u8], Refusal> {
    let s = converted(edition, bytes)?;
    let size = sheet::write(s, out)?;
    Ok(&out[..size])
}

// What lies past the 179th byte never changes the reader's answer, so a buffer of 4,096 serves inputs of any length. Whether the output could
// be written is for the launcher to see.
fn main() {
    let mut edition = [0u8; 1];
    io::read_full(0, &mut edition);
    let mut input = io::buffer();
    let n = io::read_full(0, &mut input);
    let mut out = [0u8; 178];
    send(convert(edition[0], &input[..n], &mut out));
}
