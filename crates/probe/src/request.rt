// A request as it comes on standard input. Every number is a word of four bytes, the most significant first. Past the end of the bytes
// every byte is 0.
use answers::Refusal;
use sheet::{Chain, Sheet};
use std::array;
use std::slice::Iter;
use theory::Task;

// How a sheet is given: in its bytes, or field by field as it stands in memory.
#[derive(Clone, Copy)]
pub enum Form {
    Bytes,
    Fields,
}

// A call by its number; the form of its sheet, 0 for bytes and any other for the fields in memory; three numbers, of which a call on a
// sheet takes the first for a release or a limit and the second for the chain; how many entries of the table it is lent. Then come so many
// bytes of the sheet, of a replay with the log behind it and the first number for where that begins, and so many of content: the bytes that
// the call is lent, or the words that a lent table holds over and over. A call on two sheets has the second in the content, field by field.
#[derive(Clone, Copy)]
pub struct Request {
    pub call: u32,
    pub form: Form,
    pub first: u32,
    pub second: u32,
    pub third: u32,
    pub room: usize,
    pub sheet: usize,
    pub content: usize,
}

pub fn byte(input: &mut Iter<'_, u8>) -> u8 {
    input.next().copied().unwrap_or(0)
}

pub fn word(input: &mut Iter<'_, u8>) -> u32 {
    u32::from_be_bytes(array::from_fn(|_| byte(input)))
}

impl From<u32> for Form {
    fn from(number: u32) -> Form {
        match number {
            0 => Form::Bytes,
            _ => Form::Fields,
        }
    }
}

impl Request {
    pub fn read(header: &[u8]) -> Request {
        let mut input = header.iter();
        Request {
            call: word(&mut input),
            form: Form::from(word(&mut input)),
            first: word(&mut input),
            second: word(&mut input),
            third: word(&mut input),
            room: word(&mut input) as usize,
            sheet: word(&mut input) as usize,
            content: word(&mut input) as usize,
        }
    }
}

fn task(input: &mut Iter<'_, u8>) -> Task {
    Task {
        period: word(input),
        budget: word(input),
        rank: byte(input),
    }
}

fn chain(input: &mut Iter<'_, u8>) -> Chain {
    Chain {
        limit: word(input),
        length: byte(input),
        entries: array::from_fn(|_| byte(input)),
    }
}

// A sheet in memory, field by field: edition and both counts, the sixteen tasks, the eight chains.
pub fn fields(bytes: &[u8]) -> Sheet {
    let mut input = bytes.iter();
    Sheet {
        edition: byte(&mut input),
        count: byte(&mut input),
        suite: byte(&mut input),
        tasks: array::from_fn(|_| task(&mut input)),
        chains: array::from_fn(|_| chain(&mut input)),
    }
}

// A sheet given as bytes is read, and a refusal there is the answer.
pub fn sheet_in(form: Form, bytes: &[u8]) -> Result<Sheet, Refusal> {
    match form {
        Form::Bytes => sheet::read(bytes),
        Form::Fields => Ok(fields(bytes)),
    }
}

// The first content of a lent table: the words of the content over and over, zeros if it has none.
pub fn fill(table: &mut [u32], content: &[u8]) {
    let mut input = content.iter();
    for entry in table.iter_mut() {
        if input.len() < 4 {
            input = content.iter();
        }
        *entry = word(&mut input);
    }
}
