// A run of the tell-tale's calls: five bytes each, 0 for begin and any other for stamp, and the counter. Of each goes out the number of
// its refusal or 0, its ticks, and the four fields of the record that it leaves.
use super::answer::{Answer, Put};
use super::request::{byte, word};
use answers::Refusal;
use std::slice::Iter;
use telltale::{Record, Stamped};

enum Call {
    Begin(u32),
    Stamp(u32),
}

// What a call answers and leaves; a begin, which answers nothing, counts as 0 ticks. Through the calls that take a record by value those that
// are lent one are reached too.
fn made(was: Record, call: Call) -> Stamped {
    match call {
        Call::Begin(counter) => Stamped {
            answer: Ok(0),
            left: telltale::after_begin(was, counter),
        },
        Call::Stamp(counter) => telltale::after_stamp(was, counter),
    }
}

fn read(input: &mut Iter<'_, u8>) -> Call {
    match byte(input) {
        0 => Call::Begin(word(input)),
        _ => Call::Stamp(word(input)),
    }
}

fn put_elapsed(answer: &mut Answer<'_>, elapsed: Result<u32, Refusal>) {
    match elapsed {
        Ok(ticks) => answer.words(&[0, ticks]),
        Err(r) => answer.words(&[u32::from(r.number()), 0]),
    }
}

pub fn put_run(answer: &mut Answer<'_>, was: Record, calls: &[u8]) {
    let mut kept = was;
    for bytes in calls.chunks_exact(5) {
        let end = made(kept, read(&mut bytes.iter()));
        put_elapsed(answer, end.answer);
        kept = end.left;
        kept.put(answer);
    }
}

// The record after so many readings that begin and end on one tick.
pub fn readings(times: u32) -> Record {
    let mut kept = telltale::fresh();
    for i in 0..times {
        telltale::begin(&mut kept, i);
        // each ends as it begins, so none is refused
        let _ = telltale::stamp(&mut kept, i);
    }
    kept
}
