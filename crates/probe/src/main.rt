// Makes any call of the library on request: one request after the other on standard input (src/request.rt), each answered on
// standard output with what the call answers and the whole of the memory that it was lent (src/answer.rt). What it answers is
// held to the model; it is proved to be safe and to end.
#![tactic(auto)]

mod answer;
mod request;
mod run;

use answer::{Answer, Put};
use answers::Refusal;
use chain::{Suite, TaskFigures};
use lower::Obstacle;
use night::Replayed;
use recurrence::{QuickBound, QuickSuite};
use request::{Form, Request, fields, fill, sheet_in};
use run::{put_run, readings};
use schedule::TaskResponses;
use sheet::Sheet;

// The memory that a call is lent: bytes, and the entries of a table.
#[derive(Drop)]
struct Lent<'a> {
    bytes: &'a mut [u8],
    table: &'a mut [u32],
}

// What was found, the sheet or the index, and what differs there; after a refusal the sheet.
fn put_comparison(answer: &mut Answer<'_>, found: Result<(), Obstacle>) {
    match found {
        Ok(()) => answer.given([0u32; 3]),
        Err(Obstacle::Edition(which)) => answer.given((1u32, (which, 0u32))),
        Err(Obstacle::Chain) => answer.given([2u32, 0, 0]),
        Err(Obstacle::Task(i, difference)) => answer.given((3u32, (u32::from(i), difference))),
        Err(Obstacle::Refused(which, r)) => {
            answer.refused(r);
            which.put(answer);
        }
    }
}

// A call of a sheet by its number; one that is none of these answers no values. The numbers are the protocol's (model/src/probe.rs): an enum
// of them would be a second table of as many rows.
fn of_sheet(q: Request, s: Sheet, lent: &mut Lent<'_>, answer: &mut Answer<'_>) {
    // The number of the chain, of which a request has the last eight bits.
    let chain = (q.second % 256) as u8;
    match q.call {
        9 => answer.result(sheet::judge(s)),
        10 => answer.result(sheet::write(s, lent.bytes).map(|size| size as u64)),
        11 => answer.result(schedule::sizes(s)),
        12 => answer.result(schedule::responses(s, lent.table)),
        13 => {
            let made = schedule::task_responses(s, lent.table);
            answer.beside(made.map(|TaskResponses { totals, greatest }| (totals, greatest)));
        }
        14 => answer.result(chain::delay(s, chain, q.first, lent.table)),
        15 => answer.result(chain::margin(s, chain, q.first, lent.table)),
        16 => answer.result(chain::default_margin(s, chain, lent.table)),
        17 => {
            let made = chain::figures(s, chain, lent.table);
            answer.beside(made.map(|TaskFigures { summary, greatest }| (summary, greatest)));
        }
        18 => {
            let made = recurrence::bound(s, chain);
            answer.beside(made.map(|QuickBound { bounds, responses }| (bounds, responses)));
        }
        19 => {
            let made = chain::suite(s, lent.table);
            answer.beside(made.map(|Suite {
                totals,
                greatest,
                chains,
            }| (totals, (greatest, chains))));
        }
        20 => answer.beside(sheet::to_second(s).map(|made| ((), made))),
        21 => answer.beside(sheet::to_first(s).map(|made| ((), made))),
        22 => answer.result(sheet::numbered(s, chain)),
        24 => put_comparison(answer, lower::compare(s, fields(lent.bytes))),
        25 => answer.given(u32::from(sheet::chain_count(s))),
        26 => {
            let made = recurrence::suite(s);
            answer.beside(made.map(|QuickSuite { responses, chains }| ((), (responses, chains))));
        }
        _ => answer.given(()),
    }
}

fn replay(form: Form, sheet: &[u8], log: &[u8], table: &mut [u32]) -> Result<Replayed, Refusal> {
    let s = sheet_in(form, sheet)?;
    night::replay(s, log, table)
}

// The log follows the sheet, which has so many bytes.
fn of_log(q: Request, input: &[u8], lent: &mut Lent<'_>, answer: &mut Answer<'_>) {
    match input.split_at_checked(q.first as usize) {
        Some((sheet, log)) => answer.result(replay(q.form, sheet, log, lent.table)),
        None => answer.given(()),
    }
}

fn of_call(q: Request, input: &[u8], lent: &mut Lent<'_>, answer: &mut Answer<'_>) {
    match q.call {
        0 => answer.given(()),
        1 => answer.given(arith::gcd(q.first, q.second)),
        2 => answer.given(arith::lcm(q.first, q.second, q.third)),
        3 => answer.given(arith::up(q.first, q.second)),
        4 => answer.given(arith::magnitude(q.first.cast_signed())),
        5 => answer.given(bits::number(input, q.first, q.second)),
        6 => {
            bits::put(lent.bytes, q.first, q.second, q.third);
            answer.given(());
        }
        7 => answer.beside(sheet::read(input).map(|made| ((), made))),
        8 => answer.given(arith::greatest(lent.table)),
        // A run of the tell-tale's calls, after so many readings.
        23 => {
            answer.given(());
            put_run(answer, readings(q.first), input);
        }
        27 => of_log(q, input, lent, answer),
        _ => match sheet_in(q.form, input) {
            Ok(s) => of_sheet(q, s, lent, answer),
            Err(r) => answer.refused(r),
        },
    }
}

// The lent memory: the table, or where that has no entries the content's bytes.
fn put_lent(answer: &mut Answer<'_>, lent: &Lent<'_>) {
    if lent.table.is_empty() {
        answer.bytes(lent.bytes);
    } else {
        answer.words(lent.table);
    }
}

// A turn answers whether it was served: the input's end, and a request that is too large, end the run.
fn serve(q: Request, input: &[u8], lent: &mut Lent<'_>, out: &mut [u8; 65536]) -> bool {
    let mut answer = Answer::new(out);
    of_call(q, input, lent, &mut answer);
    put_lent(&mut answer, lent);
    answer.send()
}

// The parts of the buffers that the request asks for.
fn turn(sheet: &mut [u8], content: &mut [u8], table: &mut [u32], out: &mut [u8; 65536]) -> bool {
    let mut header = [0u8; 32];
    if io::read_full(0, &mut header) < 32 {
        return false;
    }
    let q = Request::read(&header);
    let Some(input) = sheet.get_mut(..q.sheet) else {
        return false;
    };
    let Some(bytes) = content.get_mut(..q.content) else {
        return false;
    };
    let Some(table) = table.get_mut(..q.room) else {
        return false;
    };
    if io::read_full(0, input) < q.sheet {
        return false;
    }
    if io::read_full(0, bytes) < q.content {
        return false;
    }
    fill(table, bytes);
    serve(q, input, &mut Lent { bytes, table }, out)
}

// The sheet's buffer holds the longest log too. The content and the table are so large that an answer with either still fits in a large
// buffer. Turns are counted so that the loop is known to end; no run takes so many.
fn main() {
    let mut sheet = io::large_buffer();
    let mut content = [0u8; 65000];
    let mut table = [0u32; 8400];
    let mut out = io::large_buffer();
    for _ in 0..u32::MAX {
        if !turn(&mut sheet, &mut content, &mut table, &mut out) {
            return;
        }
    }
}
