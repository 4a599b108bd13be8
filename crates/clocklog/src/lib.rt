// The clock's log of starts and finishes: how many records it has, each of them, and whether it is a log, for a sheet of so many tasks.
// Its format, the times of its records and its refusals are said in specs/Format.antt; that what is written is read back, and that times
// across the rollover are the true ones, is proved in specs/RoundTrip.antt and specs/Rollover.antt.
#![tactic(auto)]

mod answer;

ghost use Rattle.std.specs.Prelude.{◌≡◌, ◌-◌, ◌*◌, ◌<◌, ◌≤◌, length};
ghost use Rattle.answers.specs.Answers.{told};
ghost use Rattle.sheet.specs.Calls.{tail_of};
ghost use Rattle.clocklog.specs.Format.{most_time, begin, origin, kind, counter, before, within, index_judged, kind_judged, counter_judged, entry_judged, records_judged, head_judged, kind_in};
ghost use Rattle.clocklog.specs.Promises.{CountPromise, EntryPromise, JudgePromise};

pub use answer::{Entry, Kind};
use answers::Refusal;

// The widths of document 02, P6.
const ORIGIN_BITS: u32 = 32;

const COUNT_BITS: u32 = 12;

const INDEX_BITS: u32 = 4;

const KIND_BITS: u32 = 1;

const COUNTER_BITS: u32 = 32;

const HEAD_BITS: u32 = ORIGIN_BITS + COUNT_BITS;

const RECORD_BITS: u32 = INDEX_BITS + KIND_BITS + COUNTER_BITS;

// A record's counter stands behind its task and its kind.
const COUNTER_AT: u32 = INDEX_BITS + KIND_BITS;

// "A difference, or the time so far, of 2,147,483,648 or more" is refused.
const TIME_LIMIT: u32 = 2147483648;

// The bit at which record r begins.
fn begin_of(r: u16) -> u32
    ensures { (result ≡ begin r) × (result < 4000000) }
{
    HEAD_BITS + RECORD_BITS * u32::from(r)
}

fn origin(log: &[u8]) -> u32
    ensures { result ≡ origin log.now }
{
    bits::number(log, 0, ORIGIN_BITS)
}

// How many records the log says that it has.
pub fn count(log: &[u8]) -> u16
    ensures { CountPromise log.now result }
{
    bits::number(log, ORIGIN_BITS, COUNT_BITS) as u16
}

// Record r. A bit past the end counts as 0.
pub fn entry(log: &[u8], r: u16) -> Entry
    ensures { EntryPromise log.now r result }
{
    let record = Record { log, r };
    record.entry_after(record.before())
}

// A field lies inside so many bytes.
fn inside(len: usize, at: u32, width: u32) -> Result<(), Refusal>
    requires { (at < 5000000) × (width ≤ 32) }
    ensures { told result ≡ within (len * 8) at width }
{
    if len < (at + width).div_ceil(8) as usize {
        return Err(Refusal::Cut(at));
    }
    Ok(())
}

// A log's record, by its number.
#[derive(Clone, Copy)]
struct Record<'a> {
    log: &'a [u8],
    r: u16,
}

impl Record<'_> {
    fn counter(&self) -> u32
        ensures { result ≡ counter self.now.log.now self.now.r }
    {
        bits::number(self.log, begin_of(self.r) + COUNTER_AT, COUNTER_BITS)
    }

    // The counter before it.
    fn before(&self) -> u32
        ensures { result ≡ before self.now.log.now self.now.r }
    {
        if self.r == 0 {
            return origin(self.log);
        }
        let previous = Record {
            r: self.r - 1,
            ..*self
        };
        previous.counter()
    }

    // "A kind (1; zero is a start)".
    fn kind(&self) -> Kind
        ensures { kind_in result ≡ kind self.now.log.now self.now.r }
    {
        match bits::number(self.log, begin_of(self.r) + INDEX_BITS, KIND_BITS) {
            0 => Kind::Start,
            _ => Kind::Finish,
        }
    }

    // What it says, behind a counter. "The counter rolls over past its top value and carries on from zero."
    // (Always inlined: as a call it costs a replay 52 instructions a record more, beside 328.)
    #[inline(always)]
    fn entry_after(&self, last: u32) -> Entry
        requires { last ≡ before self.now.log.now self.now.r }
        ensures { EntryPromise self.now.log.now self.now.r result }
    {
        Entry {
            task: bits::number(self.log, begin_of(self.r), INDEX_BITS) as u8,
            kind: self.kind(),
            gap: self.counter().wrapping_sub(last),
        }
    }

    fn judge_index(&self, tasks: u8, task: u8) -> Result<(), Refusal>
        ensures { told result ≡ index_judged (length self.now.log.now * 8) (begin self.now.r) tasks task }
    {
        inside(self.log.len(), begin_of(self.r), INDEX_BITS)?;
        if tasks <= task {
            return Err(Refusal::LogTask);
        }
        Ok(())
    }

    fn judge_kind(&self, kind: Kind, expected: Kind) -> Result<(), Refusal>
        ensures { told result ≡ kind_judged (length self.now.log.now * 8) (begin self.now.r) (kind_in kind) (kind_in expected) }
    {
        inside(self.log.len(), begin_of(self.r) + INDEX_BITS, KIND_BITS)?;
        if kind == expected {
            return Ok(());
        }
        Err(Refusal::LogKind)
    }

    // The counter's difference, and the time so far with it.
    fn judge_counter(&self, gap: u32, time: u32) -> Result<(), Refusal>
        requires { time < most_time }
        ensures { told result ≡ counter_judged (length self.now.log.now * 8) (begin self.now.r) gap time }
    {
        inside(self.log.len(), begin_of(self.r) + COUNTER_AT, COUNTER_BITS)?;
        if TIME_LIMIT <= gap || TIME_LIMIT <= time + gap {
            return Err(Refusal::LogTime);
        }
        Ok(())
    }

    // Its fields "front to back".
    fn judge(&self, tasks: u8, e: Entry, expected: Kind, time: u32) -> Result<(), Refusal>
        requires { time < most_time }
        ensures { told result ≡ entry_judged (length self.now.log.now * 8) (begin self.now.r) tasks e.task (kind_in e.kind) e.gap (kind_in expected) time }
    {
        self.judge_index(tasks, e.task)?;
        self.judge_kind(e.kind, expected)?;
        self.judge_counter(e.gap, time)
    }
}

// The first n records. Of each task the kind that its next record must have stands in its place.
fn judge_records(log: &[u8], tasks: u8, n: u16) -> Result<(), Refusal>
    ensures { told result ≡ records_judged log.now tasks 0 n }
{
    let mut expected = [Kind::Start; 16];
    let mut time = 0u32;
    let mut counter = origin(log);
    for r in 0..n {
        let record = Record { log, r };
        let e = record.entry_after(counter);
        let i = e.task as usize;
        record.judge(tasks, e, expected[i], time)?;
        time += e.gap;
        counter = counter.wrapping_add(e.gap);
        expected[i] = e.kind.next();
    }
    Ok(())
}

// What follows the last of n records. Not a public call of sheet's: that one would have to answer every end, and a bit behind the longest has
// no 32-bit number.
fn judge_tail(log: &[u8], n: u16) -> Result<(), Refusal>
    ensures { told result ≡ tail_of log.now (begin n) }
{
    match bits::surplus(log, begin_of(n)) {
        Some(bit) => Err(Refusal::Surplus(bit as u32)),
        None => Ok(()),
    }
}

fn judge_head(len: usize) -> Result<(), Refusal>
    ensures { told result ≡ head_judged (len * 8) }
{
    inside(len, 0, ORIGIN_BITS)?;
    inside(len, ORIGIN_BITS, COUNT_BITS)
}

// The log's refusals "front to back", for a sheet of so many tasks.
pub fn judge(log: &[u8], tasks: u8) -> Result<(), Refusal>
    ensures { JudgePromise log.now tasks result }
{
    judge_head(log.len())?;
    let n = count(log);
    judge_records(log, tasks, n)?;
    judge_tail(log, n)
}
