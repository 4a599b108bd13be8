// The timing sheet of both editions: read from bytes, judged in memory, written to bytes, and converted. Its format is one list of
// fields, each with a width, a value and a judgement (specs/Fields.antt); what the calls answer is said over that list
// (specs/Calls.antt), and that writing and reading are inverse is proved of it (specs/RoundTrip.antt).
#![tactic(auto)]

ghost use Rattle.std.specs.Prelude.{◌≡◌, cond, ◌+◌, ◌*◌, ◌<◌, ◌≤◌, eqb, length, get_or};
ghost use Rattle.std.proofs.lemmas.List.Edits.{sets};
ghost use Rattle.bits.specs.Bits.{unpack, number};
ghost use Rattle.theory.specs.Model.Schedule.{none};
ghost use Rattle.answers.specs.Answers.{told};
ghost use Rattle.sheet.specs.Fields.{old, new, kind_of, chains, width, value, outside, judged, with_offset};
ghost use Rattle.sheet.specs.Calls.{places, unused, packed, task_bits, chain_from, sheet_of, spelt, tail_of};
ghost use Rattle.sheet.specs.Order.{Placed, opening, chain_opening, task_opening, entry_opening, after, refused_if, rank_judged, entry_judged, fields_judged, task_at, chain_spelt, sheet_spelt};
ghost use Rattle.sheet.specs.Promises.{JudgePromise, JudgedPromise, ReadPromise, WritePromise, ToSecondPromise, ToFirstPromise, ChainCountPromise, NumberedPromise, ChainPromise, TasksPromise, EntriesPromise};

pub mod sound;

use answers::Refusal;
use sound::Judged;
use theory::Task;

#[derive(Clone, Copy, Default, PartialEq, Eq)]
pub struct Chain {
    pub entries: [u8; 16],
    pub length: u8,
    pub limit: u32,
}

impl Chain {
    // The tasks along it: the first `length` of its sixteen entries.
    pub fn tasks(&self) -> &[u8]
        ensures { EntriesPromise self.now result.now }
    {
        &self.entries[..usize::from(self.length.min(16))]
    }
}

// `count` tasks and a suite of so many chains. An old sheet is edition 1: it uses chain one, and neither `suite` nor a limit.
// (A number and no enum: `JudgePromise` holds of every edition in memory, and C hands any. Places with a count beside: there is no heap.)
#[derive(Clone, Copy, Default, PartialEq, Eq)]
pub struct Sheet {
    pub tasks: [Task; 16],
    pub chains: [Chain; 8],
    pub edition: u8,
    pub count: u8,
    pub suite: u8,
}

// A field of the sheet; those of a task and of a chain with their index. (What three functions ask of it, `Placed`, is the bound of that index;
// a field that carries it would have to state it for each of its ten cases.)
#[derive(Clone, Copy)]
enum Field {
    Mark,
    Edition,
    Count,
    Period(u8),
    Budget(u8),
    Rank(u8),
    Chains,
    Limit(u8),
    Length(u8),
    Entry(u8, u8),
}

// The documents' widths, and what follows from them.
const MARK_BITS: u32 = 5;

const EDITION_BITS: u32 = 4;

const COUNT_BITS: u32 = 5;

const PERIOD_BITS: u32 = 17;

const BUDGET_BITS: u32 = 17;

const RANK_BITS: u32 = 8;

const CHAINS_BITS: u32 = 4;

const LIMIT_BITS: u32 = 22;

const LENGTH_BITS: u32 = 5;

const ENTRY_BITS: u32 = 4;

const MARKED_BITS: u32 = MARK_BITS + EDITION_BITS;

const HEAD_BITS: u32 = MARKED_BITS + COUNT_BITS;

const TASK_BITS: u32 = PERIOD_BITS + BUDGET_BITS + RANK_BITS;

// The documents' limits, and what follows from them: the longest sheet has sixteen tasks, and eight chains of sixteen entries.
pub const MOST_TASKS: u32 = 16;

pub const MOST_CHAINS: u32 = 8;

pub const MOST_PERIOD: u32 = 100000;

pub const MOST_LIMIT: u32 = 4000000;

pub const MOST_BYTES: usize = 178;

// The limit of an old sheet's chain, in a conversion and in a report.
pub const OLD_LIMIT: u32 = 1000;

fn width_of(f: Field) -> u32
    ensures { result ≡ width f }
{
    match f {
        Field::Mark => MARK_BITS,
        Field::Edition => EDITION_BITS,
        Field::Count => COUNT_BITS,
        Field::Period(_) => PERIOD_BITS,
        Field::Budget(_) => BUDGET_BITS,
        Field::Rank(_) => RANK_BITS,
        Field::Chains => CHAINS_BITS,
        Field::Limit(_) => LIMIT_BITS,
        Field::Length(_) => LENGTH_BITS,
        Field::Entry(_, _) => ENTRY_BITS,
    }
}

// What stands in a field that has a place.
fn value_of(s: &Sheet, f: Field) -> u32
    requires { Placed f }
    ensures { result ≡ value s.now f }
{
    match f {
        Field::Mark => if s.edition == 1 { 0 } else { 31 },
        Field::Edition => u32::from(s.edition),
        Field::Count => u32::from(s.count),
        Field::Period(i) => s.tasks[i as usize].period,
        Field::Budget(i) => s.tasks[i as usize].budget,
        Field::Rank(i) => u32::from(s.tasks[i as usize].rank),
        Field::Chains => u32::from(s.suite),
        Field::Limit(c) => s.chains[c as usize].limit,
        Field::Length(c) => u32::from(s.chains[c as usize].length),
        Field::Entry(c, i) => u32::from(s.chains[c as usize].entries[i as usize]),
    }
}

// How many chains have places.
fn chains_of(s: &Sheet) -> u8
    ensures { result ≡ chains (kind_of (value s.now)) (value s.now) }
{
    chain_count(*s).min(8)
}

fn opening_of(s: &Sheet) -> Field
    ensures { result ≡ opening (kind_of (value s.now)) }
{
    if s.edition == 1 {
        Field::Count
    } else {
        Field::Mark
    }
}

fn chain_opening(s: &Sheet, c: u8) -> Option<Field>
    ensures { result ≡ chain_opening (kind_of (value s.now)) (value s.now) c }
{
    if c >= chains_of(s) {
        return None;
    }
    if s.edition == 1 {
        Some(Field::Length(c))
    } else {
        Some(Field::Limit(c))
    }
}

fn task_opening(s: &Sheet, i: u8) -> Field
    ensures { result ≡ task_opening (kind_of (value s.now)) (value s.now) i }
{
    if i < s.count.min(16) {
        return Field::Period(i);
    }
    if s.edition == 1 {
        Field::Length(0)
    } else {
        Field::Chains
    }
}

fn entry_opening(s: &Sheet, c: u8, i: u8) -> Option<Field>
    requires { c < 8 }
    ensures { result ≡ entry_opening (kind_of (value s.now)) (value s.now) c i }
{
    if i < s.chains[c as usize].length.min(16) {
        return Some(Field::Entry(c, i));
    }
    chain_opening(s, c + 1)
}

// The field after a field, and none after the last.
fn next_of(s: &Sheet, f: Field) -> Option<Field>
    requires { Placed f }
    ensures { result ≡ after (kind_of (value s.now)) (value s.now) f }
{
    match f {
        Field::Mark => Some(Field::Edition),
        Field::Edition => Some(Field::Count),
        Field::Count => Some(task_opening(s, 0)),
        Field::Period(i) => Some(Field::Budget(i)),
        Field::Budget(i) => Some(Field::Rank(i)),
        Field::Rank(i) => Some(task_opening(s, i + 1)),
        Field::Chains => chain_opening(s, 0),
        Field::Limit(c) => Some(Field::Length(c)),
        Field::Length(c) => entry_opening(s, c, 0),
        Field::Entry(c, i) => entry_opening(s, c, i + 1),
    }
}

// The refusal of a value below or above its limits.
fn ranged(refusal: Refusal, low: u32, high: u32, v: u32) -> Result<(), Refusal>
    ensures { told result ≡ refused_if (outside low high v) refusal }
{
    if (low..=high).contains(&v) {
        Ok(())
    } else {
        Err(refusal)
    }
}

// The refusal of a rank that repeats an earlier one.
fn judge_rank(tasks: &[Task], i: u8, at: u32) -> Result<(), Refusal>
    requires { i < length tasks.now }
    ensures { told result ≡ with_offset at (rank_judged (λ j. (get_or tasks.now j none).rank) i) }
{
    let k = i as usize;
    let rank = tasks[k].rank;
    if tasks[..k].iter().any(|task| task.rank == rank) {
        return Err(Refusal::Rank(at));
    }
    Ok(())
}

// The refusal of an entry that is none of so many tasks, or that repeats an earlier one of its chain.
fn judge_entry(count: u8, entries: &[u8], i: u8, at: u32) -> Result<(), Refusal>
    requires { i < length entries.now }
    ensures { told result ≡ with_offset at (entry_judged count (λ j. get_or entries.now j 0) i) }
{
    let k = i as usize;
    let entry = entries[k];
    if count <= entry {
        return Err(Refusal::Entry(at));
    }
    if entries[..k].contains(&entry) {
        return Err(Refusal::Repeat(at));
    }
    Ok(())
}

// A field at bit `at`.
fn judge_field(s: &Sheet, f: Field, at: u32) -> Result<(), Refusal>
    requires { Placed f }
    ensures { told result ≡ with_offset at (judged (kind_of (value s.now)) (value s.now) f) }
{
    let v = value_of(s, f);
    match f {
        Field::Mark => Ok(()),
        Field::Edition => ranged(Refusal::Edition, 2, 2, v),
        Field::Count => ranged(Refusal::Count(at), 1, MOST_TASKS, v),
        Field::Period(_) => ranged(Refusal::Period(at), 1, MOST_PERIOD, v),
        Field::Budget(i) => ranged(Refusal::Budget(at), 1, s.tasks[i as usize].period, v),
        Field::Rank(i) => judge_rank(&s.tasks, i, at),
        Field::Chains => ranged(Refusal::Chain, 1, MOST_CHAINS, v),
        Field::Limit(_) => ranged(Refusal::Limit, 0, MOST_LIMIT, v),
        Field::Length(_) => ranged(Refusal::Length(at), 1, u32::from(s.count), v),
        Field::Entry(c, i) => judge_entry(s.count, &s.chains[c as usize].entries, i, at),
    }
}

// The fields in order, in so many bytes; the bit after the last one. (No `for`, here and in `put_fields`: an iterator over the fields would
// state which are left, and would be longer than both loops.)
fn judge_fields(s: &Sheet, len: usize) -> Result<u32, Refusal>
    ensures { told result ≡ fields_judged (len * 8) (value s.now) }
{
    let mut at = 0u32;
    let mut next = Some(opening_of(s));
    while let Some(f) = next {
        let end = at + width_of(f);
        if len < end.div_ceil(8) as usize {
            return Err(Refusal::Cut(at));
        }
        judge_field(s, f, at)?;
        next = next_of(s, f);
        at = end;
    }
    Ok(at)
}

// A sheet in memory, judged in the order of its fields.
pub fn judge(s: Sheet) -> Result<(), Refusal>
    ensures { JudgePromise s result }
{
    judge_fields(&s, MOST_BYTES)?;
    Ok(())
}

impl Judged {
    // The tasks on it: the first `count` of its sixteen places.
    #[tactic(auto, unfolding(crate::specs::Tasks::tasks_of))]
    pub fn tasks(&self) -> &[Task]
        ensures { TasksPromise self.now result.now }
    {
        &self.sheet.tasks[..usize::from(self.sheet.count)]
    }
}

// The same sheet, known to be judged fine.
pub fn judged(s: Sheet) -> Result<Judged, Refusal>
    ensures { JudgedPromise s result }
{
    judge(s)?;
    Ok(Judged { sheet: s })
}

// The fields of a sheet in order, from the first bit on. (One walk for this and `judge_fields` would take a closure that writes, and one that may
// refuse, under a contract for both that is longer than the walk.)
fn put_fields(out: &mut [u8], s: &Sheet)
    ensures { unpack out.new ≡ sets (unpack out.old) 0 (packed s.now) }
{
    let mut at = 0u32;
    let mut next = Some(opening_of(s));
    while let Some(f) = next {
        let width = width_of(f);
        bits::put(out, at, width, value_of(s, f));
        next = next_of(s, f);
        at += width;
    }
}

// A number of few bits.
fn small(bytes: &[u8], at: u32, width: u32) -> u8
    requires { width ≤ 8 }
    ensures { result ≡ number (unpack bytes.now) at width }
{
    bits::number(bytes, at, width) as u8
}

// What the bytes hold in the fields of a task, from bit `at` on.
fn task_at(bytes: &[u8], at: u32) -> Task
    requires { at ≤ 100000 }
    ensures { result ≡ task_at (unpack bytes.now) at }
{
    Task {
        period: bits::number(bytes, at, PERIOD_BITS),
        budget: bits::number(bytes, at + PERIOD_BITS, BUDGET_BITS),
        rank: small(bytes, at + PERIOD_BITS + BUDGET_BITS, RANK_BITS),
    }
}

// (A loop, here and in `entries_at`: the closure of `array::from_fn` would have the test and the blank place as branches, and is no plainer.)
fn tasks_at(bytes: &[u8], at: u32, n: u8) -> [Task; 16]
    requires { at ≤ 1000 }
    ensures { result ≡ places 16 none n (λ i. task_at (unpack bytes.now) (at + task_bits * i)) }
{
    let mut tasks = [Task::default(); 16];
    for i in 0..n.min(16) {
        tasks[i as usize] = task_at(bytes, at + TASK_BITS * u32::from(i));
    }
    tasks
}

fn entries_at(bytes: &[u8], at: u32, m: u8) -> [u8; 16]
    requires { at ≤ 100000 }
    ensures { result ≡ places 16 0 m (λ i. number (unpack bytes.now) (at + 4 * i) 4) }
{
    let mut entries = [0u8; 16];
    for i in 0..m.min(16) {
        entries[i as usize] = small(bytes, at + ENTRY_BITS * u32::from(i), ENTRY_BITS);
    }
    entries
}

// A chain whose limit takes so many bits.
fn chain_at(bytes: &[u8], width: u32, at: u32) -> Chain
    requires { (width ≤ 22) × (at ≤ 90000) }
    ensures { result ≡ chain_spelt (unpack bytes.now) width at }
{
    let limit = bits::number(bytes, at, width);
    let length = small(bytes, at + width, LENGTH_BITS);
    let entries = entries_at(bytes, at + width + LENGTH_BITS, length);
    Chain {
        entries,
        length,
        limit,
    }
}

fn chains_at(bytes: &[u8], width: u32, at: u32, k: u8) -> [Chain; 8]
    requires { (width ≤ 22) × (at ≤ 5000) }
    ensures { result ≡ places 8 unused k (λ c. chain_spelt (unpack bytes.now) width (chain_from (unpack bytes.now) width at c)) }
{
    let mut chains = [Chain::default(); 8];
    let mut begin = at;
    for c in 0..k.min(8) {
        let chain = chain_at(bytes, width, begin);
        chains[c as usize] = chain;
        begin += width + LENGTH_BITS + ENTRY_BITS * u32::from(chain.length.min(16));
    }
    chains
}

// The edition behind a mark; a 1 is none.
fn edition_at(bytes: &[u8]) -> u8
    ensures { result ≡ cond (eqb (number (unpack bytes.now) 5 4) 1) 0 (number (unpack bytes.now) 5 4) }
{
    match small(bytes, MARK_BITS, EDITION_BITS) {
        1 => 0,
        edition => edition,
    }
}

// (One function with `spell_old` would branch on the mark five times: for count, edition, suite, the first chain's place and the limits' width.)
fn spell_new(bytes: &[u8]) -> Sheet
    ensures { result ≡ sheet_spelt (unpack bytes.now) new }
{
    let edition = edition_at(bytes);
    let count = small(bytes, MARKED_BITS, COUNT_BITS);
    let tasks = tasks_at(bytes, HEAD_BITS, count);
    let at = HEAD_BITS + TASK_BITS * u32::from(count.min(16));
    let suite = small(bytes, at, CHAINS_BITS);
    let chains = chains_at(bytes, LIMIT_BITS, at + CHAINS_BITS, suite);
    Sheet {
        tasks,
        chains,
        edition,
        count,
        suite,
    }
}

fn spell_old(bytes: &[u8]) -> Sheet
    ensures { result ≡ sheet_spelt (unpack bytes.now) old }
{
    let count = small(bytes, 0, COUNT_BITS);
    let tasks = tasks_at(bytes, COUNT_BITS, count);
    let at = COUNT_BITS + TASK_BITS * u32::from(count.min(16));
    let chains = chains_at(bytes, 0, at, 1);
    Sheet {
        tasks,
        chains,
        edition: 1,
        count,
        suite: 0,
    }
}

// The sheet that the bytes spell, taken for granted.
fn spell(bytes: &[u8]) -> Sheet
    ensures { result ≡ sheet_of (spelt (unpack bytes.now)) }
{
    if small(bytes, 0, MARK_BITS) == 31 {
        return spell_new(bytes);
    }
    spell_old(bytes)
}

// What follows the last field. (Clocklog has one too. As a call it would have to answer every end, and the bit behind the greatest end is no
// 32-bit number, so it would ask something of its caller, which no `pub fn` may.)
fn judge_tail(bytes: &[u8], end: u32) -> Result<(), Refusal>
    requires { end ≤ 65535 }
    ensures { told result ≡ tail_of bytes.now end }
{
    match bits::surplus(bytes, end) {
        Some(bit) => Err(Refusal::Surplus(bit as u32)),
        None => Ok(()),
    }
}

// The sheet that bytes hold.
pub fn read(bytes: &[u8]) -> Result<Sheet, Refusal>
    ensures { ReadPromise bytes.now result }
{
    let sheet = spell(bytes);
    let end = judge_fields(&sheet, bytes.len())?;
    judge_tail(bytes, end)?;
    Ok(sheet)
}

// The sheet's bytes at the front of a buffer, and how many they are.
pub fn write(s: Sheet, out: &mut [u8]) -> Result<usize, Refusal>
    ensures { WritePromise s out.old result out.new }
{
    let end = judge_fields(&s, MOST_BYTES)?;
    let size = end.div_ceil(8);
    if out.len() < size as usize {
        return Err(Refusal::Room);
    }
    put_fields(out, &s);
    bits::put(out, end, size * 8 - end, 0);
    Ok(size as usize)
}

// The sheet in the second edition: an old one's chain is its only one, under the old limit.
#[tactic(auto, unfolding(crate::specs::Conversions::to_second))]
pub fn to_second(s: Sheet) -> Result<Sheet, Refusal>
    ensures { ToSecondPromise s result }
{
    judge(s)?;
    if s.edition != 1 {
        return Ok(s);
    }
    let mut chains = s.chains;
    chains[0].limit = OLD_LIMIT;
    Ok(Sheet {
        chains,
        edition: 2,
        suite: 1,
        ..s
    })
}

// The sheet as an old one, if it has one chain under the old limit.
#[tactic(auto, unfolding(crate::specs::Conversions::to_first))]
pub fn to_first(s: Sheet) -> Result<Sheet, Refusal>
    ensures { ToFirstPromise s result }
{
    judge(s)?;
    if s.edition == 1 {
        return Ok(s);
    }
    if s.suite != 1 || s.chains[0].limit != OLD_LIMIT {
        return Err(Refusal::OldEdition);
    }
    let mut chains = s.chains;
    chains[0].limit = 0;
    Ok(Sheet {
        chains,
        edition: 1,
        suite: 0,
        ..s
    })
}

// How many chains a sheet has; an old sheet has one.
pub fn chain_count(s: Sheet) -> u8
    ensures { ChainCountPromise s result }
{
    if s.edition == 1 { 1 } else { s.suite }
}

// `Refusal::Chain` for a number of a chain that the sheet lacks; an old sheet has chain 1 alone.
pub fn numbered(s: Sheet, number: u8) -> Result<(), Refusal>
    ensures { NumberedPromise s number result }
{
    let most = u32::from(chain_count(s));
    ranged(Refusal::Chain, 1, most, u32::from(number))
}

// The chain of a number, or `Refusal::Chain` where the sheet lacks it.
pub fn chain_of(s: Judged, number: u8) -> Result<Chain, Refusal>
    ensures { ChainPromise s number result }
{
    numbered(s.sheet, number)?;
    Ok(s.sheet.chains[number as usize - 1])
}
