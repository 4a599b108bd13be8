// The library for programs in C: document 01's calls over the bytes of a sheet. Each returns the number of the refusal, or 0; what
// else it answers goes to lent slices. No sheet and no answer crosses over, and of structs the tell-tale's record alone, so nothing has to be
// trusted but pointers, lengths and that layout. What is returned and left is defined in specs/Promises.antt; include/bellkettle.h says it to
// those who call. That an export returns a number, fills slices and takes as many of them is the C interface's, and so is what `spread` takes.
#![tactic(auto)]

ghost use Rattle.std.specs.Prelude.{◌≡◌, ◌+◌, ◌*◌, ◌<◌, List, ℤ, length, get_or};
ghost use Rattle.std.proofs.lemmas.List.Edits.{sets};
ghost use Rattle.bits.specs.Bits.{list_of};
ghost use Rattle.answers.specs.Answers.{number_in, refusal, told};
ghost use Rattle.sheet.specs.Tasks.{tasks_of};
ghost use Rattle.schedule.specs.Calls.{table_after};
ghost use Rattle.bellkettle.specs.Numbers.{in_numbers, alone, signed, totals_numbers, summary_numbers, bounds_numbers, count_numbers, replayed_numbers, answer_to, file_of, with_file};
ghost use Rattle.bellkettle.specs.Fields.{periods_in, budgets_in, ranks_in, limits_in, lengths_in, entries_in, spread, counted, tasks_counted, chains_counted, task_from, chain_from, sheet_from};
ghost use Rattle.bellkettle.specs.Promises.{Returned, SheetAsked, quick_in, QuickAsked, SheetRead, SheetWritten, ReplayAsked, RecordBegun, RecordStamped};

use answers::Refusal;
use chain::Summary;
use night::Replayed;
use recurrence::Bounds;
use schedule::Totals;
use sheet::{Chain, Sheet};
use std::array;
use telltale::Record;
use theory::Task;

// What is asked of a sheet, or of the chain of a number. The promise of five exports speaks of it (Promises.SheetAsked), so it stays an enum
// and is no closure.
#[derive(Clone, Copy)]
enum Question {
    Responses,
    Delay(u8, u32),
    Margin(u8, u32),
    DefaultMargin(u8),
    Figures(u8),
}

// As many of the items as a lent slice has places for, from its front on.
fn store<T: Copy>(items: &[T], out: &mut [T])
    ensures { out.new ≡ sets out.old 0 items.now }
{
    let n = items.len().min(out.len());
    out[..n].copy_from_slice(&items[..n]);
}

// An answer that is told in numbers, put at the front of a lent slice.
trait Told {
    ghost numbers: { Self → List ℤ };

    fn tell(self, values: &mut [i64])
        ensures { values.new ≡ sets values.old 0 (numbers self) };
}

impl Told for u32 {
    ghost numbers = { alone };

    fn tell(self, values: &mut [i64]) {
        store(&[i64::from(self)], values);
    }
}

impl Told for i32 {
    ghost numbers = { signed };

    fn tell(self, values: &mut [i64]) {
        store(&[i64::from(self)], values);
    }
}

impl Told for Bounds {
    ghost numbers = { bounds_numbers };

    fn tell(self, values: &mut [i64]) {
        store(&[self.sampling_bound, self.bound].map(i64::from), values);
    }
}

// Edition, n and the number of chains.
impl Told for Sheet {
    ghost numbers = { count_numbers };

    fn tell(self, values: &mut [i64]) {
        store(
            &[self.edition, self.count, self.suite].map(i64::from),
            values,
        );
    }
}

impl Told for Totals {
    ghost numbers = { totals_numbers };

    fn tell(self, values: &mut [i64]) {
        store(
            &[self.hyperperiod, self.jobs, self.idle].map(i64::from),
            values,
        );
    }
}

// The longest delay and the break: whether there is one, 1 or 0, and what it is, zeros where there is none.
impl Told for Replayed {
    ghost numbers = { replayed_numbers };

    fn tell(self, values: &mut [i64]) {
        store(
            &[
                self.records,
                self.paths,
                u32::from(self.longest.is_some()),
                self.longest.map_or(0, |longest| longest.ticks),
                self.longest.map_or(0, |longest| longest.job),
                u32::from(self.breaking.is_some()),
                self.breaking.unwrap_or(0),
                self.figure.ticks,
                self.figure.release,
            ]
            .map(i64::from),
            values,
        );
    }
}

impl Told for Summary {
    ghost numbers = { summary_numbers };

    fn tell(self, values: &mut [i64]) {
        store(
            &[
                i64::from(self.totals.hyperperiod),
                i64::from(self.totals.jobs),
                i64::from(self.totals.idle),
                i64::from(self.sampling.ticks),
                i64::from(self.sampling.release),
                i64::from(self.sampling_bound),
                i64::from(self.worst),
                i64::from(self.bound),
                i64::from(self.margin),
            ],
            values,
        );
    }
}

// "A refusal returns its number", and the value that comes with it: of 1 to 9 the bit at which the judged field begins, of 15 the late task.
fn refuse(r: Refusal, values: &mut [i64]) -> u8
    ensures { Returned (refusal r) result values.old values.new }
{
    if let Some(value) = r.value() {
        store(&[i64::from(value)], values);
    }
    r.number()
}

// What a call answers, as the number to return and its values.
fn hand<T: Told>(answer: Result<T, Refusal>, values: &mut [i64]) -> u8
    ensures { Returned (in_numbers T.numbers (told answer)) result values.old values.new }
{
    match answer {
        Ok(given) => {
            given.tell(values);
            0
        }
        Err(refusal) => refuse(refusal, values),
    }
}

// What a sheet answers to a question, and the table as the answer leaves it.
fn answer(question: Question, s: Sheet, table: &mut [u32], values: &mut [i64]) -> u8
    ensures returned { Returned (answer_to question (length table.old) s) result values.old values.new }
    ensures table_after { table.new ≡ table_after (answer_to question (length table.old) s) (tasks_of s) table.old }
{
    match question {
        Question::Responses => hand(schedule::responses(s, table), values),
        Question::Delay(number, release) => hand(chain::delay(s, number, release, table), values),
        Question::Margin(number, limit) => hand(chain::margin(s, number, limit, table), values),
        Question::DefaultMargin(number) => hand(chain::default_margin(s, number, table), values),
        Question::Figures(number) => {
            let figures = chain::figures(s, number, table);
            hand(figures.map(|found| found.summary), values)
        }
    }
}

// The sheet is read, and then asked.
fn ask(question: Question, sheet: &[u8], table: &mut [u32], values: &mut [i64]) -> u8
    ensures { SheetAsked question sheet.now result values.old values.new table.old table.new }
{
    match sheet::read(sheet) {
        Ok(s) => answer(question, s, table, values),
        Err(r) => refuse(r, values),
    }
}

// H, J and idle, and the responses in the table.
#[unsafe(no_mangle)]
pub extern "C" fn bellkettle_responses(sheet: &[u8], table: &mut [u32], values: &mut [i64]) -> u8
    ensures { SheetAsked Question.Responses sheet.now result values.old values.new table.old table.new }
{
    ask(Question::Responses, sheet, table, values)
}

// The delay of a chain at a release of its first task.
#[unsafe(no_mangle)]
pub extern "C" fn bellkettle_delay(
    sheet: &[u8],
    chain: u8,
    release: u32,
    table: &mut [u32],
    values: &mut [i64],
) -> u8
    ensures { SheetAsked (Question.Delay chain release) sheet.now result values.old values.new table.old table.new }
{
    ask(Question::Delay(chain, release), sheet, table, values)
}

// A limit less the worst from a flag on.
#[unsafe(no_mangle)]
pub extern "C" fn bellkettle_margin(
    sheet: &[u8],
    chain: u8,
    limit: u32,
    table: &mut [u32],
    values: &mut [i64],
) -> u8
    ensures { SheetAsked (Question.Margin chain limit) sheet.now result values.old values.new table.old table.new }
{
    ask(Question::Margin(chain, limit), sheet, table, values)
}

// "The margin call without a limit".
#[unsafe(no_mangle)]
pub extern "C" fn bellkettle_default_margin(
    sheet: &[u8],
    chain: u8,
    table: &mut [u32],
    values: &mut [i64],
) -> u8
    ensures { SheetAsked (Question.DefaultMargin chain) sheet.now result values.old values.new table.old table.new }
{
    ask(Question::DefaultMargin(chain), sheet, table, values)
}

// The figures of a chain, from one filling of the table.
#[unsafe(no_mangle)]
pub extern "C" fn bellkettle_figures(
    sheet: &[u8],
    chain: u8,
    table: &mut [u32],
    values: &mut [i64],
) -> u8
    ensures { SheetAsked (Question.Figures chain) sheet.now result values.old values.new table.old table.new }
{
    ask(Question::Figures(chain), sheet, table, values)
}

// Both bounds of a chain, or what the sheet or the call refuses.
fn quick_bound(sheet: &[u8], chain: u8) -> Result<Bounds, Refusal>
    ensures { in_numbers bounds_numbers (told result) ≡ quick_in sheet.now chain }
{
    let s = sheet::read(sheet)?;
    Ok(recurrence::bound(s, chain)?.bounds)
}

// The quick bound with no table: from a release of the chain's first task on, and from a flag on.
#[unsafe(no_mangle)]
pub extern "C" fn bellkettle_quick_bound(sheet: &[u8], chain: u8, values: &mut [i64]) -> u8
    ensures { QuickAsked sheet.now chain result values.old values.new }
{
    hand(quick_bound(sheet, chain), values)
}

// The entries of all chains, sixteen places for each. By index: of chunks_mut(16) zipped with the chains, the plain form, a proof doesn't know
// what becomes of the slice, and over the chains' entries as one array it was tried and the proof didn't close.
fn spread_entries(s: &Sheet, entries: &mut [u8])
    ensures { entries.new ≡ spread 128 (entries_in s.now) entries.old }
{
    for i in 0..entries.len().min(128) {
        entries[i] = s.chains[i / 16].entries[i % 16];
    }
}

// The fields of a sheet in the places of each lent slice.
fn spread(
    s: &Sheet,
    periods: &mut [u32],
    budgets: &mut [u32],
    ranks: &mut [u8],
    limits: &mut [u32],
    lengths: &mut [u8],
    entries: &mut [u8],
)
    ensures periods_after { periods.new ≡ spread 16 (periods_in s.now) periods.old }
    ensures budgets_after { budgets.new ≡ spread 16 (budgets_in s.now) budgets.old }
    ensures ranks_after { ranks.new ≡ spread 16 (ranks_in s.now) ranks.old }
    ensures limits_after { limits.new ≡ spread 8 (limits_in s.now) limits.old }
    ensures lengths_after { lengths.new ≡ spread 8 (lengths_in s.now) lengths.old }
    ensures entries_after { entries.new ≡ spread 128 (entries_in s.now) entries.old }
{
    store(&s.tasks.map(|t| t.period), periods);
    store(&s.tasks.map(|t| t.budget), budgets);
    store(&s.tasks.map(|t| t.rank), ranks);
    store(&s.chains.map(|c| c.limit), limits);
    store(&s.chains.map(|c| c.length), lengths);
    spread_entries(s, entries);
}

// Edition, n and the number of chains, and the fields in the places of each lent slice.
#[unsafe(no_mangle)]
pub extern "C" fn bellkettle_read(
    sheet: &[u8],
    periods: &mut [u32],
    budgets: &mut [u32],
    ranks: &mut [u8],
    limits: &mut [u32],
    lengths: &mut [u8],
    entries: &mut [u8],
    values: &mut [i64],
) -> u8
    ensures { SheetRead sheet.now result values.old values.new periods.old periods.new budgets.old budgets.new ranks.old ranks.new limits.old limits.new lengths.old lengths.new entries.old entries.new }
{
    let made = sheet::read(sheet);
    if let Ok(s) = &made {
        spread(s, periods, budgets, ranks, limits, lengths, entries);
    }
    hand(made, values)
}

// How many there are, or one more than a sheet has places for.
fn counted(k: usize) -> u8
    ensures { result ≡ counted k }
{
    k.min(17) as u8
}

// The fields of the tasks, a slice for each.
#[derive(Clone, Copy)]
struct TaskFields<'a> {
    periods: &'a [u32],
    budgets: &'a [u32],
    ranks: &'a [u8],
}

impl TaskFields<'_> {
    fn count(&self) -> u8
        ensures { result ≡ tasks_counted self.now.periods.now self.now.budgets.now self.now.ranks.now }
    {
        let n = self.periods.len();
        if self.budgets.len() != n || self.ranks.len() != n {
            return 0;
        }
        counted(n)
    }

    fn task(&self, i: usize) -> Task
        ensures { result ≡ task_from self.now.periods.now self.now.budgets.now self.now.ranks.now i }
    {
        Task {
            period: self.periods.get(i).copied().unwrap_or(0),
            budget: self.budgets.get(i).copied().unwrap_or(0),
            rank: self.ranks.get(i).copied().unwrap_or(0),
        }
    }

    fn tasks(&self) -> [Task; 16]
        ensures { result ≡ list_of 16 (task_from self.now.periods.now self.now.budgets.now self.now.ranks.now) }
    {
        array::from_fn(|i| self.task(i))
    }
}

// Those of the chains, sixteen entries for each.
#[derive(Clone, Copy)]
struct ChainFields<'a> {
    limits: &'a [u32],
    lengths: &'a [u8],
    entries: &'a [u8],
}

impl ChainFields<'_> {
    fn count(&self) -> u8
        ensures { result ≡ chains_counted self.now.limits.now self.now.lengths.now }
    {
        let n = self.lengths.len();
        if self.limits.len() != n {
            return 0;
        }
        counted(n)
    }

    fn entry(&self, c: usize, i: usize) -> u8
        requires chain { c < 8 }
        requires place { i < 16 }
        ensures { result ≡ get_or self.now.entries.now (16 * c + i) 0 }
    {
        self.entries.get(16 * c + i).copied().unwrap_or(0)
    }

    fn chain(&self, c: usize) -> Chain
        requires { c < 8 }
        ensures { result ≡ chain_from self.now.limits.now self.now.lengths.now self.now.entries.now c }
    {
        Chain {
            entries: array::from_fn(|i| self.entry(c, i)),
            length: self.lengths.get(c).copied().unwrap_or(0),
            limit: self.limits.get(c).copied().unwrap_or(0),
        }
    }

    fn chains(&self) -> [Chain; 8]
        ensures { result ≡ list_of 8 (chain_from self.now.limits.now self.now.lengths.now self.now.entries.now) }
    {
        array::from_fn(|c| self.chain(c))
    }
}

fn sheet_from(edition: u8, tasks: &TaskFields, chains: &ChainFields) -> Sheet
    ensures { result ≡ sheet_from edition tasks.now.periods.now tasks.now.budgets.now tasks.now.ranks.now chains.now.limits.now chains.now.lengths.now chains.now.entries.now }
{
    Sheet {
        tasks: tasks.tasks(),
        chains: chains.chains(),
        edition,
        count: tasks.count(),
        suite: chains.count(),
    }
}

// The bytes of the sheet that the fields make, and how many they are.
#[unsafe(no_mangle)]
pub extern "C" fn bellkettle_write(
    edition: u8,
    periods: &[u32],
    budgets: &[u32],
    ranks: &[u8],
    limits: &[u32],
    lengths: &[u8],
    entries: &[u8],
    out: &mut [u8],
    values: &mut [i64],
) -> u8
    ensures { SheetWritten edition periods.now budgets.now ranks.now limits.now lengths.now entries.now result values.old values.new out.old out.new }
{
    let tasks = TaskFields {
        periods,
        budgets,
        ranks,
    };
    let chains = ChainFields {
        limits,
        lengths,
        entries,
    };
    let s = sheet_from(edition, &tasks, &chains);
    hand(sheet::write(s, out).map(|size| size as u32), values)
}

// Which file a refusal of a replay is about, 0 the sheet and 1 the log: once the sheet is read, bytes that end too early and that follow the
// last are the log's. Whether it is read is a Bool, as the promise has it (Numbers.file_of).
fn file_of(read: bool, r: Refusal) -> u32
    ensures { result ≡ file_of read (number_in r) }
{
    match r {
        Refusal::Cut(_) | Refusal::Surplus(_) if read => 1,
        _ => 0,
    }
}

// A refusal, and behind the value that comes with it the file. One function over this and `refuse` would take what stands behind as a closure,
// and be longer than both.
fn refuse_in(read: bool, refused: Refusal, values: &mut [i64]) -> u8
    ensures { Returned (with_file read (refusal refused)) result values.old values.new }
{
    if let Some(value) = refused.value() {
        store(&[value, file_of(read, refused)].map(i64::from), values);
    }
    refused.number()
}

// Does the log agree with the sheet, and what delays does it show (document 02, P6)? Not by `hand`, whose refusals come without a file.
#[unsafe(no_mangle)]
pub extern "C" fn bellkettle_replay(
    sheet: &[u8],
    log: &[u8],
    table: &mut [u32],
    values: &mut [i64],
) -> u8
    ensures { ReplayAsked sheet.now log.now result values.old values.new table.old table.new }
{
    match sheet::read(sheet) {
        Ok(s) => match night::replay(s, log, table) {
            Ok(replayed) => {
                replayed.tell(values);
                0
            }
            Err(r) => refuse_in(true, r, values),
        },
        Err(r) => refuse_in(false, r, values),
    }
}

// A reading begins, where none is under way (the tell-tale, document 02, P13). The record is a struct of the program in C, which lends it
// where it stands.
#[unsafe(no_mangle)]
pub extern "C" fn bellkettle_begin(kept: &mut Record, counter: u32)
    ensures { RecordBegun kept.old counter kept.new }
{
    telltale::begin(kept, counter)
}

// The reading under way ends.
#[unsafe(no_mangle)]
pub extern "C" fn bellkettle_stamp(kept: &mut Record, counter: u32, values: &mut [i64]) -> u8
    ensures { RecordStamped kept.old counter result values.old values.new kept.new }
{
    hand(telltale::stamp(kept, counter), values)
}
