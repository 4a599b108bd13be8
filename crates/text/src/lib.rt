// Timing sheets typed as text. `show` puts a sheet's text, which is one list of bytes, line by line (specs/Shown.antt). `parse` reads a text word
// by word (specs/Words.antt), by a table of what is wanted next (specs/Grammar.antt), to its end or to the first thing that is wrong
// (specs/Run.antt). That what is shown says the sheet is proved of them (specs/RoundTrip.antt).
#![tactic(auto)]

ghost use Rattle.std.specs.Prelude.{◌≡◌, List, ◌++◌, ℕ, ◌+◌, ◌≤◌, min, length, set, take, Some};
ghost use Rattle.text.specs.Shown.{numeral, task_line, task_lines, entry_words, limit_words, chain_line, chain_lines, chain_count, text_of};
ghost use Rattle.text.specs.Words.{ends, word, digit, name_byte, every, number, keyword, index, says};
ghost use Rattle.text.specs.Grammar.{missing, fresh, wanting, with_edition, task_in, with_task, task_more, chain_in, with_chain, chain_more, opened, next_task, next_chain, at_edition, at_period, at_budget, ranked, at_rank, repeated, longer, at_entry, at_limit, at_limit_number, step, line_end, text_end, typed};
ghost use Rattle.text.specs.Run.{place_after, begins, turn, named, run, nameless, faulty, placed, located};
ghost use Rattle.text.specs.FaultText.{fault_text};
ghost use Rattle.text.specs.Conditions.{Puts, names_of, passes};
ghost use Rattle.text.specs.Promises.{ShowPromise, ParsePromise, NumberPromise};
ghost use Rattle.text.specs.declared.Place.TheVariants.{Between};

use answers::Refusal;
use arrayvec::ArrayVec;
use sheet::{Chain, Sheet};
use std::fmt;
use std::marker::Model;
use theory::Task;

// ---- a sheet shown

// The front of a text: what passes the end is dropped. Every sheet's text has room (specs/SizeLaws.antt).
#[derive(Drop)]
struct Page(ArrayVec<u8, 4096>);

impl Model for Page {
    ghost Value = { List ℕ };

    ghost view = { λ p. p.0.items };
}

impl Page {
    fn as_slice(&self) -> &[u8]
        ensures { result.now ≡ take 4096 self.now }
    {
        self.0.as_slice()
    }

    fn put(&mut self, bytes: &[u8])
        ensures { Puts self.old bytes.now self.new }
    {
        let room = self.0.remaining_capacity().min(bytes.len());
        let _fits = self.0.try_extend_from_slice(&bytes[..room]);
    }

    // A number after its label. Not by `write!`, of which a clause knows nothing where it fails: `show` refuses a small buffer alone (ShowPromise).
    fn put_number(&mut self, label: &[u8], n: u32)
        ensures { Puts self.old (label.now ++ numeral n) self.new }
    {
        let mut digits = [0u8; 20];
        let count = io::decimal(u64::from(n), &mut digits);
        self.put(label);
        self.put(&digits[..count]);
    }

    fn put_task(&mut self, i: u8, task: Task)
        ensures { Puts self.old (task_line i task) self.new }
    {
        self.put_number(b"task task", u32::from(i));
        self.put_number(b" period ", task.period);
        self.put_number(b" budget ", task.budget);
        self.put_number(b" rank ", u32::from(task.rank));
        self.put(b"\n");
    }

    // The tasks' lines. A line has its task's number, so the loop goes by it.
    fn put_tasks(&mut self, s: Sheet)
        ensures { Puts self.old (task_lines s.tasks (min s.count 16)) self.new }
    {
        for i in 0..s.count.min(16) {
            self.put_task(i, s.tasks[usize::from(i)]);
        }
    }

    // "chain limit 1000": an old sheet has no limits.
    fn put_limit(&mut self, edition: u8, limit: u32)
        ensures { Puts self.old (limit_words edition limit) self.new }
    {
        if edition != 1 {
            self.put_number(b" limit ", limit);
        }
    }

    fn put_entries(&mut self, chain: Chain)
        ensures { Puts self.old (entry_words chain.entries (min chain.length 16)) self.new }
    {
        for &entry in chain.tasks() {
            self.put_number(b" task", u32::from(entry));
        }
    }

    fn put_chain(&mut self, edition: u8, chain: Chain)
        ensures { Puts self.old (chain_line edition chain) self.new }
    {
        self.put(b"chain");
        self.put_limit(edition, chain.limit);
        self.put_entries(chain);
        self.put(b"\n");
    }

    fn put_chains(&mut self, s: Sheet)
        ensures { Puts self.old (chain_lines s.edition s.chains (chain_count s)) self.new }
    {
        let count = usize::from(sheet::chain_count(s).min(8));
        for &chain in &s.chains[..count] {
            self.put_chain(s.edition, chain);
        }
    }
}

fn page_of(s: Sheet) -> Page
    ensures { take 4096 result ≡ text_of s }
{
    let mut page = Page(ArrayVec::new());
    page.put_tasks(s);
    page.put_chains(s);
    page
}

// A sheet as text at the front of a buffer, and how many bytes it takes. A buffer that is too small stays as it was.
#[tactic(auto, using(answers::specs::AnswerLaws::also_no, answers::specs::AnswerLaws::also_fine), unfolding(crate::specs::Calls::show_of))]
pub fn show(s: Sheet, out: &mut [u8]) -> Result<usize, Refusal>
    ensures { ShowPromise s out.old result out.new }
{
    sheet::judge(s)?;
    let page = page_of(s);
    let text = page.as_slice();
    if out.len() < text.len() {
        return Err(Refusal::Room);
    }
    out[..text.len()].copy_from_slice(text);
    Ok(text.len())
}

// ---- what is wrong with a text

// What is wanted next, and so the number of the mistake where it is not there.
#[derive(Clone, Copy, PartialEq, Eq)]
pub enum Want {
    Opening = 1,
    Task,
    More,
    Chain,
    Edition,
    EditionEnd,
    Name,
    Period,
    PeriodNumber,
    Budget,
    BudgetNumber,
    Rank,
    RankNumber,
    TaskEnd,
    Limit,
    LimitNumber,
    Entry,
    Entries,
}

// A mistake in the text, or a refusal of the sheet that it says.
#[derive(Clone, Copy, PartialEq, Eq)]
pub enum Wrong {
    // what is wanted is not there
    Missing(Want),
    // the mistakes that have a number of their own
    NameTwice,
    NameUnknown,
    RankTooGreat,
    LimitInEditionOne,
    ChainInEditionOne,
    TooLong,
    // the refusals
    Tasks,
    Period,
    Budget,
    Rank,
    Length,
    Entry,
    Repeat,
    Limit,
    Edition,
    Chains,
}

// What is wrong first, and its line and column, from 1.
#[derive(Clone, Copy, PartialEq, Eq)]
pub struct Fault {
    pub wrong: Wrong,
    pub line: u32,
    pub column: u32,
}

impl Wrong {
    // A mistake's number, or a refusal's number and 100. Not by discriminants: what is wanted gives its own number.
    pub fn number(self) -> u8
        ensures { NumberPromise self result }
    {
        match self {
            Wrong::Missing(want) => want as u8,
            Wrong::NameTwice => 19,
            Wrong::NameUnknown => 20,
            Wrong::RankTooGreat => 21,
            Wrong::LimitInEditionOne => 22,
            Wrong::ChainInEditionOne => 23,
            Wrong::TooLong => 24,
            Wrong::Tasks => 102,
            Wrong::Period => 103,
            Wrong::Budget => 104,
            Wrong::Rank => 105,
            Wrong::Length => 106,
            Wrong::Entry => 107,
            Wrong::Repeat => 108,
            Wrong::Limit => 113,
            Wrong::Edition => 116,
            Wrong::Chains => 117,
        }
    }
}

// `mistake` or `refused` and the number, and then the place.
impl fmt::Display for Fault {
    ghost output = { λ fault. Some (fault_text fault) };

    fn fmt<W: fmt::Write>(&self, f: &mut fmt::Formatter<W>) -> fmt::Result {
        let number = self.wrong.number();
        match self.wrong {
            Wrong::Missing(_)
            | Wrong::NameTwice
            | Wrong::NameUnknown
            | Wrong::RankTooGreat
            | Wrong::LimitInEditionOne
            | Wrong::ChainInEditionOne
            | Wrong::TooLong => write!(f, "mistake {number}")?,
            _ => write!(f, "refused {}", number - 100)?,
        }
        write!(f, " line {} column {}", self.line, self.column)
    }
}

// ---- words

// The words of the grammar.
#[derive(Clone, Copy)]
enum Key {
    Edition,
    Task,
    Period,
    Budget,
    Rank,
    Chain,
    Limit,
}

// What a word says: one of the grammar's, a number, the task whose name it is, a new name, or none of these.
#[derive(Clone, Copy)]
enum Word {
    Key(Key),
    Number(u32),
    Known(u8),
    New,
    Other,
}

fn ends_word(b: u8) -> bool
    ensures { result ≡ ends b }
{
    matches!(b, b' ' | b'\t' | b'\r' | b'\n' | b'#')
}

fn in_name(b: u8) -> bool
    ensures { result ≡ name_byte b }
{
    b.is_ascii_alphanumeric() || matches!(b, b'-' | b'_')
}

// The word at the front of a text.
fn first_word(text: &[u8]) -> &[u8]
    ensures { result.now ≡ word text.now }
{
    let end = text
        .iter()
        .position(|b| ends_word(*b))
        .unwrap_or(text.len());
    &text[..end]
}

fn keyword_of(word: &[u8]) -> Option<Key>
    ensures { result ≡ keyword word.now }
{
    if word == b"edition".as_slice() {
        Some(Key::Edition)
    } else if word == b"task".as_slice() {
        Some(Key::Task)
    } else if word == b"period".as_slice() {
        Some(Key::Period)
    } else if word == b"budget".as_slice() {
        Some(Key::Budget)
    } else if word == b"rank".as_slice() {
        Some(Key::Rank)
    } else if word == b"chain".as_slice() {
        Some(Key::Chain)
    } else if word == b"limit".as_slice() {
        Some(Key::Limit)
    } else {
        None
    }
}

fn is_number(word: &[u8]) -> bool
    ensures { result ≡ every digit word.now }
{
    word.iter().all(|b| b.is_ascii_digit())
}

fn is_name(word: &[u8]) -> bool
    ensures { result ≡ every name_byte word.now }
{
    word.iter().all(|b| in_name(*b))
}

// The number that the word's digits spell; what is over 32 bits counts as the greatest number of 32.
#[tactic(auto, unfolding(crate::specs::Words::number, crate::specs::Words::tenfold))]
fn number_of(word: &[u8]) -> u32
    ensures { result ≡ number 0 word.now }
{
    let mut n = 0u32;
    for b in word {
        n = n
            .saturating_mul(10)
            .saturating_add(u32::from(b.saturating_sub(b'0')));
    }
    n
}

// ---- the draft

// The edition that a text says or needs.
#[derive(Clone, Copy)]
enum Edition {
    One,
    Two,
}

// Past the end nothing is set. Not by `get_mut`, after which the check knows a slice's length and no element.
fn set_at<T: Copy>(list: &mut [T], k: u8, x: T)
    ensures { list.new ≡ set list.old k x }
{
    let k = usize::from(k);
    if k < list.len() {
        list[k] = x;
    }
}

// What was typed so far, and what is wanted next. The task and the chain that are being typed stand in the places after `count` and `suite`.
#[derive(Clone, Copy)]
struct Draft {
    tasks: [Task; 16],
    chains: [Chain; 8],
    edition: Option<Edition>,
    count: u8,
    suite: u8,
    want: Want,
}

impl Draft {
    // Nothing is typed.
    #[tactic(auto, unfolding(crate::specs::Grammar::fresh, bits::specs::Bits::list_of))]
    fn new() -> Self
        ensures { result ≡ fresh }
    {
        Draft {
            tasks: [Task::default(); 16],
            chains: [Chain::default(); 8],
            edition: None,
            count: 0,
            suite: 0,
            want: Want::Opening,
        }
    }

    fn wants(self, want: Want) -> Self
        ensures { result ≡ wanting want self }
    {
        Draft { want, ..self }
    }

    fn missing(self) -> Result<Self, Wrong>
        ensures { result ≡ missing self }
    {
        Err(Wrong::Missing(self.want))
    }

    fn with_edition(self, edition: Edition) -> Self
        ensures { result ≡ with_edition edition self }
    {
        Draft {
            edition: Some(edition),
            ..self
        }
    }

    // The task that is being typed.
    fn task(self) -> Task
        ensures { result ≡ task_in self }
    {
        self.tasks
            .get(usize::from(self.count))
            .copied()
            .unwrap_or_default()
    }

    fn with_task(mut self, task: Task) -> Self
        ensures { result ≡ with_task task self }
    {
        let k = self.count;
        set_at(&mut self.tasks, k, task);
        self
    }

    // The chain that is being typed.
    #[tactic(auto, unfolding(bits::specs::Bits::list_of))]
    fn chain(self) -> Chain
        ensures { result ≡ chain_in self }
    {
        self.chains
            .get(usize::from(self.suite))
            .copied()
            .unwrap_or_default()
    }

    fn with_chain(mut self, chain: Chain) -> Self
        ensures { result ≡ with_chain chain self }
    {
        let k = self.suite;
        set_at(&mut self.chains, k, chain);
        self
    }

    // A chain with no limit is under 1,000, the limit that an old sheet's chain has. Over `..Chain::default()` the proof didn't close.
    #[tactic(auto, unfolding(bits::specs::Bits::list_of))]
    fn begin_chain(self) -> Self
        ensures { result ≡ opened self }
    {
        let chain = Chain {
            entries: [0; 16],
            length: 0,
            limit: sheet::OLD_LIMIT,
        };
        self.with_chain(chain).wants(Want::Limit)
    }

    fn count_task(self) -> Self
        ensures { result ≡ task_more self }
    {
        Draft {
            count: self.count.saturating_add(1).min(16),
            ..self
        }
    }

    fn count_chain(self) -> Self
        ensures { result ≡ chain_more self }
    {
        Draft {
            suite: self.suite.saturating_add(1).min(8),
            ..self
        }
    }
}

// ---- what a word does

// Whether the chain has the task already.
fn has_entry(chain: Chain, entry: u8) -> bool
    ensures { result ≡ repeated chain.entries chain.length entry }
{
    chain.tasks().contains(&entry)
}

fn with_entry(mut chain: Chain, entry: u8) -> Chain
    ensures { result ≡ longer chain entry }
{
    let length = chain.length;
    set_at(&mut chain.entries, length, entry);
    chain.length = chain.length.saturating_add(1).min(16);
    chain
}

impl Draft {
    // `task`, after the first one.
    fn begin_task(self) -> Result<Self, Wrong>
        ensures { result ≡ next_task self }
    {
        if self.count < 16 {
            Ok(self.wants(Want::Name))
        } else {
            Err(Wrong::Tasks)
        }
    }

    // `chain`, after the first one: "more than one chain" is edition 2.
    fn begin_next(self) -> Result<Self, Wrong>
        ensures { result ≡ next_chain self }
    {
        if let Some(Edition::One) = self.edition {
            return Err(Wrong::ChainInEditionOne);
        }
        if self.suite < 8 {
            Ok(self.with_edition(Edition::Two).begin_chain())
        } else {
            Err(Wrong::Chains)
        }
    }

    fn read_edition(self, n: u32) -> Result<Self, Wrong>
        ensures { result ≡ at_edition n self }
    {
        let edition = match n {
            1 => Edition::One,
            2 => Edition::Two,
            _ => return Err(Wrong::Edition),
        };
        Ok(self.with_edition(edition).wants(Want::EditionEnd))
    }

    fn read_period(self, period: u32) -> Result<Self, Wrong>
        ensures { result ≡ at_period period self }
    {
        if !(1..=100000).contains(&period) {
            return Err(Wrong::Period);
        }
        let task = Task {
            period,
            ..Task::default()
        };
        Ok(self.with_task(task).wants(Want::Budget))
    }

    fn read_budget(self, budget: u32) -> Result<Self, Wrong>
        ensures { result ≡ at_budget budget self }
    {
        let task = self.task();
        if !(1..=task.period).contains(&budget) {
            return Err(Wrong::Budget);
        }
        let task = Task {
            budget,
            rank: 0,
            ..task
        };
        Ok(self.with_task(task).wants(Want::Rank))
    }

    // Whether an earlier task has the rank.
    fn has_rank(self, rank: u8) -> bool
        ensures { result ≡ ranked self rank }
    {
        self.tasks
            .iter()
            .take(usize::from(self.count))
            .any(|task| task.rank == rank)
    }

    fn read_rank(self, n: u32) -> Result<Self, Wrong>
        ensures { result ≡ at_rank n self }
    {
        let Ok(rank) = u8::try_from(n) else {
            return Err(Wrong::RankTooGreat);
        };
        if self.has_rank(rank) {
            return Err(Wrong::Rank);
        }
        let task = Task {
            rank,
            ..self.task()
        };
        Ok(self.with_task(task).count_task().wants(Want::TaskEnd))
    }

    // A task of the chain, by its name or its number.
    fn read_entry(self, n: u32) -> Result<Self, Wrong>
        ensures { result ≡ at_entry n self }
    {
        let chain = self.chain();
        if self.count <= chain.length {
            return Err(Wrong::Length);
        }
        if u32::from(self.count) <= n {
            return Err(Wrong::Entry);
        }
        let entry = n as u8;
        if has_entry(chain, entry) {
            return Err(Wrong::Repeat);
        }
        Ok(
            self.with_chain(with_entry(chain, entry))
                .wants(Want::Entries),
        )
    }

    // `limit`: "With a limit .. the sheet is of edition 2".
    fn read_limit(self) -> Result<Self, Wrong>
        ensures { result ≡ at_limit self }
    {
        if let Some(Edition::One) = self.edition {
            return Err(Wrong::LimitInEditionOne);
        }
        Ok(self.with_edition(Edition::Two).wants(Want::LimitNumber))
    }

    fn read_limit_number(self, limit: u32) -> Result<Self, Wrong>
        ensures { result ≡ at_limit_number limit self }
    {
        if 4000000 < limit {
            return Err(Wrong::Limit);
        }
        let chain = Chain {
            limit,
            ..self.chain()
        };
        Ok(self.with_chain(chain).wants(Want::Entry))
    }

    #[tactic(auto, unfolding(crate::specs::Grammar::step))]
    fn read_word(self, w: Word) -> Result<Self, Wrong>
        ensures { result ≡ step w self }
    {
        match (self.want, w) {
            (Want::Opening, Word::Key(Key::Edition)) => Ok(self.wants(Want::Edition)),
            (Want::Opening, Word::Key(Key::Task)) => Ok(self.wants(Want::Name)),
            (Want::Task, Word::Key(Key::Task)) => Ok(self.wants(Want::Name)),
            (Want::More, Word::Key(Key::Task)) => self.begin_task(),
            (Want::More, Word::Key(Key::Chain)) => Ok(self.begin_chain()),
            (Want::Chain, Word::Key(Key::Chain)) => self.begin_next(),
            (Want::Edition, Word::Number(n)) => self.read_edition(n),
            (Want::Name, Word::New) => Ok(self.wants(Want::Period)),
            (Want::Name, Word::Known(_)) => Err(Wrong::NameTwice),
            (Want::Period, Word::Key(Key::Period)) => Ok(self.wants(Want::PeriodNumber)),
            (Want::PeriodNumber, Word::Number(n)) => self.read_period(n),
            (Want::Budget, Word::Key(Key::Budget)) => Ok(self.wants(Want::BudgetNumber)),
            (Want::BudgetNumber, Word::Number(n)) => self.read_budget(n),
            (Want::Rank, Word::Key(Key::Rank)) => Ok(self.wants(Want::RankNumber)),
            (Want::RankNumber, Word::Number(n)) => self.read_rank(n),
            (Want::Limit, Word::Key(Key::Limit)) => self.read_limit(),
            (Want::LimitNumber, Word::Number(n)) => self.read_limit_number(n),
            (Want::Limit | Want::Entry | Want::Entries, Word::Number(n)) => self.read_entry(n),
            (Want::Limit | Want::Entry | Want::Entries, Word::Known(i)) => self.read_entry(
                u32::from(i),
            ),
            (Want::Limit | Want::Entry | Want::Entries, Word::New) => Err(Wrong::NameUnknown),
            _ => self.missing(),
        }
    }

    // Before a line its end does not matter; after one it ends it.
    #[tactic(auto, unfolding(crate::specs::Grammar::line_end))]
    fn end_line(self) -> Result<Self, Wrong>
        ensures { result ≡ line_end self }
    {
        match self.want {
            Want::Opening | Want::Task | Want::More | Want::Chain => Ok(self),
            Want::EditionEnd => Ok(self.wants(Want::Task)),
            Want::TaskEnd => Ok(self.wants(Want::More)),
            Want::Entries => Ok(self.count_chain().wants(Want::Chain)),
            _ => self.missing(),
        }
    }

    // The end of the text ends its last line, and there is a chain.
    #[tactic(auto, unfolding(crate::specs::Grammar::text_end))]
    fn end_text(self) -> Result<Self, Wrong>
        ensures { result ≡ text_end self }
    {
        let d = self.end_line()?;
        match d.want {
            Want::Chain => Ok(d),
            _ => d.missing(),
        }
    }

    // One chain with no limit, and edition 2 not said: an old sheet.
    #[tactic(auto, unfolding(crate::specs::Grammar::typed))]
    fn sheet(self) -> Sheet
        ensures { result ≡ typed self }
    {
        let tasks = self.tasks;
        let mut chains = self.chains;
        let (edition, suite) = match self.edition {
            Some(Edition::Two) => (2, self.suite),
            _ => {
                chains[0].limit = 0;
                (1, 0)
            }
        };
        Sheet {
            tasks,
            chains,
            edition,
            count: self.count,
            suite,
        }
    }
}

// ---- the bytes of a text

// Where a byte stands: between words, in a word, or in a comment.
#[derive(Clone, Copy)]
enum Place {
    Between,
    Word,
    Comment,
}

impl Place {
    // Where the byte after this one stands.
    #[tactic(auto, unfolding(crate::specs::Run::place_after))]
    fn after(self, b: u8) -> Place
        ensures { result ≡ place_after self b }
    {
        match (self, b) {
            (_, b'\n') => Place::Between,
            (Place::Comment, _) => Place::Comment,
            (_, b'#') => Place::Comment,
            _ if ends_word(b) => Place::Between,
            _ => Place::Word,
        }
    }

    // Whether a word begins at this byte.
    #[tactic(auto, unfolding(crate::specs::Run::begins))]
    fn begins(self, b: u8) -> bool
        ensures { result ≡ begins self b }
    {
        match self {
            Place::Between => !ends_word(b),
            _ => false,
        }
    }

    // Whether this byte leaves all but the place as it is.
    #[tactic(auto, unfolding(crate::specs::Conditions::passes))]
    fn passes(self, b: u8) -> bool
        ensures { result ≡ passes self b }
    {
        b != b'\n' && !self.begins(b)
    }
}

// A reading under way: the names that tasks have, where the next byte stands, and what was typed.
#[derive(Drop)]
struct Reading<'a> {
    names: [&'a [u8]; 16],
    place: Place,
    draft: Draft,
}

impl<'a> Reading<'a> {
    fn new() -> Self
        ensures names { names_of result.names ≡ nameless }
        ensures place { result.place ≡ Between }
        ensures draft { result.draft ≡ fresh }
    {
        let names = [b"".as_slice(); 16];
        Reading {
            names,
            place: Place::Between,
            draft: Draft::new(),
        }
    }

    // The last task that has the name. By `rposition` the proof didn't close: std has no lemma from it to a list.
    #[tactic(auto, unfolding(crate::specs::Words::index))]
    fn task_named(&self, word: &[u8]) -> Option<u8>
        ensures { result ≡ index (names_of self.now.names) (min self.now.draft.count 16) word.now }
    {
        for i in (0..self.draft.count.min(16)).rev() {
            if self.names[usize::from(i)] == word {
                return Some(i);
            }
        }
        None
    }

    #[tactic(auto, unfolding(crate::specs::Words::says))]
    fn says(&self, word: &[u8]) -> Word
        ensures { result ≡ says (names_of self.now.names) self.now.draft.count word.now }
    {
        if let Some(key) = keyword_of(word) {
            return Word::Key(key);
        }
        if is_number(word) {
            return Word::Number(number_of(word));
        }
        if is_name(word) {
            return match self.task_named(word) {
                Some(i) => Word::Known(i),
                None => Word::New,
            };
        }
        Word::Other
    }

    // What the byte b at the front of what is left does.
    #[tactic(auto, unfolding(crate::specs::Run::turn))]
    fn read(&self, b: u8, rest: &[u8]) -> Result<Draft, Wrong>
        ensures { result ≡ turn (names_of self.now.names) self.now.place self.now.draft b (word rest.now) }
    {
        let d = self.draft;
        if b == b'\n' {
            return d.end_line();
        }
        if self.place.begins(b) {
            return d.read_word(self.says(first_word(rest)));
        }
        Ok(d)
    }

    // Where a name is wanted, the word that begins here is the name of the task that is being typed.
    #[tactic(auto, unfolding(crate::specs::Run::named))]
    fn keep_name(&mut self, b: u8, rest: &'a [u8])
        ensures names { names_of self.new.names
            ≡ named (names_of self.old.names) self.old.place self.old.draft b (word rest.now) }
        ensures place { self.new.place ≡ self.old.place }
        ensures draft { self.new.draft ≡ self.old.draft }
    {
        let d = self.draft;
        if self.place.begins(b) && d.want == Want::Name {
            set_at(&mut self.names, d.count, first_word(rest));
        }
    }

    // On to the next byte.
    fn go_on(&mut self, b: u8, rest: &'a [u8], draft: Draft)
        ensures names { names_of self.new.names
            ≡ named (names_of self.old.names) self.old.place self.old.draft b (word rest.now) }
        ensures place { self.new.place ≡ place_after self.old.place b }
        ensures draft { self.new.draft ≡ draft }
    {
        self.keep_name(b, rest);
        self.place = self.place.after(b);
        self.draft = draft;
    }
}

impl Fault {
    // What is wrong after so much of a text, whose bound has its line and column fit 32 bits.
    fn after(front: &[u8], wrong: Wrong) -> Self
        requires { length front.now ≤ 16384 }
        ensures { result ≡ faulty wrong front.now }
    {
        let mut line = 1u32;
        let mut column = 1u32;
        for b in front {
            if *b == b'\n' {
                line += 1;
                column = 1;
            } else {
                column += 1;
            }
        }
        Fault {
            wrong,
            line,
            column,
        }
    }
}

// Both places of `scan` where something can be wrong go through here: two closures would each have to show the bound.
fn placed_after(front: &[u8], r: Result<Draft, Wrong>) -> Result<Draft, Fault>
    requires { length front.now ≤ 16384 }
    ensures { result ≡ placed front.now r }
{
    r.map_err(|wrong| Fault::after(front, wrong))
}

fn scan(text: &[u8]) -> Result<Draft, Fault>
    requires { length text.now ≤ 16384 }
    ensures { result ≡ located text.now (run nameless Between fresh text.now) }
{
    let mut reading = Reading::new();
    for (at, b) in text.iter().enumerate() {
        // A draft that is handed on is copied, and most bytes leave it as it is.
        if reading.place.passes(*b) {
            reading.place = reading.place.after(*b);
            continue;
        }
        let rest = &text[at..];
        let draft = placed_after(&text[..at], reading.read(*b, rest))?;
        reading.go_on(*b, rest, draft);
    }
    placed_after(text, reading.draft.end_text())
}

const MOST_TEXT: usize = 16384;

// The sheet that a text says, or what is wrong with it first, and where.
#[tactic(auto, unfolding(crate::specs::Run::parse_of))]
pub fn parse(text: &[u8]) -> Result<Sheet, Fault>
    ensures { ParsePromise text.now result }
{
    if MOST_TEXT < text.len() {
        return Err(Fault::after(&text[..MOST_TEXT], Wrong::TooLong));
    }
    Ok(scan(text)?.sheet())
}
