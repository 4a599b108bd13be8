// The response of a task by a recurrence, with no schedule and no table, and the quick bound of a chain from this alone, or the first
// refusal; so the hyperperiod has no limit here. What is answered is defined in specs/Calls.antt, what that says of every schedule
// in specs/Results.antt.
#![tactic(auto)]

mod answer;

ghost use Rattle.std.specs.Prelude.{◌≡◌, ◌≤◌, ◌<◌, All, length};
ghost use Rattle.std.specs.Result.{IfOk, IfErr};
ghost use Rattle.theory.specs.Model.Recurrence.{quick_response};
ghost use Rattle.theory.specs.Model.Schedule.{rank};
ghost use Rattle.answers.specs.Answers.{refusal, told};
ghost use Rattle.sheet.specs.Tasks.{tasks_of, entries_of, chain_count};
ghost use Rattle.sheet.specs.TaskLaws.{Allowed};
ghost use Rattle.sheet.specs.Lateness.{lateness};
ghost use Rattle.recurrence.specs.Calls.{passing_greatest, bound_by, bounds_of, responses_in, bounds_to};
ghost use Rattle.recurrence.specs.Conditions.{most_period, higher, Gathered, claim_in, Responding, ChainOn, ChainIn, Timely};
ghost use Rattle.recurrence.specs.Promises.{BoundPromise, PairBoundPromise, SuitePromise};

pub use answer::{Bounds, QuickBound, QuickSuite};
use answers::Refusal;
use sheet::sound::Judged;
use sheet::{Chain, Sheet};
use theory::Task;

// The tasks of a greater rank than this, in the front of the places, and how many they are.
fn gather(s: Judged, rank: u8, outranking: &mut [Task; 16]) -> usize
    ensures { Gathered s.sheet rank outranking.new result }
{
    let mut size = 0;
    for task in s.tasks() {
        if rank < task.rank {
            outranking[size] = *task;
            size += 1;
        }
    }
    size
}

// "own budget, plus for each outranking task its budget times (the candidate divided by that task's period, the quotient rounded up)".
// A budget is at most its period, so each product is less than the candidate and the period. (With `div_ceil` for the quotient the longest
// searches take a sixth more.)
fn claim(outranking: &[Task], own: u32, candidate: u32) -> u32
    requires outranking_are { (length outranking.now ≤ 16) × All Allowed outranking.now }
    requires own_le_most_period { (own ≤ most_period) × (candidate ≤ most_period) }
    ensures { result ≡ claim_in outranking.now own candidate }
{
    let mut ticks = own;
    for task in outranking {
        ticks += task.budget * ((candidate + (task.period - 1)) / task.period);
    }
    ticks
}

// "the least fixed point": the search "begins at the budget and stops at the first value that repeats, or once it passes the period".
// Of a task that passes it the value is T + 1.
fn climb(s: Judged, i: usize, outranking: &[Task]) -> u32
    requires { (i < s.sheet.count) × (outranking.now ≡ higher (tasks_of s.sheet) (rank s.sheet.tasks i)) }
    ensures { result ≡ quick_response (tasks_of s.sheet) i }
{
    let task = s.sheet.tasks[i];
    let mut candidate = task.budget;
    loop {
        if task.period < candidate {
            break task.period + 1;
        }
        let next = claim(outranking, task.budget, candidate);
        if next == candidate {
            break candidate;
        }
        candidate = next;
    }
}

// The value of task i. Those that outrank it are gathered once, so that a step of the search divides and does nothing else.
fn response(s: Judged, i: usize) -> u32
    requires { i < s.sheet.count }
    ensures { result ≡ quick_response (tasks_of s.sheet) i }
{
    let rank = s.sheet.tasks[i].rank;
    let mut outranking = [Task::default(); 16];
    let size = gather(s, rank, &mut outranking);
    climb(s, i, &outranking[..size])
}

// The value of each task, in sixteen places.
fn each_response(s: Judged) -> [u32; 16]
    ensures { result ≡ responses_in s.sheet }
{
    let mut each = [0u32; 16];
    for i in 0..usize::from(s.sheet.count) {
        each[i] = response(s, i);
    }
    each
}

// "15 names the greatest-ranked task whose value passes its period". (Night's `turn` looks for such a task by another test. One call for both
// would take the test as a closure, and to call that is a `requires`, which no call has.)
fn passing(s: Judged, responses: &[u32; 16]) -> Result<(), Refusal>
    requires { responses.now ≡ responses_in s.sheet }
    ensures { told result ≡ lateness (passing_greatest (tasks_of s.sheet) (length (tasks_of s.sheet))) }
{
    let mut late: Option<u8> = None;
    for i in 0..s.sheet.count {
        let task = s.sheet.tasks[i as usize];
        let outranks = match late {
            Some(j) => s.sheet.tasks[j as usize].rank < task.rank,
            None => true,
        };
        if task.period < responses[i as usize] && outranks {
            late = Some(i);
        }
    }
    match late {
        Some(task) => Err(Refusal::Late(task)),
        None => Ok(()),
    }
}

// What a pair of neighbours adds to the quick bound, if the response of the first is this.
pub fn pair_bound(producer: Task, consumer: Task, response: u32) -> u64
    ensures { PairBoundPromise producer consumer response result }
{
    let common = arith::gcd(producer.period, consumer.period);
    let ticks = u64::from(consumer.period.saturating_sub(common));
    if producer.rank < consumer.rank {
        ticks + arith::up(common, response)
    } else {
        ticks
    }
}

// The response of each task of a sheet that is judged fine, in its place; none passes its period.
#[derive(Clone, Copy)]
struct Responses {
    judged: Judged,
    each: [u32; 16],
    ghost responding: { Responding judged.sheet each },
}

impl Responses {
    // The quick bound of a chain: what each pair adds, and the last task's response.
    fn bound_along(&self, chain: &[u8]) -> u32
        requires { ChainOn self.now.judged.sheet chain.now }
        ensures { result ≡ bound_by (tasks_of self.now.judged.sheet) chain.now }
    {
        let tasks = &self.judged.sheet.tasks;
        let mut ticks = 0u32;
        let mut p = usize::from(chain[0]);
        for entry in &chain[1..] {
            let c = usize::from(*entry);
            ticks += pair_bound(tasks[p], tasks[c], self.each[p]) as u32;
            p = c;
        }
        ticks + self.each[p]
    }

    // The same with the bound from a flag on, which waits for its job up to T − 1 of the first task.
    fn bounds_of(&self, chain: Chain) -> Bounds
        requires { ChainIn self.now.judged.sheet chain }
        ensures { result ≡ bounds_of (tasks_of self.now.judged.sheet) (entries_of chain) }
    {
        let first = usize::from(chain.entries[0]);
        let sampling_bound = self.bound_along(chain.tasks());
        let bound = sampling_bound + (self.judged.sheet.tasks[first].period - 1);
        Bounds {
            sampling_bound,
            bound,
        }
    }

    // The bounds of each chain. (An index for both arrays: of what `iter_mut` lends the check knows the length alone afterwards.)
    fn each_bounds(&self) -> [Bounds; 8]
        ensures { result ≡ bounds_to self.now.judged.sheet (chain_count self.now.judged.sheet) }
    {
        let sheet = self.judged.sheet;
        let n = usize::from(sheet::chain_count(sheet));
        let mut chains = [Bounds::default(); 8];
        for c in 0..n {
            chains[c] = self.bounds_of(sheet.chains[c]);
        }
        chains
    }
}

// The responses, or `Refusal::Late` where one passes its task's period.
fn respond(s: Judged) -> Result<Responses, Refusal>
    ensures ok { IfOk result (λ x. Timely s x.judged x.each) }
    ensures err { IfErr result (λ r. lateness (passing_greatest (tasks_of s.sheet) (length (tasks_of s.sheet))) ≡ refusal r) }
{
    let each = each_response(s);
    passing(s, &each)?;
    Ok(Responses { judged: s, each })
}

// The quick bound of a chain with no table, and the response of each task in its place.
pub fn bound(s: Sheet, number: u8) -> Result<QuickBound, Refusal>
    ensures { BoundPromise s number result }
{
    let judged = sheet::judged(s)?;
    let chain = sheet::chain_of(judged, number)?;
    let responses = respond(judged)?;
    let bounds = responses.bounds_of(chain);
    Ok(QuickBound {
        bounds,
        responses: responses.each,
    })
}

// The quick bounds of every chain, and the response of each task, from one search.
pub fn suite(s: Sheet) -> Result<QuickSuite, Refusal>
    ensures { SuitePromise s result }
{
    let judged = sheet::judged(s)?;
    let responses = respond(judged)?;
    let chains = responses.each_bounds();
    Ok(QuickSuite {
        responses: responses.each,
        chains,
    })
}
