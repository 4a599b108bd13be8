// Does last night's log agree with the sheet, and which paths does it hold? What agrees and what is followed is said in
// specs/Agreement.antt, what the call answers in specs/Calls.antt; the pass over the records, with state per task and per place of the
// chain, is defined in specs/Pass.antt and specs/Follow.antt and proved right in specs/Results.antt.
#![tactic(auto)]

mod answer;
mod state;

ghost use Rattle.std.specs.Prelude.{◌≡◌, true, IsTrue, ◌-◌, ◌*◌, ◌≤◌, ◌<◌, length};
ghost use Rattle.theory.specs.Model.Schedule.{rank, period};
ghost use Rattle.theory.specs.Model.Greatest.{outranking};
ghost use Rattle.theory.specs.Model.Responses.{Accepted};
ghost use Rattle.answers.specs.Answers.{fine};
ghost use Rattle.sheet.specs.Tasks.{tasks_of, first_of, rest_of};
ghost use Rattle.clocklog.specs.Events.{start, finish};
ghost use Rattle.clocklog.specs.Format.{most_time, count, log_judged};
ghost use Rattle.night.specs.Calls.{Follows};
ghost use Rattle.night.specs.Promises.{ReplayPromise};
ghost use Rattle.night.specs.Pass.{fresh, turn, goes_on, quiet, wait, accept, step};
ghost use Rattle.night.specs.Follow.{unread, longer, longest_after, follow};
ghost use Rattle.night.specs.Conditions.{slot, known, Room, ended_in, ran_in, state_of, Led, event_of, Sane, Chained, written_in, readings_of, read_by, written_by, Along, found_by, FoundIn};

pub use answer::{Longest, Replayed};
use answers::Refusal;
use chain::Figure;
use clocklog::Kind;
use sheet::Sheet;
use sheet::sound::Judged;
use state::{Found, Place, Progress, Readings, Record, State};
use theory::Task;

// The tick at which a job is released.
fn release(job: u32, period: u32) -> u64
    ensures { result ≡ job * period }
{
    u64::from(job) * u64::from(period)
}

// Of task i and the best so far the one of greater rank.
fn greater(tasks: &[Task], i: u8, best: Option<u8>) -> Option<u8>
    requires best_known { (i < length tasks.now) × known (length tasks.now) best }
    ensures { (slot result ≡ outranking (rank tasks.now) i (slot best)) × known (length tasks.now) result }
{
    match best {
        Some(other) if tasks[i as usize].rank <= tasks[other as usize].rank => best,
        _ => Some(i),
    }
}

impl State<'_> {
    // Where logging begins.
    fn fresh(tasks: &[Task]) -> State<'_>
        requires { length tasks.now ≤ 16 }
        ensures { (state_of result ≡ fresh) × (result.tasks.now ≡ tasks.now) }
    {
        State {
            tasks,
            tick: 0,
            last: None,
            jobs: [Progress::default(); 16],
        }
    }

    // What runs at a tick: of the tasks whose next job is released, the one of greatest rank.
    // (Recurrence's `passing` looks for such a task by another test. That the two stay two has its reason there.)
    fn turn(&self, at: u32) -> Option<u8>
        ensures { (slot result ≡ turn self.now.tasks.now (ended_in self.now.jobs) at) × known (length self.now.tasks.now) result }
    {
        let mut best = None;
        for (i, task) in self.tasks.iter().enumerate() {
            if release(self.jobs[i].ended, task.period) <= at as u64 {
                best = greater(self.tasks, i as u8, best);
            }
        }
        best
    }

    // The job that ran last may go on: it has budget left.
    fn goes_on(&self) -> bool
        ensures { result ≡ goes_on self.now.tasks.now (ran_in self.now.jobs) (slot self.now.last) }
    {
        match self.last {
            None => true,
            Some(i) => self.jobs[i as usize].ran < self.tasks[i as usize].budget,
        }
    }

    // In m ticks of the task nothing starts or ends.
    fn is_quiet(&self, m: u32, x: Option<u8>) -> bool
        requires task_known { known (length self.now.tasks.now) x }
        ensures is_quiet { result ≡ quiet self.now.tasks.now (ran_in self.now.jobs) m (slot x) }
        ensures room { IsTrue result → Room (ran_in self.now.jobs) m x }
    {
        let Some(i) = x else {
            return true;
        };
        let had = self.jobs[i as usize].ran;
        let most = self.tasks[i as usize].budget;
        0 < had && had <= most && m <= most - had
    }

    // The ticks up to a record, in which nothing starts or ends; false where it breaks.
    fn wait(&mut self, at: u32) -> bool
        requires { self.old.tick ≤ at }
        ensures state_after { Led self.old result self.new (wait self.old.tasks.now (state_of self.old) at) }
        ensures at_record { result ≡ true → self.new.tick ≡ at }
    {
        if at == self.tick {
            return true;
        }
        if !self.goes_on() {
            return false;
        }
        let x = self.turn(at - 1);
        let m = at - self.tick;
        if !self.is_quiet(m, x) {
            return false;
        }
        if let Some(i) = x {
            self.jobs[i as usize].ran += m;
        }
        self.tick = at;
        self.last = x;
        true
    }

    // The start of a job, at the state's tick. That its task is one of the sheet's is what an index asks, here and below.
    fn start(&mut self, task: u8) -> bool
        requires { (task < length self.old.tasks.now) × (self.old.tick < most_time) }
        ensures { Led self.old result self.new (accept self.old.tasks.now (state_of self.old) (start task self.old.tick)) }
    {
        if !self.goes_on() {
            return false;
        }
        if self.turn(self.tick) != Some(task) {
            return false;
        }
        let i = task as usize;
        if self.jobs[i].ran != 0 {
            return false;
        }
        self.jobs[i].ran = 1;
        self.tick += 1;
        self.last = Some(task);
        true
    }

    // The finish of a job, at the state's tick.
    fn finish(&mut self, task: u8) -> bool
        requires { (task < length self.old.tasks.now) × (ended_in self.old.jobs task < 4294967295) }
        ensures { Led self.old result self.new (accept self.old.tasks.now (state_of self.old) (finish task self.old.tick)) }
    {
        if self.last != Some(task) {
            return false;
        }
        let i = task as usize;
        self.jobs[i] = Progress {
            ended: self.jobs[i].ended + 1,
            ran: 0,
        };
        self.last = None;
        true
    }

    // One record of the pass; false where it breaks.
    fn step(&mut self, r: Record) -> bool
        requires { (r.task < length self.old.tasks.now) × (r.at < most_time) × (ended_in self.old.jobs r.task < 4294967295) }
        ensures { Led self.old result self.new (step self.old.tasks.now (state_of self.old) (event_of r)) }
    {
        if r.at < self.tick {
            return false;
        }
        if !self.wait(r.at) {
            return false;
        }
        match r.kind {
            Kind::Start => self.start(r.task),
            Kind::Finish => self.finish(r.task),
        }
    }
}

// The ticks from a job's release to a tick, 0 if that is before it.
fn since(job: u32, period: u32, at: u32) -> u32
    ensures { result ≡ at - job * period }
{
    u64::from(at).saturating_sub(release(job, period)) as u32
}

// The longer of two delays, the first where they are equal.
fn longer_of(x: Option<Longest>, ticks: u32, job: u32) -> Option<Longest>
    ensures { result ≡ longer x ticks job }
{
    match x {
        Some(most) if ticks <= most.ticks => x,
        _ => Some(Longest { ticks, job }),
    }
}

impl Readings<'_> {
    // Where logging begins.
    fn unread(chain: &[u8], period: u32) -> Readings<'_>
        requires { Chained chain.now }
        ensures { (readings_of result ≡ unread) × (result.chain.now ≡ chain.now) × (result.period ≡ period) }
    {
        Readings {
            chain,
            period,
            places: [Place::default(); 16],
            longest: None,
        }
    }

    // A start: the task's job reads what waits at its place, a new reading at the first place. The places go by index here and in `write`:
    // with `&mut self.places[q]` in a local, tried, goals about that local stayed open. The two loops stay two: with a closure for the step
    // their invariants would have to become a clause of it.
    fn read(&mut self, task: u8)
        requires { written_in self.old.places 0 < 4294967295 }
        ensures { Along self.old self.new (read_by self.old.chain.now task (readings_of self.old)) }
    {
        let mut ready = self.places[0].written + 1;
        for (q, &entry) in self.chain.iter().enumerate() {
            if entry == task {
                self.places[q].read = ready;
            }
            ready = self.places[q].written;
        }
    }

    // A finish: the task's job writes what it has read.
    fn write(&mut self, task: u8)
        ensures { Along self.old self.new (written_by self.old.chain.now task (readings_of self.old)) }
    {
        for (q, &entry) in self.chain.iter().enumerate() {
            if entry == task {
                self.places[q].written = self.places[q].read;
            }
        }
    }

    // The longest once the readings that are under way at the last place have come to their end there, where the task is the last.
    fn longest_by(&self, task: u8, at: u32) -> Option<Longest>
        ensures { result ≡ longest_after self.now.period (first_of self.now.chain.now) (rest_of self.now.chain.now) (readings_of self.now) task at }
    {
        let end = self.chain.len() - 1;
        let place = self.places[end];
        if self.chain[end] == task && place.written < place.read {
            return longer_of(
                self.longest,
                since(place.written, self.period, at),
                place.written,
            );
        }
        self.longest
    }

    // One record followed along the chain.
    fn follow(&mut self, r: Record)
        requires { written_in self.old.places 0 < 4294967295 }
        ensures { Along self.old self.new (follow self.old.period (first_of self.old.chain.now) (rest_of self.old.chain.now) (readings_of self.old) (event_of r)) }
    {
        match r.kind {
            Kind::Start => self.read(r.task),
            Kind::Finish => {
                self.longest = self.longest_by(r.task, r.at);
                self.write(r.task);
            }
        }
    }

    // What is found where the records break there, or nowhere.
    fn found(&self, breaking: Option<u32>) -> Found
        ensures { result ≡ found_by self.now breaking }
    {
        Found {
            breaking,
            paths: self.places[self.chain.len() - 1].written,
            longest: self.longest,
        }
    }
}

// The pass over the log's n records.
fn run_log(tasks: &[Task], chain: &[u8], log: &[u8], n: u16) -> Found
    requires few { length tasks.now ≤ 16 }
    requires chained { Chained chain.now }
    requires first_known { first_of chain.now < length tasks.now }
    requires sane_log { Sane log.now (length tasks.now) n }
    ensures { FoundIn tasks.now (first_of chain.now) (rest_of chain.now) log.now n result }
{
    let period = tasks[chain[0] as usize].period;
    let mut state = State::fresh(tasks);
    let mut readings = Readings::unread(chain, period);
    let mut at = 0u32;
    for k in 0..n {
        let entry = clocklog::entry(log, k);
        at += entry.gap;
        let r = Record {
            task: entry.task,
            kind: entry.kind,
            at,
        };
        if !state.step(r) {
            return readings.found(Some(k as u32));
        }
        readings.follow(r);
    }
    readings.found(None)
}

// What the records hold, for a sheet and a log that are taken.
fn replayed(s: Judged, log: &[u8], figure: Figure) -> Replayed
    requires accepted_sheet { Accepted (tasks_of s.sheet) }
    requires log_fine { log_judged log.now s.sheet.count ≡ fine }
    ensures { (result.records ≡ count log.now) × (result.figure ≡ figure) × Follows s.sheet log.now result }
{
    let tasks = s.tasks();
    let one = s.sheet.chains[0];
    let chain = one.tasks();
    let n = clocklog::count(log);
    let found = run_log(tasks, chain, log, n);
    Replayed {
        records: n as u32,
        paths: found.paths,
        longest: found.longest,
        breaking: found.breaking,
        figure,
    }
}

// Does the log agree with the sheet, and what delays does it show? The refusals of H and J, `Room` and the log's come before the table is touched.
pub fn replay(s: Sheet, log: &[u8], table: &mut [u32]) -> Result<Replayed, Refusal>
    ensures { ReplayPromise s log.now table.old result table.new }
{
    let size = schedule::sizes(s)?;
    if table.len() < size.jobs as usize {
        return Err(Refusal::Room);
    }
    clocklog::judge(log, s.count)?;
    // "The replay follows chain one."
    let figures = chain::figures(s, 1, table)?;
    let judged = Judged { sheet: s };
    Ok(replayed(judged, log, figures.summary.sampling))
}
