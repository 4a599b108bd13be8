// The tasks of a sheet over their hyperperiod: H and J, and the table filled row by row.
ghost use Rattle.std.specs.Prelude.{◌≡◌, ◌≤◌};
ghost use Rattle.arith.specs.Limit.{within};
ghost use Rattle.theory.specs.Model.Responses.{hyperperiod, all_jobs};
ghost use Rattle.schedule.specs.Calls.{most_ticks};
ghost use Rattle.schedule.specs.Tasks.{Fine, SizeOf};

use super::answer::{Size, Totals};
use super::level::{Level, Place};
use super::walk::walk_row;
use answers::Refusal;
use sheet::Sheet;
use theory::Task;

// "H at most 1,000,000; J at most 8,192"
const MOST_TICKS: u32 = 1000000;

const MOST_JOBS: u32 = 8192;

// The lowest-ranked task, with the ticks in which its level rests.
#[derive(Clone, Copy)]
struct Lowest {
    task: u8,
    rests: u32,
}

// The tasks of a sheet that is judged fine, with H and J, which are within their limits.
#[derive(Clone, Copy)]
pub(crate) struct Cycle<'a> {
    tasks: &'a [Task],
    pub(crate) size: Size,
    ghost fine: { Fine tasks.now },
    ghost sized: { SizeOf tasks.now size },
}

// The hyperperiod, the least common multiple of all periods; none where it is over its limit.
fn hyperperiod(tasks: &[Task]) -> Option<u32>
    requires { Fine tasks.now }
    ensures { result ≡ within most_ticks (hyperperiod tasks.now) }
{
    let mut multiple = 1u32;
    for task in tasks.iter().rev() {
        multiple = arith::lcm(task.period, multiple, MOST_TICKS)?;
    }
    Some(multiple)
}

// The jobs of all tasks before tick h, the hyperperiod. A loop: for `map` and `sum` the check asks of each closure call that it may be
// made and of the whole sum that it fits, and no short answer closed.
fn job_count(tasks: &[Task], h: u32) -> u32
    requires fine { Fine tasks.now }
    requires hyperperiod { h ≡ hyperperiod tasks.now }
    requires within_limit { h ≤ most_ticks }
    ensures { result ≡ all_jobs tasks.now }
{
    let mut jobs = 0u32;
    for task in tasks {
        jobs += h / task.period;
    }
    jobs
}

impl<'a> Cycle<'a> {
    ghost use Rattle.std.specs.Prelude.{◌≡◌, ◌≤◌, ◌<◌, suc, length, IfOk};
    ghost use Rattle.theory.specs.Model.Schedule.{rank};
    ghost use Rattle.theory.specs.Model.Responses.{jobs, all_jobs, task_response};
    ghost use Rattle.answers.specs.Answers.{given, after, told};
    ghost use Rattle.sheet.specs.Calls.{places};
    ghost use Rattle.sheet.specs.Tasks.{tasks_of};
    ghost use Rattle.schedule.specs.Calls.{sizes_of};
    ghost use Rattle.schedule.specs.Conditions.{Above, RowFilled, Noted, FoundTo, Filled, FilledAs};
    ghost use Rattle.schedule.specs.Taken.{Holds};

    // For a sheet that is judged fine and keeps the limits of H and J.
    pub(crate) fn of(s: &'a Sheet) -> Result<Cycle<'a>, Refusal>
        ensures sizes { after (told result) (λ cycle. given cycle.size) ≡ sizes_of s.now }
        ensures tasks { IfOk result (λ cycle. cycle.tasks.now ≡ tasks_of s.now) }
    {
        sheet::judge(*s)?;
        // Of the sheet that is lent: what `Judged::tasks` lends would be of a copy made here, which ends with this call.
        let tasks = &s.tasks[..s.count as usize];
        let hyperperiod = hyperperiod(tasks).ok_or(Refusal::Hyperperiod)?;
        let jobs = job_count(tasks, hyperperiod);
        if MOST_JOBS < jobs {
            return Err(Refusal::Jobs);
        }
        Ok(Cycle {
            tasks,
            size: Size { hyperperiod, jobs },
        })
    }

    // The jobs of task i; here and below a task is named by its index, as the row, the table and the answer go by it.
    fn jobs_of(&self, i: usize) -> usize
        requires { i < length self.now.tasks.now }
        ensures { result ≡ jobs self.now.tasks.now i }
    {
        (self.size.hyperperiod / self.tasks[i].period) as usize
    }

    // The tasks that outrank task i.
    fn level(&self, i: usize) -> Level
        requires { i < length self.now.tasks.now }
        ensures { Above self.now.tasks.now (rank self.now.tasks.now i) result }
    {
        let own = self.tasks[i].rank;
        let mut level = Level::default();
        for task in self.tasks {
            if own < task.rank {
                level.add(*task);
            }
        }
        level
    }

    // Fills the row of task i.
    fn fill_row(&self, i: usize, row: &mut [u32]) -> Option<u32>
        requires known { i < length self.now.tasks.now }
        requires whole { length row.old ≡ jobs self.now.tasks.now i }
        ensures { RowFilled self.now.tasks.now i row.new result }
    {
        let mut level = self.level(i);
        walk_row(
            Place::from(self.tasks[i]),
            level.places(),
            self.size.hyperperiod,
            row,
        )
    }

    // What the rows tell up to that of task i, from what those before it and its own tell: the lowest-ranked task, or that one is late,
    // the greatest-ranked one that is.
    fn noted(&self, found: Result<Lowest, u8>, i: usize, row: Option<u32>) -> Result<Lowest, u8>
        requires known { i < length self.now.tasks.now }
        requires found_before { FoundTo self.now.tasks.now i found }
        requires row_noted { Noted self.now.tasks.now i row }
        ensures { FoundTo self.now.tasks.now (suc i) result }
    {
        let index = i as u8;
        let rank = self.tasks[i].rank;
        match (found, row) {
            (Err(late), Some(_)) => Err(late),
            (Err(late), None) if self.tasks[late as usize].rank < rank => Err(index),
            (Err(late), None) => Err(late),
            (Ok(_), None) => Err(index),
            (Ok(lowest), Some(_)) if self.tasks[lowest.task as usize].rank < rank => Ok(lowest),
            (Ok(_), Some(rests)) => Ok(Lowest { task: index, rests }),
        }
    }

    // Fills the table row by row, each in its own part of the table.
    fn fill_rows(&self, table: &mut [u32]) -> Result<Lowest, u8>
        requires room { all_jobs self.now.tasks.now ≤ length table.old }
        ensures { Filled self.now.tasks.now (length self.now.tasks.now) (all_jobs self.now.tasks.now) table.old table.new result }
    {
        // Until the first row is noted, which takes its place: an Option for none yet would be there at the end too, where there is one.
        let mut found = Ok(Lowest { task: 0, rests: 0 });
        // By its places and not by `split_at_mut`: what is filled is said of the table itself, and a rest that is split off would have to be led back to it.
        let mut from = 0usize;
        for i in 0..self.tasks.len() {
            let end = from + self.jobs_of(i);
            let row = self.fill_row(i, &mut table[from..end]);
            found = self.noted(found, i, row);
            from = end;
        }
        found
    }

    // The response of each job in the first entries of the table, with H, J and the idle ticks; zeros there where a task is late.
    pub(crate) fn fill(&self, table: &mut [u32]) -> Result<Totals, Refusal>
        ensures { FilledAs self.now.tasks.now self.now.size table.old result table.new }
    {
        let jobs = self.size.jobs as usize;
        if table.len() < jobs {
            return Err(Refusal::Room);
        }
        match self.fill_rows(table) {
            Err(task) => {
                table[..jobs].fill(0);
                Err(Refusal::Late(task))
            }
            Ok(lowest) => Ok(Totals {
                hyperperiod: self.size.hyperperiod,
                jobs: self.size.jobs,
                idle: lowest.rests,
            }),
        }
    }

    // R of each task, in sixteen places, from the rows of a table.
    pub(crate) fn greatest(&self, table: &[u32]) -> [u32; 16]
        requires { Holds self.now.tasks.now table.now }
        ensures { result ≡ places 16 0 (length self.now.tasks.now) (task_response self.now.tasks.now) }
    {
        let mut each = [0u32; 16];
        let mut left = table;
        for i in 0..self.tasks.len() {
            let (row, rest) = left.split_at(self.jobs_of(i));
            each[i] = arith::greatest(row);
            left = rest;
        }
        each
    }
}
