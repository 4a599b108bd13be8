// A sheet whose table is filled, with the row of each task: what is read there of its chains.
ghost use Rattle.std.specs.Prelude.{◌≡◌, ◌≤◌, ◌<◌, length, get_or};
ghost use Rattle.theory.specs.Model.Responses.{hyperperiod, jobs};
ghost use Rattle.theory.specs.Model.Schedule.{release};
ghost use Rattle.sheet.specs.Tasks.{tasks_of, chain_count, chain_of, first_of};
ghost use Rattle.schedule.specs.Taken.{Taken, Holds};
ghost use Rattle.chain.specs.Calls.{delay_at, summary_at, summaries_to};
ghost use Rattle.chain.specs.Paths.{RowsOf, Copied};

use crate::answer::Summary;
use crate::named::Named;
use crate::row::{NONE, Row};
use crate::{less_of, path};
use schedule::Totals;
use sheet::sound::Judged;

// Its tasks are taken, and the first places hold their rows: sixteen, as fixed memory is a rule of the project.
#[derive(Clone, Copy)]
pub(crate) struct Filled<'a> {
    judged: Judged,
    rows: [Row<'a>; 16],
    ghost taken: { Taken (tasks_of judged.sheet) },
    ghost noted: { RowsOf (tasks_of judged.sheet) (length (tasks_of judged.sheet)) rows },
}

impl<'a> Filled<'a> {
    // The rows of a table that is filled.
    pub(crate) fn new(judged: Judged, h: u32, table: &'a [u32]) -> Filled<'a>
        requires taken { Taken (tasks_of judged.sheet) }
        requires h_value { h ≡ hyperperiod (tasks_of judged.sheet) }
        requires holds { Holds (tasks_of judged.sheet) table.now }
        ensures { result.judged ≡ judged }
    {
        let mut rows = [NONE; 16];
        let mut left = table;
        for (i, &task) in judged.tasks().iter().enumerate() {
            let (responses, rest) = left.split_at((h / task.period) as usize);
            rows[i] = Row { task, responses };
            left = rest;
        }
        Filled { judged, rows }
    }

    // The rows of the tasks on a chain, in its order, in the first of sixteen places.
    fn path(&self, chain: &[u8]) -> [Row<'a>; 16]
        requires few { length chain.now ≤ 16 }
        requires entries { (j : _) → j < length chain.now → get_or chain.now j 0 < 16 }
        ensures { Copied chain.now self.now.rows (length chain.now) result }
    {
        let rows = &self.rows[..];
        let mut path = [NONE; 16];
        for (j, &task) in chain.iter().enumerate() {
            path[j] = rows[usize::from(task)];
        }
        path
    }

    // The delay of a chain at job k of its first task.
    pub(crate) fn delay(&self, chain: Named, k: u32) -> u32
        requires sheet_value { chain.judged ≡ self.now.judged }
        requires k_bound { k < jobs (tasks_of chain.judged.sheet) (first_of (chain_of chain.judged.sheet chain.number)) }
        ensures { result ≡ delay_at (tasks_of chain.judged.sheet) (chain_of chain.judged.sheet chain.number) (release (tasks_of chain.judged.sheet) (first_of (chain_of chain.judged.sheet chain.number)) k) }
    {
        let c = chain.chain();
        let tasks = c.tasks();
        let path = self.path(tasks);
        path::walk(&path[..tasks.len()], k)
    }

    // What a report says of a chain. What counts from a release of its first task counts from a flag too: "add T − 1 of the first task".
    pub(crate) fn summary(&self, chain: Named, totals: Totals) -> Summary
        requires { chain.judged ≡ self.now.judged }
        ensures { result ≡ summary_at chain.judged.sheet chain.number totals }
    {
        let c = chain.chain();
        let tasks = c.tasks();
        let path = self.path(tasks);
        let path = &path[..tasks.len()];
        let sampling = path::sampling(path);
        let sampling_bound = path::bound(path);
        let wait = chain.first_period() - 1;
        let bound = sampling_bound + wait;
        let worst = sampling.ticks + wait;
        let margin = less_of(chain.report_limit(), worst);
        Summary {
            totals,
            sampling,
            sampling_bound,
            worst,
            bound,
            margin,
        }
    }

    // What a report says of each chain.
    pub(crate) fn summaries(&self, totals: Totals) -> [Summary; 8]
        ensures { result ≡ summaries_to self.now.judged.sheet totals (chain_count self.now.judged.sheet) }
    {
        let judged = self.judged;
        let mut chains = [Summary::default(); 8];
        for c in 0..sheet::chain_count(judged.sheet) {
            let number = c + 1;
            chains[usize::from(c)] = self.summary(Named { judged, number }, totals);
        }
        chains
    }
}
