// A chain of a sheet that is judged fine, by its number.
ghost use Rattle.std.specs.Prelude.{◌≡◌, ◌≤◌, ◌<◌, length};
ghost use Rattle.theory.specs.Model.Schedule.{period};
ghost use Rattle.answers.specs.Answers.{fine};
ghost use Rattle.sheet.specs.Tasks.{tasks_of, lacks, chain_at, chain_of, first_of};
ghost use Rattle.chain.specs.Calls.{most_limit, report_limit};

use sheet::Chain;
use sheet::sound::Judged;

#[derive(Clone, Copy)]
pub(crate) struct Named {
    pub(crate) judged: Judged,
    pub(crate) number: u8,
    ghost known: { lacks judged.sheet number ≡ fine },
}

impl Named {
    // Its length and its entries.
    pub(crate) fn chain(self) -> Chain
        ensures { result ≡ chain_at self.judged.sheet self.number }
    {
        sheet::chain_of(self.judged, self.number).unwrap()
    }

    // T of its first task.
    pub(crate) fn first_period(self) -> u32
        ensures { (result ≡ period (tasks_of self.judged.sheet) (first_of (chain_of self.judged.sheet self.number))) × (0 < result) }
    {
        let first = self.chain().entries[0];
        self.judged.sheet.tasks[usize::from(first)].period
    }

    // "the margin under its limit", and for an old sheet under 1,000.
    pub(crate) fn report_limit(self) -> u32
        ensures { (result ≡ report_limit self.judged.sheet self.number) × (result ≤ most_limit) }
    {
        if self.judged.sheet.edition == 1 {
            return sheet::OLD_LIMIT;
        }
        self.chain().limit
    }
}
