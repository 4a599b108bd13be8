// A task with its row of the table, and the hand-over from one to the next.
ghost use Rattle.std.specs.Prelude.{◌≡◌, ◌*◌, ◌≤◌, ◌<◌, length, get_or};
ghost use Rattle.schedule.specs.Calls.{most_ticks};
ghost use Rattle.chain.specs.Most.{most_period, most_release};

use theory::Task;

// A task, and the response of each of its jobs released before H.
#[derive(Clone, Copy)]
pub(crate) struct Row<'a> {
    pub(crate) task: Task,
    pub(crate) responses: &'a [u32],
    ghost period_positive: { 0 < task.period },
    ghost period_most: { task.period ≤ most_period },
    ghost some: { 0 < length responses.now },
    ghost before: { length responses.now * task.period ≤ most_ticks },
    ghost response_most: { (k : _) → k < length responses.now → get_or responses.now k 0 ≤ most_period },
}

// The job of the next task that a path goes on to, and how long it is from the producer's release to its own.
#[derive(Clone, Copy)]
pub(crate) struct HandOver {
    pub(crate) job: u32,
    pub(crate) wait: u32,
}

// A place that holds no task of the sheet.
pub(crate) const NONE: Row<'static> = Row {
    task: Task {
        period: 1,
        budget: 1,
        rank: 0,
    },
    responses: &[1],
};

impl Row<'_> {
    ghost use Rattle.chain.specs.Paths.{response_in, greatest_in, pair_in, HandedOver};

    // The response of job k; "a job released at or after H has the response of the job released at its release modulo H".
    pub(crate) fn response(&self, k: u32) -> u32
        ensures { result ≡ response_in self.now k }
    {
        let count = self.responses.len() as u32;
        // Most jobs are before H: the branch saves them a division.
        let job = if k < count { k } else { k % count };
        self.responses[job as usize]
    }

    // R of the task.
    pub(crate) fn greatest(&self) -> u32
        ensures { result ≡ greatest_in self.now }
    {
        arith::greatest(self.responses)
    }

    // The hand-over from job k to the next task: "the next release", and how long it is until then.
    pub(crate) fn hand_over(&self, next: &Row<'_>, k: u32) -> HandOver
        requires { k * self.now.task.period ≤ most_release }
        ensures { HandedOver self.now next.now k result }
    {
        let release = k * self.task.period;
        let ready = if self.task.rank < next.task.rank {
            release + self.response(k)
        } else {
            release
        };
        let job = ready.div_ceil(next.task.period);
        let wait = job * next.task.period - release;
        HandOver { job, wait }
    }

    // What the pair with the next task adds to the quick bound; by the law that is named here it fits.
    #[tactic(auto, using(crate::specs::PathLaws::pair_near))]
    pub(crate) fn pair_bound(&self, next: &Row<'_>) -> u32
        ensures { result ≡ pair_in self.now next.now }
    {
        recurrence::pair_bound(self.task, next.task, self.greatest()) as u32
    }
}
