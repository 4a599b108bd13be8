// The job table: the response of every job in the full-budget schedule, row by row, with hyperperiod, job count and idle ticks;
// or the first refusal. One task's row comes from a walk over the releases of its level, which is the task and those that outrank
// it, with one number of state: the tick by which the level's work is done. What is answered and left in the table is defined in
// specs/Calls.antt.
#![tactic(auto)]

ghost use Rattle.schedule.specs.Promises.{SizesPromise, ResponsesPromise, TaskResponsesPromise};

mod answer;
mod cycle;
mod level;
mod walk;

pub use answer::{Size, TaskResponses, Totals};
use answers::Refusal;
use cycle::Cycle;
use sheet::Sheet;

// H and J, for a sheet that is judged fine and keeps their limits.
pub fn sizes(s: Sheet) -> Result<Size, Refusal>
    ensures { SizesPromise s result }
{
    let cycle = Cycle::of(&s)?;
    Ok(cycle.size)
}

// The response of each job before H, "task by task in sheet order, each task's jobs in release order", with H, J and the idle ticks.
pub fn responses(s: Sheet, table: &mut [u32]) -> Result<Totals, Refusal>
    ensures { ResponsesPromise s table.old result table.new }
{
    let cycle = Cycle::of(&s)?;
    cycle.fill(table)
}

// The job table as `responses` answers and leaves it, with "R, the greatest response" of each task in its place.
pub fn task_responses(s: Sheet, table: &mut [u32]) -> Result<TaskResponses, Refusal>
    ensures { TaskResponsesPromise s table.old result table.new }
{
    let cycle = Cycle::of(&s)?;
    let totals = cycle.fill(table)?;
    let greatest = cycle.greatest(table);
    Ok(TaskResponses { totals, greatest })
}
