// The chain: its delay at a release, its sampling figure and quick bound, and from a flag on its worst, bound and margin; or the first
// refusal. Each call works the responses out afresh and leaves them in the lent table, from which a walk along the chain reads them.
// What is answered and left in the table is defined in specs/Calls.antt; what that says of every schedule stands in specs/Results.antt.
#![tactic(auto)]

mod answer;
mod filled;
mod named;
mod path;
mod row;

ghost use Rattle.std.specs.Prelude.{◌≡◌, ◌≤◌};
ghost use Rattle.chain.specs.Calls.{less, most_limit};
ghost use Rattle.chain.specs.Most.{most_worst};
ghost use Rattle.chain.specs.Promises.{DelayPromise, MarginPromise, DefaultMarginPromise, FiguresPromise, SuitePromise};
ghost use Rattle.chain.specs.Conditions.{Lacking};

pub use answer::{Figure, Suite, Summary, TaskFigures};
use answers::Refusal;
use filled::Filled;
use named::Named;
use schedule::TaskResponses;
use sheet::sound::Judged;
use sheet::{MOST_LIMIT, Sheet};

// "The margin call without a limit should use 500 ticks." (document 02, P7)
const DEFAULT_LIMIT: u32 = 500;

// Both numbers are "cast to i32 without loss and subtracted": the bounds asked for are what allows it, where `try_from` would need an unwrap.
fn less_of(limit: u32, figure: u32) -> i32
    requires { (limit ≤ most_limit) × (figure ≤ most_worst) }
    ensures { result ≡ less limit figure }
{
    limit as i32 - figure as i32
}

// Refusal::Chain for a number that the sheet lacks, after the fields; where it has the chain these are left to what follows. To judge
// them first in any case was tried, and as the schedule judges them again it costs 12 percent of `figures` on a small sheet.
fn lacking(s: Sheet, number: u8) -> Result<(), Refusal>
    ensures { Lacking s number result }
{
    let Err(refusal) = sheet::numbered(s, number) else {
        return Ok(());
    };
    sheet::judge(s)?;
    Err(refusal)
}

// The delay of a chain at a release of its first task.
pub fn delay(s: Sheet, number: u8, release: u32, table: &mut [u32]) -> Result<u32, Refusal>
    ensures { DelayPromise s number release table.old result table.new }
{
    lacking(s, number)?;
    let size = schedule::sizes(s)?;
    if size.hyperperiod <= release {
        return Err(Refusal::Release);
    }
    let judged = Judged { sheet: s };
    let chain = Named { judged, number };
    let period = chain.first_period();
    if 0 < release % period {
        return Err(Refusal::Release);
    }
    let totals = schedule::responses(s, table)?;
    let filled = Filled::new(judged, totals.hyperperiod, table);
    Ok(filled.delay(chain, release / period))
}

// What one filling of the table gives of a chain, with "R, the greatest response" of each task in its place.
pub fn figures(s: Sheet, number: u8, table: &mut [u32]) -> Result<TaskFigures, Refusal>
    ensures { FiguresPromise s number table.old result table.new }
{
    lacking(s, number)?;
    let TaskResponses { totals, greatest } = schedule::task_responses(s, table)?;
    let judged = Judged { sheet: s };
    let chain = Named { judged, number };
    let filled = Filled::new(judged, totals.hyperperiod, table);
    let summary = filled.summary(chain, totals);
    Ok(TaskFigures { summary, greatest })
}

// What a report says: one filling of the table, however many chains there are.
pub fn suite(s: Sheet, table: &mut [u32]) -> Result<Suite, Refusal>
    ensures { SuitePromise s table.old result table.new }
{
    let TaskResponses { totals, greatest } = schedule::task_responses(s, table)?;
    let judged = Judged { sheet: s };
    let filled = Filled::new(judged, totals.hyperperiod, table);
    let chains = filled.summaries(totals);
    Ok(Suite {
        totals,
        greatest,
        chains,
    })
}

// A limit less the worst from a flag on: "the sign tells whether the limit is kept".
pub fn margin(s: Sheet, number: u8, limit: u32, table: &mut [u32]) -> Result<i32, Refusal>
    ensures { MarginPromise s number limit table.old result table.new }
{
    if MOST_LIMIT < limit {
        lacking(s, number)?;
        schedule::sizes(s)?;
        return Err(Refusal::Limit);
    }
    let figures = figures(s, number, table)?;
    Ok(less_of(limit, figures.summary.worst))
}

// "The margin call without a limit".
pub fn default_margin(s: Sheet, number: u8, table: &mut [u32]) -> Result<i32, Refusal>
    ensures { DefaultMarginPromise s number table.old result table.new }
{
    margin(s, number, DEFAULT_LIMIT, table)
}
