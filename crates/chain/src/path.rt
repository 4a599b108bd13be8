// A chain as a path of rows, one for each of its tasks: its delay from a job on, the greatest of these, and its quick bound.
ghost use Rattle.std.specs.Prelude.{◌≡◌, ◌+◌, ◌*◌, ◌≤◌, length};
ghost use Rattle.chain.specs.Most.{most_wait, most_release};
ghost use Rattle.chain.specs.Paths.{period_in, count_in, delay_in, bound_in, ahead, FirstHandedOver, Greatest};

use crate::answer::Figure;
use crate::row::{HandOver, Row};

// The delay of a path from job k of its first task on: the wait for the next release, and then "the same rule asked of a shorter one".
pub(crate) fn walk(path: &[Row<'_>], k: u32) -> u32
    requires { k * period_in path.now + most_wait * length path.now ≤ most_release + most_wait }
    ensures { result ≡ delay_in path.now k }
{
    match path {
        [] => 0,
        [last] => last.response(k),
        [row, rest @ ..] => {
            let next = row.hand_over(&rest[0], k);
            next.wait + walk(rest, next.job)
        }
    }
}

// What the first hand-over leaves of a path: all but its first task, or that one where it is all.
fn onward<'r, 'a>(path: &'r [Row<'a>]) -> &'r [Row<'a>]
    ensures { result.now ≡ ahead path.now }
{
    match path {
        [_, rest @ ..] if !rest.is_empty() => rest,
        _ => path,
    }
}

// The first hand-over of the path from job k; on a chain of one task the path stays where it is.
fn first_hand_over(path: &[Row<'_>], k: u32) -> HandOver
    requires { k * period_in path.now ≤ most_release }
    ensures { FirstHandedOver path.now (ahead path.now) k result }
{
    match path {
        [row, next, ..] => row.hand_over(next, k),
        _ => HandOver { job: k, wait: 0 },
    }
}

// The greatest delay over the first task's jobs, and the smallest release that gives it. Paths that go to one job
// end together, so of these only the first is followed.
pub(crate) fn sampling(path: &[Row<'_>]) -> Figure
    requires { length path.now ≤ 16 }
    ensures { Greatest (count_in path.now) (period_in path.now) (delay_in path.now) result }
{
    let [first, ..] = path else {
        return Figure::default();
    };
    let rest = onward(path);
    let mut ticks = 0u32;
    let mut at = 0u32;
    let mut followed = None;
    for k in 0..first.responses.len() as u32 {
        let next = first_hand_over(path, k);
        if followed != Some(next.job) {
            followed = Some(next.job);
            let delay = next.wait + walk(rest, next.job);
            if ticks < delay {
                ticks = delay;
                at = k;
            }
        }
    }
    Figure {
        ticks,
        release: at * first.task.period,
    }
}

// The quick bound: what each pair adds, and R of the last task. The one of recurrence goes by numbers of tasks, as it has no rows.
pub(crate) fn bound(path: &[Row<'_>]) -> u32
    requires { length path.now ≤ 16 }
    ensures { result ≡ bound_in path.now }
{
    match path {
        [] => 0,
        [last] => last.greatest(),
        [row, rest @ ..] => row.pair_bound(&rest[0]) + bound(rest),
    }
}
