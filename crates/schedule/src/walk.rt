// A task's row: a walk over the releases of its level, which is the task and those that outrank it.
ghost use Rattle.std.specs.Prelude.{◌≡◌, length};
ghost use Rattle.schedule.specs.Conditions.{Ready, Turned, Starts, Walk, Walked, coming};

use super::level::Place;

// The tick by which the work of a level is done, and the earliest of its next releases.
#[derive(Clone, Copy)]
struct Next {
    clear: u32,
    soon: u32,
}

// The releases of a level at a tick: by when its work is done with what they bring, and the earliest of the next ones. A place whose
// next release is not before the earliest so far is passed over: that is after the tick, so it has none now.
fn turn(own: &mut Place, others: &mut [Place], at: u32, mut clear: u32) -> Next
    requires { Ready own.old others.old at clear }
    ensures { Turned own.old others.old at clear own.new others.new result }
{
    if own.next == at {
        clear += own.release();
    }
    let mut soon = own.next;
    for place in others.iter_mut() {
        if place.next < soon {
            if place.next == at {
                clear += place.release();
            }
            soon = soon.min(place.next);
        }
    }
    Next { clear, soon }
}

// Fills the row of a task with the responses of its jobs, by a walk over the releases of its level up to `h`: the level's work is
// done by tick `clear`, and where that is before the next release a job of the task is done with it, and the gap ends at rest.
// Answers the ticks in which the level rests; none where the task is late.
pub(crate) fn walk_row(mut own: Place, others: &mut [Place], h: u32, row: &mut [u32]) -> Option<u32>
    requires starts { Starts own others.old }
    requires walk_fits { Walk (coming own others.old) own.period h (length row.old) }
    ensures { Walked (coming own others.old) own.period h row.new result }
{
    let mut at = 0u32;
    let mut clear = 0u32;
    let mut rests = 0u32;
    let mut release = 0u32;
    let mut k = 0usize;
    // `at` goes from release to release, and `k` on only where a job is done, so neither is a range's or an iterator's index.
    while at < h {
        let now = turn(&mut own, others, at, clear);
        clear = now.clear;
        if now.soon < clear {
            if release + own.period <= now.soon {
                return None;
            }
        } else {
            if release <= at {
                row[k] = clear - release;
                k += 1;
                release += own.period;
            }
            rests += now.soon - clear;
            clear = now.soon;
        }
        at = now.soon;
    }
    Some(rests)
}
