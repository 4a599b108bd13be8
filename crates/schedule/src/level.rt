// The places of a level: tasks of one period are released together, so they take one.
ghost use Rattle.std.specs.Prelude.{◌≤◌, length};

use std::marker::Model;
use theory::Task;

// Tasks of one period: what a release of them brings, and when the next one is.
#[derive(Clone, Copy, Default)]
pub(crate) struct Place {
    pub(crate) period: u32,
    pub(crate) budget: u32,
    pub(crate) next: u32,
}

// The first release of a task is at tick 0.
impl From<Task> for Place {
    ghost use Rattle.std.specs.Prelude.{◌≡◌};
    ghost use Rattle.schedule.specs.Conditions.{place_of};

    ghost from_gives = { λ task place. place ≡ place_of task };

    fn from(task: Task) -> Place {
        Place {
            period: task.period,
            budget: task.budget,
            next: 0,
        }
    }
}

impl Place {
    ghost use Rattle.std.specs.Prelude.{◌≡◌, ◌+◌, ◌^◌, ◌<◌};

    // Its release is now: what that brings. The next one comes a period later.
    pub(crate) fn release(&mut self) -> u32
        requires { self.old.next + self.old.period < 2 ^ 32 }
        ensures brings { result ≡ self.old.budget }
        ensures moves { self.new ≡ record self.old { next = self.old.next + self.old.period } }
    {
        self.next += self.period;
        self.budget
    }
}

// The places in use, the first `size` of sixteen: fixed memory is a rule of the project, so this is no Vec.
#[derive(Drop)]
pub(crate) struct Level {
    places: [Place; 16],
    size: usize,
}

impl Model for Level {
    ghost use Rattle.std.specs.Prelude.{◌≤◌, List, take};
    ghost use Rattle.schedule.specs.declared.level.Place.{Place};

    ghost Value = { List Place };

    ghost view = { λ level. take level.size level.places };

    ghost invariant = { λ level. level.size ≤ 16 };
}

impl Default for Level {
    ghost use Rattle.std.specs.Prelude.{◌≡◌, []};

    ghost is_default = { λ level. level ≡ [] };

    fn default() -> Level {
        Level {
            places: [Place::default(); 16],
            size: 0,
        }
    }
}

impl Level {
    ghost use Rattle.std.specs.Prelude.{◌≡◌, ◌+◌, ◌<◌, ◌^◌, ℕ};
    ghost use Rattle.schedule.specs.Conditions.{place_at, Adds};

    // The places in use.
    pub(crate) fn places(&mut self) -> &mut [Place]
        ensures { result.now ≡ self.old }
    {
        &mut self.places[..self.size]
    }

    // A task more, in the place of its period or in one of its own.
    pub(crate) fn add(&mut self, task: Task)
        requires room { length self.old < 16 }
        requires fits { (p : ℕ) → p < length self.old → (place_at self.old p).budget + task.budget < 2 ^ 32 }
        ensures { Adds self.old task self.new }
    {
        let own = self.places[..self.size]
            .iter()
            .position(|place| place.period == task.period);
        match own {
            Some(p) => self.places[p].budget += task.budget,
            None => {
                self.places[self.size] = Place::from(task);
                self.size += 1;
            }
        }
    }
}
