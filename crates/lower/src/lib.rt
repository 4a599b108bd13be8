// Whether two timing sheets differ only below chain one, so that what was worked out for it on the one holds on the other (document 02, P10);
// or what stands in the way. The condition is specs/Below.antt, what the call answers specs/Calls.antt, and what that says of the figures of
// both sheets specs/Results.antt.
#![tactic(auto)]

mod answer;

ghost use Rattle.std.specs.Result.{IfOk, IfErr};
ghost use Rattle.std.specs.Prelude.{◌≡◌, ◌<◌, ◌↔◌, All, IsTrue, length};
ghost use Rattle.theory.specs.Model.Schedule.{rank};
ghost use Rattle.answers.specs.Answers.{given, fine, after, also, told};
ghost use Rattle.sheet.specs.Tasks.{chain_at, chain_of};
ghost use Rattle.lower.specs.Calls.{acceptance, same_entries, counts, difference_at, way_at, tasks_compared, chains_compared, told_comparison};
ghost use Rattle.lower.specs.Conditions.{IsRefused};
ghost use Rattle.lower.specs.Promises.{ComparePromise};

pub use answer::{Difference, Obstacle, Which};
use answers::Refusal;
use sheet::sound::Judged;
use sheet::{Chain, Sheet};
use theory::Task;

// A sheet that the full calculation takes, or its refusal. The late task that it names is the same without a table.
fn accepted(s: Sheet) -> Result<Judged, Refusal>
    ensures { after (told result) (λ x. given x.sheet) ≡ also (acceptance s) (given s) }
{
    schedule::sizes(s)?;
    recurrence::bound(s, 1)?;
    Ok(Judged { sheet: s })
}

// Chain one, which each sheet that is judged fine has. (The length of an array in an array is not read off the type, so it is said.)
fn chain_one(s: &Judged) -> Chain
    ensures one { result ≡ chain_at s.now.sheet 1 }
    ensures whole { length result.entries ≡ 16 }
{
    s.sheet.chains[0]
}

// Whether each task of the chain outranks task i.
fn below_chain(tasks: &[Task; 16], i: u8, chain: &[u8]) -> bool
    requires { (i < 16) × All (λ entry. entry < 16) chain.now }
    ensures { IsTrue result ↔ All (λ entry. rank tasks.now i < rank tasks.now entry) chain.now }
{
    let rank = tasks[i as usize].rank;
    chain.iter().all(|&entry| rank < tasks[entry as usize].rank)
}

// Whether the sheet has a task i that is not "ranked below the whole chain" one.
fn counts(s: &Judged, i: u8) -> bool
    ensures { result ≡ counts s.now.sheet i }
{
    i < s.sheet.count && !below_chain(&s.sheet.tasks, i, chain_one(s).tasks())
}

// One of the two sheets, accepted, or which it is and its refusal.
fn taken(which: Which, s: Sheet) -> Result<Judged, Obstacle>
    ensures ok { IfOk result (λ x. (acceptance s ≡ fine) × (x.sheet ≡ s)) }
    ensures err { IfErr result (λ o. IsRefused s which o) }
{
    accepted(s).map_err(|refusal| Obstacle::Refused(which, refusal))
}

// The sheet that was and the sheet that is to be, both accepted.
#[derive(Clone, Copy)]
struct Pair {
    old: Judged,
    new: Judged,
}

impl Pair {
    // "the same chain one": length and entries
    fn same_chain(&self) -> bool
        ensures { result ≡ same_entries (chain_of self.now.old.sheet 1) (chain_of self.now.new.sheet 1) }
    {
        chain_one(&self.old).tasks() == chain_one(&self.new).tasks()
    }

    // The first in which index i does not hold "the same period, budget and rank on both".
    fn difference(&self, i: u8) -> Option<Difference>
        ensures { result ≡ difference_at self.now.old.sheet self.now.new.sheet i }
    {
        if self.old.sheet.count <= i {
            return Some(Difference::NewOnly);
        }
        if self.new.sheet.count <= i {
            return Some(Difference::OldOnly);
        }
        let was = self.old.sheet.tasks[i as usize];
        let is = self.new.sheet.tasks[i as usize];
        if was.period != is.period {
            Some(Difference::Period)
        } else if was.budget != is.budget {
            Some(Difference::Budget)
        } else if was.rank != is.rank {
            Some(Difference::Rank)
        } else {
            None
        }
    }

    // "every index whose task on either sheet is not below it"
    fn way_at(&self, i: u8) -> Option<Difference>
        ensures { result ≡ way_at self.now.old.sheet self.now.new.sheet i }
    {
        if counts(&self.old, i) || counts(&self.new, i) {
            self.difference(i)
        } else {
            None
        }
    }

    // The first index that stands in the way.
    fn compare_tasks(&self) -> Result<(), Obstacle>
        ensures { told_comparison result ≡ tasks_compared self.now.old.sheet self.now.new.sheet }
    {
        for i in 0..16 {
            if let Some(found) = self.way_at(i) {
                return Err(Obstacle::Task(i, found));
            }
        }
        Ok(())
    }

    // Of edition 2, with the same chain one, and the same in each index that counts.
    fn compare(&self) -> Result<(), Obstacle>
        ensures { told_comparison result ≡ chains_compared self.now.old.sheet self.now.new.sheet }
    {
        if self.old.sheet.edition != 2 {
            return Err(Obstacle::Edition(Which::Old));
        }
        if self.new.sheet.edition != 2 {
            return Err(Obstacle::Edition(Which::New));
        }
        if !self.same_chain() {
            return Err(Obstacle::Chain);
        }
        self.compare_tasks()
    }
}

// Whether two accepted sheets of edition 2 differ only below chain one, or the first that stands in the way.
pub fn compare(old: Sheet, new: Sheet) -> Result<(), Obstacle>
    ensures { ComparePromise old new result }
{
    let old = taken(Which::Old, old)?;
    let new = taken(Which::New, new)?;
    Pair { old, new }.compare()
}
