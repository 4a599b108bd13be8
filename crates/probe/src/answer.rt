// An answer as it goes to standard output: its size in bytes; the number of the refusal, 0 for none; one more than the bit or the
// task that comes with it, 0 for none; the call's values; the lent memory. Every number is a word of four bytes, the most significant
// first.
use answers::Refusal;
use chain::{Figure, Summary};
use lower::{Difference, Which};
use night::Replayed;
use recurrence::Bounds;
use schedule::{Size, Totals};
use sheet::{Chain, Sheet};
use telltale::Record;
use theory::Task;

// The bytes of an answer, as many as the buffer has places for, and how many they are. Memory is fixed here as in the library: no Vec.
#[derive(Drop)]
pub struct Answer<'a> {
    out: &'a mut [u8; 65536],
    size: usize,
}

// What goes out of a value.
pub trait Put: Copy {
    fn put(self, answer: &mut Answer<'_>);
}

impl<'a> Answer<'a> {
    // The size stands first.
    pub fn new(out: &'a mut [u8; 65536]) -> Answer<'a> {
        Answer { out, size: 4 }
    }
}

impl Answer<'_> {
    fn byte(&mut self, value: u8) {
        if self.size < self.out.len() {
            self.out[self.size] = value;
        }
        self.size = self.size.saturating_add(1);
    }

    pub fn bytes(&mut self, bytes: &[u8]) {
        for byte in bytes {
            self.byte(*byte);
        }
    }

    pub fn word(&mut self, value: u32) {
        self.bytes(&value.to_be_bytes());
    }

    pub fn words(&mut self, words: &[u32]) {
        for value in words {
            self.word(*value);
        }
    }

    // Nothing is refused.
    pub fn given<T: Put>(&mut self, value: T) {
        self.words(&[0, 0]);
        value.put(self);
    }

    // No value is the greatest number of 32 bits, so that one more than it is never cut.
    pub fn refused(&mut self, r: Refusal) {
        let value = r.value().map_or(0, |value| value.saturating_add(1));
        self.words(&[u32::from(r.number()), value]);
    }

    pub fn result<T: Put>(&mut self, made: Result<T, Refusal>) {
        match made {
            Ok(value) => self.given(value),
            Err(r) => self.refused(r),
        }
    }

    // A value, and what stands beside it: zeros where the call refuses.
    pub fn beside<A: Put, B: Put + Default>(&mut self, made: Result<(A, B), Refusal>) {
        match made {
            Ok(value) => self.given(value),
            Err(r) => {
                self.refused(r);
                B::default().put(self);
            }
        }
    }

    // What is too large for the buffer is not sent.
    pub fn send(self) -> bool {
        let Answer { out, size } = self;
        if size > out.len() {
            return false;
        }
        out[..4].copy_from_slice(&(size as u32).to_be_bytes());
        io::write_all(1, &out[..size])
    }
}

impl Put for () {
    fn put(self, _answer: &mut Answer<'_>) {}
}

impl Put for u32 {
    fn put(self, answer: &mut Answer<'_>) {
        answer.word(self);
    }
}

// In two words.
impl Put for u64 {
    fn put(self, answer: &mut Answer<'_>) {
        answer.bytes(&self.to_be_bytes());
    }
}

// Whether it is below zero, and how far from zero it is.
impl Put for i32 {
    fn put(self, answer: &mut Answer<'_>) {
        answer.word(u32::from(self < 0));
        arith::magnitude(self).put(answer);
    }
}

// Whether there is one, and what it is.
impl Put for Option<u32> {
    fn put(self, answer: &mut Answer<'_>) {
        match self {
            Some(value) => answer.words(&[1, value]),
            None => answer.words(&[0, 0]),
        }
    }
}

impl<A: Put, B: Put> Put for (A, B) {
    fn put(self, answer: &mut Answer<'_>) {
        self.0.put(answer);
        self.1.put(answer);
    }
}

impl<T: Put, const N: usize> Put for [T; N] {
    fn put(self, answer: &mut Answer<'_>) {
        for item in self {
            item.put(answer);
        }
    }
}

impl Put for Task {
    fn put(self, answer: &mut Answer<'_>) {
        answer.words(&[self.period, self.budget, u32::from(self.rank)]);
    }
}

// Of an entry only its byte.
impl Put for Chain {
    fn put(self, answer: &mut Answer<'_>) {
        answer.words(&[self.limit, u32::from(self.length)]);
        answer.bytes(&self.entries);
    }
}

// Edition and both counts, and all places.
impl Put for Sheet {
    fn put(self, answer: &mut Answer<'_>) {
        answer.words(&[self.edition, self.count, self.suite].map(u32::from));
        self.tasks.put(answer);
        self.chains.put(answer);
    }
}

impl Put for Size {
    fn put(self, answer: &mut Answer<'_>) {
        answer.words(&[self.hyperperiod, self.jobs]);
    }
}

impl Put for Totals {
    fn put(self, answer: &mut Answer<'_>) {
        answer.words(&[self.hyperperiod, self.jobs, self.idle]);
    }
}

impl Put for Bounds {
    fn put(self, answer: &mut Answer<'_>) {
        answer.words(&[self.sampling_bound, self.bound]);
    }
}

impl Put for Figure {
    fn put(self, answer: &mut Answer<'_>) {
        answer.words(&[self.ticks, self.release]);
    }
}

impl Put for Summary {
    fn put(self, answer: &mut Answer<'_>) {
        self.totals.put(answer);
        self.sampling.put(answer);
        answer.words(&[self.sampling_bound, self.worst, self.bound]);
        self.margin.put(answer);
    }
}

// Of the longest whether there is one, its ticks and its job, and of the break whether there is one, and which.
impl Put for Replayed {
    fn put(self, answer: &mut Answer<'_>) {
        answer.words(&[self.records, self.paths]);
        match self.longest {
            Some(longest) => answer.words(&[1, longest.ticks, longest.job]),
            None => answer.words(&[0, 0, 0]),
        }
        self.breaking.put(answer);
        self.figure.put(answer);
    }
}

// The numbers of both are the protocol's, and so do not go by the order in which crate `lower` lists them.
impl Put for Which {
    fn put(self, answer: &mut Answer<'_>) {
        answer.word(match self {
            Which::Old => 0,
            Which::New => 1,
        });
    }
}

impl Put for Difference {
    fn put(self, answer: &mut Answer<'_>) {
        answer.word(match self {
            Difference::OldOnly => 0,
            Difference::NewOnly => 1,
            Difference::Period => 2,
            Difference::Budget => 3,
            Difference::Rank => 4,
        });
    }
}

impl Put for Record {
    fn put(self, answer: &mut Answer<'_>) {
        answer.words(&[
            u32::from(self.underway),
            self.counter,
            self.longest,
            u32::from(self.count),
        ]);
    }
}
