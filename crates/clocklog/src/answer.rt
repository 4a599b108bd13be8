ghost use Rattle.std.specs.Prelude.{◌≡◌, ◌-◌};
ghost use Rattle.clocklog.specs.Format.{kind_in};

// "The clock's log of starts and finishes": the kind of a record.
#[derive(Clone, Copy, PartialEq, Eq)]
pub enum Kind {
    Start,
    Finish,
}

impl Kind {
    // The kind that the task's next record must have.
    pub(crate) fn next(self) -> Kind
        ensures { kind_in result ≡ 1 - kind_in self }
    {
        match self {
            Kind::Start => Kind::Finish,
            Kind::Finish => Kind::Start,
        }
    }
}

// A record of the log: its task, its kind, and the ticks since the counter before it.
#[derive(Clone, Copy, PartialEq, Eq)]
pub struct Entry {
    pub task: u8,
    pub kind: Kind,
    pub gap: u32,
}
