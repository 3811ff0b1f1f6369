// What is asked of a store.
ghost use Rattle.std.specs.Prelude.{◌≡◌, ℕ};
ghost use Rattle.compare_asked.specs.declared.call.Change.TheVariants.{ReadImage};
ghost use Rattle.compare_asked.specs.declared.call.Query.TheVariants.{Range, WriteImage};

// A call that writes to the store; `length` is how much of an image is to be read.
#[derive(Clone, Copy, Debug, PartialEq, Eq)]
pub enum Change {
    Build,
    Insert(u64),
    ReadImage { length: u64 },
}

// A call that changes no cell of the store; `room` is how much is lent to be written.
#[derive(Clone, Copy, Debug, PartialEq, Eq)]
pub enum Query {
    Check,
    Lookup(u64),
    Range { low: u64, high: u64, room: u64 },
    WriteImage { room: u64 },
}

// Apart, since no more is lent writable than is written.
#[derive(Clone, Copy, Debug, PartialEq, Eq)]
pub enum Call {
    Change(Change),
    Query(Query),
}

// What the tally counts apart, in its order.
#[derive(Clone, Copy, Debug, PartialEq, Eq)]
pub enum Kind {
    Build,
    Check,
    Lookup,
    Range,
    Insert,
    ImageWriting,
    ImageReading,
}

impl Change {
    // How much of an image is lent.
    pub fn length(self) -> u64
        ensures { (n : ℕ) → self ≡ ReadImage n → result ≡ n }
    {
        match self {
            Change::Build | Change::Insert(_) => 0,
            Change::ReadImage { length } => length,
        }
    }
}

impl Query {
    // How much is lent beside the store.
    pub fn room(self) -> u64
        ensures range { (low high n : ℕ) → self ≡ Range low high n → result ≡ n }
        ensures image { (n : ℕ) → self ≡ WriteImage n → result ≡ n }
    {
        match self {
            Query::Check | Query::Lookup(_) => 0,
            Query::Range { room, .. } | Query::WriteImage { room } => room,
        }
    }
}

impl Kind {
    pub const ALL: [Kind; 7] = [
        Kind::Build,
        Kind::Check,
        Kind::Lookup,
        Kind::Range,
        Kind::Insert,
        Kind::ImageWriting,
        Kind::ImageReading,
    ];
}

impl From<Call> for Kind {
    fn from(call: Call) -> Kind {
        match call {
            Call::Change(Change::Build) => Kind::Build,
            Call::Query(Query::Check) => Kind::Check,
            Call::Query(Query::Lookup(_)) => Kind::Lookup,
            Call::Query(Query::Range { .. }) => Kind::Range,
            Call::Change(Change::Insert(_)) => Kind::Insert,
            Call::Query(Query::WriteImage { .. }) => Kind::ImageWriting,
            Call::Change(Change::ReadImage { .. }) => Kind::ImageReading,
        }
    }
}
