// The refusals, by their numbers in document 01, and the eight numbers of an answer.
ghost use Rattle.std.specs.Prelude.{◌≡◌, [], ◌∷◌};
ghost use Rattle.compare_plain.specs.Numbers.{number_of};

#[derive(Clone, Copy, Debug, PartialEq, Eq)]
pub enum Refusal {
    Limits = 1,
    NoKey = 2,
    NotAbove = 3,
    LowAboveHigh = 4,
    Held = 5,
    KeyRoom = 6,
    SegmentRoom = 7,
    OutRoom = 8,
    Wrong = 9,
    Malformed = 10,
}

impl Refusal {
    // The answer of a call that is refused.
    pub fn at(self, place: u64) -> [u64; 8]
        ensures { result ≡ number_of self ∷ place ∷ 0 ∷ 0 ∷ 0 ∷ 0 ∷ 0 ∷ 0 ∷ [] }
    {
        [self as u64, place, 0, 0, 0, 0, 0, 0]
    }
}

// The answer of a call that is accepted. Its kind is the number by which the C interface tells the cases of the call's own enum apart.
pub fn answer(kind: u64, x: u64, y: u64, z: u64, w: u64) -> [u64; 8] {
    [0, 0, kind, x, y, z, w, 0]
}
