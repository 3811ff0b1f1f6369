// The words of document 01: a key, a position, an entry, the limits, and the refusals.
#![tactic(auto)]

ghost use Rattle.std.specs.Prelude.{◌≡◌, Bool};
ghost use Rattle.terms.specs.Limits.{in_use_of};
ghost use Rattle.terms.specs.Keys.{is_key, key_given};
ghost use Rattle.terms.specs.Refusals.{number_of, place_of};

// A key is below this: 2^44.
pub const KEY_LIMIT: u64 = 17592186044416;

// The greatest error bound e, buffer size B, number of keys n, number of segments s, and rise of a line.
pub const E_MOST: usize = 1024;

pub const B_MOST: usize = 64;

pub const N_MOST: usize = 32768;

pub const S_MOST: usize = 8192;

pub const RISE_MOST: u64 = 65535;

// A key and a position are kept apart: one is a time, the other a place in a list, and their sum does not type.
#[derive(Clone, Copy)]
pub struct Key(pub u64);

// A position in the key slice.
#[derive(Clone, Copy)]
pub struct Pos(pub usize);

// A segment's five numbers and its end: the next segment's base, or n for the last.
#[derive(Clone, Copy)]
pub struct Entry {
    pub first: Key,
    pub base: Pos,
    pub end: Pos,
    pub rise: u64,
    pub run: u64,
    pub held: usize,
}

// The four numbers of a store: the error bound, the buffer size, how many keys stand in runs, and how many segments.
#[derive(Clone, Copy)]
pub struct Sizes {
    pub e: usize,
    pub b: usize,
    pub n: usize,
    pub s: usize,
}

// A cell as a count or a place.
pub fn size(x: u64) -> usize
    ensures { result ≡ x }
{
    x as usize
}

// The bound that the cut, the window and the check use.
pub fn in_use(z: Sizes) -> usize
    ensures { result ≡ in_use_of z }
{
    z.e
}

// A number that is given as a key, or refusal 2.
pub fn key_given(x: u64) -> Result<Key, Refusal>
    ensures { result ≡ key_given x }
{
    if is_key(x) {
        Ok(Key(x))
    } else {
        Err(Refusal::LargeKey(Pos(0)))
    }
}

// Whether a number may be a key.
pub fn is_key(x: u64) -> bool
    ensures { result ≡ is_key x }
{
    x < KEY_LIMIT
}

// A case for each number of 01's table; those with a place hold it.
#[derive(Clone, Copy)]
pub enum Refusal {
    // 1: e, B, n or s outside its limits, or a slice that is too short
    Limits,
    // 2: a key given is not below 2^44; build says where
    LargeKey(Pos),
    // 3: a key that is not above the one before
    NotRising(Pos),
    // 4: low above high
    Backwards,
    // 5: the key is there already
    Present,
    // 6: no room for the keys
    KeyRoom,
    // 7: no room for the segments
    SegmentRoom,
    // 8: the out slice is too short
    OutRoom,
    // 9: the store is wrong, at this segment
    StoreWrong(usize),
    // 10: the image is malformed, at the record that starts at this byte
    Malformed(usize),
    // 11: a line of the program's input is malformed
    BadLine(usize),
}

// 01's number of a refusal.
pub fn number(r: Refusal) -> u64
    ensures { result ≡ number_of r }
{
    match r {
        Refusal::Limits => 1,
        Refusal::LargeKey(_) => 2,
        Refusal::NotRising(_) => 3,
        Refusal::Backwards => 4,
        Refusal::Present => 5,
        Refusal::KeyRoom => 6,
        Refusal::SegmentRoom => 7,
        Refusal::OutRoom => 8,
        Refusal::StoreWrong(_) => 9,
        Refusal::Malformed(_) => 10,
        Refusal::BadLine(_) => 11,
    }
}

// The place of a refusal, 0 where 01 states none.
pub fn place(r: Refusal) -> usize
    ensures { result ≡ place_of r }
{
    match r {
        Refusal::LargeKey(p) | Refusal::NotRising(p) => p.0,
        Refusal::StoreWrong(i) | Refusal::Malformed(i) | Refusal::BadLine(i) => i,
        Refusal::Limits
        | Refusal::Backwards
        | Refusal::Present
        | Refusal::KeyRoom
        | Refusal::SegmentRoom
        | Refusal::OutRoom => 0,
    }
}
