// A store as it is lent: its limits and rooms, an entry read off the table, and damage.
#![tactic(auto)]

ghost use Rattle.std.specs.Prelude.{◌≡◌, Bool, ◌<◌};
ghost use Rattle.table.specs.Store.{store_of, store_in};
ghost use Rattle.table.specs.Limits.{sized_of, counted_of, limited_of, within_of, key_room, segment_room};
ghost use Rattle.table.specs.Entries.{Row, entry_of, end_of};
ghost use Rattle.table.specs.Damaged.{damaged_of};

use terms::{Entry, Key, Pos, Refusal, Sizes};

// A store as it is lent to be read: its four numbers and its three slices.
#[derive(Clone, Copy)]
pub struct Store<'a> {
    pub sizes: Sizes,
    pub keys: &'a [u64],
    pub table: &'a [u64],
    pub buffers: &'a [u64],
}

impl<'a> Store<'a> {
    // Refusal 1, or nothing: the numbers are within their limits, and the slices hold what they count.
    pub fn within(self) -> Result<(), Refusal>
        ensures { result ≡ within_of (store_in self.entry) }
    {
        if limited(self.sizes, self.keys, self.table, self.buffers) {
            Ok(())
        } else {
            Err(Refusal::Limits)
        }
    }
}

// Whether e, B and n are within their limits.
#[tactic(auto, using(crate::proofs::Limits::sized_cases))]
pub fn sized(e: usize, b: usize, n: usize) -> bool
    ensures { result ≡ sized_of e b n }
{
    e <= terms::E_MOST && 1 <= b && b <= terms::B_MOST && 1 <= n && n <= terms::N_MOST
}

// Whether e, B, n and s are.
#[tactic(auto, using(crate::proofs::Limits::counted_cases))]
pub fn counted(z: Sizes) -> bool
    ensures { result ≡ counted_of z.e z.b z.n z.s }
{
    1 <= z.s && z.s <= terms::S_MOST && sized(z.e, z.b, z.n)
}

// Whether they are, and the slices are long enough for n, 5*s and s*B. The limits come first, so no product wraps.
pub fn limited(z: Sizes, keys: &[u64], table: &[u64], buffers: &[u64]) -> bool
    ensures { result ≡ limited_of (store_of z keys.now table.now buffers.now) }
{
    counted(z) && z.n <= keys.len() && 5 * z.s <= table.len() && z.s * z.b <= buffers.len()
}

// How many keys there is room for.
pub fn key_room(keys: &[u64]) -> usize
    ensures { result ≡ key_room keys.now }
{
    terms::N_MOST.min(keys.len())
}

// How many segments there is room for.
pub fn segment_room(b: usize, table: &[u64], buffers: &[u64]) -> usize
    requires { 0 < b }
    ensures { result ≡ segment_room b table.now buffers.now }
{
    terms::S_MOST.min(table.len() / 5).min(buffers.len() / b)
}

// Where segment i ends: the next one's base, or n for the last.
pub fn end_at(z: Sizes, table: &[u64], i: usize) -> usize
    requires { Row table.now z.s i }
    ensures { result ≡ end_of z.n z.s table.now i }
{
    if i + 1 < z.s {
        terms::size(table[5 * (i + 1) + 1])
    } else {
        z.n
    }
}

// Entry i.
pub fn entry_at(z: Sizes, table: &[u64], i: usize) -> Entry
    requires { Row table.now z.s i }
    ensures { result ≡ entry_of z.n z.s table.now i }
{
    let at = 5 * i;
    Entry {
        first: Key(table[at]),
        base: Pos(terms::size(table[at + 1])),
        end: Pos(end_at(z, table, i)),
        rise: table[at + 2],
        run: table[at + 3],
        held: terms::size(table[at + 4]),
    }
}

// Whether an entry is damaged. Any test may come first.
#[tactic(auto, using(crate::proofs::Damages::damaged_cases))]
pub fn damaged(z: Sizes, x: Entry) -> bool
    ensures { result ≡ damaged_of z.b z.n x }
{
    z.n < x.end.0
        || terms::RISE_MOST < x.rise
        || z.b <= x.held
        || x.run == 0
        || x.end.0 <= x.base.0
        || terms::KEY_LIMIT <= x.first.0
        || terms::KEY_LIMIT <= x.run
}
