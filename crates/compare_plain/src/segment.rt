// A store as it is lent: its limits and rooms, and what the table says of a segment.
ghost use Rattle.std.specs.Prelude.{◌≡◌, ◌<◌, ◌≤◌, ◌↔◌, IsTrue, IfOk};
ghost use Rattle.compare_plain.specs.Segments.{Limited, Lendable, Damaged, entry_at, end_at, run_at, used_at};

use crate::cells::{KEYS, at, part, product, put_five, sum};
use crate::refusal::Refusal;

// e, B, n and s within their limits.
pub fn limits(e: u64, b: u64, n: u64, s: u64) -> bool
    ensures { IsTrue result ↔ Limited e b n s }
{
    e <= 1024 && 1 <= b && b <= 64 && 1 <= n && n <= 32768 && 1 <= s && s <= 8192
}

pub fn key_room(keys: &[u64]) -> u64 {
    (keys.len() as u64).min(32768)
}

// Where B is 0 there is no slot.
pub fn segment_room(b: u64, table: &[u64], buffers: &[u64]) -> u64 {
    let lent = (buffers.len() as u64).checked_div(b).unwrap_or(0);
    lent.min(table.len() as u64 / 5).min(8192)
}

// The five numbers of a segment.
#[derive(Clone, Copy)]
pub struct Entry {
    pub first: u64,
    pub base: u64,
    pub rise: u64,
    pub run: u64,
    pub held: u64,
}

pub fn entry_of(table: &[u64], i: u64) -> Entry
    ensures { result ≡ entry_at table.now i }
{
    let p = product(i, 5);
    Entry {
        first: at(table, p),
        base: at(table, sum(p, 1)),
        rise: at(table, sum(p, 2)),
        run: at(table, sum(p, 3)),
        held: at(table, sum(p, 4)),
    }
}

pub fn put_entry(table: &mut [u64], i: u64, x: Entry) {
    put_five(table, product(i, 5), x.first, x.base, x.rise, x.run, x.held);
}

// e, B, n and s, and the three slices.
#[derive(Clone, Copy)]
pub struct Lent<'a> {
    pub e: u64,
    pub b: u64,
    pub n: u64,
    pub s: u64,
    pub keys: &'a [u64],
    pub table: &'a [u64],
    pub buffers: &'a [u64],
}

impl<'a> Lent<'a> {
    // e, B, n and s within their limits, and n, 5s and sB not above the lengths.
    pub fn fits(self) -> bool
        ensures { IsTrue result ↔ Lendable self.entry.e self.entry.b self.entry.n self.entry.s self.entry.keys.now self.entry.table.now self.entry.buffers.now }
    {
        limits(self.e, self.b, self.n, self.s)
            && self.n <= self.keys.len() as u64
            && product(self.s, 5) <= self.table.len() as u64
            && product(self.s, self.b) <= self.buffers.len() as u64
    }

    pub fn entry(self, i: u64) -> Entry
        ensures { result ≡ entry_at self.entry.table.now i }
    {
        entry_of(self.table, i)
    }

    pub fn end(self, i: u64) -> u64
        ensures { result ≡ end_at self.entry.n self.entry.s self.entry.table.now i }
    {
        let next = sum(i, 1);
        if next < self.s {
            self.entry(next).base
        } else {
            self.n
        }
    }

    // The keys of segment i's run.
    pub fn run(self, i: u64) -> &'a [u64]
        ensures { result.now ≡ run_at self.entry.n self.entry.s self.entry.keys.now self.entry.table.now i }
    {
        part(self.keys, self.entry(i).base, self.end(i))
    }

    // The used slots of segment i.
    pub fn used(self, i: u64) -> &'a [u64]
        ensures { result.now ≡ used_at self.entry.b self.entry.table.now self.entry.buffers.now i }
    {
        let low = product(i, self.b);
        part(self.buffers, low, sum(low, self.entry(i).held))
    }

    pub fn damaged(self, i: u64) -> bool
        ensures { IsTrue result ↔ Damaged self.entry.b self.entry.n self.entry.s self.entry.table.now i }
    {
        let x = self.entry(i);
        let end = self.end(i);
        KEYS <= x.first
            || x.run == 0
            || KEYS <= x.run
            || 65535 < x.rise
            || end <= x.base
            || self.n < end
            || self.b <= x.held
    }

    // The segment that a key given chooses, whose entry is not damaged.
    pub fn chosen(self, k: u64) -> Result<u64, [u64; 8]>
        ensures { IfOk result (λ i. (i < self.entry.s)
            × (¬ (Damaged self.entry.b self.entry.n self.entry.s self.entry.table.now i))) }
    {
        if !self.fits() {
            return Err(Refusal::Limits.at(0));
        }
        if KEYS <= k {
            return Err(Refusal::NoKey.at(0));
        }
        let i = self.choose(k);
        if self.damaged(i) {
            return Err(Refusal::Wrong.at(i));
        }
        Ok(i)
    }

    // The greatest i whose first key is at most k; 0 if there is none.
    pub fn choose(self, k: u64) -> u64
        ensures { 1 ≤ self.entry.s → result < self.entry.s }
    {
        (0..self.s)
            .rev()
            .find(|i| self.entry(*i).first <= k)
            .unwrap_or(0)
    }

    // Whether position p of the run is in the window for k. Below the first key there is no guess.
    pub fn in_window(self, i: u64, k: u64, p: u64) -> bool {
        let x = self.entry(i);
        k >= x.first && p.abs_diff(guess(x, k)) <= self.e
    }
}

// The guess for a key that is not below the first key; 0 where the run is 0.
fn guess(x: Entry, k: u64) -> u64 {
    let up = product(k.saturating_sub(x.first), x.rise);
    up.checked_div(x.run).map_or(0, |q| sum(x.base, q))
}
