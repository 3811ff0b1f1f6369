// What an insert makes and writes, from document 01 alone: everything is made anew in a list of its own, then copied back. The lists are sized for the
// comparison's stores; what is longer is made in pieces as long as the list, the last first, since nothing moves down.
#![tactic(auto)]

ghost use Rattle.std.specs.Prelude.{◌≡◌};

use compare_plain::cells::{copy, part, product, sum};
use compare_plain::segment::{Entry, Lent, put_entry};
use compare_plain_build::{ENTRIES, cut};
use compare_plain_reads::merge::{List, merge};

// The run, the used slots, which rise, and k as one list, as far as that has room. How many keys they are.
pub fn joined(x: Lent, i: u64, k: u64, list: &mut List) -> u64 {
    let (run, used) = (x.run(i), x.used(i));
    let mut slots = List::new();
    merge(used, &[k], &mut slots);
    merge(run, slots.as_slice(), list);
    sum(run.len() as u64, sum(used.len() as u64, 1))
}

// m cells of one slice from its place `start` on, which go to place `to` on of another: those of them that lie in a piece of it, whose first cell is at
// its place `low`, are laid there.
fn lay(from: &[u64], start: u64, m: u64, piece: &mut [u64], low: u64, to: u64) {
    let before = low.saturating_sub(to);
    let rest = m.saturating_sub(before);
    copy(
        from,
        sum(start, before),
        rest,
        piece,
        to.saturating_sub(low),
    );
}

// Cells laid over a slice's from its place `to` on, as far as that goes.
fn over(cells: &[u64], dst: &mut [u64], to: u64) {
    if let Some(rest) = dst.get_mut(to as usize..) {
        let m = rest.len().min(cells.len());
        rest[..m].copy_from_slice(&cells[..m]);
    }
}

// How many cells the lists hold that keys, slots and table are made in; the table's are whole entries.
const KEYS: usize = 256;

const SLOTS: usize = 512;

const ROWS: usize = 64;

// A store that is written to: e, B, n and s, and the three slices.
#[derive(Drop)]
pub struct Store<'a> {
    pub e: u64,
    pub b: u64,
    pub n: u64,
    pub s: u64,
    pub keys: &'a mut [u64],
    pub table: &'a mut [u64],
    pub buffers: &'a mut [u64],
}

impl<'a> Store<'a> {
    // The store to be read.
    pub fn lent(&self) -> Lent<'_>
        ensures sizes { (result.e ≡ self.now.e) × (result.b ≡ self.now.b) × (result.n ≡ self.now.n) × (result.s ≡ self.now.s) }
        ensures keys { result.keys.now ≡ self.now.keys.now }
        ensures table { result.table.now ≡ self.now.table.now }
        ensures buffers { result.buffers.now ≡ self.now.buffers.now }
    {
        Lent {
            e: self.e,
            b: self.b,
            n: self.n,
            s: self.s,
            keys: self.keys,
            table: self.table,
            buffers: self.buffers,
        }
    }

    // k in its rising place in the used slots of segment i; held grows by one. Nothing, where the list has no room for them.
    pub fn buffered(&mut self, i: u64, k: u64) {
        let x = self.lent();
        let entry = x.entry(i);
        let used = x.used(i);
        let mut slots = List::new();
        merge(used, &[k], &mut slots);
        if used.len() < slots.len() {
            let held = slots.len() as u64;
            copy(slots.as_slice(), 0, held, self.buffers, product(i, self.b));
            put_entry(self.table, i, Entry { held, ..entry });
        }
    }

    // The merge's keys: the list at the run's place, and what follows the run moved by B.
    fn new_keys(&mut self, from: u64, to: u64, list: &[u64]) {
        let mut work = [0u64; KEYS];
        let all = self.keys.len() as u64;
        let rest = self.n.saturating_sub(to);
        let past = sum(to, self.b);
        for piece in (0..all.div_ceil(KEYS as u64)).rev() {
            let low = product(piece, KEYS as u64);
            over(part(self.keys, low, all), &mut work, 0);
            lay(self.keys, to, rest, &mut work, low, past);
            lay(list, 0, list.len() as u64, &mut work, low, from);
            over(&work, self.keys, low);
        }
    }

    // The merge's slots: the used ones of segments after i moved by d segments.
    fn new_slots(&mut self, i: u64, d: u64) {
        let mut work = [0u64; SLOTS];
        let all = self.buffers.len() as u64;
        for piece in (0..all.div_ceil(SLOTS as u64)).rev() {
            let low = product(piece, SLOTS as u64);
            over(part(self.buffers, low, all), &mut work, 0);
            for j in sum(i, 1)..self.s {
                let held = self.lent().entry(j).held;
                let from = product(j, self.b);
                let to = product(sum(j, d), self.b);
                lay(self.buffers, from, held, &mut work, low, to);
            }
            over(&work, self.buffers, low);
        }
    }

    // The merge's table: t new entries at i, and those after i moved, with B more as their bases.
    fn new_table(&mut self, i: u64, entries: &[u64], t: u64) {
        let mut work = [0u64; 5 * ROWS];
        let all = self.table.len() as u64;
        for piece in (0..all.div_ceil(5 * ROWS as u64)).rev() {
            let row = product(piece, ROWS as u64);
            let low = product(row, 5);
            over(part(self.table, low, all), &mut work, 0);
            for j in sum(i, 1)..self.s {
                let entry = self.lent().entry(j);
                let base = sum(entry.base, self.b);
                let to = sum(j, t.saturating_sub(1));
                if let Some(place) = to.checked_sub(row) {
                    put_entry(&mut work, place, Entry { base, ..entry });
                }
            }
            lay(entries, 0, product(t, 5), &mut work, low, product(i, 5));
            over(&work, self.table, low);
        }
    }

    // Segment i merged with k, and cut again. Nothing, where the list has no room for its keys.
    pub fn merged(&mut self, i: u64, k: u64) {
        let x = self.lent();
        let from = x.entry(i).base;
        let to = x.end(i);
        let mut list = List::new();
        let mut entries = [0u64; ENTRIES];
        let m = joined(x, i, k, &mut list);
        if m <= list.len() as u64 {
            let t = cut(self.e, list.as_slice(), from, &mut entries);
            self.new_keys(from, to, list.as_slice());
            self.new_slots(i, t.saturating_sub(1));
            self.new_table(i, &entries, t);
        }
    }
}
