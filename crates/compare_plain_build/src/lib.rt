// Build, from document 01 alone: the cut by its rule, every earlier key tested for each new one.
#![tactic(auto)]

use compare_plain::cells::{KEYS, at, copy, part, product, sum};
use compare_plain::refusal::{Refusal, answer};
use compare_plain::segment::{Entry, limits, put_entry, segment_room};

// The numbers of the entries of one cut. A cut of more is counted, and the entries past these are not written: the list is a table of its own, which
// a call lays over the lent one, and an ArrayVec would not count what it has no room for.
pub const ENTRIES: usize = 1700;

// Whether the line from the origin i to the key j misses key m by at most e.
fn near(e: u64, list: &[u64], i: u64, j: u64, m: u64) -> bool {
    let run = at(list, j).saturating_sub(at(list, i));
    let u = product(at(list, m).saturating_sub(at(list, i)), j.saturating_sub(i));
    let v = product(run, m.saturating_sub(i));
    u.abs_diff(v) <= product(run, e)
}

// Whether key j joins the segment that starts at i.
fn joins(e: u64, list: &[u64], i: u64, j: u64) -> bool {
    (i..j).all(|m| near(e, list, i, j, m))
}

// The entry of the keys i to j of a list that starts at position `from`.
fn closed(list: &[u64], i: u64, j: u64, from: u64) -> Entry {
    let run = if i < j {
        at(list, j).saturating_sub(at(list, i))
    } else {
        1
    };
    Entry {
        first: at(list, i),
        base: sum(from, i),
        rise: j.saturating_sub(i),
        run,
        held: 0,
    }
}

// The keys of a list cut: the entries are written, each anew for every key that joins, and their number returned. The rule of the cut speaks of
// places in the list, so the loop does too.
pub fn cut(e: u64, list: &[u64], from: u64, entries: &mut [u64]) -> u64 {
    let mut origin = 0;
    let mut t = 0;
    put_entry(entries, 0, closed(list, 0, 0, from));
    for j in 1..list.len() as u64 {
        if !joins(e, list, origin, j) {
            origin = j;
            t = sum(t, 1);
        }
        put_entry(entries, t, closed(list, origin, j, from));
    }
    sum(t, 1)
}

// The fault at position p, if there is one.
fn fault(keys: &[u64], p: u64) -> Option<Refusal> {
    if KEYS <= at(keys, p) {
        Some(Refusal::NoKey)
    } else if 0 < p && at(keys, p) <= at(keys, p - 1) {
        Some(Refusal::NotAbove)
    } else {
        None
    }
}

// The refusal of the lowest position with a fault.
fn faulty(keys: &[u64]) -> Option<[u64; 8]> {
    (0..keys.len() as u64).find_map(|p| fault(keys, p).map(|r| r.at(p)))
}

// What is lent comes one by one here, as in each call that writes: that is how the C interface lends it.
pub fn build(e: u64, b: u64, n: u64, keys: &[u64], table: &mut [u64], buffers: &[u64]) -> [u64; 8] {
    if !limits(e, b, n, 1) || (keys.len() as u64) < n {
        return Refusal::Limits.at(0);
    }
    let given = part(keys, 0, n);
    if let Some(refused) = faulty(given) {
        return refused;
    }
    let mut entries = [0u64; ENTRIES];
    let t = cut(e, given, 0, &mut entries);
    if segment_room(b, table, buffers) < t {
        return Refusal::SegmentRoom.at(0);
    }
    copy(&entries, 0, product(t, 5), table, 0);
    answer(0, t, 0, 0, 0)
}
