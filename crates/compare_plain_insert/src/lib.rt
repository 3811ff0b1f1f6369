// Insert, from document 01 alone: what it answers is judged first, then made anew and written.
#![tactic(auto)]

use compare_plain::cells::{count_below, rising, sum};
use compare_plain::refusal::{Refusal, answer};
use compare_plain::segment::{Lent, key_room, segment_room};
use compare_plain_build::{ENTRIES, cut};
use compare_plain_moves::{Store, joined};
use compare_plain_reads::looking::finds;
use compare_plain_reads::merge::List;

// What becomes of a key in segment i: it goes to a slot, or the segment is merged and cut into t.
#[derive(Clone, Copy)]
enum Made {
    Seated { i: u64, slot: u64 },
    Cut { i: u64, t: u64 },
}

// The lowest entry after i with a base above n or held not below B.
fn later_fault(x: Lent, i: u64) -> Option<u64> {
    (sum(i, 1)..x.s).find(|j| x.n < x.entry(*j).base || x.b <= x.entry(*j).held)
}

// What a merge of segment i with k makes.
fn judged_merge(x: Lent, i: u64, k: u64) -> Result<Made, [u64; 8]> {
    let mut list = List::new();
    let mut entries = [0u64; ENTRIES];
    let m = joined(x, i, k, &mut list);
    if (list.len() as u64) < m || !rising(list.as_slice()) {
        return Err(Refusal::Wrong.at(i));
    }
    if let Some(j) = later_fault(x, i) {
        return Err(Refusal::Wrong.at(j));
    }
    if key_room(x.keys) < sum(x.n, x.b) {
        return Err(Refusal::KeyRoom.at(0));
    }
    let t = cut(x.e, list.as_slice(), x.entry(i).base, &mut entries);
    if segment_room(x.b, x.table, x.buffers) < sum(x.s, t.saturating_sub(1)) {
        return Err(Refusal::SegmentRoom.at(0));
    }
    Ok(Made::Cut { i, t })
}

// What insert makes.
fn judged(x: Lent, k: u64) -> Result<Made, [u64; 8]> {
    let i = x.chosen(k)?;
    let used = x.used(i);
    if !rising(used) {
        return Err(Refusal::Wrong.at(i));
    }
    if finds(x, k) {
        return Err(Refusal::Held.at(0));
    }
    if sum(used.len() as u64, 1) < x.b {
        let slot = count_below(used, k);
        return Ok(Made::Seated { i, slot });
    }
    judged_merge(x, i, k)
}

// What is lent comes one by one, as the C interface lends it.
pub fn insert(
    e: u64,
    b: u64,
    n: u64,
    s: u64,
    keys: &mut [u64],
    table: &mut [u64],
    buffers: &mut [u64],
    k: u64,
) -> [u64; 8] {
    let mut x = Store {
        e,
        b,
        n,
        s,
        keys,
        table,
        buffers,
    };
    match judged(x.lent(), k) {
        Err(refused) => refused,
        Ok(Made::Seated { i, slot }) => {
            x.buffered(i, k);
            answer(1, i, slot, 0, 0)
        }
        Ok(Made::Cut { i, t }) => {
            x.merged(i, k);
            answer(2, i, t, sum(n, b), sum(s, t.saturating_sub(1)))
        }
    }
}

#[cfg(test)]
mod tests {
    use super::*;
    use compare_plain::cells::{product, put};
    use compare_plain::segment::{Entry, put_entry};

    // Slices longer than the lists that a merge is made in. Of the cells that a store does not use, each is 7.
    #[derive(Clone, Copy, PartialEq)]
    struct Slices {
        keys: [u64; 700],
        table: [u64; 420],
        slots: [u64; 600],
    }

    fn held(i: u64) -> u64 {
        if i == 2 { 6 } else { 1 + i % 5 }
    }

    // The used slots of segment i, as those of segment `to`.
    fn put_used(slots: &mut [u64], i: u64, to: u64) {
        for j in 0..held(i) {
            let key = sum(product(i, 800), product(sum(j, 1), 10));
            put(slots, sum(product(to, 7), j), key);
        }
    }

    // Segment i's entry as entry `to`, which starts at `base`.
    fn put_whole(table: &mut [u64], i: u64, to: u64, base: u64) {
        let entry = Entry {
            first: product(i, 800),
            base,
            rise: 7,
            run: 700,
            held: held(i),
        };
        put_entry(table, to, entry);
    }

    // 80 segments of eight keys, each 100 above the one before it. B is 7, and the slots of segment 2 are full but for one.
    fn before() -> Slices {
        let mut x = Slices {
            keys: [7; 700],
            table: [7; 420],
            slots: [7; 600],
        };
        for p in 0..640 {
            put(&mut x.keys, p, 100 * p);
        }
        for i in 0..80 {
            put_whole(&mut x.table, i, i, 8 * i);
            put_used(&mut x.slots, i, i);
        }
        x
    }

    // The same, with segment 2 merged with 1670 and cut in two, where the steps change from 10 to 100.
    fn after() -> Slices {
        let mut x = before();
        for p in 0..8 {
            put(&mut x.keys, 16 + p, 1600 + 10 * p);
        }
        for p in 17..640 {
            put(&mut x.keys, p + 7, 100 * p);
        }
        let low = Entry {
            first: 1600,
            base: 16,
            rise: 7,
            run: 70,
            held: 0,
        };
        let high = Entry {
            first: 1700,
            base: 24,
            rise: 6,
            run: 600,
            held: 0,
        };
        put_entry(&mut x.table, 2, low);
        put_entry(&mut x.table, 3, high);
        for i in 3..80 {
            put_whole(&mut x.table, i, i + 1, 8 * i + 7);
            put_used(&mut x.slots, i, i + 1);
        }
        x
    }

    #[test]
    fn long_slices_are_merged(rt: HostRuntime) {
        let mut x = before();
        let a = insert(0, 7, 640, 80, &mut x.keys, &mut x.table, &mut x.slots, 1670);
        assert_eq!(rt; a, answer(2, 2, 2, 647, 81));
        assert!(rt; x == after());
        let mut y = before();
        let mut store = Store {
            e: 0,
            b: 7,
            n: 640,
            s: 80,
            keys: &mut y.keys,
            table: &mut y.table,
            buffers: &mut y.slots,
        };
        store.merged(2, 1670);
        assert!(rt; y == after());
    }
}
