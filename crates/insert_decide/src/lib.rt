// Insert, what is decided before anything is written: the segment, what becomes of k in it, the later entries, the rooms.
#![tactic(auto)]

ghost use Rattle.std.specs.Prelude.{◌≡◌, Bool};
ghost use Rattle.table.specs.Store.{store_in};
ghost use Rattle.table.specs.Entries.{Row};
ghost use Rattle.insert_decide.specs.Weighed.{Weighable, weighed_of};
ghost use Rattle.insert_decide.specs.Decided.{passes_of, later_of, merge_for, decided_of, Cut};

use table::Store;
use terms::{Entry, Key, Refusal, Sizes};

// ---- what becomes of a key in its segment, from the entry and the lent parts alone

// The key goes to a slot; or a merge makes so many segments.
#[derive(Clone, Copy, Debug, PartialEq, Eq)]
pub enum Weighed {
    Slot(usize),
    Pieces(usize),
}

// What becomes of k in segment i. Refusals in this order: 9, the used slots do not rise; 5, the key is there; 9, the merged list does not
// rise.
pub fn weigh(
    i: usize,
    e: usize,
    b: usize,
    x: Entry,
    run: &[u64],
    used: &[u64],
    k: Key,
) -> Result<Weighed, Refusal>
    requires { Weighable e b x run.now used.now k }
    ensures { result ≡ weighed_of i e b x run.now used.now k }
{
    let p = insert_seat::seat_of(i, used, k.0)?;
    let w = line::reach(x, k, e);
    if scan::find(run, w.from, w.to, k.0).is_some() {
        return Err(Refusal::Present);
    }
    if x.held + 1 < b {
        return Ok(Weighed::Slot(p));
    }
    let t = insert_pieces::pieces(e, run, used, k.0).ok_or(Refusal::StoreWrong(i))?;
    Ok(Weighed::Pieces(t))
}

// ---- what is to be done

// What is to be done: k goes to a slot of segment i, or that segment is merged and cut into so many; in both x is its entry, as it was
// read.
#[derive(Clone, Copy)]
pub enum Decided {
    Put(usize, Entry, usize),
    Merge(usize, Entry, usize),
}

// Whether entry j lets a merge before it pass.
#[tactic(auto, using(crate::proofs::Laws::passes_cases))]
fn passes(z: Sizes, table: &[u64], j: usize) -> bool
    requires { Row table.now z.s j }
    ensures { result ≡ passes_of z.b z.n table.now j }
{
    let at = 5 * j;
    table[at + 1] <= z.n as u64 && table[at + 4] < z.b as u64
}

// The lowest entry after i that does not.
#[tactic(auto, using(crate::proofs::Laws::later_cases))]
fn lowest_later(z: Sizes, table: &[u64], i: usize) -> Option<usize>
    requires { Row table.now z.s i }
    ensures { result ≡ later_of z.b z.n z.s table.now i }
{
    for j in i + 1..z.s {
        if !passes(z, table, j) {
            return Some(j);
        }
    }
    None
}

// A merge of segment i, whose entry is x, into t segments is due: it waits on the later entries, and on the rooms for keys and segments.
#[tactic(auto, using(crate::proofs::Laws::due_cases))]
fn merge_due(store: Store, i: usize, x: Entry, t: usize) -> Result<Decided, Refusal>
    requires { Cut (store_in store) i t }
    ensures { result ≡ merge_for (store_in store.entry) i x t }
{
    let z = store.sizes;
    if let Some(j) = lowest_later(z, store.table, i) {
        return Err(Refusal::StoreWrong(j));
    }
    if table::key_room(store.keys) < z.n + z.b {
        return Err(Refusal::KeyRoom);
    }
    if table::segment_room(z.b, store.table, store.buffers) < z.s - 1 + t {
        return Err(Refusal::SegmentRoom);
    }
    Ok(Decided::Merge(i, x, t))
}

// What is to be done with k. It reads only. Refusals in this order: 1, 2, 9 (entry, buffer), 5, 9 (merge), 6, 7.
pub fn decide(store: Store, k: u64) -> Result<Decided, Refusal>
    ensures { result ≡ decided_of (store_in store.entry) k }
{
    store.within()?;
    let key = terms::key_given(k)?;
    let z = store.sizes;
    let (i, x) = choose::pick_segment(z, store.table, key)?;
    let run = segment::run_of(store.keys, x);
    let used = segment::used_of(z, store.buffers, i, x);
    match weigh(i, terms::in_use(z), z.b, x, run, used, key)? {
        Weighed::Slot(p) => Ok(Decided::Put(i, x, p)),
        Weighed::Pieces(t) => merge_due(store, i, x, t),
    }
}
