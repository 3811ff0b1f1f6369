// A stretch of segments: whether each is right and comes after the one before it, how many keys from low to high they have, and those keys
// written to a slice.
#![tactic(auto)]

ghost use Rattle.std.specs.Prelude.{◌≡◌, Bool, [], ◌∷◌, ◌+◌, leb, length};
ghost use Rattle.lists.specs.Tests.{both};
ghost use Rattle.lists.specs.Merge.{merge};
ghost use Rattle.lists.specs.Between.{between};
ghost use Rattle.lists.specs.Over.{over, Space};
ghost use Rattle.table.specs.Store.{store_in};
ghost use Rattle.table.specs.Reads.{merged_in};
ghost use Rattle.choose.specs.Stretch.{keys_in};
ghost use Rattle.range_stretch.specs.Stretch.{follows_of, walked_of, seen_of, judged_of};
ghost use Rattle.range_stretch.specs.Asks.{Countable, Few, Seeable, Stretch, Placeable, Fillable};

use order::Cursor;
use table::Store;
use terms::{Key, Refusal};

// Whether a key is one of those from low to high.
fn within(low: Key, high: Key, k: u64) -> bool
    ensures { result ≡ both (leb low.0 k) (leb k high.0) }
{
    (low.0..=high.0).contains(&k)
}

// One more, where the key is one of them.
fn tally(low: Key, high: Key, k: u64, seen: usize) -> usize
    requires { Countable seen }
    ensures { result ≡ seen + length (between low.0 high.0 (k ∷ [])) }
{
    if within(low, high, k) { seen + 1 } else { seen }
}

// Whether a key is above the one before it, and a key.
#[tactic(auto, using(crate::proofs::Laws::follows_cases))]
fn follows(before: Option<u64>, k: u64) -> bool
    ensures { result ≡ follows_of before k }
{
    order::above(before, k) && terms::is_key(k)
}

// One pass over the merged order of a run and used slots, which comes after the key `before`.
#[tactic(auto, using(crate::proofs::Laws::walk_cases))]
fn walk(
    low: Key,
    high: Key,
    before: Option<u64>,
    seen: usize,
    run: &[u64],
    used: &[u64],
) -> Option<(Option<u64>, usize)>
    requires { Few seen run.now used.now }
    ensures { result ≡ walked_of low.0 high.0 before seen (merge run.now used.now) }
{
    let mut m = Cursor::pair();
    let mut last = before;
    let mut count = seen;
    while let Some((k, past)) = m.next(run, used, 0) {
        if !follows(last, k) {
            return None;
        }
        count = tally(low, high, k, count);
        last = Some(k);
        m = past;
    }
    Some((last, count))
}

// Segment i, after the key `before`.
#[tactic(auto, using(crate::proofs::Laws::see_cases))]
fn see(
    store: Store,
    low: Key,
    high: Key,
    i: usize,
    before: Option<u64>,
    seen: usize,
) -> Option<(Option<u64>, usize)>
    requires { Seeable (store_in store) i seen }
    ensures { result ≡ seen_of (store_in store.entry) low.0 high.0 i before seen }
{
    let z = store.sizes;
    let x = table::entry_at(z, store.table, i);
    if table::damaged(z, x) {
        return None;
    }
    let run = segment::run_of(store.keys, x);
    let used = segment::used_of(z, store.buffers, i, x);
    walk(low, high, before, seen, run, used)
}

// The segments from a up to and without `to`, each judged whole and after the one before it.
#[tactic(auto, using(crate::proofs::Laws::judge_cases))]
pub fn judge_stretch(
    store: Store,
    low: Key,
    high: Key,
    a: usize,
    to: usize,
) -> Result<usize, Refusal>
    requires { Stretch (store_in store) a to }
    ensures { result ≡ judged_of (store_in store.entry) low.0 high.0 a to }
{
    let mut before = None;
    let mut seen = 0;
    for i in a..to {
        let Some((last, count)) = see(store, low, high, i, before, seen) else {
            return Err(Refusal::StoreWrong(i));
        };
        before = last;
        seen = count;
    }
    Ok(seen)
}

// Writes a key at a place of the out slice, where it is one from low to high; answers the next place.
#[tactic(auto, using(crate::proofs::Laws::put_key_cases))]
fn put_key(low: Key, high: Key, k: u64, out: &mut [u64], at: usize) -> usize
    requires { Space out.old at (length (between low.0 high.0 (k ∷ []))) }
    ensures next { result ≡ at + length (between low.0 high.0 (k ∷ [])) }
    ensures written { out.new ≡ over out.old at (between low.0 high.0 (k ∷ [])) }
{
    if within(low, high, k) {
        out[at] = k;
        at + 1
    } else {
        at
    }
}

// The keys from low to high of the merged order of a run and used slots, from a place of the out slice on.
#[tactic(auto, using(crate::proofs::Laws::keys_cases))]
fn put_keys(low: Key, high: Key, run: &[u64], used: &[u64], out: &mut [u64], at: usize) -> usize
    requires { Space out.old at (length (between low.0 high.0 (merge run.now used.now))) }
    ensures next { result ≡ at + length (between low.0 high.0 (merge run.now used.now)) }
    ensures written { out.new ≡ over out.old at (between low.0 high.0 (merge run.now used.now)) }
{
    let mut m = Cursor::pair();
    let mut p = at;
    while let Some((k, past)) = m.next(run, used, 0) {
        p = put_key(low, high, k, out, p);
        m = past;
    }
    p
}

// Those of segment i.
#[tactic(auto, using(crate::proofs::Laws::put_segment_cases))]
fn put_segment(store: Store, low: Key, high: Key, i: usize, out: &mut [u64], at: usize) -> usize
    requires { Placeable (store_in store) low.0 high.0 i out.old at }
    ensures next { result ≡ at + length (between low.0 high.0 (merged_in (store_in store.entry) i)) }
    ensures written { out.new ≡ over out.old at (between low.0 high.0 (merged_in (store_in store.entry) i)) }
{
    let z = store.sizes;
    let x = table::entry_at(z, store.table, i);
    let run = segment::run_of(store.keys, x);
    let used = segment::used_of(z, store.buffers, i, x);
    put_keys(low, high, run, used, out, at)
}

// Those of the segments from a up to and without `to`, from the out slice's start.
#[tactic(auto, using(crate::proofs::Laws::fill_cases))]
pub fn fill(store: Store, low: Key, high: Key, a: usize, to: usize, out: &mut [u64])
    requires { Fillable (store_in store) low.0 high.0 a to out.old }
    ensures { out.new ≡ over out.old 0 (keys_in (store_in store.entry) low.0 high.0 a to) }
{
    let mut at = 0;
    for i in a..to {
        at = put_segment(store, low, high, i, out, at);
    }
}
