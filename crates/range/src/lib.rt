// Range: the keys from low to high, written to a slice. Everything is decided before anything is written, and nothing is copied out.
#![tactic(auto)]

ghost use Rattle.std.specs.Prelude.{◌≡◌, length};
ghost use Rattle.table.specs.Store.{store_in};
ghost use Rattle.table.specs.Limits.{Limits};
ghost use Rattle.choose.specs.Stretch.{keys_in, keys_from};
ghost use Rattle.range_stretch.specs.Asks.{Stretch};
ghost use Rattle.range.specs.Range.{stretched_of, chosen_range_of, range_of, out_by};

use table::Store;
use terms::{Key, Refusal};

// The stretch, judged and then written.
#[tactic(auto, using(crate::proofs::Laws::stretched_cases))]
fn stretched(
    store: Store,
    low: Key,
    high: Key,
    a: usize,
    to: usize,
    out: &mut [u64],
) -> Result<usize, Refusal>
    requires { Stretch (store_in store) a to }
    ensures answered { result ≡ stretched_of (store_in store.entry) low.0 high.0 a to (length out.old) }
    ensures written { out.new ≡ out_by (keys_in (store_in store.entry) low.0 high.0 a to) result out.old }
{
    let m = range_stretch::judge_stretch(store, low, high, a, to)?;
    if out.len() < m {
        return Err(Refusal::OutRoom);
    }
    range_stretch::fill(store, low, high, a, to, out);
    Ok(m)
}

// The stretch from the segment chosen for low to that chosen for high.
#[tactic(auto, using(crate::proofs::Laws::chosen_cases))]
fn chosen(store: Store, low: Key, high: Key, out: &mut [u64]) -> Result<usize, Refusal>
    requires { Limits (store_in store) }
    ensures answered { result ≡ chosen_range_of (store_in store.entry) low.0 high.0 (length out.old) }
    ensures written { out.new ≡ out_by (keys_from (store_in store.entry) low.0 high.0) result out.old }
{
    let s = store.sizes.s;
    let a = choose::choose(store.table, s, low);
    let last = choose::choose(store.table, s, high);
    stretched(store, low, high, a, last + 1, out)
}

// The keys from low to high of a store, to the start of the out slice. Refusals in this order: 1, limits; 2, low or high is no key;
// 4, low above high; 9, the stretch is wrong; 8, the out slice is too short.
#[tactic(auto, using(crate::proofs::Laws::range_cases))]
pub fn range(store: Store, low: u64, high: u64, out: &mut [u64]) -> Result<usize, Refusal>
    ensures answered { result ≡ range_of (store_in store.entry) low high (length out.old) }
    ensures written { out.new ≡ out_by (keys_from (store_in store.entry) low high) result out.old }
{
    store.within()?;
    let from = terms::key_given(low)?;
    let to = terms::key_given(high)?;
    if high < low {
        return Err(Refusal::Backwards);
    }
    chosen(store, from, to, out)
}
