// What of a store fits the records of an image: the lowest entry that does not, else whether a key in a run does not.
#![tactic(auto)]

ghost use Rattle.std.specs.Prelude.{◌≡◌, ◌-◌, ◌^◌, ◌<◌, ◌↔◌, IsTrue, All};
ghost use Rattle.scan.specs.Scan.{fails_of};
ghost use Rattle.lists.specs.Over.{Space};
ghost use Rattle.table.specs.Store.{store_in};
ghost use Rattle.table.specs.Limits.{Limits};
ghost use Rattle.image_records.specs.Records.{fits_of};
ghost use Rattle.image_records.specs.Fields.{fields_of};
ghost use Rattle.image_records.specs.First.{first};
ghost use Rattle.image_fits.specs.Fits.{cells_fit, entry_fits, run_wrong, wrong_of};
ghost use Rattle.image_fits.specs.Asks.{EntryRoom, EntriesRoom};

use image_records::Fields;
use table::Store;
use terms::Sizes;

// Whether each key fits its record.
fn keys_fit(keys: &[u64]) -> bool
    ensures { IsTrue result ↔ All (λ k. k < 256 ^ 6) keys.now }
{
    keys.iter().all(|&k| image_little::fits(k, 6))
}

// Whether the five numbers of a segment fit its record.
#[tactic(auto, unfolding(image_records::specs::Records::fits_of))]
fn fields_fit(f: Fields) -> bool
    ensures { result ≡ fits_of first.segment.widths (fields_of f) }
{
    image_little::fits(f.first, 6)
        && image_little::fits(f.base, 2)
        && image_little::fits(f.rise, 2)
        && image_little::fits(f.run, 6)
        && image_little::fits(f.held, 1)
}

// Whether entry i can be written, with its buffered keys.
fn entry_fits(z: Sizes, table: &[u64], buffers: &[u64], i: usize) -> bool
    requires { EntryRoom z.b z.s table.now buffers.now i }
    ensures { result ≡ entry_fits z.b table.now buffers.now i }
{
    let f = Fields::of(table, i);
    let held = terms::size(f.held);
    if !fields_fit(f) || z.b <= held {
        return false;
    }
    let at = i * z.b;
    keys_fit(&buffers[at..at + held])
}

// The lowest entry that cannot.
fn lowest_wrong(z: Sizes, table: &[u64], buffers: &[u64]) -> Option<usize>
    requires { EntriesRoom z.b z.s table.now buffers.now }
    ensures { result ≡ fails_of (entry_fits z.b table.now buffers.now) 0 (z.s - 0) }
{
    for i in 0..z.s {
        if !entry_fits(z, table, buffers, i) {
            return Some(i);
        }
    }
    None
}

// The place of refusal 9: the lowest such entry, else s where a key in a run does not fit.
pub fn wrong(store: Store) -> Option<usize>
    requires { Limits (store_in store) }
    ensures { result ≡ wrong_of store.entry.sizes.b store.entry.sizes.n store.entry.sizes.s store.entry.keys.now store.entry.table.now store.entry.buffers.now }
{
    let z = store.sizes;
    // not or_else: what run_wrong promises would not be seen through a closure
    match lowest_wrong(z, store.table, store.buffers) {
        Some(i) => Some(i),
        None => run_wrong(z, store.keys),
    }
}

// Place s where a key in a run does not fit.
fn run_wrong(z: Sizes, keys: &[u64]) -> Option<usize>
    requires { Space keys.now 0 z.n }
    ensures { result ≡ run_wrong z.n z.s keys.now }
{
    if keys_fit(&keys[..z.n]) {
        None
    } else {
        Some(z.s)
    }
}
