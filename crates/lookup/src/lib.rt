// Point lookup: a public call that has no `requires`, and answers or refuses on every input.
#![tactic(auto)]

ghost use Rattle.std.specs.Prelude.{◌≡◌};
ghost use Rattle.table.specs.Store.{store_in};
ghost use Rattle.lookup.specs.Lookup.{Asked, buffered_of, searched_of, lookup_of};

use answers::Looked;
use table::Store;
use terms::{Entry, Key, Pos, Refusal};

// The lowest used slot that holds k.
fn in_used(i: usize, used: &[u64], k: Key) -> Looked
    ensures { result ≡ buffered_of i used.now k.0 }
{
    match scan::find(used, 0, used.len(), k.0) {
        Some(j) => Looked::InBuffer {
            segment: i,
            slot: j,
        },
        None => Looked::Absent,
    }
}

// The lowest window position of segment i that holds k, else its lowest used slot. Nothing else of the store is read.
fn in_segment(e: usize, x: Entry, i: usize, run: &[u64], used: &[u64], k: Key) -> Looked
    requires { Asked x run.now used.now k }
    ensures { result ≡ searched_of e x i run.now used.now k }
{
    let w = line::reach(x, k, e);
    match scan::find(run, w.from, w.to, k.0) {
        Some(p) => {
            let at = x.base.0 + p;
            Looked::InRun(Pos(at))
        }
        None => in_used(i, used, k),
    }
}

// Where k stands in a store. Refusals in this order: 1, limits; 2, k is no key; 9, the chosen entry is damaged.
pub fn lookup(store: Store, k: u64) -> Result<Looked, Refusal>
    ensures { result ≡ lookup_of (store_in store.entry) k }
{
    store.within()?;
    let key = terms::key_given(k)?;
    let z = store.sizes;
    let (i, x) = choose::pick_segment(z, store.table, key)?;
    let run = segment::run_of(store.keys, x);
    let used = segment::used_of(z, store.buffers, i, x);
    Ok(in_segment(terms::in_use(z), x, i, run, used, key))
}
