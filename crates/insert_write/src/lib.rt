// What an insert writes: a key into a slot, or the merge of a segment, cut again. All that may be refused is decided before, and the
// segment's entry is the one that was read then.
// The slices stay parameters of their own: each step takes those that it reads or writes, and a struct of all would be taken apart at each.
#![tactic(auto)]

ghost use Rattle.std.specs.Prelude.{◌≡◌, ◌+◌, ◌*◌, set};
ghost use Rattle.terms.specs.Limits.{in_use_of};
ghost use Rattle.table.specs.Store.{store_of};
ghost use Rattle.table.specs.Entries.{entry_of};
ghost use Rattle.insert_write.specs.Cells.{put_slots, joined_keys, slots_up, merged_keys, merged_table, merged_slots};
ghost use Rattle.insert_write.specs.Write.{Holding, Joinable, SlotsLater, rows_up, RowsLater, Later, recut_table, Recuttable, Mergeable};

use terms::{Entry, Sizes};

// k goes to its place among the used slots of segment i, which holds one more.
#[tactic(auto, using(crate::proofs::Writing::hold_cases))]
pub fn hold(
    z: Sizes,
    table: &mut [u64],
    buffers: &mut [u64],
    i: usize,
    x: Entry,
    slot: usize,
    k: u64,
)
    requires { Holding z table.old buffers.old i x slot k }
    ensures table { table.new ≡ set table.old (5 * i + 4) ((entry_of z.n z.s table.old i).held + 1) }
    ensures buffers { buffers.new ≡ put_slots (i * z.b) (entry_of z.n z.s table.old i).held k buffers.old }
{
    let held = x.held as u64;
    let at = i * z.b;
    let to = at + (x.held + 1);
    insert_place::put(&mut buffers[at..to], slot, k);
    let cell = 5 * i + 4;
    table[cell] = held + 1;
}

// Run and later keys go up by b together, and the run is merged down with the used slots and k.
#[tactic(auto, using(crate::proofs::Writing::keys_cases))]
fn join_keys(z: Sizes, x: Entry, keys: &mut [u64], used: &[u64], k: u64)
    requires { Joinable z.b z.n x keys.old used.now }
    ensures { keys.new ≡ joined_keys z.b z.n x used.now k keys.old }
{
    let base = x.base.0;
    let to = x.end.0 + z.b;
    moves::shift_up(keys, base, z.n - base, z.b);
    insert_place::merge_down(&mut keys[base..to], used, k);
}

// The used slots of the segments after i go up by t - 1 segments.
fn lift_later(z: Sizes, table: &[u64], buffers: &mut [u64], i: usize, t: usize)
    requires { SlotsLater z.b z.s table.now buffers.old i t }
    ensures { buffers.new ≡ slots_up z.b z.s table.now i t buffers.old }
{
    let row = 5 * (i + 1);
    let from = (i + 1) * z.b;
    let count = z.s - (i + 1);
    let by = t - 1;
    moves::lift(&mut buffers[from..], &table[row..], z.b, count, by);
}

// The table's tail after entry i is lent on: its entries go up by t - 1 places, and their bases grow by b.
fn raise_later(z: Sizes, table: &mut [u64], i: usize, t: usize)
    requires { RowsLater z.b z.s table.old i t }
    ensures { table.new ≡ rows_up z.b z.s i t table.old }
{
    let row = 5 * (i + 1);
    let count = z.s - (i + 1);
    let by = t - 1;
    let add = z.b as u64;
    moves::raise(&mut table[row..], count, by, add);
}

// The later segments make room for t in the place of one.
fn make_room(z: Sizes, table: &mut [u64], buffers: &mut [u64], i: usize, t: usize)
    requires { Later z.b z.s table.old buffers.old i t }
    ensures table { table.new ≡ rows_up z.b z.s i t table.old }
    ensures buffers { buffers.new ≡ slots_up z.b z.s table.old i t buffers.old }
{
    lift_later(z, table, buffers, i, t);
    raise_later(z, table, i, t);
}

// The merged part of the key slice is cut, and its t entries stand in the table from entry i on.
#[tactic(auto, using(crate::proofs::Writing::recut_cases))]
fn recut(z: Sizes, x: Entry, keys: &[u64], table: &mut [u64], i: usize, t: usize)
    requires { Recuttable (in_use_of z) z.b x keys.now i t table.old }
    ensures { table.new ≡ recut_table (in_use_of z) z.b x keys.now i table.old }
{
    let base = x.base.0;
    let stop = x.end.0 + z.b;
    let row = 5 * i;
    let e = terms::in_use(z);
    cutting::write_known(e, &keys[base..stop], base, &mut table[row..], t);
}

// The merge of segment i with k, into t segments.
pub fn join(
    z: Sizes,
    keys: &mut [u64],
    table: &mut [u64],
    buffers: &mut [u64],
    i: usize,
    x: Entry,
    t: usize,
    k: u64,
)
    requires { Mergeable (store_of z keys.old table.old buffers.old) i x t k }
    ensures keys { keys.new ≡ merged_keys (store_of z keys.old table.old buffers.old) i k }
    ensures table { table.new ≡ merged_table (store_of z keys.old table.old buffers.old) i k t }
    ensures buffers { buffers.new ≡ merged_slots (store_of z keys.old table.old buffers.old) i t }
{
    let used = segment::used_of(z, buffers, i, x);
    join_keys(z, x, keys, used, k);
    make_room(z, table, buffers, i, t);
    recut(z, x, keys, table, i, t);
}
