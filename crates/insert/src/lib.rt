// Insert: a key goes into the buffer of its segment, or the segment is merged and cut again. What it refuses it leaves as it was.
#![tactic(auto)]

ghost use Rattle.std.specs.Prelude.{◌≡◌, Ok};
ghost use Rattle.table.specs.Store.{store_of};
ghost use Rattle.insert_decide.specs.Decided.{decided_of};
ghost use Rattle.insert.specs.Insert.{insert_of};
ghost use Rattle.insert.specs.Cells.{keys_by, table_by, buffers_by};

use answers::Inserted;
use insert_decide::Decided;
use table::Store;
use terms::{Refusal, Sizes};

// What was decided is written, and told.
fn carry_out(
    z: Sizes,
    keys: &mut [u64],
    table: &mut [u64],
    buffers: &mut [u64],
    k: u64,
    decided: Decided,
) -> Inserted
    requires { Ok decided ≡ decided_of (store_of z keys.old table.old buffers.old) k }
    ensures answered { Ok result ≡ insert_of (store_of z keys.old table.old buffers.old) k }
    ensures keys { keys.new ≡ keys_by (Ok result) (store_of z keys.old table.old buffers.old) k }
    ensures table { table.new ≡ table_by (Ok result) (store_of z keys.old table.old buffers.old) k }
    ensures buffers { buffers.new ≡ buffers_by (Ok result) (store_of z keys.old table.old buffers.old) k }
{
    match decided {
        Decided::Put(i, x, slot) => {
            insert_write::hold(z, table, buffers, i, x, slot, k);
            Inserted::Buffered { segment: i, slot }
        }
        Decided::Merge(i, x, t) => {
            let merged = Inserted::Merged {
                segment: i,
                pieces: t,
                n: z.n + z.b,
                s: z.s - 1 + t,
            };
            insert_write::join(z, keys, table, buffers, i, x, t, k);
            merged
        }
    }
}

// Inserts k: all is decided before anything is written. Refusals in this order: 1, 2, 9 (entry, buffer), 5, 9 (merge), 6, 7.
pub fn insert(
    z: Sizes,
    keys: &mut [u64],
    table: &mut [u64],
    buffers: &mut [u64],
    k: u64,
) -> Result<Inserted, Refusal>
    ensures answered { result ≡ insert_of (store_of z keys.old table.old buffers.old) k }
    ensures keys { keys.new ≡ keys_by result (store_of z keys.old table.old buffers.old) k }
    ensures table { table.new ≡ table_by result (store_of z keys.old table.old buffers.old) k }
    ensures buffers { buffers.new ≡ buffers_by result (store_of z keys.old table.old buffers.old) k }
{
    let store = Store {
        sizes: z,
        keys,
        table,
        buffers,
    };
    let decided = insert_decide::decide(store, k)?;
    Ok(carry_out(z, keys, table, buffers, k, decided))
}
