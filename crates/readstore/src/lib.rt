// The public calls for C and Rust: numbers and slices go in, and each answer comes back as eight numbers that the caller lends:
// [0] the refusal's number, 0 if accepted; [1] its place; [2] a kind; [3].. values; unused ones 0.
// A store's numbers and slices stay apart here, and the answer is lent: that is how C passes them.
#![tactic(auto)]

ghost use Rattle.std.specs.Prelude.{◌≡◌, length};
ghost use Rattle.terms.specs.Limits.{sizes_of};
ghost use Rattle.table.specs.Store.{store_of, store_in};
ghost use Rattle.build.specs.Build.{built_of, table_by};
ghost use Rattle.choose.specs.Stretch.{keys_from};
ghost use Rattle.judge.specs.Check.{check_of};
ghost use Rattle.lookup.specs.Lookup.{lookup_of};
ghost use Rattle.range.specs.Range.{range_of, out_by as ranged_out};
ghost use Rattle.insert.specs.Insert.{insert_of};
ghost use Rattle.insert.specs.Cells.{keys_by as inserted_keys, table_by as inserted_table, buffers_by as inserted_buffers};
ghost use Rattle.image_write.specs.Writing.{write_of, out_by};
ghost use Rattle.image_read.specs.Loading.{load_of, keys_by, table_by as loaded_table, buffers_by};
ghost use Rattle.readstore_numbers.specs.Numbers.{built_numbers, checked_numbers, looked_numbers, ranged_numbers, inserted_numbers, written_numbers, loaded_numbers};

use readstore_numbers::{answer_numbers, built_numbers, ranged_numbers, sizes_of, written_numbers};
use table::Store;

// The store that a call's numbers and slices are.
fn lent<'a>(
    keys: &'a [u64],
    table: &'a [u64],
    buffers: &'a [u64],
    e: u64,
    b: u64,
    n: u64,
    s: u64,
) -> Store<'a>
    ensures { store_in result ≡ store_of (sizes_of e b n s) keys.now table.now buffers.now }
{
    let sizes = sizes_of(e, b, n, s);
    Store {
        sizes,
        keys,
        table,
        buffers,
    }
}

// The first n keys are cut with the bound e, and the entries written. [3] is s.
pub fn readstore_build(
    keys: &[u64],
    table: &mut [u64],
    buffers: &[u64],
    e: u64,
    b: u64,
    n: u64,
    answer: &mut [u64; 8],
)
    ensures answered { answer.new ≡ built_numbers (built_of e b n keys.now table.old buffers.now) }
    ensures written { table.new ≡ table_by (built_of e b n keys.now table.old buffers.now) e n keys.now table.old }
{
    let a = build::build(
        terms::size(e),
        terms::size(b),
        terms::size(n),
        keys,
        table,
        buffers,
    );
    *answer = built_numbers(a);
}

// Whether the store keeps every rule. [2] is 1 if it does.
pub fn readstore_check(
    keys: &[u64],
    table: &[u64],
    buffers: &[u64],
    e: u64,
    b: u64,
    n: u64,
    s: u64,
    answer: &mut [u64; 8],
)
    ensures { answer.new ≡ checked_numbers (check_of (store_of (sizes_of e b n s) keys.now table.now buffers.now)) }
{
    let a = judge::check(lent(keys, table, buffers, e, b, n, s));
    *answer = answer_numbers(a);
}

// Where k stands. [2] is 0 absent; 1 in a run, [3] the position; 2 in a buffer, [3] the segment, [4] the slot.
pub fn readstore_lookup(
    keys: &[u64],
    table: &[u64],
    buffers: &[u64],
    e: u64,
    b: u64,
    n: u64,
    s: u64,
    k: u64,
    answer: &mut [u64; 8],
)
    ensures { answer.new ≡ looked_numbers (lookup_of (store_of (sizes_of e b n s) keys.now table.now buffers.now) k) }
{
    let a = lookup::lookup(lent(keys, table, buffers, e, b, n, s), k);
    *answer = answer_numbers(a);
}

// The reads from low to high, both ends among them, from the out slice's start. [3] is how many.
pub fn readstore_range(
    keys: &[u64],
    table: &[u64],
    buffers: &[u64],
    e: u64,
    b: u64,
    n: u64,
    s: u64,
    low: u64,
    high: u64,
    out: &mut [u64],
    answer: &mut [u64; 8],
)
    ensures answered { answer.new ≡ ranged_numbers (range_of (store_of (sizes_of e b n s) keys.now table.now buffers.now) low high (length out.old)) }
    ensures written { out.new ≡ ranged_out (keys_from (store_of (sizes_of e b n s) keys.now table.now buffers.now) low high) (range_of (store_of (sizes_of e b n s) keys.now table.now buffers.now) low high (length out.old)) out.old }
{
    let a = range::range(lent(keys, table, buffers, e, b, n, s), low, high, out);
    *answer = ranged_numbers(a);
}

// k is taken in. [2] is 1 buffered, [3] the segment, [4] the slot; 2 merged, [3] the segment, [4] into how many, [5] the new n, [6] the new s.
pub fn readstore_insert(
    keys: &mut [u64],
    table: &mut [u64],
    buffers: &mut [u64],
    e: u64,
    b: u64,
    n: u64,
    s: u64,
    k: u64,
    answer: &mut [u64; 8],
)
    ensures answered { answer.new ≡ inserted_numbers (insert_of (store_of (sizes_of e b n s) keys.old table.old buffers.old) k) }
    ensures keys { keys.new ≡ inserted_keys (insert_of (store_of (sizes_of e b n s) keys.old table.old buffers.old) k) (store_of (sizes_of e b n s) keys.old table.old buffers.old) k }
    ensures table { table.new ≡ inserted_table (insert_of (store_of (sizes_of e b n s) keys.old table.old buffers.old) k) (store_of (sizes_of e b n s) keys.old table.old buffers.old) k }
    ensures buffers { buffers.new ≡ inserted_buffers (insert_of (store_of (sizes_of e b n s) keys.old table.old buffers.old) k) (store_of (sizes_of e b n s) keys.old table.old buffers.old) k }
{
    let z = sizes_of(e, b, n, s);
    let a = insert::insert(z, keys, table, buffers, k);
    *answer = answer_numbers(a);
}

// The stored form of the store, from the out slice's start. [3] is its length in bytes.
pub fn readstore_image_write(
    keys: &[u64],
    table: &[u64],
    buffers: &[u64],
    e: u64,
    b: u64,
    n: u64,
    s: u64,
    out: &mut [u8],
    answer: &mut [u64; 8],
)
    ensures answered { answer.new ≡ written_numbers (write_of (store_of (sizes_of e b n s) keys.now table.now buffers.now) (length out.old)) }
    ensures written { out.new ≡ out_by (write_of (store_of (sizes_of e b n s) keys.now table.now buffers.now) (length out.old)) (store_of (sizes_of e b n s) keys.now table.now buffers.now) out.old }
{
    let a = image_write::write_image(lent(keys, table, buffers, e, b, n, s), out);
    *answer = written_numbers(a);
}

// A stored form read into the slices. [3] is e, [4] B, [5] n, [6] s.
pub fn readstore_image_read(
    image: &[u8],
    keys: &mut [u64],
    table: &mut [u64],
    buffers: &mut [u64],
    answer: &mut [u64; 8],
)
    ensures answered { answer.new ≡ loaded_numbers (load_of image.now keys.old table.old buffers.old) }
    ensures keys { keys.new ≡ keys_by (load_of image.now keys.old table.old buffers.old) image.now keys.old }
    ensures table { table.new ≡ loaded_table (load_of image.now keys.old table.old buffers.old) image.now table.old }
    ensures buffers { buffers.new ≡ buffers_by (load_of image.now keys.old table.old buffers.old) image.now buffers.old }
{
    let a = image_read::read_image(image, keys, table, buffers);
    *answer = answer_numbers(a);
}
