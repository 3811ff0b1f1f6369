// The store's side of a call: the export of that kind, as C and Rust call it.
use compare_asked::call::{Change, Query};
use compare_asked::side::Side;
use compare_draws::store::{Lent, LentMut, Shape};

pub struct Exports;

impl Side for Exports {
    fn write_to(change: Change, x: LentMut<'_>, image: &[u8]) -> [u64; 8] {
        let LentMut {
            shape: Shape { e, b, n, s, .. },
            keys,
            table,
            slots,
        } = x;
        let mut a = [0u64; 8];
        match change {
            Change::Build => readstore::readstore_build(keys, table, slots, e, b, n, &mut a),
            Change::Insert(key) => {
                readstore::readstore_insert(keys, table, slots, e, b, n, s, key, &mut a)
            }
            Change::ReadImage { .. } => {
                readstore::readstore_image_read(image, keys, table, slots, &mut a)
            }
        }
        a
    }

    fn read_from(query: Query, x: Lent<'_>, out: &mut [u64], image: &mut [u8]) -> [u64; 8] {
        let Lent {
            shape: Shape { e, b, n, s, .. },
            keys,
            table,
            slots,
        } = x;
        let mut a = [0u64; 8];
        match query {
            Query::Check => readstore::readstore_check(keys, table, slots, e, b, n, s, &mut a),
            Query::Lookup(key) => {
                readstore::readstore_lookup(keys, table, slots, e, b, n, s, key, &mut a)
            }
            Query::Range { low, high, .. } => {
                readstore::readstore_range(keys, table, slots, e, b, n, s, low, high, out, &mut a)
            }
            Query::WriteImage { .. } => {
                readstore::readstore_image_write(keys, table, slots, e, b, n, s, image, &mut a)
            }
        }
        a
    }
}
