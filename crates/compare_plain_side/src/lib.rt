// The plain side of a call: the plain implementation's call of that kind. It names nothing of the store's own crates, so that it can be proved beside
// them.
#![tactic(auto)]

use compare_asked::call::{Change, Query};
use compare_asked::side::Side;
use compare_draws::store::{Lent, LentMut, Shape};
use compare_plain::segment;
use compare_plain_image as images;
use compare_plain_reads::{looking, merge};

pub struct Plain;

impl Side for Plain {
    fn write_to(change: Change, x: LentMut<'_>, image: &[u8]) -> [u64; 8] {
        let LentMut {
            shape: Shape { e, b, n, s, .. },
            keys,
            table,
            slots,
        } = x;
        match change {
            Change::Build => compare_plain_build::build(e, b, n, keys, table, slots),
            Change::Insert(key) => {
                compare_plain_insert::insert(e, b, n, s, keys, table, slots, key)
            }
            Change::ReadImage { .. } => images::read(image, keys, table, slots),
        }
    }

    fn read_from(query: Query, x: Lent<'_>, out: &mut [u64], image: &mut [u8]) -> [u64; 8] {
        let Shape { e, b, n, s, .. } = x.shape;
        let lent = segment::Lent {
            e,
            b,
            n,
            s,
            keys: x.keys,
            table: x.table,
            buffers: x.slots,
        };
        match query {
            Query::Check => merge::check(lent),
            Query::Lookup(key) => looking::lookup(lent, key),
            Query::Range { low, high, .. } => merge::range(lent, low, high, out),
            Query::WriteImage { .. } => images::write(lent, image),
        }
    }
}
