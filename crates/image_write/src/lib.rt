// Writing a store as an image. Everything is decided before a byte is written.
#![tactic(auto)]

ghost use Rattle.std.specs.Prelude.{◌≡◌, ◌+◌, ◌*◌, length};
ghost use Rattle.table.specs.Store.{store_in};
ghost use Rattle.image_write.specs.Writing.{write_of, out_by};
ghost use Rattle.image_write.specs.Asks.{Sizable, parts_size};

use table::Store;
use terms::{Refusal, Sizes};

// The bytes of the image.
fn image_size(z: Sizes, table: &[u64]) -> usize
    requires { Sizable z.b z.n z.s table.now }
    ensures { result ≡ 10 + 7 * z.n + parts_size table.now 0 z.s }
{
    let mut p = 10 + 7 * z.n;
    for i in 0..z.s {
        p += 18 + 7 * terms::size(table[5 * i + 4]);
    }
    p
}

// Refusals 1, 9 and 8, or the length; it reads only.
fn decide(store: Store, room: usize) -> Result<usize, Refusal>
    ensures { result ≡ write_of (store_in store.entry) room }
{
    store.within()?;
    if let Some(i) = image_fits::wrong(store) {
        return Err(Refusal::StoreWrong(i));
    }
    let length = image_size(store.sizes, store.table);
    if room < length {
        return Err(Refusal::OutRoom);
    }
    Ok(length)
}

// Writes the image of a store over the out slice from its start: refusals 1, 9, 8; else its length.
pub fn write_image(store: Store, out: &mut [u8]) -> Result<usize, Refusal>
    ensures answered { result ≡ write_of (store_in store.entry) (length out.old) }
    ensures out { out.new ≡ out_by result (store_in store.entry) out.old }
{
    let length = decide(store, out.len())?;
    image_put::put_image(out, store);
    Ok(length)
}
