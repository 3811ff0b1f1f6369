// Reading an image into lent slices. Everything is decided, over the whole image, before a cell is written.
#![tactic(auto)]

ghost use Rattle.std.specs.Prelude.{◌≡◌, ◌<◌, Ok};
ghost use Rattle.table.specs.Limits.{Counted};
ghost use Rattle.image_read.specs.Loading.{keys_held, segments_held, roomed_of, load_of, keys_by, table_by, buffers_by};

use terms::{Refusal, Sizes};

// Whether there is room for n keys.
#[tactic(auto, unfolding(crate::specs::Loading::keys_held))]
fn keys_held(n: usize, keys: &[u64]) -> bool
    ensures { result ≡ keys_held n keys.now }
{
    n <= table::key_room(keys)
}

// Whether there is room for s segments.
#[tactic(auto, unfolding(crate::specs::Loading::segments_held))]
fn segments_held(b: usize, s: usize, table: &[u64], buffers: &[u64]) -> bool
    requires { 0 < b }
    ensures { result ≡ segments_held b s table.now buffers.now }
{
    s <= table::segment_room(b, table, buffers)
}

// Refusals 6 and 7, for counts within their limits.
#[tactic(auto, unfolding(crate::specs::Loading::roomed_of))]
fn roomed(z: Sizes, keys: &[u64], table: &[u64], buffers: &[u64]) -> Result<Sizes, Refusal>
    requires { Counted z.e z.b z.n z.s }
    ensures { result ≡ roomed_of z keys.now table.now buffers.now }
{
    if !keys_held(z.n, keys) {
        return Err(Refusal::KeyRoom);
    }
    if !segments_held(z.b, z.s, table, buffers) {
        return Err(Refusal::SegmentRoom);
    }
    Ok(z)
}

// The answer; it reads only.
#[tactic(auto, using(crate::proofs::Laws::roomed_asks), unfolding(crate::specs::Loading::load_of))]
fn decide(image: &[u8], keys: &[u64], table: &[u64], buffers: &[u64]) -> Result<Sizes, Refusal>
    ensures { result ≡ load_of image.now keys.now table.now buffers.now }
{
    let z = image_judge::judge(image)?;
    roomed(z, keys, table, buffers)
}

// What was decided is read into the cells.
fn carry_out(image: &[u8], z: Sizes, keys: &mut [u64], table: &mut [u64], buffers: &mut [u64])
    requires { Ok z ≡ load_of image.now keys.old table.old buffers.old }
    ensures keys { keys.new ≡ keys_by (Ok z) image.now keys.old }
    ensures table { table.new ≡ table_by (Ok z) image.now table.old }
    ensures buffers { buffers.new ≡ buffers_by (Ok z) image.now buffers.old }
{
    image_fill::fill(image, z, keys, table, buffers);
}

// Reads an image of the first edition into the slices: refusals 10 (head), 1, 10 (rest), 6, 7; else exactly the used cells are set.
pub fn read_image(
    image: &[u8],
    keys: &mut [u64],
    table: &mut [u64],
    buffers: &mut [u64],
) -> Result<Sizes, Refusal>
    ensures answered { result ≡ load_of image.now keys.old table.old buffers.old }
    ensures keys { keys.new ≡ keys_by result image.now keys.old }
    ensures table { table.new ≡ table_by result image.now table.old }
    ensures buffers { buffers.new ≡ buffers_by result image.now buffers.old }
{
    let decided = decide(image, keys, table, buffers)?;
    carry_out(image, decided, keys, table, buffers);
    Ok(decided)
}
