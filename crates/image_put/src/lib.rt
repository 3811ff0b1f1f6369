// The writing pass: the image of a store, first edition, over a slice of bytes. Each function writes the bytes that its promise names over the
// slice from `at` on, and answers the place after them.
#![tactic(auto)]

ghost use Rattle.std.specs.Prelude.{◌≡◌, ◌+◌, length};
ghost use Rattle.table.specs.Store.{store_in};
ghost use Rattle.image_records.specs.Images.{image_bytes};
ghost use Rattle.image_records.specs.First.{first};
ghost use Rattle.image_records.specs.Stores.{image_in};
ghost use Rattle.lists.specs.Over.{over, Space};
ghost use Rattle.image_put.specs.Pieces.{pair_bytes, line_bytes, key_bytes, keys_bytes, head_bytes, segment_bytes, piece_bytes, pieces_bytes, end_bytes, rest_bytes, KeysRoom, PieceRoom, PiecesRoom, RestRoom, ImageRoom};

use image_records::Fields;
use table::Store;
use terms::Sizes;

// A record of one key.
#[tactic(auto, using(crate::proofs::Laws::key_cases))]
fn put_key(dst: &mut [u8], at: usize, kind: u8, x: u64) -> usize
    requires { Space dst.old at 7 }
    ensures place { result ≡ at + length (key_bytes kind x) }
    ensures cells { dst.new ≡ over dst.old at (key_bytes kind x) }
{
    dst[at] = kind;
    image_little::put(dst, at + 1, 6, x);
    at + 7
}

// A row of them, one for each cell.
#[tactic(auto, using(crate::proofs::Laws::keys_cases))]
fn put_keys(dst: &mut [u8], at: usize, kind: u8, cells: &[u64]) -> usize
    requires { KeysRoom dst.old at kind cells.now }
    ensures place { result ≡ at + length (keys_bytes kind cells.now 0 (length cells.now)) }
    ensures cells { dst.new ≡ over dst.old at (keys_bytes kind cells.now 0 (length cells.now)) }
{
    let mut p = at;
    for &x in cells {
        p = put_key(dst, p, kind, x);
    }
    p
}

// Two numbers of two bytes.
#[tactic(auto, using(crate::proofs::Laws::pair_written))]
fn put_pair(dst: &mut [u8], at: usize, x: u64, y: u64)
    requires { Space dst.old at 4 }
    ensures { dst.new ≡ over dst.old at (pair_bytes x y) }
{
    image_little::put(dst, at, 2, x);
    image_little::put(dst, at + 2, 2, y);
}

// The head.
#[tactic(auto, using(crate::proofs::Laws::head_cases))]
fn put_head(dst: &mut [u8], z: Sizes) -> usize
    requires { Space dst.old 0 9 }
    ensures place { result ≡ 0 + length (head_bytes z.e z.b z.n z.s) }
    ensures cells { dst.new ≡ over dst.old 0 (head_bytes z.e z.b z.n z.s) }
{
    dst[0] = 1;
    put_pair(dst, 1, z.e as u64, z.b as u64);
    put_pair(dst, 5, z.n as u64, z.s as u64);
    9
}

// A segment's base and line.
#[tactic(auto, using(crate::proofs::Laws::line_written))]
fn put_line(dst: &mut [u8], at: usize, base: u64, rise: u64, run: u64)
    requires { Space dst.old at 10 }
    ensures { dst.new ≡ over dst.old at (line_bytes base rise run) }
{
    put_pair(dst, at, base, rise);
    image_little::put(dst, at + 4, 6, run);
}

// A segment's record, of its five numbers: it starts as a record of its first key would.
#[tactic(auto, using(crate::proofs::Laws::segment_cases))]
fn put_segment(dst: &mut [u8], at: usize, f: Fields) -> usize
    requires { Space dst.old at 18 }
    ensures place { result ≡ at + length (segment_bytes f.first f.base f.rise f.run f.held) }
    ensures cells { dst.new ≡ over dst.old at (segment_bytes f.first f.base f.rise f.run f.held) }
{
    put_key(dst, at, 3, f.first);
    put_line(dst, at + 7, f.base, f.rise, f.run);
    image_little::put(dst, at + 17, 1, f.held);
    at + 18
}

// The end.
#[tactic(auto, using(crate::proofs::Laws::end_cases))]
fn put_end(dst: &mut [u8], at: usize) -> usize
    requires { Space dst.old at 1 }
    ensures place { result ≡ at + length end_bytes }
    ensures cells { dst.new ≡ over dst.old at end_bytes }
{
    dst[at] = 9;
    at + 1
}

// A segment and its buffered keys.
#[tactic(auto, using(crate::proofs::Laws::piece_cases))]
fn put_piece(dst: &mut [u8], at: usize, b: usize, table: &[u64], buffers: &[u64], i: usize) -> usize
    requires { PieceRoom dst.old at b table.now buffers.now i }
    ensures place { result ≡ at + length (piece_bytes b table.now buffers.now i) }
    ensures cells { dst.new ≡ over dst.old at (piece_bytes b table.now buffers.now i) }
{
    let f = Fields::of(table, i);
    let p = put_segment(dst, at, f);
    let from = i * b;
    put_keys(dst, p, 4, &buffers[from..from + terms::size(f.held)])
}

// All the segments.
#[tactic(auto, using(crate::proofs::Laws::pieces_cases))]
fn put_pieces(
    dst: &mut [u8],
    at: usize,
    b: usize,
    table: &[u64],
    buffers: &[u64],
    s: usize,
) -> usize
    requires { PiecesRoom dst.old at b table.now buffers.now s }
    ensures place { result ≡ at + length (pieces_bytes b table.now buffers.now 0 s) }
    ensures cells { dst.new ≡ over dst.old at (pieces_bytes b table.now buffers.now 0 s) }
{
    let mut p = at;
    for i in 0..s {
        p = put_piece(dst, p, b, table, buffers, i);
    }
    p
}

// The segments, then the end.
#[tactic(auto, using(crate::proofs::Laws::rest_cases))]
fn put_rest(dst: &mut [u8], at: usize, b: usize, table: &[u64], buffers: &[u64], s: usize) -> usize
    requires { RestRoom dst.old at b table.now buffers.now s }
    ensures place { result ≡ at + length (rest_bytes b table.now buffers.now s) }
    ensures cells { dst.new ≡ over dst.old at (rest_bytes b table.now buffers.now s) }
{
    let p = put_pieces(dst, at, b, table, buffers, s);
    put_end(dst, p)
}

// The whole image of a store that can be written, over a slice with room for it.
#[tactic(auto, using(crate::proofs::Laws::image_cases))]
pub fn put_image(dst: &mut [u8], store: Store) -> usize
    requires { ImageRoom dst.old (store_in store) }
    ensures place { result ≡ length (image_bytes first (image_in (store_in store.entry))) }
    ensures cells { dst.new ≡ over dst.old 0 (image_bytes first (image_in (store_in store.entry))) }
{
    let z = store.sizes;
    let p = put_head(dst, z);
    let q = put_keys(dst, p, 2, &store.keys[..z.n]);
    put_rest(dst, q, z.b, store.table, store.buffers, z.s)
}
