// The filling pass of reading, first edition: exactly the used cells are set. It runs after the judging pass, so it tests nothing.
#![tactic(auto)]

ghost use Rattle.std.specs.Prelude.{◌≡◌, ◌+◌, ◌*◌};
ghost use Rattle.lists.specs.Over.{over, Space};
ghost use Rattle.image_records.specs.Records.{many_at, record_at};
ghost use Rattle.image_records.specs.Images.{layout_of, held_at, part_at, after_part, parts_at, image_at};
ghost use Rattle.image_records.specs.First.{first};
ghost use Rattle.image_records.specs.Stores.{firsts, rows_of, slots_by};
ghost use Rattle.image_fill.specs.Filling.{KeysFill, RowFill, PieceFill, PiecesFill, ImageFill};

use image_records::Fields;
use terms::Sizes;

// The keys of `count` records, of either kind of key, from byte `at` on, put over the cells from `to` on; and the place after the records.
#[tactic(auto, using(crate::proofs::Laws::fill_cases))]
fn fill_keys(bytes: &[u8], at: usize, cells: &mut [u64], to: usize, count: usize) -> usize
    requires { KeysFill bytes.now at cells.old to count }
    ensures place { result ≡ at + 7 * count }
    ensures cells { cells.new ≡ over cells.old to (firsts (many_at first.key.widths bytes.now count at)) }
{
    for k in 0..count {
        cells[to + k] = image_little::get(bytes, at + 7 * k + 1, 6);
    }
    at + 7 * count
}

// Segment i's five numbers.
#[tactic(auto, using(crate::proofs::Laws::row_is))]
fn fill_row(bytes: &[u8], at: usize, table: &mut [u64], i: usize)
    requires { RowFill bytes.now at table.old i }
    ensures { table.new ≡ over table.old (5 * i) (record_at first.segment bytes.now at) }
{
    let row = Fields {
        first: image_little::get(bytes, at + 1, 6),
        base: image_little::get(bytes, at + 7, 2),
        rise: image_little::get(bytes, at + 9, 2),
        run: image_little::get(bytes, at + 11, 6),
        held: image_little::get(bytes, at + 17, 1),
    };
    row.put(table, i);
}

// How many buffered keys the segment there says it holds.
#[tactic(auto, unfolding(image_records::specs::Images::held_at))]
fn held_in(bytes: &[u8], at: usize) -> usize
    requires { Space bytes.now at 18 }
    ensures { result ≡ held_at (layout_of first) bytes.now at }
{
    terms::size(image_little::get(bytes, at + 17, 1))
}

// Segment i: its row and its used slots.
#[tactic(auto, using(crate::proofs::Laws::piece_cases))]
fn fill_piece(
    bytes: &[u8],
    at: usize,
    b: usize,
    table: &mut [u64],
    buffers: &mut [u64],
    i: usize,
) -> usize
    requires { PieceFill bytes.now at b table.old buffers.old i }
    ensures place { result ≡ after_part first bytes.now at }
    ensures table { table.new ≡ over table.old (5 * i) (record_at first.segment bytes.now at) }
    ensures buffers { buffers.new ≡ over buffers.old (i * b) (firsts (part_at first bytes.now at).held) }
{
    let h = held_in(bytes, at);
    fill_row(bytes, at, table, i);
    fill_keys(bytes, at + 18, buffers, i * b, h)
}

// All the segments.
fn fill_pieces(bytes: &[u8], at: usize, b: usize, table: &mut [u64], buffers: &mut [u64], s: usize)
    requires { PiecesFill bytes.now at b table.old buffers.old s }
    ensures table { table.new ≡ over table.old 0 (rows_of (parts_at first bytes.now s at)) }
    ensures buffers { buffers.new ≡ slots_by b (parts_at first bytes.now s at) 0 buffers.old }
{
    let mut p = at;
    for i in 0..s {
        p = fill_piece(bytes, p, b, table, buffers, i);
    }
}

// The whole: the keys, then the segments.
#[tactic(auto, using(crate::proofs::Laws::image_cases))]
pub fn fill(bytes: &[u8], z: Sizes, keys: &mut [u64], table: &mut [u64], buffers: &mut [u64])
    requires { ImageFill bytes.now z keys.old table.old buffers.old }
    ensures keys { keys.new ≡ over keys.old 0 (firsts (image_at first bytes.now).keys) }
    ensures table { table.new ≡ over table.old 0 (rows_of (image_at first bytes.now).parts) }
    ensures buffers { buffers.new ≡ slots_by z.b (image_at first bytes.now).parts 0 buffers.old }
{
    let p = fill_keys(bytes, 9, keys, 0, z.n);
    fill_pieces(bytes, p, z.b, table, buffers, z.s);
}
