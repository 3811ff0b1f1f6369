// Small stores whose every number is drawn, some of them as a sound store has them.
use crate::dice::Draw;
use crate::keys::{Arrivals, draw_keys};
use crate::store::{Cells, Shape, Store, front_mut};
use compare_plain::cells::{at, product, put, put_five, sum};

// Any number below `faces` in every cell.
fn scatter(draw: Draw, cells: &mut [u64], faces: u64) {
    for (i, cell) in cells.iter_mut().enumerate() {
        *cell = draw.later(i as u64).dice(faces);
    }
}

// The keys that were scattered, as they are or sorted, or rising ones in their place. Their number.
fn draw_few(round: u64, lot: u64, keys: &mut [u64]) -> u64 {
    match lot {
        0 => {}
        1 => keys.sort_unstable(),
        _ => return draw_keys(round, Arrivals::Close, keys),
    }
    keys.len() as u64
}

// Entry i, with small numbers.
fn draw_entry(round: u64, entry: &mut [u64], i: u64, b: u64) {
    let draw = Draw::at(round, 3000).later(product(i, 5));
    put_five(
        entry,
        0,
        draw.dice(14),
        draw.later(1).dice(7),
        draw.later(2).dice(5),
        draw.later(3).dice(6),
        Draw::at(round, 3400).later(i).dice(sum(b, 1)),
    );
}

// Every entry of the table.
fn draw_table(round: u64, table: &mut [u64], b: u64) {
    for (i, entry) in table.chunks_exact_mut(5).enumerate() {
        draw_entry(round, entry, i as u64, b);
    }
}

// Bases that rise by up to three, and first keys that stand there, as a sound store has them.
fn sound_bases(round: u64, keys: &[u64], table: &mut [u64]) {
    let mut base = 0;
    for (i, entry) in table.chunks_exact_mut(5).enumerate() {
        put(entry, 0, at(keys, base));
        put(entry, 1, base);
        base = sum(base, sum(1, Draw::at(round, 3500).later(i as u64).dice(3)));
    }
}

impl Shape {
    // Small numbers and short slices.
    fn draw_small(round: u64) -> Shape {
        Shape {
            e: Draw::at(round, 3901).dice(4),
            b: sum(1, Draw::at(round, 3902).dice(3)),
            n: sum(1, Draw::at(round, 3903).dice(8)),
            s: sum(1, Draw::at(round, 3904).dice(4)),
            keys: sum(6, Draw::at(round, 3905).dice(12)),
            table: sum(10, Draw::at(round, 3906).dice(30)),
            slots: sum(4, Draw::at(round, 3907).dice(20)),
        }
    }
}

// Such a store. The table has any small numbers, or sound bases.
pub fn draw_small(round: u64) -> Store {
    let Cells {
        mut keys,
        mut table,
        mut slots,
    } = Cells::BLANK;
    let mut shape = Shape::draw_small(round);
    let lot = Draw::at(round, 3900).dice(8);
    scatter(Draw::at(round, 3100), &mut keys, 14);
    scatter(Draw::at(round, 3200), &mut slots, 16);
    shape.n = draw_few(round, lot, front_mut(&mut keys, shape.n));
    let entries = front_mut(&mut table, product(shape.s, 5));
    draw_table(round, entries, shape.b);
    if 3 <= lot {
        sound_bases(round, &keys, entries);
    }
    Store {
        shape,
        cells: Cells { keys, table, slots },
    }
}
