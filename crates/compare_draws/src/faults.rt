// Cells of a store and bytes of an image gone wrong.
use crate::dice::Draw;
use crate::store::{Part, Store};
use compare_plain::cells::{at, product, put, put_byte, sum};

// What a cell that holds x may wrongly hold: any number, that of another cell, or one near.
fn wrong_cell(draw: Draw, x: u64, other: u64) -> u64 {
    match draw.dice(5) {
        0 => draw.later(2).wild(),
        1 => other,
        2 => sum(x, 1),
        3 => x.saturating_sub(1),
        _ => sum(x, draw.later(3).dice(40)),
    }
}

// The greatest number that fits six bytes, the least that does not, and the same of two.
fn edge(draw: Draw) -> u64 {
    match draw.dice(4) {
        0 => 281474976710655,
        1 => 281474976710656,
        2 => 65535,
        _ => 65536,
    }
}

impl Store {
    // The store with another value in cell p of a part.
    fn with_cell(mut self, part: Part, p: u64, value: u64) -> Store {
        put(self.cells.part_mut(part), p, value);
        self
    }

    // One cell of a part gone wrong. `place` draws which.
    pub fn hurt_part(&self, draw: Draw, place: Draw, part: Part) -> Store {
        let among = self.used(part);
        let cells = self.cells.part(part);
        let p = place.dice(among);
        let other = at(cells, draw.later(1).dice(among));
        self.with_cell(part, p, wrong_cell(draw, at(cells, p), other))
    }

    // One cell of the store gone wrong, mostly of its table.
    pub fn hurt(&self, draw: Draw) -> Store {
        let part = match draw.dice(6) {
            0 => Part::Keys,
            1 => Part::Slots,
            _ => Part::Table,
        };
        self.hurt_part(draw.later(1), draw.later(5), part)
    }

    // One cell of a part at an edge.
    pub fn edge_part(&self, draw: Draw, part: Part) -> Store {
        let p = draw.dice(self.used(part));
        self.with_cell(part, p, edge(draw.later(1)))
    }
}

// A byte of an image to go wrong: any, one of the head's, or one of the last thirty.
fn some_place(draw: Draw, size: u64) -> u64 {
    match draw.dice(4) {
        0 => draw.later(1).dice(9),
        1 => size.saturating_sub(sum(1, draw.later(1).dice(30))),
        _ => draw.later(1).dice(sum(size, 1)),
    }
}

// One byte of an image gone wrong; `size` is how many bytes of the slice the image takes, and one beyond may go wrong too.
pub fn hurt_byte(draw: Draw, image: &mut [u8], size: u64) {
    let place = some_place(draw, size);
    let faces = sum(10, product(246, draw.later(2).dice(2)));
    put_byte(image, place, draw.later(3).dice(faces));
}

// A length to read: the image's, or another.
pub fn some_length(draw: Draw, length: u64) -> u64 {
    match draw.dice(5) {
        0 => draw.later(1).dice(sum(length, 2)),
        1 => sum(length, 1),
        _ => length,
    }
}
