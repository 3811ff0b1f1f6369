// A store as the calls take it: its numbers, its cells, and how much of each slice is lent.
ghost use Rattle.std.specs.Prelude.{◌≡◌, take};

use crate::dice::Draw;
use compare_plain::cells::{product, sum};

// The numbers of a store, and the lengths that are lent of its keys, its table and its slots.
#[derive(Clone, Copy, PartialEq, Eq)]
pub struct Shape {
    pub e: u64,
    pub b: u64,
    pub n: u64,
    pub s: u64,
    pub keys: u64,
    pub table: u64,
    pub slots: u64,
}

// The cells of a store, lent or not.
#[derive(Clone, Copy, PartialEq, Eq)]
pub struct Cells {
    pub keys: [u64; 256],
    pub table: [u64; 320],
    pub slots: [u64; 512],
}

// A store whose slices are the first so many of these cells.
#[derive(Clone, Copy, PartialEq, Eq)]
pub struct Store {
    pub shape: Shape,
    pub cells: Cells,
}

// One of the slices of a store.
#[derive(Clone, Copy, Debug, PartialEq, Eq)]
pub enum Part {
    Keys,
    Slots,
    Table,
}

// A store as it is lent to a call that only reads it.
#[derive(Clone, Copy)]
pub struct Lent<'a> {
    pub shape: Shape,
    pub keys: &'a [u64],
    pub table: &'a [u64],
    pub slots: &'a [u64],
}

// A store as it is lent to a call that writes to it: a type of its own, since `&` and `&mut` are two.
#[derive(Drop)]
pub struct LentMut<'a> {
    pub shape: Shape,
    pub keys: &'a mut [u64],
    pub table: &'a mut [u64],
    pub slots: &'a mut [u64],
}

// The first n items, or all if there are fewer.
pub fn front<T>(items: &[T], n: u64) -> &[T]
    ensures { result.now ≡ take n items.now }
{
    let m = items.len().min(n as usize);
    &items[..m]
}

// The same, to be written; beside it, as the library has `get` and `get_mut`, since a `&` and a `&mut` are two types.
pub fn front_mut<T>(items: &mut [T], n: u64) -> &mut [T]
    ensures { result.now ≡ take n items.old }
{
    let m = items.len().min(n as usize);
    &mut items[..m]
}

// A bound e, mostly a small one.
fn draw_bound(round: u64) -> u64 {
    match Draw::at(round, 2001).dice(6) {
        0 => 0,
        1 => 1,
        2 => 2,
        3 => Draw::at(round, 2002).dice(9),
        4 => Draw::at(round, 2002).dice(65),
        _ => Draw::at(round, 2002).dice(1025),
    }
}

// A number B of slots, mostly a small one.
fn draw_size(round: u64) -> u64 {
    match Draw::at(round, 2003).dice(6) {
        0 => 1,
        1 => 2,
        2 => 3,
        3 => 4,
        4 => sum(1, Draw::at(round, 2004).dice(8)),
        _ => sum(1, Draw::at(round, 2004).dice(64)),
    }
}

impl Shape {
    // The shape of a list of n keys. Mostly the whole slices are lent.
    pub fn draw(round: u64, n: u64) -> Shape {
        let whole = Shape {
            e: draw_bound(round),
            b: draw_size(round),
            n,
            s: 1,
            keys: 256,
            table: 320,
            slots: 512,
        };
        if Draw::at(round, 2005).dice(4) != 0 {
            return whole;
        }
        Shape {
            keys: sum(100, Draw::at(round, 2006).dice(157)),
            table: sum(10, Draw::at(round, 2007).dice(311)),
            slots: sum(10, Draw::at(round, 2008).dice(503)),
            ..whole
        }
    }

    // The shape with number `which`, as it was drawn, gone wrong: e, B, n, s, or a length; any other leaves it.
    fn with_wrong(mut self, which: u64, other: u64) -> Shape {
        match which {
            0 => self.e = other,
            1 => self.b = other,
            2 => self.n = other,
            3 => self.s = other,
            4 => self.keys = other % 300,
            5 => self.table = other % 330,
            6 => self.slots = other % 520,
            _ => {}
        }
        self
    }
}

impl Cells {
    // Cells that no call has written.
    pub const BLANK: Cells = Cells {
        keys: [7; 256],
        table: [8; 320],
        slots: [9; 512],
    };

    // The cells of a part.
    pub(crate) fn part(&self, part: Part) -> &[u64] {
        match part {
            Part::Keys => &self.keys,
            Part::Slots => &self.slots,
            Part::Table => &self.table,
        }
    }

    // The same, to be written.
    pub(crate) fn part_mut(&mut self, part: Part) -> &mut [u64] {
        match part {
            Part::Keys => &mut self.keys,
            Part::Slots => &mut self.slots,
            Part::Table => &mut self.table,
        }
    }
}

impl Store {
    // A store whose cells no call has written.
    pub fn blank(shape: Shape) -> Store {
        Store {
            shape,
            cells: Cells::BLANK,
        }
    }

    // How many cells of a part are in use.
    pub(crate) fn used(&self, part: Part) -> u64 {
        match part {
            Part::Keys => self.shape.n,
            Part::Slots => product(self.shape.s, self.shape.b),
            Part::Table => product(self.shape.s, 5),
        }
    }

    // The store with other counts of keys and segments.
    pub fn with_counts(mut self, n: u64, s: u64) -> Store {
        self.shape.n = n;
        self.shape.s = s;
        self
    }

    // The store with, one time in four, one of its numbers gone wrong.
    pub fn bent(mut self, draw: Draw) -> Store {
        let which = draw.dice(28);
        let other = draw.later(1).wild();
        self.shape = self.shape.with_wrong(which, other);
        self
    }

    // What is lent of it to a call that only reads it.
    pub fn lent(&self) -> Lent<'_>
        ensures keys { result.keys.now ≡ take self.now.shape.keys self.now.cells.keys }
        ensures table { result.table.now ≡ take self.now.shape.table self.now.cells.table }
        ensures slots { result.slots.now ≡ take self.now.shape.slots self.now.cells.slots }
    {
        Lent {
            shape: self.shape,
            keys: front(&self.cells.keys, self.shape.keys),
            table: front(&self.cells.table, self.shape.table),
            slots: front(&self.cells.slots, self.shape.slots),
        }
    }

    // What is lent of it to a call that writes to it.
    pub fn lent_mut(&mut self) -> LentMut<'_>
        ensures keys { result.keys.now ≡ take self.old.shape.keys self.old.cells.keys }
        ensures table { result.table.now ≡ take self.old.shape.table self.old.cells.table }
        ensures slots { result.slots.now ≡ take self.old.shape.slots self.old.cells.slots }
    {
        let Store { shape, cells } = self;
        let Cells { keys, table, slots } = cells;
        LentMut {
            shape: *shape,
            keys: front_mut(keys, shape.keys),
            table: front_mut(table, shape.table),
            slots: front_mut(slots, shape.slots),
        }
    }
}
