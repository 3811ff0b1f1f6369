// Images written and read.
use crate::question::{At, Question, Then};
use compare_asked::call::{Change, Query};
use compare_asked::side::Image;
use compare_draws::dice::Draw;
use compare_draws::faults::{hurt_byte, some_length};
use compare_draws::store::{Part, Store};
use compare_plain::cells::product;

// Bytes such as no store writes.
pub const UNWRITTEN: Image = [170; 6600];

// The store written: with, it may be, a wrong number; whole; into one less than the room it needs; into just room enough. Then, after the readings,
// with one number of its table at an edge, one of its keys, one of its slots.
fn write(name: u64, i: u64, at: &At) -> Question {
    let x = &at.store;
    let all = at.image.len() as u64;
    let edged = |step: u64, part: Part| x.edge_part(Draw::at(name, step), part);
    let (of, room, then) = match i {
        0 => (x.bent(Draw::at(name, 7900)), all, Then::Nothing),
        1 => (*x, all, Then::Keep),
        2 => (*x, at.kept.saturating_sub(1), Then::Nothing),
        3 => (*x, at.kept, Then::Nothing),
        10 => (edged(7700, Part::Table), all, Then::Nothing),
        11 => (edged(7710, Part::Keys), all, Then::Nothing),
        _ => (edged(7720, Part::Slots), all, Then::Nothing),
    };
    Question::query(Query::WriteImage { room }, of, then)
}

// Reading i: of what was written, all of it or another length, into cells that hold other numbers.
fn read(name: u64, i: u64, at: &At) -> Question {
    let draw = Draw::at(name, 7000).later(product(i, 16));
    let of = Store::blank(at.store.shape).bent(draw.later(8));
    let length = some_length(draw, at.kept);
    Question::change(Change::ReadImage { length }, of, Then::Nothing)
}

// Call i of those that have to do with images. The six readings follow on the fourth writing.
pub fn image(name: u64, i: u64, at: &At) -> Question {
    match i {
        4..=9 => read(name, i - 4, at),
        _ => write(name, i, at),
    }
}

// The bytes that are lent to call i: for a writing such as no store writes; for the first reading what was written, and for each other the same with
// one byte more gone wrong.
pub fn lay(name: u64, i: u64, size: u64, image: &mut Image) {
    match i {
        4 => {}
        5..=9 => hurt_byte(Draw::at(name, 7002).later(product(i - 5, 16)), image, size),
        _ => *image = UNWRITTEN,
    }
}
