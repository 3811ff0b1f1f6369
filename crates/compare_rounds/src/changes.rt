// Builds and inserts.
use crate::pass::Pass;
use crate::question::{Question, Then};
use compare_asked::call::Change;
use compare_draws::dice::Draw;
use compare_draws::keys::draw_list;
use compare_draws::store::Store;
use compare_plain::cells::product;

// Build i: of the list with more and more keys gone wrong and, it may be, a wrong number; the last of the list as it was drawn.
pub fn build(name: u64, i: u64, x: &Store) -> Question {
    if 4 <= i {
        return Question::change(Change::Build, draw_list(name), Then::Cut);
    }
    let draw = Draw::at(name, 9000).later(product(i, 16));
    Question::change(Change::Build, x.bent(draw), Then::Hurt(draw))
}

// Insert i: the first ones with, it may be, a wrong number.
pub fn insert(p: Pass, i: u64, x: &Store) -> Question {
    if let Some(j) = i.checked_sub(p.bent) {
        let key = x.some_key(Draw::at(p.name, 10000).later(product(j, 8)));
        return Question::change(Change::Insert(key), *x, Then::Grow);
    }
    let draw = Draw::at(p.name, 20100).later(product(i, 100));
    let key = x.some_key(draw);
    let of = x.bent(draw.later(5));
    Question::change(Change::Insert(key), of, Then::Grow)
}
