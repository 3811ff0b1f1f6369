// Lookups, checks and ranges.
use crate::question::{At, Question, Then};
use compare_asked::call::Query;
use compare_draws::dice::Draw;
use compare_draws::store::Store;
use compare_plain::cells::product;

// Lookup i: of a stored key or another, at times with a wrong number.
fn lookup(name: u64, i: u64, x: &Store) -> Question {
    let draw = Draw::at(name, 4000).later(product(i, 8));
    let key = x.some_key(draw);
    let of = x.bent(draw.later(4));
    Question::query(Query::Lookup(key), of, Then::Nothing)
}

// Range i: whole; the wrong way round; into just room enough, and into one less.
fn range(name: u64, i: u64, way: u64, at: &At) -> Question {
    let draw = Draw::at(name, 6000).later(product(i, 16));
    let of = at.store.bent(draw.later(8));
    let low = of.some_key(draw);
    let high = of.some_key(draw.later(4));
    let (low, high, room, then) = match way {
        0 => (low, high, 512, Then::Keep),
        1 => (high, low, 512, Then::Nothing),
        2 => (low, high, at.kept, Then::Nothing),
        _ => (low, high, at.kept.saturating_sub(1), Then::Nothing),
    };
    Question::query(Query::Range { low, high, room }, of, then)
}

// Call i of those that read.
pub fn read(name: u64, lookups: u64, i: u64, at: &At) -> Question {
    let Some(j) = i.checked_sub(lookups) else {
        return lookup(name, i, &at.store);
    };
    match j {
        0 => Question::query(Query::Check, at.store, Then::Nothing),
        1 => Question::query(
            Query::Check,
            at.store.bent(Draw::at(name, 8900)),
            Then::Nothing,
        ),
        2 => {
            let whole = Query::Range {
                low: 0,
                high: 17592186044415,
                room: 512,
            };
            Question::query(whole, at.store, Then::Nothing)
        }
        _ => range(name, (j - 3) / 4, (j - 3) % 4, at),
    }
}
