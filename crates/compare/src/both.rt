// A call made on both sides, compared and reported. What is lent of a store's slices is by its shape, what is lent beside it by the call.
use crate::exports::Exports;
use compare_asked::call::{Call, Change, Query};
use compare_asked::side::{Image, Outcome, Side};
use compare_draws::store::{Store, front, front_mut};
use compare_plain_side::Plain;
use compare_tally::Tally;

// What stands where a range is to be written.
const UNWRITTEN: [u64; 512] = [7; 512];

// A call that writes to the store, of a copy of it.
fn written<S: Side>(change: Change, x: &Store, image: &Image) -> Outcome {
    let mut store = *x;
    let answer = S::write_to(change, store.lent_mut(), front(image, change.length()));
    Outcome {
        answer,
        store,
        out: UNWRITTEN,
        image: *image,
    }
}

// A call that only reads it, and writes to a copy of the image.
fn read<S: Side>(query: Query, x: &Store, image: &Image) -> Outcome {
    let mut out = UNWRITTEN;
    let mut image = *image;
    let room = query.room();
    let answer = S::read_from(
        query,
        x.lent(),
        front_mut(&mut out, room),
        front_mut(&mut image, room),
    );
    Outcome {
        answer,
        store: *x,
        out,
        image,
    }
}

// The call on one side.
fn on<S: Side>(call: Call, x: &Store, image: &Image) -> Outcome {
    match call {
        Call::Change(change) => written::<S>(change, x, image),
        Call::Query(query) => read::<S>(query, x, image),
    }
}

// The call on both. What the store's side came to.
pub fn both(round: u64, call: Call, x: &Store, image: &Image, tally: &mut Tally) -> Outcome {
    let a = on::<Exports>(call, x, image);
    let p = on::<Plain>(call, x, image);
    tally.report(call.into(), round, &a, &p);
    a
}
