// The store and the plain implementation compared: pseudo-random sequences of calls on both, sound and damaged. The store is asked through what C and
// Rust call; both sides take the same numbers and slices and answer in the same eight numbers. Every answer and every cell that a call may write is
// compared. It prints how many calls of each kind there were and how many differ, and the first difference of a kind.
//
// The sequences: on stores that were built and grow by inserts, then on the same with cells, counts and lengths gone wrong; and on small stores whose
// numbers are all drawn.
#![tactic(auto)]

use both::both;
use compare_draws::dice::Draw;
use compare_draws::keys::draw_list;
use compare_draws::small::draw_small;
use compare_draws::store::Store;
use compare_rounds::pass::Pass;
use compare_rounds::question::At;
use compare_tally::Tally;

mod both;
mod exports;

// How many lists are built, and how many small stores drawn.
const BUILT: u64 = 1600;

const SMALL: u64 = 15000;

// Every call of a pass over a store, made on both sides. The store as it is afterwards.
fn run(p: Pass, start: Store, tally: &mut Tally) -> Store {
    let mut at = At::start(start);
    for i in 0..p.calls() {
        let q = p.next(i, &mut at);
        let a = both(p.name, q.call, &q.of, &at.image, tally);
        at.go_on(q.then, &a);
    }
    at.store
}

// A list cut; where it was, grown, and then three times gone wrong.
fn built_round(round: u64, tally: &mut Tally) {
    let mut x = run(Pass::cut(round), draw_list(round), tally);
    if 0 < x.shape.s {
        x = run(Pass::grow(round, 60, 12), x, tally);
        for turn in 0..3 {
            let p = Pass::wrong(round, turn);
            x = run(p, x.hurt(Draw::at(p.name, 20000)), tally);
        }
    }
}

// A small store, whose numbers are all drawn, some of them as a sound store has them.
fn small_round(round: u64, tally: &mut Tally) {
    run(Pass::grow(round, 6, 4), draw_small(round), tally);
}

fn main() {
    let mut tally = Tally::default();
    for round in 0..BUILT {
        built_round(round, &mut tally);
    }
    for round in 0..SMALL {
        small_round(round, &mut tally);
    }
    tally.write_all();
}
