// What comes of an answer.
use crate::question::{At, Then};
use compare_asked::side::Outcome;
use compare_draws::store::{Part, Store};

impl At {
    // The store after an insert: as it was, where that was refused; with other counts, where it came to a merge.
    fn grown(&self, a: &Outcome) -> Store {
        match a.answer {
            [0, _, 2, _, _, n, s, _] => a.store.with_counts(n, s),
            [0, ..] => a.store,
            _ => self.store,
        }
    }

    // To where the pass has come. A number is kept for calls of the same store alone.
    pub fn go_on(&mut self, then: Then, a: &Outcome) {
        self.image = a.image;
        let store = match then {
            Then::Nothing => return,
            Then::Keep => {
                self.kept = a.answer[3];
                return;
            }
            Then::Hurt(draw) => self
                .store
                .hurt_part(draw.later(4), draw.later(9), Part::Keys),
            Then::Cut => a.store.with_counts(a.store.shape.n, a.answer[3]),
            Then::Grow => self.grown(a),
        };
        self.store = store;
        self.kept = 0;
    }
}
