// What is asked next.
ghost use Rattle.std.specs.Prelude.{◌≡◌};

use crate::images::UNWRITTEN;
use crate::pass::{Pass, reads};
use crate::reads::read;
use crate::{changes, images};
use compare_asked::call::{Call, Change, Query};
use compare_asked::side::Image;
use compare_draws::dice::Draw;
use compare_draws::store::Store;
use compare_plain::cells::sum;

// What comes of an answer: nothing; a later call of the pass needs the number that it has; one key of the list more goes wrong; the store is the one
// that was cut; or, where the insert was accepted, the one that it left.
#[derive(Clone, Copy, Debug, PartialEq, Eq)]
pub enum Then {
    Nothing,
    Keep,
    Hurt(Draw),
    Cut,
    Grow,
}

// A call, of a store.
#[derive(Clone, Copy)]
pub struct Question {
    pub call: Call,
    pub of: Store,
    pub then: Then,
}

// Where a pass has come to: its store, the number that was kept, and the bytes that are lent to the next call.
#[derive(Clone, Copy)]
pub struct At {
    pub store: Store,
    pub kept: u64,
    pub image: Image,
}

impl Question {
    pub(crate) fn change(change: Change, of: Store, then: Then) -> Question {
        Question {
            call: Call::Change(change),
            of,
            then,
        }
    }

    pub(crate) fn query(query: Query, of: Store, then: Then) -> Question {
        Question {
            call: Call::Query(query),
            of,
            then,
        }
    }
}

impl Pass {
    // Call i of the pass.
    fn ask(self, i: u64, at: &At) -> Question {
        let Some(j) = i.checked_sub(self.builds) else {
            return changes::build(self.name, i, &at.store);
        };
        let Some(k) = j.checked_sub(reads(self.lookups)) else {
            return read(self.name, self.lookups, j, at);
        };
        let Some(l) = k.checked_sub(sum(self.bent, self.inserts)) else {
            return changes::insert(self, k, &at.store);
        };
        let Some(m) = l.checked_sub(reads(self.later)) else {
            return read(sum(self.name, 1000000), self.later, l, at);
        };
        images::image(self.name, m, at)
    }

    // Call i of the pass, and the bytes that are lent to it.
    pub fn next(self, i: u64, at: &mut At) -> Question {
        if let Some(image) = i.checked_sub(self.before_images()) {
            images::lay(self.name, image, at.kept, &mut at.image);
        }
        self.ask(i, at)
    }
}

impl At {
    // Where a pass over a store begins.
    pub fn start(store: Store) -> At
        ensures { (result.store ≡ store) × (result.kept ≡ 0) }
    {
        At {
            store,
            kept: 0,
            image: UNWRITTEN,
        }
    }
}
