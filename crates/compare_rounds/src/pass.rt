// Passes over a store: how many calls of each kind there are, in their order.
use compare_plain::cells::{product, sum};

// Builds; lookups, with checks and ranges among them; inserts with, it may be, a wrong number, and inserts without; lookups as before; images.
// `name` stands for the pass in all that is drawn.
#[derive(Clone, Copy, Default)]
pub struct Pass {
    pub name: u64,
    pub builds: u64,
    pub lookups: u64,
    pub bent: u64,
    pub inserts: u64,
    pub later: u64,
    pub images: u64,
}

// The lookups, two checks, the whole range, and four ranges for each four lookups.
pub fn reads(lookups: u64) -> u64 {
    if lookups == 0 {
        return 0;
    }
    sum(sum(lookups, 3), product(lookups / 4, 4))
}

impl Pass {
    // A list is cut, four times with something wrong.
    pub fn cut(name: u64) -> Pass {
        Pass {
            name,
            builds: 5,
            ..Pass::default()
        }
    }

    // A store is read, grown by inserts, read again and written.
    pub fn grow(name: u64, inserts: u64, later: u64) -> Pass {
        Pass {
            name,
            lookups: 4,
            inserts,
            later,
            images: 13,
            ..Pass::default()
        }
    }

    // A store that has gone wrong once more is read, grown by inserts and written.
    pub fn wrong(round: u64, turn: u64) -> Pass {
        Pass {
            name: sum(product(round, 64), turn),
            lookups: 6,
            bent: 2,
            inserts: 3,
            images: 13,
            ..Pass::default()
        }
    }

    // How many calls there are before the images.
    pub fn before_images(self) -> u64 {
        let changes = sum(self.builds, sum(self.bent, self.inserts));
        sum(changes, sum(reads(self.lookups), reads(self.later)))
    }

    // How many calls there are.
    pub fn calls(self) -> u64 {
        sum(self.before_images(), self.images)
    }
}
