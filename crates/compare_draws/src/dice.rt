// Numbers that look random and are the same at every run: each is made of a round, a step and a count of faces. What is drawn chooses among a few cases
// by a `match` on the number: the cases have no name, and stand nowhere else.
ghost use Rattle.std.specs.Prelude.{◌≡◌, ◌<◌};

use compare_plain::cells::sum;

// Where something is drawn: a round, and a step of it.
#[derive(Clone, Copy, Debug, PartialEq, Eq)]
pub struct Draw {
    pub round: u64,
    pub step: u64,
}

// The bits of x, mixed.
fn stir(x: u64) -> u64 {
    let y = x ^ (x << 13);
    let z = y ^ (y >> 7);
    z ^ (z << 17)
}

impl Draw {
    pub fn at(round: u64, step: u64) -> Draw
        ensures { (result.round ≡ round) × (result.step ≡ step) }
    {
        Draw { round, step }
    }

    // So many steps later in the same round.
    pub fn later(self, steps: u64) -> Draw
        ensures { result.round ≡ self.round }
    {
        Draw::at(self.round, sum(self.step, steps))
    }

    // Below `faces`, 0 if there are none.
    pub(crate) fn dice(self, faces: u64) -> u64
        ensures { 0 < faces → result < faces }
    {
        if faces == 0 {
            return 0;
        }
        let x = stir(self.round.wrapping_add(11400714819323198485));
        let y = stir(stir(x).wrapping_add(self.step));
        let z = stir(y.wrapping_add(13787848793156543929));
        stir(z.wrapping_add(x)) % faces
    }

    // A number at the edge of some limit, or any.
    pub(crate) fn wild(self) -> u64 {
        match self.dice(16) {
            0 => 0,
            1 => 1,
            2 => 17592186044415,
            3 => 17592186044416,
            4 => 281474976710655,
            5 => 281474976710656,
            6 => 65535,
            7 => 65536,
            8 => u64::MAX,
            9 => 9223372036854775808,
            10 => self.dice(17592186044416),
            11 => self.dice(70),
            12 => self.dice(40000),
            13 => self.dice(9223372036854775807),
            _ => self.dice(300),
        }
    }
}
