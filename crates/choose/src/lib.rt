// The choice of a segment: the one that a key belongs to, and its entry, or that this entry is damaged.
#![tactic(auto)]

ghost use Rattle.std.specs.Prelude.{◌≡◌, Bool};
ghost use Rattle.table.specs.Entries.{Rows, Row};
ghost use Rattle.choose.specs.Chosen.{chosen_of};
ghost use Rattle.choose.specs.Descent.{Fourth, passed_of, sixteen_of, Descended};
ghost use Rattle.choose.specs.Picked.{picked_of};

use terms::{Entry, Key, Refusal, Sizes};

// How many of the four entries below i, from the highest down, come before the first whose first key is at most k; 4 if none is.
fn passed(table: &[u64], i: usize, key: u64) -> usize
    requires { Fourth table.now i }
    ensures { result ≡ passed_of table.now i key 0 4 }
{
    let at = 5 * (i - 4);
    if table[at + 15] <= key {
        return 0;
    }
    if table[at + 10] <= key {
        return 1;
    }
    if table[at + 5] <= key {
        return 2;
    }
    if table[at] <= key {
        return 3;
    }
    4
}

// Whether sixteen entries below i are there, the lowest entry apart, and their first keys are all above k.
#[tactic(auto, using(std::proofs::lemmas::Bool::Decides::nat_tests), unfolding(crate::specs::Descent::sixteen_of))]
fn sixteen_above(table: &[u64], i: usize, key: u64) -> bool
    requires { Rows table.now i }
    ensures { result ≡ sixteen_of table.now i key }
{
    16 < i
        && 4 <= passed(table, i, key)
        && 4 <= passed(table, i - 4, key)
        && 4 <= passed(table, i - 8, key)
        && 4 <= passed(table, i - 12, key)
}

// The walk down from s, sixteen entries at a time: one test of the end serves for sixteen, and so it counts by hand.
fn leap(table: &[u64], s: usize, key: u64) -> usize
    requires { Rows table.now s }
    ensures { Descended table.now s key result }
{
    let mut i = s;
    while sixteen_above(table, i, key) {
        i -= 16;
    }
    i
}

// The last few entries, from i on down, one at a time. The lowest is not read: it is the answer in either case.
fn last_few(table: &[u64], i: usize, key: u64) -> usize
    requires { Rows table.now i }
    ensures { result ≡ chosen_of table.now i key }
{
    for j in (1..i).rev() {
        if table[5 * j] <= key {
            return j;
        }
    }
    0
}

// The greatest i whose first key is at most k, 0 if there is none. On any table, sorted or not, so it walks down: sixteen entries at a
// time, then four, and so it counts by hand.
pub fn choose(table: &[u64], s: usize, k: Key) -> usize
    requires { Rows table.now s }
    ensures { result ≡ chosen_of table.now s k.0 }
{
    let key = k.0;
    let mut i = leap(table, s, key);
    while 4 < i {
        let p = passed(table, i, key);
        if p < 4 {
            return i - p - 1;
        }
        i -= 4;
    }
    last_few(table, i, key)
}

// The same. One segment needs no walk; the walk is lent its entries alone, so that nothing is set down for a call that is not made.
#[tactic(auto, using(crate::proofs::Descent::some_cases))]
fn choose_some(table: &[u64], s: usize, k: Key) -> usize
    requires { Rows table.now s }
    ensures { result ≡ chosen_of table.now s k.0 }
{
    if s < 2 {
        return 0;
    }
    choose(&table[..5 * s], s, k)
}

// The segment that k chooses, with its entry, or that this entry is damaged: all that lookup and insert know of the table.
#[tactic(auto, using(crate::proofs::Laws::pick_cases))]
pub fn pick_segment(z: Sizes, table: &[u64], k: Key) -> Result<(usize, Entry), Refusal>
    requires { Row table.now z.s 0 }
    ensures { result ≡ picked_of z table.now k.0 }
{
    let i = choose_some(table, z.s, k);
    let x = table::entry_at(z, table, i);
    if table::damaged(z, x) {
        Err(Refusal::StoreWrong(i))
    } else {
        Ok((i, x))
    }
}
