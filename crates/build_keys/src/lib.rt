// The keys that are given to be cut: each a key, and above the one before; or where the lowest fault is, and what it is. Nothing else is asked of them.
#![tactic(auto)]

ghost use Rattle.std.specs.Prelude.{◌≡◌, Bool};
ghost use Rattle.build_keys.specs.Faults.{good_of, fault_of, wrong_of, Held, HeldAt};
ghost use Rattle.build_keys.specs.Fronts.{FourHeld, four_of, Front, GoodFront};

use terms::{Pos, Refusal};

// Whether the key at p is one, and above the key before.
#[tactic(auto, using(crate::proofs::Faults::good_cases))]
fn good(keys: &[u64], p: usize) -> bool
    requires { HeldAt keys.now p }
    ensures { result ≡ good_of keys.now p }
{
    terms::is_key(keys[p]) && (p == 0 || keys[p - 1] < keys[p])
}

// Whether the four keys from p on are each above the one before.
fn four_rise(keys: &[u64], p: usize) -> bool
    requires { FourHeld keys.now p }
    ensures { result ≡ four_of keys.now p }
{
    keys[p - 1] < keys[p]
        && keys[p] < keys[p + 1]
        && keys[p + 1] < keys[p + 2]
        && keys[p + 2] < keys[p + 3]
}

// How many keys rise from the first on, looked at four at a time: up to three more may.
#[tactic(auto, using(crate::proofs::Fronts::front_cases))]
fn rising_front(keys: &[u64], n: usize) -> usize
    requires { Held keys.now n }
    ensures { Front keys.now n result }
{
    if n < 1 {
        return 0;
    }
    // The place where this stops is the answer, four places at a time: a `for` would have to hand it out and be no plainer.
    let mut p: usize = 1;
    while 4 <= n - p && four_rise(keys, p) {
        p += 4;
    }
    p
}

// A position below which every key is good: where keys rise, the last of them being a key is enough.
fn good_front(keys: &[u64], n: usize) -> usize
    requires { Held keys.now n }
    ensures { GoodFront keys.now n result }
{
    let p = rising_front(keys, n);
    if 0 < p && terms::is_key(keys[p - 1]) {
        p
    } else {
        0
    }
}

// The lowest of the first n positions whose key is not good.
#[tactic(auto, using(crate::proofs::Faults::fault_cases, crate::proofs::Fronts::scan_past))]
pub fn lowest_fault(keys: &[u64], n: usize) -> Option<usize>
    requires { Held keys.now n }
    ensures { result ≡ fault_of keys.now n }
{
    for p in good_front(keys, n)..n {
        if !good(keys, p) {
            return Some(p);
        }
    }
    None
}

// What is wrong with the key at p.
#[tactic(auto, using(crate::proofs::Faults::wrong_cases))]
pub fn wrong(keys: &[u64], p: usize) -> Refusal
    requires { HeldAt keys.now p }
    ensures { result ≡ wrong_of keys.now p }
{
    if terms::is_key(keys[p]) {
        Refusal::NotRising(Pos(p))
    } else {
        Refusal::LargeKey(Pos(p))
    }
}
