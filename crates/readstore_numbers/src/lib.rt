// Numbers as C and Rust pass them: the four of a store, and each answer as the eight that the exports give: [0] the refusal's number, 0 if accepted; [1] its
// place; [2] a kind; [3].. values; unused ones 0.
#![tactic(auto)]

ghost use Rattle.std.specs.Prelude.{◌≡◌, List, ℕ};
ghost use Rattle.terms.specs.Limits.{sizes_of};
ghost use Rattle.readstore_numbers.specs.Numbers.{refusal_numbers, answer_numbers, unit_numbers, count_numbers, found_numbers, taken_numbers, sizes_numbers, built_numbers, ranged_numbers, written_numbers};

use answers::{Inserted, Looked};
use terms::{Refusal, Sizes};

// The four numbers of a store together.
pub fn sizes_of(e: u64, b: u64, n: u64, s: u64) -> Sizes
    ensures { result ≡ sizes_of e b n s }
{
    let e = terms::size(e);
    let b = terms::size(b);
    let n = terms::size(n);
    let s = terms::size(s);
    Sizes { e, b, n, s }
}

// What a call that does not refuse answers, as eight numbers.
pub trait Numbers {
    ghost numbers: { Self → List ℕ };

    fn numbers(self) -> [u64; 8]
        ensures { result ≡ numbers self };
}

// The check: every rule is kept.
impl Numbers for () {
    ghost numbers = { unit_numbers };

    fn numbers(self) -> [u64; 8] {
        [0, 0, 1, 0, 0, 0, 0, 0]
    }
}

// Build: how many segments; range: how many keys were written; image writing: how many bytes.
impl Numbers for usize {
    ghost numbers = { count_numbers };

    fn numbers(self) -> [u64; 8] {
        [0, 0, 0, self as u64, 0, 0, 0, 0]
    }
}

// Lookup.
impl Numbers for Looked {
    ghost numbers = { found_numbers };

    #[tactic(auto, unfolding(crate::specs::Numbers::found_numbers))]
    fn numbers(self) -> [u64; 8] {
        match self {
            Looked::Absent => [0, 0, 0, 0, 0, 0, 0, 0],
            Looked::InRun(p) => [0, 0, 1, p.0 as u64, 0, 0, 0, 0],
            Looked::InBuffer { segment, slot } => [0, 0, 2, segment as u64, slot as u64, 0, 0, 0],
        }
    }
}

// Insert.
impl Numbers for Inserted {
    ghost numbers = { taken_numbers };

    #[tactic(auto, unfolding(crate::specs::Numbers::taken_numbers))]
    fn numbers(self) -> [u64; 8] {
        match self {
            Inserted::Buffered { segment, slot } => [0, 0, 1, segment as u64, slot as u64, 0, 0, 0],
            Inserted::Merged {
                segment,
                pieces,
                n,
                s,
            } => {
                let (i, t) = (segment as u64, pieces as u64);
                [0, 0, 2, i, t, n as u64, s as u64, 0]
            }
        }
    }
}

// Image reading.
impl Numbers for Sizes {
    ghost numbers = { sizes_numbers };

    fn numbers(self) -> [u64; 8] {
        let Sizes { e, b, n, s } = self;
        [0, 0, 0, e as u64, b as u64, n as u64, s as u64, 0]
    }
}

#[tactic(auto, unfolding(crate::specs::Numbers::refusal_numbers))]
fn refusal_numbers(r: Refusal) -> [u64; 8]
    ensures { result ≡ refusal_numbers r }
{
    [terms::number(r), terms::place(r) as u64, 0, 0, 0, 0, 0, 0]
}

// What a call answers.
pub fn answer_numbers<T: Numbers>(a: Result<T, Refusal>) -> [u64; 8]
    ensures { result ≡ answer_numbers T.numbers a }
{
    match a {
        Ok(x) => x.numbers(),
        Err(r) => refusal_numbers(r),
    }
}

// Build, range and image writing answer a count alike; each has a name of its own, so that what is said of one says nothing of the others.
#[tactic(auto, using(crate::proofs::Laws::built_are), unfolding(crate::specs::Numbers::built_numbers))]
pub fn built_numbers(segments: Result<usize, Refusal>) -> [u64; 8]
    ensures { result ≡ built_numbers segments }
{
    answer_numbers(segments)
}

#[tactic(auto, using(crate::proofs::Laws::ranged_are), unfolding(crate::specs::Numbers::ranged_numbers))]
pub fn ranged_numbers(keys: Result<usize, Refusal>) -> [u64; 8]
    ensures { result ≡ ranged_numbers keys }
{
    answer_numbers(keys)
}

#[tactic(auto, using(crate::proofs::Laws::written_are), unfolding(crate::specs::Numbers::written_numbers))]
pub fn written_numbers(bytes: Result<usize, Refusal>) -> [u64; 8]
    ensures { result ≡ written_numbers bytes }
{
    answer_numbers(bytes)
}
