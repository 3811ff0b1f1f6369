// The rules that are about one key of a segment's merged order.
#![tactic(auto)]

ghost use Rattle.std.specs.Prelude.{◌≡◌, Bool, ◌+◌, ltb, leb};
ghost use Rattle.lists.specs.Tests.{pick, imp};
ghost use Rattle.judge_key.specs.Key.{Placed, between_of, run_key_of, used_key_of};

use terms::{Entry, Key};

// Whether a key of the merged order is a key, above the one before it and below the next first key.
fn between(next: Option<u64>, before: Option<u64>, k: u64) -> bool
    ensures { result ≡ between_of next before k }
{
    terms::is_key(k) && order::above(before, k) && order::under(next, k)
}

// A key of the run, at the place `at` in it.
#[tactic(auto, using(crate::proofs::Laws::run_key_cases))]
fn run_key(e: usize, x: Entry, next: Option<u64>, before: Option<u64>, k: u64, at: usize) -> bool
    requires { Placed x at }
    ensures { result ≡ run_key_of e x next before k (x.base.0 + at) }
{
    let p = x.base.0 + at;
    if !between(next, before, k) {
        return false;
    }
    let w = line::window(x, Key(k), e);
    w.from.0 <= p && p < w.to.0
}

// In a segment after 0 no used key is below the first key.
#[tactic(auto, using(crate::proofs::Laws::before_cases))]
fn not_before(i: usize, first: u64, k: u64) -> bool
    ensures { result ≡ imp (ltb 0 i) (leb first k) }
{
    i == 0 || first <= k
}

// A used key.
#[tactic(auto, using(crate::proofs::Laws::used_key_cases))]
fn used_key(x: Entry, i: usize, next: Option<u64>, before: Option<u64>, k: u64) -> bool
    ensures { result ≡ used_key_of x i next before k }
{
    between(next, before, k) && not_before(i, x.first.0, k)
}

// A key of the merged order: of the run, at the place `at` in it, where the cursor moved on there to `past`, else a used one.
#[tactic(auto, using(crate::proofs::Laws::key_cases))]
pub fn key_ok(
    e: usize,
    x: Entry,
    i: usize,
    next: Option<u64>,
    before: Option<u64>,
    k: u64,
    at: usize,
    past: usize,
) -> bool
    requires { Placed x at }
    ensures { result ≡ pick (ltb at past) (run_key_of e x next before k (x.base.0 + at)) (used_key_of x i next before k) }
{
    if at < past {
        run_key(e, x, next, before, k, at)
    } else {
        used_key(x, i, next, before, k)
    }
}
