// The check: whether a store keeps every rule, and the lowest segment that breaks one.
#![tactic(auto)]

ghost use Rattle.std.specs.Prelude.{◌≡◌, Bool, ◌+◌, ◌≤◌, ltb, leb, eqb, length, Option, None};
ghost use Rattle.lists.specs.Tests.{pick, imp};
ghost use Rattle.table.specs.Store.{store_in};
ghost use Rattle.table.specs.Entries.{Row};
ghost use Rattle.segment.specs.Lent.{Segment, Lent};
ghost use Rattle.judge.specs.Check.{ceiling_of, kept_of, entry_rules, rules_of, check_of};

use order::Cursor;
use table::Store;
use terms::{Entry, Refusal, Sizes};

// Each key of segment i, in merged order: one pass over its run and its used slots, where they lie.
#[tactic(auto, using(crate::proofs::Laws::kept_cases))]
fn kept(e: usize, x: Entry, i: usize, next: Option<u64>, run: &[u64], used: &[u64]) -> bool
    requires { Lent x run.now used.now }
    ensures { result ≡ kept_of e x i next None x.base.0 run.now used.now }
{
    let mut m = Cursor::pair();
    let mut before = None;
    while let Some((k, past)) = m.next(run, used, 0) {
        if !judge_key::key_ok(e, x, i, next, before, k, m.i, past.i) {
            return false;
        }
        before = Some(k);
        m = past;
    }
    true
}

// What no key of segment i may reach.
#[tactic(auto, using(crate::proofs::Laws::ceiling_cases))]
fn ceiling(table: &[u64], s: usize, i: usize) -> Option<u64>
    requires { Row table.now s i }
    ensures { result ≡ ceiling_of s table.now i }
{
    if i + 1 < s {
        Some(table[5 * (i + 1)])
    } else {
        None
    }
}

// Segment 0 has base 0.
#[tactic(auto, using(crate::proofs::Laws::starts_cases))]
fn starts(i: usize, base: usize) -> bool
    ensures { result ≡ imp (eqb i 0) (eqb base 0) }
{
    i != 0 || base == 0
}

// The entry of segment i: not damaged, at base 0 for segment 0, and its first key is the key at base.
#[tactic(auto, using(crate::proofs::Laws::entry_cases))]
fn entry_ok(z: Sizes, keys: &[u64], x: Entry, i: usize) -> bool
    requires { z.n ≤ length keys.now }
    ensures { result ≡ entry_rules z.b z.n keys.now x i }
{
    if table::damaged(z, x) {
        return false;
    }
    starts(i, x.base.0) && keys[x.base.0] == x.first.0
}

// Whether segment i keeps every rule.
#[tactic(auto, using(crate::proofs::Laws::segment_cases))]
fn segment_ok(store: Store, i: usize) -> bool
    requires { Segment (store_in store) i }
    ensures { result ≡ rules_of (store_in store.entry) i }
{
    let z = store.sizes;
    let x = table::entry_at(z, store.table, i);
    if !entry_ok(z, store.keys, x, i) {
        return false;
    }
    let next = ceiling(store.table, z.s, i);
    let run = segment::run_of(store.keys, x);
    let used = segment::used_of(z, store.buffers, i, x);
    kept(terms::in_use(z), x, i, next, run, used)
}

// Whether a store keeps every rule; the lowest segment that breaks one. Refusals in this order: 1, 9.
#[tactic(auto, using(crate::proofs::Laws::check_cases))]
pub fn check(store: Store) -> Result<(), Refusal>
    ensures { result ≡ check_of (store_in store.entry) }
{
    store.within()?;
    for i in 0..store.sizes.s {
        if !segment_ok(store, i) {
            return Err(Refusal::StoreWrong(i));
        }
    }
    Ok(())
}
