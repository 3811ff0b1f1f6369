// Whether a merged order rises, and into how many segments it is cut: read off where the cells lie, before anything is written.
#![tactic(auto)]

ghost use Rattle.std.specs.Prelude.{◌≡◌, Bool};
ghost use Rattle.lists.specs.Merge.{merge, insert_sorted};
ghost use Rattle.insert_pieces.specs.Judged.{after_of, cutting_of, Judgeable, Begun};
ghost use Rattle.insert_pieces.specs.Walked.{Takable, Takes, Joinable, Joins, Along, Gone};

use cone::Cone;
use order::Cursor;
use terms::Key;

// Whether x is a key and above the one before.
#[tactic(auto, using(crate::proofs::Laws::after_cases))]
fn after(before: u64, x: u64) -> bool
    ensures { result ≡ after_of before x }
{
    before < x && terms::is_key(x)
}

// The run, the used slots and k stay three parameters below: the cursor's calls take them so, and a struct would be taken apart at each.

// How far the counting has come: the cursor, the key before it, how many segments are closed, and the cone of the open one.
#[derive(Clone, Copy)]
pub struct Walked {
    pub at: Cursor,
    pub last: u64,
    pub closed: usize,
    pub cone: Cone,
}

// The next key, x, is counted: the cursor is then at `past`. None where it does not rise.
fn count_key(
    e: usize,
    w: Walked,
    x: u64,
    past: Cursor,
    run: &[u64],
    used: &[u64],
    k: u64,
) -> Option<Walked>
    requires { Takable e run.now used.now k w x past }
    ensures { Takes e run.now used.now k past result }
{
    if !after(w.last, x) {
        return None;
    }
    let bound = e as u64;
    match w.cone.step(bound, Key(x)) {
        Some(cone) => Some(Walked {
            at: past,
            last: x,
            closed: w.closed,
            cone,
        }),
        None => Some(Walked {
            at: past,
            last: x,
            closed: w.closed + 1,
            cone: Cone::start(bound, Key(x)),
        }),
    }
}

// The run's next key as a step of the walk, where it is at most y, above the key before it, and joins the open segment.
fn joined(bound: u64, cone: Cone, last: u64, y: u64, run: &[u64], i: usize) -> Option<Cone>
    requires { Joinable bound cone last y run.now i }
    ensures { Joins bound cone last y run.now i result }
{
    if i < run.len() && run[i] <= y && last < run[i] {
        cone.step(bound, Key(run[i]))
    } else {
        None
    }
}

// The run's keys up to y that simply join the open segment are counted in a loop that keeps nothing but the cone. It stops at the first
// that does not, whatever the reason: what comes of that key is for `count_key` to say.
fn along(e: usize, start: Walked, y: u64, run: &[u64], used: &[u64], k: u64) -> Walked
    requires { Along e run.now used.now k start y }
    ensures { Gone e run.now used.now k start result }
{
    let bound = e as u64;
    let mut i = start.at.i;
    let mut last = start.last;
    let mut cone = start.cone;
    // No `for`: where it stops is part of what it tells.
    while let Some(c) = joined(bound, cone, last, y, run, i) {
        cone = c;
        last = run[i];
        i += 1;
    }
    Walked {
        at: Cursor { i, ..start.at },
        last,
        cone,
        ..start
    }
}

// The merged order from its second key on: x is the first, and the cursor stands past it. The run's keys that simply join are counted
// together, up to the next slot or the key; every other key is taken by itself.
fn pieces_on(e: usize, start: Cursor, x: u64, run: &[u64], used: &[u64], k: u64) -> Option<usize>
    requires { Begun e start x run.now used.now k }
    ensures { result ≡ cutting_of e (merge run.now (insert_sorted k used.now)) }
{
    let mut w = Walked {
        at: start,
        last: x,
        closed: 0,
        cone: Cone::start(e as u64, Key(x)),
    };
    // No `for`: the cursor's step is what a stretch took, and one key more.
    loop {
        // A run's key up to the greatest key is below the limit, and no loop need test this.
        let y = w.at.bound(used, k).min(terms::KEY_LIMIT - 1);
        let v = along(e, w, y, run, used, k);
        let Some((z, past)) = v.at.next(run, used, k) else {
            return Some(v.closed + 1);
        };
        w = count_key(e, v, z, past, run, used, k)?;
    }
}

// Into how many segments the merged order of a run, the used slots and k is cut: one pass that judges it and counts. None where it is not
// strictly rising and below the limit.
pub fn pieces(e: usize, run: &[u64], used: &[u64], k: u64) -> Option<usize>
    requires { Judgeable e run.now used.now }
    ensures { result ≡ cutting_of e (merge run.now (insert_sorted k used.now)) }
{
    let (x, past) = Cursor::with_key().next(run, used, k)?;
    if !terms::is_key(x) {
        return None;
    }
    pieces_on(e, past, x, run, used, k)
}
