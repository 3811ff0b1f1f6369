// The line of a segment: the guess for a key, and the window about the guess.
#![tactic(auto)]

ghost use Rattle.std.specs.Prelude.{◌≡◌, ◌+◌, ◌-◌, min};
ghost use Rattle.line.specs.Line.{Lined, Reaching, guess_of, near_of, window_of, reach_of};

use terms::{Entry, Key, Pos};

// The positions from `from` up to, and without, `to`.
#[derive(Clone, Copy)]
pub struct Span {
    pub from: Pos,
    pub to: Pos,
}

// Places of a segment's run, counted from its start: from `from` up to, and without, `to`.
#[derive(Clone, Copy)]
pub struct Places {
    pub from: usize,
    pub to: usize,
}

// base + (k - first) * rise / run, rounded down. Below the first key nothing is subtracted, and there is no guess.
#[tactic(auto, using(crate::proofs::Laws::guess_cases, crate::proofs::Laws::guess_none))]
pub fn guess(x: Entry, k: Key) -> Option<Pos>
    requires { Lined x k }
    ensures { result ≡ guess_of x k }
{
    let far = k.0.checked_sub(x.first.0)?;
    let up = products::quotient(far, x.rise, x.run);
    Some(Pos(x.base.0 + (up as usize)))
}

// One past a + b, but at most `end`: no sum that wraps.
fn past(a: usize, b: usize, end: usize) -> usize
    ensures { result ≡ min end (a + b + 1) }
{
    a.saturating_add(b).saturating_add(1).min(end)
}

// The positions of the segment that differ from `g` by at most `e`.
pub fn near(x: Entry, g: Pos, e: usize) -> Span
    ensures { result ≡ near_of e x g }
{
    let from = x.base.0.max(g.0.saturating_sub(e));
    let to = past(g.0, e, x.end.0);
    Span {
        from: Pos(from),
        to: Pos(to),
    }
}

// The window for a key: empty where there is no guess.
pub fn window(x: Entry, k: Key, e: usize) -> Span
    requires { Lined x k }
    ensures { result ≡ window_of e x k }
{
    match guess(x, k) {
        None => Span {
            from: Pos(0),
            to: Pos(0),
        },
        Some(p) => near(x, p, e),
    }
}

// The window for a key, as places of the run.
pub fn reach(x: Entry, k: Key, e: usize) -> Places
    requires { Reaching x k }
    ensures { result ≡ reach_of e x k }
{
    match guess(x, k) {
        None => Places { from: 0, to: 0 },
        Some(p) => {
            let up = p.0 - x.base.0;
            let from = up.saturating_sub(e);
            let to = past(up, e, x.end.0 - x.base.0);
            Places { from, to }
        }
    }
}
