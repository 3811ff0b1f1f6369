// The judging pass of reading: one walk over the bytes, of any edition. It writes nothing and reads no body but the head and held.
#![tactic(auto)]

ghost use Rattle.std.specs.Prelude.{◌≡◌, ◌+◌};
ghost use Rattle.lists.specs.Over.{Space};
ghost use Rattle.image_little.specs.Little.{get_at};
ghost use Rattle.image_records.specs.Records.{stands_at, walk_of};
ghost use Rattle.image_records.specs.Images.{held_at, part_of, parts_of, end_of, rest_of, layout_of};
ghost use Rattle.image_records.specs.First.{first};
ghost use Rattle.image_judge.specs.Judging.{sizes_at, headed_of, judged_of};
ghost use Rattle.image_judge.specs.Asks.{Ready, Readable, Laid};

use image_records::{Kind, Layout};
use terms::{Refusal, Sizes};

// Whether a record of this kind stands there: it is not cut short, and its first byte is right.
fn stands(bytes: &[u8], k: Kind, at: usize) -> bool
    requires { Ready k bytes.now at }
    ensures { result ≡ stands_at k bytes.now at }
{
    k.size <= bytes.len() - at && bytes[at] == k.kind
}

// Along `count` records of one kind. Here and in what follows: the byte after them, or the byte at which the record stands that is not what
// it should be.
fn walk(bytes: &[u8], k: Kind, at: usize, count: usize) -> Result<usize, usize>
    requires { Ready k bytes.now at }
    ensures { result ≡ walk_of k bytes.now count at }
{
    let mut p = at;
    for _ in 0..count {
        if !stands(bytes, k, p) {
            return Err(p);
        }
        p += k.size;
    }
    Ok(p)
}

// How many buffered keys the segment there says it holds.
fn held_at(bytes: &[u8], f: Layout, at: usize) -> usize
    requires { Space bytes.now (at + f.held) 1 }
    ensures { result ≡ held_at f bytes.now at }
{
    terms::size(image_little::get(bytes, at + f.held, 1))
}

// Along one segment and its buffered keys.
#[tactic(auto, using(crate::proofs::Laws::part_cases))]
fn part(bytes: &[u8], f: Layout, b: usize, at: usize) -> Result<usize, usize>
    requires { Readable f bytes.now at }
    ensures { result ≡ part_of f b bytes.now at }
{
    if !stands(bytes, f.segment, at) {
        return Err(at);
    }
    let h = held_at(bytes, f, at);
    if b <= h {
        return Err(at);
    }
    walk(bytes, f.buffered, at + f.segment.size, h)
}

// Along all the segments.
fn parts(bytes: &[u8], f: Layout, b: usize, s: usize, at: usize) -> Result<usize, usize>
    requires { Readable f bytes.now at }
    ensures { result ≡ parts_of f b bytes.now s at }
{
    let mut p = at;
    for _ in 0..s {
        p = part(bytes, f, b, p)?;
    }
    Ok(p)
}

// The end, and nothing after it.
fn end(bytes: &[u8], f: Layout, at: usize) -> Result<usize, usize>
    requires { Readable f bytes.now at }
    ensures { result ≡ end_of f bytes.now at }
{
    if !stands(bytes, f.end, at) {
        return Err(at);
    }
    let z = at + f.end.size;
    if z < bytes.len() {
        return Err(z);
    }
    Ok(z)
}

// What follows the head.
fn rest(bytes: &[u8], f: Layout, z: Sizes, at: usize) -> Result<usize, usize>
    requires { Readable f bytes.now at }
    ensures { result ≡ rest_of f bytes.now z.b z.n z.s at }
{
    let p = walk(bytes, f.key, at, z.n)?;
    let q = parts(bytes, f, z.b, z.s, p)?;
    end(bytes, f, q)
}

// A number of the head.
fn two(bytes: &[u8], at: usize) -> usize
    requires { Space bytes.now at 2 }
    ensures { result ≡ get_at bytes.now at 2 }
{
    terms::size(image_little::get(bytes, at, 2))
}

// The four numbers of the head.
fn head_sizes(bytes: &[u8]) -> Sizes
    requires { Space bytes.now 0 9 }
    ensures { result ≡ sizes_at bytes.now }
{
    Sizes {
        e: two(bytes, 1),
        b: two(bytes, 3),
        n: two(bytes, 5),
        s: two(bytes, 7),
    }
}

// After a head with these numbers: refusal 1, 10 at the rest, or the four numbers.
fn headed(bytes: &[u8], f: Layout, z: Sizes) -> Result<Sizes, Refusal>
    requires { Readable f bytes.now f.head.size }
    ensures { result ≡ headed_of f bytes.now z }
{
    if !table::counted(z) {
        return Err(Refusal::Limits);
    }
    rest(bytes, f, z, f.head.size).map_err(Refusal::Malformed)?;
    Ok(z)
}

// The whole pass: 10 at the head comes first.
fn judge_by(bytes: &[u8], f: Layout) -> Result<Sizes, Refusal>
    requires { Laid f }
    ensures { result ≡ judged_of f bytes.now }
{
    if !stands(bytes, f.head, 0) {
        return Err(Refusal::Malformed(0));
    }
    headed(bytes, f, head_sizes(bytes))
}

// The kinds and lengths of the first edition.
fn first_layout() -> Layout
    ensures { result ≡ layout_of first }
{
    Layout {
        head: Kind { kind: 1, size: 9 },
        key: Kind { kind: 2, size: 7 },
        segment: Kind { kind: 3, size: 18 },
        buffered: Kind { kind: 4, size: 7 },
        end: Kind { kind: 9, size: 1 },
        held: 17,
    }
}

// Whether the bytes are an image of the first edition: refusals 10 (head), 1, 10 (rest), in that order, or e, B, n and s.
pub fn judge(bytes: &[u8]) -> Result<Sizes, Refusal>
    ensures { result ≡ judged_of (layout_of first) bytes.now }
{
    judge_by(bytes, first_layout())
}
