// Build: the keys given are judged and cut, and the segments' entries written from the table's start. What it refuses it leaves as it was.
#![tactic(auto)]

ghost use Rattle.std.specs.Prelude.{◌≡◌, Bool, leb, length};
ghost use Rattle.table.specs.Limits.{segment_room};
ghost use Rattle.cone.specs.Rule.{cut};
ghost use Rattle.build.specs.Build.{judged_of, built_of, table_by, takes_of, Roomable};

use terms::Refusal;

// Whether the numbers are within their limits, and the key slice holds n keys.
#[tactic(auto, using(crate::proofs::Laws::takes_cases))]
fn takes(e: usize, b: usize, n: usize, keys: &[u64]) -> bool
    ensures { result ≡ takes_of e b n keys.now }
{
    table::sized(e, b, n) && n <= keys.len()
}

// Whether there is room for the segments of the cut. A cut has at most (n - 1) / (e + 2) + 1, so that they are seldom counted.
fn roomy(e: usize, b: usize, keys: &[u64], table: &[u64], buffers: &[u64]) -> bool
    requires { Roomable e b keys.now }
    ensures { result ≡ leb (length (cut e keys.now)) (segment_room b table.now buffers.now) }
{
    let room = table::segment_room(b, table, buffers);
    (keys.len() - 1) / (e + 2) < room || cutting::count_segments(e, keys) <= room
}

// Everything that is to be decided before anything is written.
#[tactic(auto, using(crate::proofs::Laws::judge_cases))]
fn judge(
    e: usize,
    b: usize,
    n: usize,
    keys: &[u64],
    table: &[u64],
    buffers: &[u64],
) -> Result<(), Refusal>
    ensures judged { result ≡ judged_of e b n keys.now table.now buffers.now }
{
    if !takes(e, b, n, keys) {
        return Err(Refusal::Limits);
    }
    if let Some(p) = build_keys::lowest_fault(keys, n) {
        return Err(build_keys::wrong(keys, p));
    }
    if !roomy(e, b, &keys[..n], table, buffers) {
        return Err(Refusal::SegmentRoom);
    }
    Ok(())
}

// Cuts the first n keys with the bound e, and writes the entries.
#[tactic(auto, using(crate::proofs::Laws::build_cases))]
pub fn build(
    e: usize,
    b: usize,
    n: usize,
    keys: &[u64],
    table: &mut [u64],
    buffers: &[u64],
) -> Result<usize, Refusal>
    ensures answered { result ≡ built_of e b n keys.now table.old buffers.now }
    ensures written { table.new ≡ table_by result e n keys.now table.old }
{
    judge(e, b, n, keys, table, buffers)?;
    Ok(cutting::write_segments(e, &keys[..n], 0, table))
}
