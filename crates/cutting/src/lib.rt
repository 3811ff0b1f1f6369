// The cut of a part of the key slice, read where it lies: how many segments it has, and their entries.
#![tactic(auto)]

ghost use Rattle.std.specs.Prelude.{◌≡◌, ◌++◌, ◌*◌, length, drop};
ghost use Rattle.std.proofs.lemmas.List.Edits.{sets};
ghost use Rattle.cone.specs.Rule.{segment_of, cut};
ghost use Rattle.cone.specs.Keys.{Cuttable};
ghost use Rattle.cutting.specs.Rows.{row_of, rows_of, Stretch, Room, Writable, Known};
ghost use Rattle.cutting.specs.Ends.{size_of, Startable};

use cone::Cone;
use terms::Key;

// How many keys the segment that starts at the first key has. This is the loop over the keys, so it keeps nothing but the cone, and it
// counts from the segment's start, so that one count serves as the cone's and as the index.
fn first_size(e: usize, keys: &[u64]) -> usize
    requires { Startable e keys.now }
    ensures { result ≡ size_of e keys.now 0 }
{
    let bound = e as u64;
    let mut cone = Cone::start(bound, Key(keys[0]));
    for j in 1..keys.len() {
        let Some(next) = cone.step(bound, Key(keys[j])) else {
            return j;
        };
        cone = next;
    }
    keys.len()
}

// How many segments the cut of the keys has. The loops that go from segment to segment step by as many keys as the segment has, so they count by
// hand.
pub fn count_segments(e: usize, keys: &[u64]) -> usize
    requires { Cuttable e keys.now }
    ensures { result ≡ length (cut e keys.now) }
{
    let mut i: usize = 0;
    let mut n: usize = 0;
    while i < keys.len() {
        let c = first_size(e, &keys[i..]);
        i += c;
        n += 1;
    }
    n
}

// The run of a closed segment of c keys: one key runs over 1.
#[tactic(auto, using(crate::proofs::Laws::run_cases))]
fn run_of(keys: &[u64], i: usize, c: usize) -> u64
    requires { Stretch keys.now i c }
    ensures { result ≡ (segment_of keys.now i c).run }
{
    if c == 1 {
        1
    } else {
        keys[i + (c - 1)] - keys[i]
    }
}

// Writes the five numbers of a closed segment of c keys as row n of the table.
fn close(keys: &[u64], i: usize, c: usize, from: usize, table: &mut [u64], n: usize)
    requires { Room keys.now i c from table.old n }
    ensures { table.new ≡ sets table.old (5 * n) (row_of from (segment_of keys.now i c)) }
{
    let at = 5 * n;
    let run = run_of(keys, i, c);
    table[at] = keys[i];
    table[at + 1] = (from + i) as u64;
    table[at + 2] = (c - 1) as u64;
    table[at + 3] = run;
    table[at + 4] = 0;
}

// Writes the entries of the cut, in order from the table's start, each base counted from `from`, and says how many they are. It is not one
// function with the count above, by a closure for what each segment is for: what such a closure has written would have to be told from call to call,
// which is longer than these lines.
pub fn write_segments(e: usize, keys: &[u64], from: usize, table: &mut [u64]) -> usize
    requires { Writable e keys.now from table.old }
    ensures counted { result ≡ length (cut e keys.now) }
    ensures written { table.new ≡ rows_of from (cut e keys.now) ++ drop (5 * result) table.old }
{
    let mut i: usize = 0;
    let mut n: usize = 0;
    while i < keys.len() {
        let c = first_size(e, &keys[i..]);
        close(keys, i, c, from, table, n);
        i += c;
        n += 1;
    }
    n
}

// Writes the same entries where it is known how many they are: the last segment has all the keys that are left, so that these are not
// walked again.
pub fn write_known(e: usize, keys: &[u64], from: usize, table: &mut [u64], t: usize)
    requires { Known e keys.now from table.old t }
    ensures { table.new ≡ rows_of from (cut e keys.now) ++ drop (5 * t) table.old }
{
    let last = t - 1;
    let mut i: usize = 0;
    for n in 0..last {
        let c = first_size(e, &keys[i..]);
        close(keys, i, c, from, table, n);
        i += c;
    }
    close(keys, i, keys.len() - i, from, table, last);
}
