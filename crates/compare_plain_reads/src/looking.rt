// Point lookup: every position of the run is looked at, then every used slot.
use compare_plain::cells::at;
use compare_plain::refusal::answer;
use compare_plain::segment::Lent;

// Where a key is found: at a position of a run, or in a slot of a segment.
#[derive(Clone, Copy)]
enum Found {
    InRun(u64),
    InSlot(u64, u64),
}

// The lowest position of segment i's run that is in the window for k and holds k.
fn in_run(x: Lent, i: u64, k: u64) -> Option<u64> {
    (x.entry(i).base..x.end(i)).find(|p| x.in_window(i, k, *p) && at(x.keys, *p) == k)
}

// The lowest used slot of segment i that holds k.
fn in_slots(x: Lent, i: u64, k: u64) -> Option<u64> {
    x.used(i).iter().position(|y| *y == k).map(|j| j as u64)
}

// Where segment i, whose entry is not damaged, holds k.
fn search(x: Lent, i: u64, k: u64) -> Option<Found> {
    match in_run(x, i, k) {
        Some(p) => Some(Found::InRun(p)),
        None => in_slots(x, i, k).map(|j| Found::InSlot(i, j)),
    }
}

fn looked(x: Lent, k: u64) -> Result<Option<Found>, [u64; 8]> {
    let i = x.chosen(k)?;
    Ok(search(x, i, k))
}

pub fn lookup(x: Lent, k: u64) -> [u64; 8] {
    match looked(x, k) {
        Err(refused) => refused,
        Ok(None) => answer(0, 0, 0, 0, 0),
        Ok(Some(Found::InRun(p))) => answer(1, p, 0, 0, 0),
        Ok(Some(Found::InSlot(i, j))) => answer(2, i, j, 0, 0),
    }
}

// Whether lookup finds k.
pub fn finds(x: Lent, k: u64) -> bool {
    matches!(looked(x, k), Ok(Some(_)))
}
