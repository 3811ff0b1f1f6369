// The stored form, from document 01 alone: written and read record by record.
#![tactic(auto)]

use compare_plain::cells::{at, copy, part, product, reaches, sum};
use compare_plain::refusal::{Refusal, answer};
use compare_plain::segment::{Entry, Lent, key_room, limits, put_entry, segment_room};

// The kinds of a record.
#[derive(Clone, Copy)]
enum Kind {
    Head = 1,
    RunKey = 2,
    Segment = 3,
    Buffered = 4,
    End = 9,
}

impl Kind {
    // How many bytes each number of the body has.
    fn widths(self) -> &'static [u64] {
        match self {
            Kind::Head => &[2, 2, 2, 2],
            Kind::RunKey | Kind::Buffered => &[6],
            Kind::Segment => &[6, 2, 2, 6, 1],
            Kind::End => &[],
        }
    }

    // How many bytes the record has.
    fn length(self) -> u64 {
        self.widths()
            .iter()
            .fold(1, |length, width| sum(length, *width))
    }
}

// ---- writing

// What is written of an image: its bytes up to `length`, which may be past their end.
#[derive(Drop)]
struct Image<'a> {
    bytes: &'a mut [u8],
    length: u64,
}

impl<'a> Image<'a> {
    // The lowest `width` bytes of x, little-endian.
    fn number(&mut self, width: u64, x: u64) {
        copy(&x.to_le_bytes(), 0, width, self.bytes, self.length);
        self.length = sum(self.length, width);
    }

    fn record(&mut self, kind: Kind, numbers: &[u64]) {
        self.number(1, kind as u64);
        for (width, x) in kind.widths().iter().zip(numbers) {
            self.number(*width, *x);
        }
    }

    fn keys(&mut self, kind: Kind, keys: &[u64]) {
        for k in keys {
            self.record(kind, &[*k]);
        }
    }
}

// The image of a store whose fields fit, as far as `out` goes. Its whole length. A segment goes by its number, since its entry and its slots lie in two
// slices.
fn put_all(x: Lent, out: &mut [u8]) -> u64 {
    let mut image = Image {
        bytes: out,
        length: 0,
    };
    image.record(Kind::Head, &[x.e, x.b, x.n, x.s]);
    image.keys(Kind::RunKey, part(x.keys, 0, x.n));
    for i in 0..x.s {
        let y = x.entry(i);
        image.record(Kind::Segment, &[y.first, y.base, y.rise, y.run, y.held]);
        image.keys(Kind::Buffered, x.used(i));
    }
    image.record(Kind::End, &[]);
    image.length
}

// The least number that needs over 6 bytes.
const WIDE: u64 = 1 << 48;

// Whether something of segment i does not fit.
fn wide(x: Lent, i: u64) -> bool {
    let y = x.entry(i);
    x.b <= y.held
        || WIDE <= y.first
        || 65536 <= y.base
        || 65536 <= y.rise
        || WIDE <= y.run
        || reaches(x.used(i), WIDE)
}

pub fn write(x: Lent, out: &mut [u8]) -> [u64; 8] {
    if !x.fits() {
        return Refusal::Limits.at(0);
    }
    if let Some(i) = (0..x.s).find(|i| wide(x, *i)) {
        return Refusal::Wrong.at(i);
    }
    if reaches(part(x.keys, 0, x.n), WIDE) {
        return Refusal::Wrong.at(x.s);
    }
    let length = put_all(x, &mut []);
    if (out.len() as u64) < length {
        return Refusal::OutRoom.at(0);
    }
    put_all(x, out);
    answer(0, length, 0, 0, 0)
}

// ---- reading

// The number of width bytes from p on, at most 8 of them.
fn number(image: &[u8], p: u64, width: u64) -> u64 {
    let mut bytes = [0u8; 8];
    copy(image, p, width, &mut bytes, 0);
    u64::from_le_bytes(bytes)
}

// The first N numbers of the record of this kind at p.
fn numbers<const N: usize>(image: &[u8], p: u64, kind: Kind) -> [u64; N] {
    let mut found = [0u64; N];
    let mut place = sum(p, 1);
    for (x, width) in found.iter_mut().zip(kind.widths()) {
        *x = number(image, place, *width);
        place = sum(place, *width);
    }
    found
}

// The place after the record of this kind that should start at p, or p if none does or it is cut short.
fn after(image: &[u8], p: u64, kind: Kind) -> Result<u64, u64> {
    let past = sum(p, kind.length());
    if past <= image.len() as u64 && at(image, p) == kind as u8 {
        Ok(past)
    } else {
        Err(p)
    }
}

// The place after `count` records of a key from p on, or that of the first which is wrong.
fn after_keys(image: &[u8], p: u64, kind: Kind, count: u64) -> Result<u64, u64> {
    let mut next = p;
    for _ in 0..count {
        next = after(image, next, kind)?;
    }
    Ok(next)
}

// The entry of the segment that starts at p.
fn entry(image: &[u8], p: u64) -> Entry {
    let [first, base, rise, run, held] = numbers::<5>(image, p, Kind::Segment);
    Entry {
        first,
        base,
        rise,
        run,
        held,
    }
}

// The place after the segment that should start at p, or that of what is wrong with it.
fn after_segment(image: &[u8], p: u64, b: u64) -> Result<u64, u64> {
    let slots = after(image, p, Kind::Segment)?;
    let held = entry(image, p).held;
    if b <= held {
        return Err(p);
    }
    after_keys(image, slots, Kind::Buffered, held)
}

// The place of what is wrong behind the head, which ends at `from`.
fn judged(image: &[u8], from: u64, b: u64, n: u64, s: u64) -> Result<(), u64> {
    let mut p = after_keys(image, from, Kind::RunKey, n)?;
    for _ in 0..s {
        p = after_segment(image, p, b)?;
    }
    let end = after(image, p, Kind::End)?;
    if end < image.len() as u64 {
        Err(end)
    } else {
        Ok(())
    }
}

// The keys of `count` records from p on, to cells from c on. The place after the records.
fn get_keys(image: &[u8], p: u64, kind: Kind, count: u64, cells: &mut [u64], c: u64) -> u64 {
    let mut place = p;
    if let Some(rest) = cells.get_mut(c as usize..) {
        for cell in rest.iter_mut().take(count as usize) {
            [*cell] = numbers::<1>(image, place, kind);
            place = sum(place, kind.length());
        }
    }
    place
}

// The segments' entries and their used slots, which go by the segment's number into two slices.
fn get_segments(image: &[u8], from: u64, b: u64, s: u64, table: &mut [u64], buffers: &mut [u64]) {
    let mut p = from;
    for i in 0..s {
        let x = entry(image, p);
        put_entry(table, i, x);
        let slots = sum(p, Kind::Segment.length());
        p = get_keys(image, slots, Kind::Buffered, x.held, buffers, product(i, b));
    }
}

// The image judged and then read. What it holds, or a refusal.
fn read_all(
    image: &[u8],
    keys: &mut [u64],
    table: &mut [u64],
    buffers: &mut [u64],
) -> Result<[u64; 8], [u64; 8]> {
    let from = after(image, 0, Kind::Head).map_err(|p| Refusal::Malformed.at(p))?;
    let [e, b, n, s] = numbers::<4>(image, 0, Kind::Head);
    if !limits(e, b, n, s) {
        return Err(Refusal::Limits.at(0));
    }
    judged(image, from, b, n, s).map_err(|p| Refusal::Malformed.at(p))?;
    if key_room(keys) < n {
        return Err(Refusal::KeyRoom.at(0));
    }
    if segment_room(b, table, buffers) < s {
        return Err(Refusal::SegmentRoom.at(0));
    }
    let first = get_keys(image, from, Kind::RunKey, n, keys, 0);
    get_segments(image, first, b, s, table, buffers);
    Ok(answer(0, e, b, n, s))
}

// What is lent comes one by one, as the C interface lends it.
pub fn read(image: &[u8], keys: &mut [u64], table: &mut [u64], buffers: &mut [u64]) -> [u64; 8] {
    match read_all(image, keys, table, buffers) {
        Ok(answered) | Err(answered) => answered,
    }
}
