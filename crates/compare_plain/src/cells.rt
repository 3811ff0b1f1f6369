// Cells and sums that cannot fail: a cell past a slice's end reads as 0 and is not written, and what no store can hold is a huge number.

ghost use Rattle.std.specs.Prelude.{◌≡◌, slice_get, slice_range};
ghost use Rattle.std.specs.Option.{UnwrapsOrElse};
ghost use Rattle.compare_plain.specs.Cells.{sum_of, product_of};

// What sum and product answer where no store holds so much.
pub const NONE: u64 = u64::MAX;

// A key is below 2^44.
pub const KEYS: u64 = 1 << 44;

pub fn at<T: Copy + Default>(s: &[T], i: u64) -> T
    ensures { UnwrapsOrElse (slice_get s.now i) T.is_default result }
{
    s.get(i as usize).copied().unwrap_or_default()
}

pub fn put<T: Copy>(s: &mut [T], i: u64, x: T) {
    if let Some(cell) = s.get_mut(i as usize) {
        *cell = x;
    }
}

// The cells from one place up to another, as far as the slice has them.
pub fn part<T>(s: &[T], from: u64, past: u64) -> &[T]
    ensures { result.now ≡ slice_range s.now from past }
{
    let past = s.len().min(past as usize);
    s.get(from as usize..past).unwrap_or_default()
}

pub fn put_byte(s: &mut [u8], i: u64, x: u64) {
    put(s, i, (x % 256) as u8);
}

// The sum of numbers below 2^62.
pub fn sum(a: u64, b: u64) -> u64
    ensures { result ≡ sum_of a b }
{
    if a < 1 << 62 && b < 1 << 62 {
        a + b
    } else {
        NONE
    }
}

// The product of a number below 2^48 and one below 2^16.
pub fn product(a: u64, b: u64) -> u64
    ensures { result ≡ product_of a b }
{
    if a < 1 << 48 && b < 1 << 16 {
        a * b
    } else {
        NONE
    }
}

// m cells of one slice from its place `start` on, copied to another from its place `to` on.
pub fn copy<T: Copy + Default>(from: &[T], start: u64, m: u64, dst: &mut [T], to: u64) {
    let rest = from.get(start as usize..).unwrap_or_default();
    if let Some(cells) = dst.get_mut(to as usize..) {
        for (j, cell) in cells.iter_mut().take(m as usize).enumerate() {
            *cell = rest.get(j).copied().unwrap_or_default();
        }
    }
}

pub fn put_five(s: &mut [u64], i: u64, x: u64, y: u64, z: u64, u: u64, v: u64) {
    copy(&[x, y, z, u, v], 0, 5, s, i);
}

// Whether the numbers are keys and strictly rising.
pub fn rising(list: &[u64]) -> bool {
    list.iter().all(|k| *k < KEYS) && list.windows(2).all(|w| w[0] < w[1])
}

// Whether some number is at least k.
pub fn reaches(list: &[u64], k: u64) -> bool {
    list.iter().any(|x| k <= *x)
}

// How many numbers are below k.
pub fn count_below(list: &[u64], k: u64) -> u64 {
    list.iter().filter(|x| **x < k).count() as u64
}
