// Numbers in bytes, lowest byte first, of any width up to 8: one function each way, with the width a number.
#![tactic(auto)]

ghost use Rattle.std.specs.Prelude.{◌≡◌, ◌+◌, ◌^◌, ◌<◌, ltb};
ghost use Rattle.lists.specs.Over.{over, Space};
ghost use Rattle.image_little.specs.Little.{Read, number_bytes, get_at};

// Whether a number fits in `width` bytes.
pub fn fits(x: u64, width: usize) -> bool
    ensures { result ≡ ltb x (256 ^ width) }
{
    let mut v = x;
    for _ in 0..width {
        v /= 256;
    }
    v == 0
}

// Writes the lowest `width` bytes of x from `at` on, lowest first.
pub fn put(dst: &mut [u8], at: usize, width: usize, x: u64)
    requires { Space dst.old at width }
    ensures { dst.new ≡ over dst.old at (number_bytes width x) }
{
    let mut v = x;
    for i in 0..width {
        dst[at + i] = (v % 256) as u8;
        v /= 256;
    }
}

// The number whose `width` bytes stand from `at` on, lowest first.
pub fn get(src: &[u8], at: usize, width: usize) -> u64
    requires { Read src.now at width }
    ensures { result ≡ get_at src.now at width }
{
    let mut v = 0;
    for i in (0..width).rev() {
        v = v * 256 + u64::from(src[at + i]);
    }
    v
}
