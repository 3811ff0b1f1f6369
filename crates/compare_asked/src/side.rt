// The two sides, and what one of them came to.
use crate::call::{Change, Query};
use compare_draws::store::{Lent, LentMut, Store};

// The bytes of an image, as many as are ever lent.
pub type Image = [u8; 6600];

// What answers a call, in the eight numbers that the C interface gives, of slices as they are lent.
pub trait Side {
    fn write_to(change: Change, x: LentMut<'_>, image: &[u8]) -> [u64; 8];

    fn read_from(query: Query, x: Lent<'_>, out: &mut [u64], image: &mut [u8]) -> [u64; 8];
}

// A side's answer, and every cell and byte that a call may write: the store as it left it, and what it wrote beside it.
#[derive(Clone, Copy, PartialEq, Eq)]
pub struct Outcome {
    pub answer: [u64; 8],
    pub store: Store,
    pub out: [u64; 512],
    pub image: Image,
}
