// Decimal numbers as text: a line of digits read, and a number written out.
#![tactic(auto)]

ghost use Rattle.std.specs.Prelude.{◌≡◌, ◌+◌, ◌≤◌, length};
ghost use Rattle.lists.specs.Over.{over};
ghost use Rattle.text.specs.Lines.{symbol_of, line_at, Inside};
ghost use Rattle.text.specs.Decimal.{width_of, decimal_of};

// The most digits of a line.
pub const DIGITS_MOST: usize = 14;

// What a byte is to a line.
#[derive(Clone, Copy, Debug, PartialEq, Eq)]
pub enum Symbol {
    Digit(u64),
    Newline,
    Other,
}

// What stands at a place of the text.
#[derive(Clone, Copy, Debug, PartialEq, Eq)]
pub enum Line {
    // A number, and the place past its newline.
    Number(u64, usize),
    Bad,
    End,
}

#[tactic(auto, using(crate::proofs::Lines::symbol_cases))]
fn symbol_of(c: u8) -> Symbol
    ensures { result ≡ symbol_of c }
{
    match c {
        b'\n' => Symbol::Newline,
        b'0'..=b'9' => Symbol::Digit(u64::from(c - b'0')),
        _ => Symbol::Other,
    }
}

// The line that starts at `at`. What is longer than a line may be is malformed as soon as that shows.
pub fn line_at(text: &[u8], at: usize) -> Line
    requires { at ≤ length text.now }
    ensures is { result ≡ line_at text.now at }
    ensures inside { Inside (length text.now) result }
{
    if text.len() <= at {
        return Line::End;
    }
    let rest = &text[at..];
    let mut v = 0;
    for (n, c) in rest.iter().enumerate() {
        match symbol_of(*c) {
            Symbol::Newline => {
                if n == 0 {
                    return Line::Bad;
                }
                return Line::Number(v, at + n + 1);
            }
            Symbol::Other => return Line::Bad,
            Symbol::Digit(d) => {
                if DIGITS_MOST <= n {
                    return Line::Bad;
                }
                v = v * 10 + d;
            }
        }
    }
    Line::Bad
}

// How many digits a number takes.
#[tactic(auto, using(crate::proofs::Decimal::width_cases))]
fn width(x: u64) -> usize
    ensures { result ≡ width_of x }
{
    match x.checked_ilog10() {
        Some(power) => power as usize + 1,
        None => 1,
    }
}

// The number's digits over the bytes from `at` on; the place past them.
#[tactic(auto, using(crate::proofs::Decimal::put_cases))]
pub fn put_number(out: &mut [u8], at: usize, x: u64) -> usize
    requires { at + 20 ≤ length out.old }
    ensures past { result ≡ at + length (decimal_of x) }
    ensures written { out.new ≡ over out.old at (decimal_of x) }
{
    let past = at + width(x);
    let mut v = x;
    for p in (at..past).rev() {
        out[p] = b'0' + (v % 10) as u8;
        v /= 10;
    }
    past
}
