// The program's input: e, B, then the keys, one a line.
#![tactic(auto)]

ghost use Rattle.std.specs.Prelude.{◌≡◌, ◌≤◌, length, IfOk};
ghost use Rattle.lists.specs.Over.{over};
ghost use Rattle.text.specs.Lines.{line_at};
ghost use Rattle.cut_input.specs.StartList.{number_at, keys_of, values_of, listed_of, given_of};

use terms::Refusal;
use text::Line;

// The bound, the buffer size and the number of keys.
#[derive(Clone, Copy, Debug, PartialEq, Eq)]
pub struct Listed {
    pub e: usize,
    pub b: usize,
    pub n: usize,
}

// The keys from the line at `at` on, each into its cell: how many there are, or the earliest faulty line. One key more than there are cells is a
// faulty line too.
#[tactic(auto, using(crate::proofs::Laws::keys_cases))]
fn read_keys(text: &[u8], at: usize, keys: &mut [u64]) -> Result<usize, Refusal>
    requires { at ≤ length text.now }
    ensures answered { result ≡ keys_of (length keys.old) text.now at 0 }
    ensures cells { keys.new ≡ over keys.old 0 (values_of (length keys.old) text.now at) }
{
    let mut p = at;
    for (k, cell) in keys.iter_mut().enumerate() {
        match text::line_at(text, p) {
            Line::End => return Ok(k),
            Line::Bad => return Err(Refusal::BadLine(k + 3)),
            Line::Number(v, next) => {
                *cell = v;
                p = next;
            }
        }
    }
    match text::line_at(text, p) {
        Line::End => Ok(keys.len()),
        Line::Bad => Err(Refusal::BadLine(keys.len() + 3)),
        Line::Number(_, _) => Err(Refusal::KeyRoom),
    }
}

// The number on the line at `at`, which must be there, as line l; and the place past it.
fn number_at(text: &[u8], at: usize, l: usize) -> Result<(u64, usize), Refusal>
    requires { at ≤ length text.now }
    ensures is { result ≡ number_at (line_at text.now at) l }
    ensures inside { IfOk result (λ r. r.1 ≤ length text.now) }
{
    match text::line_at(text, at) {
        Line::Number(v, next) => Ok((v, next)),
        Line::Bad | Line::End => Err(Refusal::BadLine(l)),
    }
}

// The whole list. The keys stand in the key slice's first cells.
pub fn read_list(text: &[u8], keys: &mut [u64]) -> Result<Listed, Refusal>
    ensures answered { result ≡ listed_of (length keys.old) text.now }
    ensures cells { keys.new ≡ over keys.old 0 (given_of (length keys.old) text.now) }
{
    let (e, second) = number_at(text, 0, 1)?;
    let (b, third) = number_at(text, second, 2)?;
    let n = read_keys(text, third, keys)?;
    Ok(Listed {
        e: terms::size(e),
        b: terms::size(b),
        n,
    })
}
