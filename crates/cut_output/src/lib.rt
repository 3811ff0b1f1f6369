// What the program prints: the counts and one line per segment, or the refusal.
#![tactic(auto)]

ghost use Rattle.std.specs.Prelude.{◌≡◌, ◌+◌, ◌*◌, ◌≤◌, [], ◌∷◌, length};
ghost use Rattle.lists.specs.Over.{over};
ghost use Rattle.text.specs.Decimal.{decimal_of};
ghost use Rattle.cut_output.specs.Report.{Named, Cells, Report, closing_of, named_of, counts_of, cells_of, report_of, refusal_of};

use terms::{Refusal, Sizes};

// The byte after a cell: five to a line.
#[tactic(auto, using(crate::proofs::Laws::closing_cases))]
fn closing(p: usize) -> u8
    ensures { result ≡ closing_of p }
{
    if p % 5 == 4 { b'\n' } else { b' ' }
}

// The bytes that are written to, and the place past those that are written.
#[derive(Drop)]
struct Sheet<'a> {
    out: &'a mut [u8],
    at: usize,
}

impl<'a> Sheet<'a> {
    // The bytes of a word.
    fn word(&mut self, word: &[u8])
        requires { self.old.at + length word.now ≤ length self.old.out.now }
        ensures same { self.new.out.ghost_name ≡ self.old.out.ghost_name }
        ensures past { self.new.at ≡ self.old.at + length word.now }
        ensures written { self.new.out.now ≡ over self.old.out.now self.old.at word.now }
    {
        let past = self.at + word.len();
        self.out[self.at..past].copy_from_slice(word);
        self.at = past;
    }

    // A number's digits.
    fn number(&mut self, x: u64)
        requires { self.old.at + 20 ≤ length self.old.out.now }
        ensures same { self.new.out.ghost_name ≡ self.old.out.ghost_name }
        ensures past { self.new.at ≡ self.old.at + length (decimal_of x) }
        ensures written { self.new.out.now ≡ over self.old.out.now self.old.at (decimal_of x) }
    {
        self.at = text::put_number(self.out, self.at, x);
    }

    // A byte.
    fn byte(&mut self, c: u8)
        requires { self.old.at + 1 ≤ length self.old.out.now }
        ensures same { self.new.out.ghost_name ≡ self.old.out.ghost_name }
        ensures past { self.new.at ≡ self.old.at + 1 }
        ensures written { self.new.out.now ≡ over self.old.out.now self.old.at (c ∷ []) }
    {
        self.out[self.at] = c;
        self.at += 1;
    }

    // A word and the number after it.
    fn named(&mut self, word: &[u8], x: u64)
        requires { Named self.old.out.now self.old.at word.now }
        ensures same { self.new.out.ghost_name ≡ self.old.out.ghost_name }
        ensures past { self.new.at ≡ self.old.at + length (named_of word.now x) }
        ensures written { self.new.out.now ≡ over self.old.out.now self.old.at (named_of word.now x) }
    {
        self.word(word);
        self.number(x);
    }

    // `n=6 s=2 e=1 b=2`, and the end of the line.
    fn counts(&mut self, z: Sizes)
        requires { self.old.at + 120 ≤ length self.old.out.now }
        ensures same { self.new.out.ghost_name ≡ self.old.out.ghost_name }
        ensures past { self.new.at ≡ self.old.at + length (counts_of z.n z.s z.e z.b) }
        ensures written { self.new.out.now ≡ over self.old.out.now self.old.at (counts_of z.n z.s z.e z.b) }
    {
        self.named(b"n=", z.n as u64);
        self.named(b" s=", z.s as u64);
        self.named(b" e=", z.e as u64);
        self.named(b" b=", z.b as u64);
        self.byte(b'\n');
    }

    // The cells of the table's entries, five to a line.
    fn cells(&mut self, table: &[u64])
        requires { Cells self.old.out.now self.old.at table.now }
        ensures same { self.new.out.ghost_name ≡ self.old.out.ghost_name }
        ensures past { self.new.at ≡ self.old.at + length (cells_of table.now 0 (length table.now)) }
        ensures written { self.new.out.now ≡ over self.old.out.now self.old.at (cells_of table.now 0 (length table.now)) }
    {
        for (p, x) in table.iter().enumerate() {
            self.number(*x);
            self.byte(closing(p));
        }
    }

    // The counts, and a line for each segment.
    fn report(&mut self, z: Sizes, table: &[u64])
        requires blank { self.old.at ≡ 0 }
        requires asked { Report self.old.out.now z.s table.now }
        ensures same { self.new.out.ghost_name ≡ self.old.out.ghost_name }
        ensures past { self.new.at ≡ length (report_of z.n z.s z.e z.b table.now) }
        ensures written { self.new.out.now ≡ over self.old.out.now 0 (report_of z.n z.s z.e z.b table.now) }
    {
        self.counts(z);
        self.cells(&table[..5 * z.s]);
    }

    // `refused 3 at 4`, and the end of the line.
    fn refusal(&mut self, r: Refusal)
        requires blank { self.old.at ≡ 0 }
        requires room { 60 ≤ length self.old.out.now }
        ensures same { self.new.out.ghost_name ≡ self.old.out.ghost_name }
        ensures past { self.new.at ≡ length (refusal_of r) }
        ensures written { self.new.out.now ≡ over self.old.out.now 0 (refusal_of r) }
    {
        self.named(b"refused ", terms::number(r));
        self.named(b" at ", terms::place(r) as u64);
        self.byte(b'\n');
    }
}

// `refused 3 at 4`
pub fn put_refusal(out: &mut [u8], r: Refusal) -> usize
    requires { 60 ≤ length out.old }
    ensures past { result ≡ length (refusal_of r) }
    ensures written { out.new ≡ over out.old 0 (refusal_of r) }
{
    let mut sheet = Sheet { out, at: 0 };
    sheet.refusal(r);
    sheet.at
}

// The counts, and a line for each segment.
pub fn put_report(out: &mut [u8], z: Sizes, table: &[u64]) -> usize
    requires { Report out.old z.s table.now }
    ensures past { result ≡ length (report_of z.n z.s z.e z.b table.now) }
    ensures written { out.new ≡ over out.old 0 (report_of z.n z.s z.e z.b table.now) }
{
    let mut sheet = Sheet { out, at: 0 };
    sheet.report(z, table);
    sheet.at
}
