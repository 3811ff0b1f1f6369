// How many calls were compared and how many differ, of each kind; and how many gave each answer. What is printed goes through the library `io`, since
// a `println!` can fail, and what prints here cannot.
#![tactic(auto)]

use compare_asked::call::Kind;
use compare_asked::side::Outcome;

// The calls of a kind.
#[derive(Clone, Copy, Default)]
struct Count {
    compared: u64,
    differ: u64,
}

// `kinds` counts by the kind, in its order; `answers` the refusals by their number, 0 being what was accepted, and the last cell all numbers from 15
// on.
#[derive(Clone, Copy, Default)]
pub struct Tally {
    kinds: [Count; 7],
    answers: [u64; 16],
}

// The name of a kind.
fn name(kind: Kind) -> &'static [u8] {
    match kind {
        Kind::Build => b"build",
        Kind::Check => b"check",
        Kind::Lookup => b"lookup",
        Kind::Range => b"range",
        Kind::Insert => b"insert",
        Kind::ImageWriting => b"image writing",
        Kind::ImageReading => b"image reading",
    }
}

// The eight numbers of an answer.
fn write_answer(a: [u64; 8]) {
    for x in a {
        io::write_all(1, b" ");
        io::print_decimal(1, x);
    }
}

// The two answers; where they are the same, that cells differ.
fn write_both(a: [u64; 8], p: [u64; 8]) {
    if a == p {
        io::write_all(1, b" cells; both answer");
        write_answer(a);
        return;
    }
    write_answer(a);
    io::write_all(1, b" but plain");
    write_answer(p);
}

// A difference.
fn write_difference(kind: Kind, round: u64, a: [u64; 8], p: [u64; 8]) {
    io::write_all(1, name(kind));
    io::write_all(1, b" differs, round ");
    io::print_decimal(1, round);
    io::write_all(1, b":");
    write_both(a, p);
    io::write_all(1, b"\n");
}

// How many calls of a kind there were, and how many differ.
fn write_count(kind: Kind, count: Count) {
    io::write_all(1, name(kind));
    io::write_all(1, b" ");
    io::print_decimal(1, count.compared);
    io::write_all(1, b" compared, ");
    io::print_decimal(1, count.differ);
    io::write_all(1, b" differ\n");
}

impl Tally {
    // A call that was made: counted, and printed if it is the first of its kind to differ. `a` is what the store's side came to, `p` the plain one's.
    pub fn report(&mut self, kind: Kind, round: u64, a: &Outcome, p: &Outcome) {
        let number = a.answer[0].min(15) as usize;
        self.answers[number] = self.answers[number].wrapping_add(1);
        let count = &mut self.kinds[kind as usize];
        count.compared = count.compared.wrapping_add(1);
        if a == p {
            return;
        }
        count.differ = count.differ.wrapping_add(1);
        if count.differ == 1 {
            write_difference(kind, round, a.answer, p.answer);
        }
    }

    // The whole tally.
    pub fn write_all(&self) {
        for (kind, count) in Kind::ALL.iter().zip(&self.kinds) {
            write_count(*kind, *count);
        }
        io::write_all(1, b"accepted: ");
        io::print_decimal(1, self.answers[0]);
        for (number, count) in (1..11).zip(&self.answers[1..11]) {
            io::write_all(1, b", refused ");
            io::print_decimal(1, number);
            io::write_all(1, b": ");
            io::print_decimal(1, *count);
        }
        io::write_all(1, b"\n");
    }
}
