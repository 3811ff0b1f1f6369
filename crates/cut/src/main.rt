#![tactic(auto)]

// cut: reads e, B and the keys, one a line, from standard input; prints the counts and one line per segment, or the refusal.
// All that it decides is in the library `cut_program`. The first 7,725 bytes of the input decide, so a buffer of as many and one loses nothing.
// It reads and prints by the library `io`, which takes a file's number (docs/DECISIONS.md, 47).
fn main() {
    let mut text = [0u8; 7726];
    let got = io::read_full(0, &mut text);
    let mut out = [0u8; 53880];
    let length = cut_program::run(&text[..got], &mut out);
    io::write_all(1, &out[..length]);
}
