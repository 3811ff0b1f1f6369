// The program's library on the inputs that are easy to get wrong; what it puts out is compared with the file `stdout`.
#![tactic(auto)]

ghost use Rattle.std.specs.Prelude.{◌≤◌};

fn show(text: &[u8]) {
    let mut out = [0u8; 53880];
    let length = cut_program::run(text, &mut out);
    io::write_all(1, &out[..length]);
}

// A digit of a number, as a byte.
fn digit(x: usize) -> u8 {
    b'0' + (x % 10) as u8
}

// e = 16, B = 4 and `count` of the keys 1000, 1001, .., up to the byte `end`; `odd` is put in the place of the last byte but one.
fn show_many(count: usize, end: usize, odd: u8)
    requires { (2 ≤ end) × (end ≤ 2600) }
{
    let mut text = [0u8; 2600];
    text[..5].copy_from_slice(b"16\n4\n");
    for (i, line) in text[5..].chunks_exact_mut(5).take(count).enumerate() {
        line.copy_from_slice(&[b'1', digit(i / 100), digit(i / 10), digit(i), b'\n']);
    }
    text[end - 2] = odd;
    show(&text[..end]);
}

// Lines that are missing, or that are no line.
fn lines() {
    // nothing at all
    show(b"");
    // B is missing
    show(b"1\n");
    // no keys
    show(b"1\n2\n");
    // no newline at the end
    show(b"1\n2\n5");
    // carriage returns
    show(b"1\r\n2\r\n5\r\n");
    // a blank line
    show(b"1\n2\n\n5\n");
    // signs
    show(b"1\n2\n-5\n");
    show(b"1\n2\n+5\n");
    // a space
    show(b"1\n2\n 5\n");
}

// How many digits, and how large a number.
fn numbers() {
    // 15 digits
    show(b"1\n2\n100000000000000\n");
    // 14 digits above the limit
    show(b"1\n2\n99999999999999\n");
    // the limit, and the last key below it
    show(b"1\n2\n17592186044415\n17592186044416\n");
    show(b"1\n2\n17592186044415\n");
    // leading zeros
    show(b"1\n2\n00000000000005\n");
    // a key again
    show(b"1\n2\n10\n20\n30\n40\n40\n");
    // a malformed line decides before e, B and the keys are judged
    show(b"1025\n0\n9\n9\nx\n");
    // e and B out of their limits
    show(b"1025\n2\n5\n");
    show(b"1\n0\n5\n");
    show(b"1\n65\n5\n");
}

// P1 to P8.
fn worked_runs() {
    show(b"0\n1\n0\n1\n3\n");
    show(b"0\n1\n0\n1\n2\n");
    show(b"1\n1\n0\n1\n2\n6\n");
    show(b"1\n1\n0\n1\n2\n7\n");
    show(b"1\n1\n0\n1\n2\n7\n8\n");
    show(b"1\n1\n0\n10\n11\n12\n");
    show(b"1024\n64\n7\n");
    show(b"2\n2\n10\n20\n30\n100\n110\n120\n");
}

// Segment room.
fn rooms() {
    // 32 segments fill 2,048 slots of 64, and a 33rd has no room
    show(
        b"0\n64\n0\n1\n4\n9\n16\n25\n36\n49\n64\n81\n100\n121\n144\n169\n196\n225\n256\n289\n324\n361\n400\n441\n484\n529\n576\n625\n676\n729\n784\n841\n900\n961\n1024\n1089\n1156\n1225\n1296\n1369\n1444\n1521\n1600\n1681\n1764\n1849\n1936\n2025\n2116\n2209\n2304\n2401\n2500\n2601\n2704\n2809\n2916\n3025\n3136\n3249\n3364\n3481\n3600\n3721\n3844\n3969\n",
    );
    show(
        b"0\n64\n0\n1\n4\n9\n16\n25\n36\n49\n64\n81\n100\n121\n144\n169\n196\n225\n256\n289\n324\n361\n400\n441\n484\n529\n576\n625\n676\n729\n784\n841\n900\n961\n1024\n1089\n1156\n1225\n1296\n1369\n1444\n1521\n1600\n1681\n1764\n1849\n1936\n2025\n2116\n2209\n2304\n2401\n2500\n2601\n2704\n2809\n2916\n3025\n3136\n3249\n3364\n3481\n3600\n3721\n3844\n3969\n4096\n",
    );
}

fn main() {
    lines();
    numbers();
    worked_runs();
    rooms();
    // 512 keys; a 513th, sound; a 513th, malformed; a 513th with no newline; malformed after the 513th
    show_many(512, 2565, b'1');
    show_many(513, 2570, b'2');
    show_many(513, 2570, b'x');
    show_many(513, 2569, b'2');
    show_many(514, 2575, b'x');
}
