// The program `cut` as a function: from the bytes of its input to the bytes of its output.
#![tactic(auto)]

ghost use Rattle.std.specs.Prelude.{◌≡◌, ◌≤◌, length, replicate, IfOk};
ghost use Rattle.lists.specs.Over.{over};
ghost use Rattle.cut_program.specs.Output.{shown_of, output_of};

use terms::{Refusal, Sizes};

// The list is read, and its keys are cut into the table. The working area is for 512 keys, 512 segments and 2,048 buffer slots.
fn cut_list(text: &[u8], table: &mut [u64; 2560]) -> Result<Sizes, Refusal>
    requires { table.old ≡ replicate 2560 0 }
    ensures shown { shown_of result table.new ≡ output_of text.now }
    ensures few { IfOk result (λ z. z.s ≤ 512) }
{
    let mut keys = [0; 512];
    let buffers = [0; 2048];
    let listed = cut_input::read_list(text, &mut keys)?;
    let s = build::build(listed.e, listed.b, listed.n, &keys, table, &buffers)?;
    Ok(Sizes {
        e: listed.e,
        b: listed.b,
        n: listed.n,
        s,
    })
}

// What is cut is put out, or why it is refused.
pub fn run(text: &[u8], out: &mut [u8]) -> usize
    requires { 53880 ≤ length out.old }
    ensures past { result ≡ length (output_of text.now) }
    ensures short { result ≤ 53880 }
    ensures written { out.new ≡ over out.old 0 (output_of text.now) }
{
    let mut table = [0; 2560];
    match cut_list(text, &mut table) {
        Ok(z) => cut_output::put_report(out, z, &table),
        Err(r) => cut_output::put_refusal(out, r),
    }
}
