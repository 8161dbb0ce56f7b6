// The program of the bench sheet: reads a list of commands, each led by its length in 2 bytes, and prints a line for each.
#![tactic(auto)]

ghost use Rattle.std.specs.Prelude.{◌≤◌, ◌≡◌, length, IfOk};
ghost use Rattle.rules.specs.Program.{printed};

use std::io;
use std::io::{Read, Write};

// One byte above the most that is read is enough to know that a list is too long.
const INPUT: usize = 16385;

// Above what 16,384 bytes can have printed: 3,011 bytes for each get of 1,500, which takes 12.
const OUTPUT: usize = 4112384;

// Reads until the input ends or the buffer is full, and answers how many bytes there are.
fn read_full(rt: &HostRuntime, input: &mut [u8]) -> io::Result<usize>
    ensures { IfOk result (λ n. n ≤ length input.new) }
{
    let mut stdin = rt.stdin();
    let mut n = 0;
    // How far it goes is what each read answers.
    while n < input.len() {
        let more = stdin.read(&mut input[n..])?;
        if more == 0 {
            return Ok(n);
        }
        n += more;
    }
    Ok(n)
}

// Writes what is printed for an input, whole.
fn write_printed(rt: &HostRuntime, input: &[u8], text: &[u8]) -> io::Result<()>
    requires { text.now ≡ printed input.now }
{
    rt.stdout().write_all(text)
}

fn run(rt: &HostRuntime, output: &mut [u8]) -> io::Result<()>
    requires { 4112384 ≤ length output.old }
{
    let mut input = [0u8; INPUT];
    let n = read_full(rt, &mut input)?;
    let count = listing::print_all(&input[..n], output);
    write_printed(rt, &input[..n], &output[..count])
}

fn main(rt: HostRuntime) -> io::Result<()> {
    let mut output = [0u8; OUTPUT];
    run(&rt, &mut output)
}
