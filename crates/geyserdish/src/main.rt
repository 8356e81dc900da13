// The job program: reads a job's text from standard input and prints its answer on standard output.
//
// It reads to the end of the input, or until it has 4,096 bytes, which is more than any job's text has: the crate job proves that these
// bytes decide what is printed. A read that fails counts as the end of the input, and a write that fails ends the program.
#![tactic(auto)]

ghost use Rattle.std.specs.Prelude.{◌≤◌, length};

use std::io::{Input, Read, Write};

fn main(rt: HostRuntime) {
    let mut input = [0u8; 4096];
    let length = read_front(&mut rt.stdin(), &mut input);
    let mut output = [0u8; job::LONGEST];
    let printed = job::run_job(&input[..length], &mut output);
    let _ = rt.stdout().write_all(&output[..printed]);
}

// Reads until the buffer is full, the input ends or a read fails, and answers how many bytes it put
// at the front of the buffer. A loop by hand: std's read_to_end wants a heap, and read_exact says
// nothing of an input that is shorter.
fn read_front<R: Read>(input: &mut R, buffer: &mut [u8]) -> usize
    ensures { result ≤ length buffer.new }
{
    let mut done: usize = 0;
    while done < buffer.len() {
        match input.read(&mut buffer[done..]) {
            Ok(count) => {
                if count == 0 {
                    break;
                }
                done = done + count;
            }
            Err(_) => break,
        }
    }
    done
}
