// The check program: reads a job from standard input and prints one line.
#![tactic(auto)]

ghost use Rattle.std.specs.Prelude.{◌≤◌, length, IfOk};
ghost use Rattle.kelpanvil.specs.Told.{Tells};

use lines::{refusal_line, verdict_line};
use runs::check;
use std::io;
use std::io::{Read, Write};
use std::rt::{Stderr, Stdin};

// Reads until the buffer is full or the input ends, and answers how many bytes it read. The size is asked first: `while let` would
// read once more into a full buffer.
fn read_input(input: &mut Stdin, buffer: &mut [u8]) -> io::Result<usize>
    ensures { IfOk result (λ size. size ≤ length buffer.old) }
{
    let mut size = 0;
    while size < buffer.len() {
        match input.read(&mut buffer[size..])? {
            0 => break,
            more => size += more,
        }
    }
    Ok(size)
}

// The line for the bytes of a job, at the front of `out`, and its length.
fn tell(job: &[u8], out: &mut [u8]) -> usize
    ensures { Tells job.now out.old out.new result }
{
    match check(job) {
        Ok(answer) => verdict_line(answer, out),
        Err(refusal) => refusal_line(refusal, out),
    }
}

// What cannot be told on standard error either is told nowhere.
fn complain(mut stderr: Stderr, message: &[u8]) {
    let _ = stderr.write_all(message);
}

fn main(rt: HostRuntime) {
    // One byte more than the longest job: what fills it is too long, however long it is.
    let mut buffer = [0; 16897];
    let Ok(size) = read_input(&mut rt.stdin(), &mut buffer) else {
        return complain(rt.stderr(), b"kelpanvil: standard input cannot be read\n");
    };
    let mut line = [0; 256];
    let length = tell(&buffer[..size], &mut line);
    if rt.stdout().write_all(&line[..length]).is_err() {
        complain(
            rt.stderr(),
            b"kelpanvil: standard output cannot be written\n",
        );
    }
}
