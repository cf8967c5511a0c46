// Both sides of every edge of document 01, and each refusal at its first and at its last place. A line of standard input is a test:
// its group, and the numbers that make it, which the line with # above the group names. It is printed with what was answered.
#![tactic(auto)]

mod bytes;
mod job;
mod lines;
mod output;
mod packing;
mod reading;
mod shape;
mod show;
mod unpacking;

ghost use Rattle.std.specs.Prelude.{◌≤◌, length};

use crate::job::Job;
use crate::lines::{Test, last_number, numbers};
use crate::output::Output;
use crate::show::Answer;
use std::io;
use std::io::{Read, Write};
use std::rt::Stdin;

fn answer(test: Test, line: &[u8], job: &mut Job) -> Answer {
    match test {
        Test::Length => reading::length(job, last_number(line)),
        Test::Sized => reading::sized(job, numbers(line)),
        Test::AllZeroBlock => reading::all_zero(job, numbers(line)),
        Test::Flipped => reading::flipped(job, numbers(line)),
        Test::Exchanged => reading::exchanged(job, numbers(line)),
        Test::Edited(shape) => reading::edited(job, shape, numbers(line)),
        Test::EditedTwice(shape) => reading::edited_twice(job, shape, numbers(line)),
        Test::WrongFrom => reading::wrong_from(job, last_number(line)),
        Test::Record(kind) => reading::record(job, kind, numbers(line)),
        Test::PackVariables => packing::zeros(last_number(line), [8, 0, 0, 1024]),
        Test::Pack => {
            let [k, nodes, expressions, clauses, room] = numbers::<5>(line);
            packing::zeros(usize::from(k), [nodes, expressions, clauses, room])
        }
        Test::Repack => packing::repacked(job, numbers(line)),
        Test::Flag => packing::flag(job),
        Test::Unpack => unpacking::unpacked(job, numbers(line)),
    }
}

// Prints a line and its answer; a line with # as it stands, and one that asks nothing with no end.
fn tell(to: &mut Output<'_>, line: &[u8], job: &mut Job) -> io::Result<()> {
    to.write_all(line)?;
    if line.starts_with(b"#") {
        return writeln!(to);
    }
    write!(to, ":")?;
    match Test::of(line) {
        Some(test) => writeln!(to, "{}", answer(test, line, job)),
        None => Ok(()),
    }
}

// The job is built anew for each test but `wrong-from`, which goes on with that of the line before.
fn run(to: &mut Output<'_>, tests: &[u8], job: &mut Job) {
    // the last line ends at the last byte, whatever that is
    let Some((_, lines)) = tests.split_last() else {
        return;
    };
    for line in lines.split(|b| *b == b'\n') {
        let _ = tell(to, line, job);
    }
}

// Reads until the buffer is full, the input ends or it cannot be read, and says how many bytes came. How often, only the input knows.
fn read_full(input: &mut Stdin, buffer: &mut [u8]) -> usize
    ensures { result ≤ length buffer.old }
{
    let mut done: usize = 0;
    while done < buffer.len()
        && let Ok(more @ 1..) = input.read(&mut buffer[done..])
    {
        done += more;
    }
    done
}

fn main(rt: HostRuntime) {
    let mut tests = [0u8; 16384];
    let size = read_full(&mut rt.stdin(), &mut tests);
    run(
        &mut Output(&mut rt.stdout()),
        &tests[..size],
        &mut Job::new(),
    );
}
