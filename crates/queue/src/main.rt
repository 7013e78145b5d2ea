// The six o'clock queue: judges the sheets of a queue on standard input, prints a line for each as soon as it is judged, then the
// totals.
#![tactic(auto)]

ghost use Rattle.std.specs.Prelude.{◌<◌, length, IfOk};
ghost use Rattle.std.specs.Io.KnownBytes.{Consumes, IsAtEnd};
ghost use Rattle.queue.specs.Queue.{kind_of};
ghost use Rattle.queue.specs.Steps.{wanted, ReadsStep, bytes_read, Takes, Turns, Served};

use crate::lines::Line;
use crate::steps::{Stepped, step, wanted};
use crate::totals::Totals;
use console::{Printed, complain, read_all};
use std::io;
use std::io::{Read, Stderr, Stdout};

mod lines;
mod slots;
mod steps;
mod totals;

#[derive(Drop)]
pub struct Turned {
    // The totals that follow, if there is more to come.
    pub next: Option<Totals>,
    pub printed: Printed<160>,
}

// Reads what the next step wants into the buffer, a kind and then what stands behind it: of a reader whose bytes are known the next
// ones, in order, and fewer only if the input ends there. Which bytes standard input brings no contract can say, and process tests
// alone hold it.
fn read_step<'a, R: Read>(
    from: &mut R,
    buffer: &'a mut [u8; 768],
    sheets: u64,
) -> io::Result<&'a [u8]>
    ensures bound { ReadsStep sheets result }
    ensures bytes { IfOk result (λ bytes. Consumes (R.remaining from.old) (R.remaining from.new) bytes.now) }
    ensures end { IfOk result (λ bytes. length bytes.now < wanted sheets (kind_of bytes.now) → IsAtEnd (R.remaining from.new)) }
{
    let first = read_all(from, &mut buffer[..1])?;
    if first == 0 {
        return Ok(&buffer[..0]);
    }
    let all = wanted(sheets, buffer[0]);
    let rest = read_all(from, &mut buffer[1..all])?;
    Ok(&buffer[..1 + rest])
}

// Takes the step of what was read; nothing follows a read that failed, and it has no line.
fn take_step(t: Totals, input: io::Result<&[u8]>, set: &mut [u64; 4096]) -> Stepped
    ensures { Takes t (bytes_read input.entry) set.old set.new result }
{
    match input {
        Ok(bytes) => step(t, bytes, set),
        Err(_) => Stepped {
            next: None,
            line: Line::new(),
        },
    }
}

// Tells what the system refused.
fn tell(stderr: &Stderr, input: io::Result<&[u8]>, whole: bool) {
    if input.is_err() {
        complain(stderr, b"queue: standard input cannot be read\n");
    }
    if !whole {
        complain(stderr, b"queue: standard output cannot be written\n");
    }
}

// Takes the step of what was read and prints its line; nothing follows a line that is not written whole.
fn turn(
    stdout: &Stdout,
    stderr: &Stderr,
    t: Totals,
    input: io::Result<&[u8]>,
    set: &mut [u64; 4096],
) -> Turned
    ensures { Turns t (bytes_read input.entry) set.old set.new result }
{
    let stepped = take_step(t, input, set);
    let next = stepped.next;
    let printed = console::print(stdout, stepped.line);
    let whole = printed.whole;
    tell(stderr, input, whole);
    Turned {
        next: if whole { next } else { None },
        printed,
    }
}

// Takes turns until there is nothing more to come, and answers the last. What each read brings no contract can say: that the
// turns read the input one piece after another is held by process tests alone.
fn serve<R: Read>(
    from: &mut R,
    stdout: &Stdout,
    stderr: &Stderr,
    buffer: &mut [u8; 768],
    set: &mut [u64; 4096],
) -> Turned
    ensures { Served result }
{
    let mut t = Totals::default();
    loop {
        let input = read_step(from, buffer, t.sheets);
        let turned = turn(stdout, stderr, t, input, set);
        let Some(next) = turned.next else {
            return turned;
        };
        t = next;
    }
}

// `main` answers nothing: that it serves is held by process tests alone.
fn main(rt: HostRuntime) {
    let mut buffer = [0u8; 768];
    let mut set = [0u64; 4096];
    serve(
        &mut rt.stdin(),
        &rt.stdout(),
        &rt.stderr(),
        &mut buffer,
        &mut set,
    );
}
