// Standard input, output and error, for the programs.
#![tactic(auto)]

ghost use Rattle.std.specs.Prelude.{◌≡◌, ◌≤◌, ◌<◌, length, take, IfOk};
ghost use Rattle.std.specs.Io.{ReadsAtMost};
ghost use Rattle.std.specs.Io.KnownBytes.{Consumes, IsAtEnd};
ghost use Rattle.console.specs.Input.{next_read_lem};
ghost use Rattle.console.specs.Output.{handed};

use arrayvec::ArrayVec;
use std::io;
use std::io::{Print, Read, Stderr, Stdout};

// What follows a read that did not fail.
#[derive(Clone, Copy)]
enum Next {
    // No more is read: how many bytes were.
    Ended(usize),
    // More is read behind so many bytes.
    Again(usize),
}

// What was handed to standard output: only `print` makes one.
#[derive(Drop)]
pub struct Printed<const N: usize> {
    text: ArrayVec<u8, N>,
    // Did the system take all of it?
    // A flag and no `Result`: the text was handed over in both cases.
    pub whole: bool,
}

// What follows a read behind the bytes that are done, in a buffer of this length. Bytes, or none, are never followed by a failure; a
// read that failed is followed by its own.
#[tactic(auto, unfolding(crate::specs::Input::next_read_lem))]
fn next_read(done: usize, read: io::Result<usize>, room: usize) -> io::Result<Next>
    requires { done ≤ room }
    ensures { result ≡ next_read_lem done read room }
{
    let n = read?;
    if n == 0 {
        return Ok(Next::Ended(done));
    }
    if n < room - done {
        return Ok(Next::Again(done + n));
    }
    Ok(Next::Ended(room))
}

// Reads until the buffer is full, the input ends or a read fails, whatever each read brings. Of a reader whose bytes are known the
// contract says which are read; what each read is taken for, a failure too, `next_read` says. Which bytes standard input brings, and
// that a failure is one of a read, no contract can say; held by process tests alone.
pub fn read_all<R: Read>(from: &mut R, buffer: &mut [u8]) -> io::Result<usize>
    ensures bound { ReadsAtMost result buffer.new }
    ensures bytes { IfOk result (λ n. Consumes (R.remaining from.old) (R.remaining from.new) (take n buffer.new)) }
    ensures end { IfOk result (λ n. n < length buffer.new → IsAtEnd (R.remaining from.new)) }
{
    let mut done = 0;
    // A `while`: each read says how far it went, so no iterator knows the parts of the buffer beforehand.
    while done < buffer.len() {
        let read = from.read(&mut buffer[done..]);
        let next = next_read(done, read, buffer.len())?;
        match next {
            Next::Ended(n) => return Ok(n),
            Next::Again(n) => done = n,
        }
    }
    Ok(done)
}

// Writes a text to standard output. What the system's write takes no contract can say; held by process tests alone.
pub fn print<const N: usize>(stdout: &Stdout, text: ArrayVec<u8, N>) -> Printed<N>
    ensures { handed result ≡ text.entry.items }
{
    let whole = stdout.write_all(&text).is_ok();
    Printed { text, whole }
}

// Writes a text to standard error; there is nobody to tell if that fails.
pub fn complain(stderr: &Stderr, text: &[u8]) {
    let _ = stderr.write_all(text);
}
