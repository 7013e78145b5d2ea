// The evening program: reads one sheet from standard input and prints what judging it with 4,096 words says.
#![tactic(auto)]

ghost use Rattle.std.specs.Prelude.{◌≡◌, ◌≤◌, ◌<◌, length, IfOk};
ghost use Rattle.std.specs.Io.KnownBytes.{Consumes, IsAtEnd};
ghost use Rattle.console.specs.Output.{handed};
ghost use Rattle.report.specs.Lines.{printed};
ghost use Rattle.evening.specs.Sheet.{most, answered};

use arrayvec::ArrayVec;
use console::{Printed, complain};
use std::io;
use std::io::{Read, Stdout};

// Reads the sheet, as much of the input as a sheet may have and one byte more: of a reader whose bytes are known the next ones, in
// order, and fewer only if the input ends there.
// The length is a clause, not `[u8; 766]`, so that a buffer for more bytes fails a proof and not only a type.
fn read_sheet<'a, R: Read>(from: &mut R, buffer: &'a mut [u8]) -> io::Result<&'a [u8]>
    requires { length buffer.old ≡ most }
    ensures bound { IfOk result (λ sheet. length sheet.now ≤ most) }
    ensures bytes { IfOk result (λ sheet. Consumes (R.remaining from.old) (R.remaining from.new) sheet.now) }
    ensures end { IfOk result (λ sheet. length sheet.now < most → IsAtEnd (R.remaining from.new)) }
{
    let n = console::read_all(from, buffer)?;
    Ok(&buffer[..n])
}

// The lines of a sheet, judged with 4,096 words.
fn lines(sheet: &[u8]) -> ArrayVec<u8, 208>
    ensures { result.items ≡ printed sheet.now }
{
    let mut set = [0u64; 4096];
    let mut out = ArrayVec::new();
    report::evening(sheet, &mut set, &mut out);
    out
}

// The lines of what was read; none where a read failed.
fn answer(input: io::Result<&[u8]>) -> ArrayVec<u8, 208>
    ensures { result.items ≡ answered input.entry }
{
    match input {
        Ok(sheet) => lines(sheet),
        Err(_) => ArrayVec::new(),
    }
}

// Prints the lines of what was read.
fn print(stdout: &Stdout, input: io::Result<&[u8]>) -> Printed<208>
    ensures { handed result ≡ answered input.entry }
{
    console::print(stdout, answer(input))
}

// What is read no contract can say, and `main` answers nothing: held by process tests alone.
fn main(rt: HostRuntime) {
    let mut buffer = [0u8; 766];
    let input = read_sheet(&mut rt.stdin(), &mut buffer);
    let printed = print(&rt.stdout(), input);
    let stderr = rt.stderr();
    if input.is_err() {
        complain(&stderr, b"evening: standard input cannot be read\n");
    }
    if !printed.whole {
        complain(&stderr, b"evening: standard output cannot be written\n");
    }
}
