// The runner: reads a start line and a program written as text from standard input, or from the file that its argument names, runs it, and prints the report; of
// a file that is refused a person's message goes to standard error. No contract can say which bytes the system gives or takes: what is read is said of readers
// whose bytes are known, and what is written is made by `report_input`.
#![tactic(auto)]

ghost use Rattle.std.specs.Prelude.{IfOk};
ghost use Rattle.runner.specs.Input.{ReadsFront, ReportsInput};

use image_run::Output;
use std::alloc::Global;
use std::env;
use std::fs::File;
use std::io::Read;

const STDOUT: i32 = 1;

const STDERR: i32 = 2;

// Reads until the text is full or the input ends, and answers how much was read. Counted by hand: read_exact fails where the input ends first,
// and read_to_end fills a Vec.
fn read_all<R: Read>(from: &mut R, text: &mut [u8]) -> std::io::Result<usize>
    ensures { IfOk result (ReadsFront (R.remaining from.old) text.new) }
{
    let mut at = 0;
    while at < text.len() {
        let n = from.read(&mut text[at..])?;
        if n == 0 {
            break;
        }
        at += n;
    }
    Ok(at)
}

// What is printed of what `from` gives, one byte more than is allowed, so that a file that is longer is noticed.
fn report_input<R: Read>(from: &mut R) -> std::io::Result<Output>
    ensures { IfOk result (ReportsInput (R.remaining from.old)) }
{
    let mut text = [0u8; 32769];
    let n = read_all(from, &mut text)?;
    Ok(image_run::report_file(&text[..n]))
}

// Prints what is made of what `from` gives, or says on standard error why it could not be read.
fn print_input<R: Read>(alloc: Global, from: &mut R, name: &str) -> std::io::Result<()> {
    match report_input(from) {
        Ok(printed) => {
            io::write_all(STDOUT, printed.out.as_bytes());
            io::write_all(STDERR, printed.err.as_bytes());
            Ok(())
        }
        Err(e) => failure::tell(alloc, name, &e),
    }
}

fn print_file(rt: &HostRuntime, path: &str) -> std::io::Result<()> {
    match File::open(rt, path) {
        Ok(mut file) => print_input(rt.alloc(), &mut file, path),
        Err(e) => failure::tell(rt.alloc(), path, &e),
    }
}

fn main(rt: HostRuntime) -> std::io::Result<()> {
    let mut args = env::args(&rt)?;
    let n = args.len();
    if n <= 1 {
        return print_input(rt.alloc(), &mut rt.stdin(), "standard input");
    }
    if n == 2 {
        args.next();
        if let Some(path) = args.next() {
            return print_file(&rt, path.as_str());
        }
    }
    io::write_all(STDERR, b"usage: runner [FILE]\n");
    Ok(())
}
