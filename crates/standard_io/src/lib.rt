// What programs share: standard input read into a buffer, a report of it printed, and what is said on standard error, after the program's name.
#![tactic(auto)]

ghost use Rattle.std.specs.Prelude.{◌≤◌, length};
ghost use Rattle.standard_io.specs.Input.{Within, ReadsAll};

use std::io;
use std::io::{Cursor, Error, Read, Stdout, Write};

// Reads until the buffer is full, the input ends or a read fails, and gives how many bytes were read. std's `read_exact` does not say how many bytes an
// input had that ends early.
pub fn read_input<R: Read>(input: &mut R, buffer: &mut [u8]) -> io::Result<usize>
    ensures within { Within result (length buffer.new) }
    ensures bytes { ReadsAll (R.remaining input.old) (R.remaining input.new) result buffer.new }
{
    let mut bytes = 0;
    while bytes < buffer.len() {
        match input.read(&mut buffer[bytes..])? {
            0 => break,
            more => bytes += more,
        }
    }
    Ok(bytes)
}

// Whether the file has none of the bytes below 9, which no text has. The second byte of every network is one: its bus count is at most 512.
fn is_text(file: &[u8]) -> bool {
    file.iter().all(|byte| *byte >= b'\t')
}

// Says the parts of a line on standard error. Each is tried, whatever became of those before it.
fn say<W: Write>(errors: &mut W, parts: &[&str]) {
    for part in parts {
        let _ = errors.write_all(part.as_bytes());
    }
}

// Says on standard error what may have gone wrong before, where the file shows it.
fn warn<W: Write>(errors: &mut W, name: &str, file: &[u8]) {
    if file.is_empty() {
        let what = ": the input is empty: what was to write it may have failed\n";
        say(errors, &[name, what]);
    } else if is_text(file) {
        let what =
            ": the input looks like a text: make a network file of it with ./network-file first\n";
        say(errors, &[name, what]);
    }
}

// What std writes behind the words of an error of the system, in front of its number.
const NUMBER: &[u8] = b" (os error ";

// Puts an error's words at the front of a buffer, without its number behind them, and gives how many bytes they have.
fn put_words(error: Error, buffer: &mut [u8]) -> usize
    ensures { result ≤ length buffer.new }
{
    let mut writer = Cursor::new(&mut *buffer);
    let _ = write!(writer, "{error}");
    let end = writer.position() as usize;
    let all = &buffer[..end.min(buffer.len())];
    all.windows(NUMBER.len())
        .position(|bytes| bytes == NUMBER)
        .unwrap_or(all.len())
}

// Says on standard error what failed, and the system's reason.
fn fail<W: Write>(errors: &mut W, name: &str, what: &str, error: Error) {
    let mut words = [0u8; 128];
    let length = put_words(error, &mut words);
    say(errors, &[name, what, ": "]);
    let _ = errors.write_all(&words[..length]);
    say(errors, &["\n"]);
}

// Runs a program on standard input: reads it into a buffer, warns of the network file in it, which begins behind so many bytes, and has the program print
// its answer. An input that is too short for those bytes is taken for a file whole.
pub fn run<F: FnOnce(&[u8], &mut Stdout) -> io::Result<()>>(
    rt: &HostRuntime,
    name: &str,
    ahead: usize,
    buffer: &mut [u8],
    answer: F,
)
    requires { F.IsAlwaysCallable answer }
{
    let mut errors = rt.stderr();
    match read_input(&mut rt.stdin(), buffer) {
        Err(error) => fail(&mut errors, name, ": the input cannot be read", error),
        Ok(bytes) => {
            let input = &buffer[..bytes];
            warn(&mut errors, name, input.get(ahead..).unwrap_or(input));
            if let Err(error) = answer(input, &mut rt.stdout()) {
                fail(
                    &mut errors,
                    name,
                    ": standard output cannot be written",
                    error,
                );
            }
        }
    }
}
