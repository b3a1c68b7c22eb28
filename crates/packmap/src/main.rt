// packmap: a job text on standard input, its listing on standard output; a refusal prints one line: refused, number, line.
#![tactic(auto)]

ghost use Rattle.std.specs.Prelude.{◌≤◌, ◌≡◌, [], ◌∷◌, length, pos};
ghost use Rattle.definitions.specs.Job.{most_bytes, prints};
ghost use Rattle.text_model.specs.Writing.{Wrote};
ghost use Rattle.packmap.specs.Printed.{refusal_line};

use text_read_job::MOST_BYTES;

// The file descriptors of standard input and output. Both go by `io`: what std has for them asks for a handle, and HANDLES allows none.
const STDIN_FILENO: i32 = 0;

const STDOUT_FILENO: i32 = 1;

fn refusal_numbers(number: u32, line: u32) -> [i64; 2]
    ensures { result ≡ pos number ∷ pos line ∷ [] }
{
    [i64::from(number), i64::from(line)]
}

// The line of a refusal.
fn put_refusal(number: u32, line: u32, out: &mut [u8]) -> usize
    requires { most_bytes ≤ length out.old }
    ensures written { Wrote (refusal_line number line) out.old out.new result }
    ensures short { result ≤ most_bytes }
{
    let numbers = refusal_numbers(number, line);
    text_format::put_line(b"refused", &numbers, out)
}

// What is printed for a text, at the front of the buffer.
fn answer(text: &[u8], out: &mut [u8]) -> usize
    requires { most_bytes ≤ length out.old }
    ensures written { Wrote (prints text.now) out.old out.new result }
    ensures short { result ≤ most_bytes }
{
    match job_call::run(text, out) {
        Ok(length) => length,
        Err(why) => put_refusal(why.number(), why.line() as u32, out),
    }
}

// One byte more than a text may have is enough to tell that it is too long; what follows is not read.
fn main() {
    let mut text: [u8; MOST_BYTES + 1] = [0; MOST_BYTES + 1];
    let mut out: [u8; MOST_BYTES] = [0; MOST_BYTES];
    let length = io::read_full(STDIN_FILENO, &mut text);
    let printed = answer(&text[..length], &mut out);
    io::write_all(STDOUT_FILENO, &out[..printed]);
}
