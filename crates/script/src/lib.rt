// 01's program as a function of bytes: the text of a stream in, the bytes to print out.
#![tactic(auto)]

ghost use Rattle.std.specs.Prelude.{◌≡◌, ◌*◌, ◌/◌, ◌≤◌, length};
ghost use Rattle.script.specs.Answers.{five, Put, Answers};
ghost use Rattle.script.specs.Parts.{Wrote, PutTree, Reading};

use lines::LINE;
use parser::{ACCEPTED, Answer};
use stream::refusals::Fault;

// 1,024 tokens and an end
const MOST: usize = 1025;

const ANSWER: usize = 45;

const MALFORMED: u64 = Fault::Malformed as u64;

// The five numbers of an answer, where there is room for them; how many bytes they take.
fn put_answer(a: Answer, out: &mut [u8]) -> usize
    ensures { Put (five a) out.old out.new result }
{
    if out.len() >= ANSWER {
        lines::write_answer(out, a.numbers());
    }
    ANSWER
}

// The records in these words, a line each, as far as they fit.
fn write_tree(words: &[u64], out: &mut [u8])
    requires { (length words.now / 4 * 4 ≡ length words.now) × (length words.now ≤ 8192) }
    ensures { Wrote words.now out.old out.new }
{
    let (records, _) = words.as_chunks::<4>();
    for (i, record) in records.iter().enumerate() {
        lines::write_line(out, i * LINE, *record);
    }
}

// The lines of a tree's words, where there is room for them; how many bytes they take.
fn put_tree(words: &[u64], out: &mut [u8]) -> usize
    requires { (length words.now / 4 * 4 ≡ length words.now) × (length words.now ≤ 8192) }
    ensures { PutTree words.now out.old out.new result }
{
    let bytes = words.len() / 4 * LINE;
    if out.len() >= bytes {
        write_tree(words, out);
    }
    bytes
}

// The agreed reading of a stream, into 2,048 records.
fn read(stream: &[u64], out: &mut [u8]) -> usize
    ensures { Reading stream.now out.old out.new result }
{
    let mut nodes = [0u64; 8192];
    let a = agreed::agreed_reading(stream, &mut nodes);
    if a.number == ACCEPTED {
        put_tree(&nodes[..a.count], out)
    } else {
        put_answer(a, out)
    }
}

// What is printed for a text stands at the front of `out`, where there is room for it; how many bytes it takes.
pub fn answer(text: &[u8], out: &mut [u8]) -> usize
    ensures { Answers text.now out.old out.new result }
{
    let mut stream = [0u64; 4100];
    match lines::read_lines(text, &mut stream, MOST) {
        Ok(n) => read(&stream[..n * 4], out),
        Err(bad) => put_answer(
            Answer {
                number: MALFORMED,
                line: 0,
                found: bad.index,
                expected: 0,
                count: 0,
            },
            out,
        ),
    }
}
