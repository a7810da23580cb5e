// Reads streams of records, one after another, and prints what each reading answers: for tests.
//
// A line of standard input is a record in the form of 01's program, and a stream ends with its record of kind 3b. For each stream come
// the crate, the manual and the agreed reading: the tree, a record a line, where there is one, and the five numbers of the answer.
//
// A read or a write that fails ends the program with its error, handed on as it came: no function makes another. What was lent then
// holds what was stored by that time.
#![tactic(auto)]

ghost use Rattle.std.specs.Prelude.{◌≤◌};

use lines::LINE;
use parser::{ACCEPTED, Answer};
use std::io;
use stream::kinds::END_OF_STREAM;
use tree::Record;

// The bytes that are read at a time, whole lines; the words of 2,048 tree records.
const BLOCK: usize = 62320;

// far more than there are blocks in any run
const BLOCKS: u64 = 1000000000;

// One record, in the form in which records are read.
fn print_record(out: &impl Print, record: [u64; 4]) -> io::Result<()> {
    let mut line = [0u8; 38];
    lines::write_line(&mut line, 0, record);
    out.write_all(&line)
}

fn print_tree(out: &impl Print, nodes: &[u64; 8192], count: usize) -> io::Result<()> {
    let (records, _) = nodes.as_chunks::<4>();
    for record in records.iter().take(count / 4) {
        print_record(out, *record)?;
    }
    Ok(())
}

fn print_answer(out: &impl Print, a: Answer) -> io::Result<()> {
    let mut line = [0u8; 45];
    lines::write_answer(&mut line, a.numbers());
    out.write_all(&line)
}

// The pattern that the node array holds before a reading.
fn pattern(i: usize) -> u64 {
    i as u64 ^ 12345678901
}

fn fill(nodes: &mut [u64; 8192]) {
    for (i, word) in nodes.iter_mut().enumerate() {
        *word = pattern(i);
    }
}

// Whether the words from `from` on are as `fill` left them.
fn unchanged(nodes: &[u64; 8192], from: usize) -> bool {
    nodes
        .iter()
        .enumerate()
        .skip(from)
        .all(|(i, word)| *word == pattern(i))
}

fn zeroed(nodes: &[u64; 8192]) -> bool {
    nodes.iter().all(|word| *word == 0)
}

// An answer, and loudly where the array is not as demand 1 promises.
fn tell(out: &impl Print, nodes: &[u64; 8192], a: Answer) -> io::Result<()> {
    if a.number == ACCEPTED {
        print_tree(out, nodes, a.count)?;
        if !unchanged(nodes, a.count) {
            out.write_all(b"WORDS PAST THE COUNT WERE CHANGED\n")?;
        }
    } else {
        if !zeroed(nodes) {
            out.write_all(b"A REFUSAL LEFT WORDS\n")?;
        }
    }
    print_answer(out, a)
}

// Loudly, of a line that is no record's.
fn other_form(out: &impl Print) -> io::Result<()> {
    out.write_all(b"A LINE HAS ANOTHER FORM\n")
}

// A stream as far as it has come, and the room in which it is read.
#[derive(Drop)]
struct Pending {
    stream: [u64; 4100],
    records: usize,
    nodes: [u64; 8192],
    // room for 1,024 tokens and an end
    ghost few: { records ≤ 1025 },
}

impl Pending {
    // The stream is read in three ways, each in the same room, filled anew.
    fn readings(&mut self, out: &impl Print) -> io::Result<()> {
        let stream = &self.stream[..self.records * 4];
        let nodes = &mut self.nodes;
        fill(nodes);
        let a = parser::crate_reading(stream, nodes);
        tell(out, nodes, a)?;
        fill(nodes);
        let b = parser::manual_reading(stream, nodes);
        tell(out, nodes, b)?;
        fill(nodes);
        let c = agreed::agreed_reading(stream, nodes);
        tell(out, nodes, c)
    }

    // One line; at the end of a stream its readings are told, and the next one begins.
    fn take_line(&mut self, out: &impl Print, text: &[u8]) -> io::Result<()> {
        let mut record = [0u64; 4];
        let Ok(1) = lines::read_lines(text, &mut record, 1) else {
            return other_form(out);
        };
        let [kind, value, line, size] = record;
        if self.records < 1025 {
            let record = Record {
                tag: kind,
                value,
                line,
                size,
            };
            tree::put(&mut self.stream, self.records, record);
            self.records += 1;
            if kind == END_OF_STREAM {
                self.readings(out)?;
                self.records = 0;
            }
        } else if kind == END_OF_STREAM {
            out.write_all(b"A STREAM HAS MORE THAN 1024 TOKENS\n")?;
            self.records = 0;
        }
        Ok(())
    }

    // The lines of a block.
    fn take_lines(&mut self, out: &impl Print, block: &[u8]) -> io::Result<()> {
        for text in block.chunks(LINE) {
            self.take_line(out, text)?;
        }
        Ok(())
    }
}

fn main(rt: HostRuntime) -> io::Result<()> {
    let mut text = [0u8; 62320];
    let mut pending = Pending {
        stream: [0; 4100],
        records: 0,
        nodes: [0; 8192],
    };
    for _ in 0..BLOCKS {
        let n = input::read_full(&mut rt.stdin(), &mut text)?;
        pending.take_lines(&rt, &text[..n])?;
        if n < BLOCK {
            break;
        }
    }
    if pending.records != 0 {
        rt.write_all(b"A STREAM HAS NO END\n")?;
    }
    Ok(())
}
