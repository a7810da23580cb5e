// The descent: 000's parser over a lent stream, into a lent array of tree records.
//
// Each method of `Script` reads one production from a place on and lays its records from there on, as far as they fit. Where it
// makes a record of its own, its parts come first, behind it, and the record is put before them when value and size are known.
#![tactic(auto)]

ghost use Rattle.std.specs.Prelude.{◌≡◌, None, [], ◌∷◌, length, replicate, false};
ghost use Rattle.operators.specs.Ranks.{ranks};
ghost use Rattle.operators.specs.declared.Ranking.{Ranking};
ghost use Rattle.quarrel.specs.Notes.{note};
ghost use Rattle.grammar.specs.Levels.{chunk};
ghost use Rattle.parser.specs.Contract.{Met};
ghost use Rattle.parser.specs.Answered.{Answered, Noted, refusing};

mod definitions;
mod expressions;
mod names;
mod place;
mod statements;
mod suffixes;

use operators::Ranking;
use place::{Place, Script};
use stream::reader::{Cursor, Note, Refusal};
use stream::refusals::Fault;

// How many guards may live.
const LEVELS: usize = 199;

// The number of an answer that hands a tree over.
pub const ACCEPTED: u64 = 0;

const MALFORMED: u64 = Fault::Malformed as u64;

// The number of an answer to a stream that was read, where its tree has no room.
pub const NO_ROOM: u64 = Fault::NoRoom as u64;

// The five numbers of 01's answers.
#[derive(Clone, Copy)]
pub struct Answer {
    pub number: u64,
    pub line: u64,
    pub found: usize,
    pub expected: u64,
    pub count: usize,
}

// An answer, and the token of the first `~=` that quarrels: none, where there is none or the stream is refused.
#[derive(Clone, Copy)]
pub struct Findings {
    pub answer: Answer,
    pub first: Option<usize>,
}

impl Answer {
    // The five numbers, in 01's order.
    pub fn numbers(self) -> [u64; 5]
        ensures { result ≡ self.number ∷ self.line ∷ self.found ∷ self.expected ∷ self.count ∷ [] }
    {
        [
            self.number,
            self.line,
            self.found as u64,
            self.expected,
            self.count as u64,
        ]
    }
}

impl From<Refusal> for Answer {
    ghost from_gives = { λ e a. a ≡ refusing e };

    fn from(e: Refusal) -> Answer {
        Answer {
            number: e.number,
            line: e.line,
            found: e.found,
            expected: e.expected,
            count: 0,
        }
    }
}

fn cleared(nodes: &mut [u64], e: Refusal) -> Findings
    ensures { (result ≡ record { answer = refusing e; first = None }) × (nodes.new ≡ replicate (length nodes.old) 0) }
{
    tree::clear(nodes);
    Findings {
        answer: Answer::from(e),
        first: None,
    }
}

// parse_chunk: block, and nothing left over
fn chunk(script: &Script, nodes: &mut [u64]) -> Result<Place, Refusal>
    requires { script.now.levels ≡ 199 }
    ensures { Met script.now.stream.now (note false None None) 0 0 1 nodes.old nodes.new (chunk script.now.stream.now (ranks script.now.ranking) 199) result }
{
    let note = Note {
        heard: false,
        waits: None,
        found: None,
    };
    let cursor = Cursor {
        place: 0,
        mark: 0,
        note,
    };
    let mut at = Place { cursor, used: 0 };
    script.block(&mut at, nodes)?;
    if at.cursor.look_ahead(script.stream, 0).is_some() {
        let line = at.cursor.reading_line(script.stream);
        return Err(Refusal::at_line(Fault::EndOfStream, line));
    }
    Ok(at)
}

pub fn reading(stream: &[u64], nodes: &mut [u64], ranking: Ranking) -> Findings
    ensures { Answered stream.now ranking nodes.old nodes.new result.answer × Noted stream.now ranking result.first }
{
    if let Err(bad) = stream::form::judge(stream) {
        return cleared(
            nodes,
            Refusal {
                number: MALFORMED,
                line: 0,
                found: bad.index,
                expected: 0,
            },
        );
    }
    let script = Script {
        stream,
        ranking,
        levels: LEVELS,
    };
    match chunk(&script, nodes) {
        Err(e) => cleared(nodes, e),
        Ok(end) => {
            let count = end.used * 4;
            let mut number = ACCEPTED;
            if nodes.len() < count {
                tree::clear(nodes);
                number = NO_ROOM;
            }
            Findings {
                answer: Answer {
                    number,
                    line: 0,
                    found: 0,
                    expected: 0,
                    count,
                },
                first: end.cursor.note.found,
            }
        }
    }
}

pub fn crate_reading(stream: &[u64], nodes: &mut [u64]) -> Answer
    ensures { Answered stream.now Ranking.Crate nodes.old nodes.new result }
{
    reading(stream, nodes, Ranking::Crate).answer
}

pub fn manual_reading(stream: &[u64], nodes: &mut [u64]) -> Answer
    ensures { Answered stream.now Ranking.Manual nodes.old nodes.new result }
{
    reading(stream, nodes, Ranking::Manual).answer
}
