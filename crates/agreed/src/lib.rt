// The agreed reading: a tree only where both rankings read the stream alike; else it goes back with the `~=` at fault.
#![tactic(auto)]

ghost use Rattle.std.specs.Prelude.{◌≡◌, [], ◌∷◌};
ghost use Rattle.stream.specs.Words.{line as line_at};
ghost use Rattle.grammar.specs.Member.{member};
ghost use Rattle.agreed.specs.Agreed.{Agreed};

use operators::Ranking;
use parser::{ACCEPTED, Answer, NO_ROOM};
use stream::refusals::Fault;

const QUARREL: u64 = Fault::Quarrel as u64;

// Whether the stream was read: there is a tree, with room or without.
fn took(a: Answer) -> bool
    ensures { result ≡ member a.number (0 ∷ 7 ∷ []) }
{
    matches!(a.number, ACCEPTED | NO_ROOM)
}

// The line of the token at a place; 0 past the stream.
fn line_of(stream: &[u64], place: usize) -> u64
    ensures { result ≡ line_at stream.now place }
{
    if place < stream.len() / 4 {
        stream[place * 4 + 2]
    } else {
        0
    }
}

// 01's order: 6; the crate reading's 1 to 5; the manual reading's; 8; 7. Where no `~=` is noted the crate reading is all: it derives no tree, or
// the one that the manual's ranking derives too.
pub fn agreed_reading(stream: &[u64], nodes: &mut [u64]) -> Answer
    ensures { Agreed stream.now nodes.old nodes.new result }
{
    let a = parser::reading(stream, nodes, Ranking::Crate);
    let Some(first) = a.first else {
        return a.answer;
    };
    let b = parser::manual_reading(stream, nodes);
    if !took(b) {
        return b;
    }
    tree::clear(nodes);
    Answer {
        number: QUARREL,
        line: line_of(stream, first),
        found: first,
        expected: 0,
        count: 0,
    }
}
