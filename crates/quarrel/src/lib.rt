// The quarrel rule, heard on the way: one pass over the operators of a chain, in token order.
//
// A note has whether one of `== < <= > >= | ~ & << >> ..` was heard in this piece of the chain; the `~=` that waits for one of
// `| ~ & << >> .. + -`, if one does; and the first that quarrels, of all that were found.
#![tactic(auto)]

ghost use Rattle.std.specs.Prelude.{◌≡◌, true, false, None};
ghost use Rattle.stream.specs.Kinds.{NotEqual};
ghost use Rattle.quarrel.specs.Notes.{earlier, hears, fresh, resumed};

use stream::kinds::{
    ADD, AND, BIT_AND, BIT_NOT_XOR, BIT_OR, CONCAT, EQUAL, GREATER_EQUAL, GREATER_THAN, LESS_EQUAL,
    LESS_THAN, MINUS, NOT_EQUAL, OR, SHIFT_LEFT, SHIFT_RIGHT,
};
use stream::reader::Note;

fn earlier(a: Option<usize>, b: Option<usize>) -> Option<usize>
    ensures { result ≡ earlier a b }
{
    match (a, b) {
        (Some(i), Some(j)) => Some(i.min(j)),
        _ => a.or(b),
    }
}

// The note, with an operator of this kind heard at this place.
#[tactic(auto, unfolding(crate::specs::Notes::hears))]
pub fn hear(note: Note, kind: u64, place: usize) -> Note
    ensures { result ≡ hears note kind place }
{
    match kind {
        AND | OR => fresh(note),
        EQUAL | LESS_THAN | LESS_EQUAL | GREATER_THAN | GREATER_EQUAL => comparison(note),
        NOT_EQUAL => unequal(note, place),
        BIT_OR | BIT_NOT_XOR | BIT_AND | SHIFT_LEFT | SHIFT_RIGHT | CONCAT => bits(note),
        ADD | MINUS => sum(note),
        _ => note,
    }
}

fn comparison(note: Note) -> Note
    ensures { result ≡ record { heard = true; waits = None; found = note.found } }
{
    Note {
        heard: true,
        waits: None,
        ..note
    }
}

#[tactic(auto, unfolding(crate::specs::Notes::hears))]
fn unequal(note: Note, place: usize) -> Note
    ensures { result ≡ hears note NotEqual place }
{
    let waits = Some(place);
    let found = if note.heard {
        earlier(note.found, waits)
    } else {
        note.found
    };
    Note {
        waits,
        found,
        ..note
    }
}

fn bits(note: Note) -> Note
    ensures { result ≡ record { heard = true; waits = None; found = earlier note.found note.waits } }
{
    Note {
        heard: true,
        ..sum(note)
    }
}

fn sum(note: Note) -> Note
    ensures { result ≡ record { heard = note.heard; waits = None; found = earlier note.found note.waits } }
{
    Note {
        waits: None,
        found: earlier(note.found, note.waits),
        ..note
    }
}

// The note at the start of a chain of its own, or of the next piece of a chain.
pub fn fresh(note: Note) -> Note
    ensures { result ≡ fresh note }
{
    Note {
        heard: false,
        waits: None,
        ..note
    }
}

// The note after a chain of its own, back in the chain around it.
pub fn resume(outer: Note, note: Note) -> Note
    ensures { result ≡ resumed outer note }
{
    Note {
        found: note.found,
        ..outer
    }
}
