// A token reader: a thin struct over the cursor, for stepping through a lent stream.
#![tactic(auto)]

ghost use Rattle.std.specs.Prelude.{◌≡◌, ◌+◌};
ghost use Rattle.stream.specs.Reader.{take_next, look_ahead, read_ahead, told};
ghost use Rattle.tokens.specs.Steps.{start, moved, stepped, steps, token_after};

use stream::reader::{Cursor, Note, Refusal, Token};

// Nothing taken, nothing asked for. The note is handed on and never looked at.
const START: Cursor = Cursor {
    place: 0,
    mark: 0,
    note: Note {
        waits: None,
        found: None,
        heard: false,
    },
};

// The lent stream, and its place and its mark in a cursor.
#[derive(Clone, Copy)]
pub struct TokenReader<'a> {
    pub stream: &'a [u64],
    pub cursor: Cursor,
}

// The next token, or none at the end; the cursor and the reading line by then.
#[derive(Clone, Copy)]
pub struct Stop {
    pub look: Option<Token>,
    pub cursor: Cursor,
    pub line: u64,
}

impl<'a> TokenReader<'a> {
    pub fn from_stream(stream: &'a [u64]) -> TokenReader<'a>
        ensures { (result.stream ≡ stream.entry) × (result.cursor ≡ start) }
    {
        TokenReader {
            stream,
            cursor: START,
        }
    }

    // The nth token ahead, or none at the end.
    #[tactic(auto, using(crate::proofs::Steps::looks))]
    pub fn look_ahead(&mut self, n: u8) -> Option<Token>
        ensures { (result ≡ (look_ahead self.old.stream.now self.old.cursor n).0) × (self.new ≡ moved self.old (read_ahead self.old.stream.now self.old.cursor (n + 1))) }
    {
        self.cursor.look_ahead(self.stream, n)
    }

    // The next token, taken.
    #[tactic(auto, using(crate::proofs::Steps::leads))]
    pub fn take_next(&mut self) -> Result<Token, Refusal>
        ensures { (result ≡ (take_next self.old.stream.now self.old.cursor).0) × (self.new ≡ moved self.old (stepped self.old.stream.now self.old.cursor)) }
    {
        self.cursor.take_next(self.stream)
    }

    // So many tokens taken, or as many as there are: at the end no step leads further.
    #[tactic(auto, using(crate::proofs::Steps::first, crate::proofs::Steps::steps_failed))]
    pub fn step_over(&mut self, n: usize)
        ensures { self.new ≡ moved self.old (steps self.old.stream.now self.old.cursor n) }
    {
        for _ in 0..n {
            if self.take_next().is_err() {
                return;
            }
        }
    }

    // The line that the reading has come to.
    pub fn reading_line(self) -> u64
        ensures { result ≡ told self.entry.stream.now self.entry.cursor.mark }
    {
        self.cursor.reading_line(self.stream)
    }
}

// The token after so many, or none at the end; the cursor and the reading line by then.
pub fn token_after(stream: &[u64], n: usize) -> Stop
    ensures { result ≡ token_after stream.now n }
{
    let mut reader = TokenReader::from_stream(stream);
    reader.step_over(n);
    Stop {
        look: reader.look_ahead(0),
        cursor: reader.cursor,
        line: reader.reading_line(),
    }
}
