// 000's reader over a lent stream: a cursor that moves over it.
ghost use Rattle.std.specs.Prelude.{◌≡◌, ◌+◌, ◌<◌, length, IfOk};
ghost use Rattle.stream.specs.Reader.{token_at, asked, read_ahead, told, ended, unexpected, next, get_next, take_next, expect_next, expect_name, look_ahead, check_ahead};
ghost use Rattle.stream.specs.Refusals.{fault_number};

use crate::kinds::{END_OF_STREAM, NAME};
use crate::refusals::{Expected, Fault};

// What a user of the cursor notes on the way: the reader's functions hand it on and never look at it.
#[derive(Clone, Copy)]
pub struct Note {
    pub waits: Option<usize>,
    pub found: Option<usize>,
    pub heard: bool,
}

// Where the reading is: the next token, how far the tokens were asked for, and what was noted by then.
#[derive(Clone, Copy)]
pub struct Cursor {
    pub place: usize,
    pub mark: usize,
    pub note: Note,
}

#[derive(Clone, Copy)]
pub struct Token {
    pub kind: u64,
    pub payload: u64,
    pub line: u64,
}

// Number, line, found and expected of 01's answers.
#[derive(Clone, Copy)]
pub struct Refusal {
    pub number: u64,
    pub line: u64,
    pub found: usize,
    pub expected: u64,
}

impl Refusal {
    // A token stands where another is expected.
    pub fn unexpected(line: u64, found: usize, expected: u64) -> Refusal
        ensures { result ≡ unexpected line found expected }
    {
        Refusal {
            number: Fault::Unexpected.number(),
            line,
            found,
            expected,
        }
    }

    // A fault that is told by its line alone.
    pub fn at_line(fault: Fault, line: u64) -> Refusal
        ensures { result ≡ record { number = fault_number fault; line = line; found = 0; expected = 0 } }
    {
        Refusal {
            number: fault.number(),
            line,
            found: 0,
            expected: 0,
        }
    }
}

// The token at a place; past the last record a stream is at its end.
#[tactic(auto, unfolding(crate::specs::Words::word))]
fn token_at(stream: &[u64], place: usize) -> Token
    ensures { result ≡ token_at stream.now place }
{
    if place < stream.len() / 4 {
        let at = place * 4;
        Token {
            kind: stream[at],
            payload: stream[at + 1],
            line: stream[at + 2],
        }
    } else {
        Token {
            kind: END_OF_STREAM,
            payload: 0,
            line: 0,
        }
    }
}

// The token so many places on.
#[tactic(auto, unfolding(crate::specs::Words::word))]
fn token_after(stream: &[u64], place: usize, n: u8) -> Token
    ensures { result ≡ token_at stream.now (place + n) }
{
    if place < stream.len() / 4 {
        token_at(stream, place + usize::from(n))
    } else {
        token_at(stream, place)
    }
}

impl Cursor {
    // So many tokens are asked for: the mark goes as far as there are records. With `min` and `max` scripts
    // of `if a then end` miss the bar of speed (docs/DESIGN-PASS.md).
    fn ask(&mut self, stream: &[u64], many: usize)
        requires { many < 4096 }
        ensures { self.new ≡ asked stream.now self.old many }
    {
        let records = stream.len() / 4;
        let mut to = records;
        if self.place < records {
            let far = self.place + many;
            if far < records {
                to = far;
            }
        }
        if self.mark < to {
            self.mark = to;
        }
    }

    // Holds n + 1 tokens, if there are so many.
    pub fn read_ahead(&mut self, stream: &[u64], n: u8)
        ensures { self.new ≡ read_ahead stream.now self.old n }
    {
        self.ask(stream, usize::from(n) + 1);
    }

    // The line that the reading has come to.
    #[tactic(auto, unfolding(crate::specs::Words::word))]
    pub fn reading_line(&self, stream: &[u64]) -> u64
        ensures { result ≡ told stream.now self.now.mark }
    {
        let last = self.mark.saturating_sub(1);
        if last < stream.len() / 4 {
            stream[last * 4 + 3]
        } else {
            0
        }
    }

    fn end_of_stream(&self, stream: &[u64], expected: u64) -> Refusal
        ensures { result ≡ ended stream.now self.now expected }
    {
        Refusal {
            number: Fault::EndOfStream.number(),
            line: self.reading_line(stream),
            found: 0,
            expected,
        }
    }

    // The next token, which must be there, not yet taken.
    #[tactic(auto, using(crate::proofs::Words::inside))]
    fn next(&mut self, stream: &[u64], expected: u64) -> Result<Token, Refusal>
        ensures step { (result, self.new) ≡ next stream.now self.old expected }
        ensures within { IfOk result (λ _. self.new.place < length stream.now) }
    {
        self.read_ahead(stream, 1);
        let token = token_at(stream, self.place);
        if token.kind == END_OF_STREAM {
            return Err(self.end_of_stream(stream, expected));
        }
        Ok(token)
    }

    // The next token, not yet taken.
    #[tactic(auto, unfolding(crate::specs::Reader::get_next))]
    pub fn get_next(&mut self, stream: &[u64]) -> Result<Token, Refusal>
        ensures { (result, self.new) ≡ get_next stream.now self.old }
    {
        self.next(stream, 0)
    }

    // The next token, taken.
    #[tactic(auto, unfolding(crate::specs::Reader::take_next))]
    pub fn take_next(&mut self, stream: &[u64]) -> Result<Token, Refusal>
        ensures { (result, self.new) ≡ take_next stream.now self.old }
    {
        let token = self.next(stream, 0)?;
        self.place += 1;
        Ok(token)
    }

    // The next token, taken; it must be of this kind.
    #[tactic(auto, unfolding(crate::specs::Reader::expect_next))]
    pub fn expect_next(&mut self, stream: &[u64], kind: u64) -> Result<Token, Refusal>
        ensures { (result, self.new) ≡ expect_next stream.now self.old kind }
    {
        let expected = kind.wrapping_add(1);
        let token = self.next(stream, expected)?;
        if token.kind != kind {
            return Err(Refusal::unexpected(token.line, self.place, expected));
        }
        self.place += 1;
        Ok(token)
    }

    // The next token, taken; it must be a name. Where it is not, the reading line is told and not the token's.
    #[tactic(auto, unfolding(crate::specs::Reader::expect_name))]
    pub fn expect_name(&mut self, stream: &[u64]) -> Result<Token, Refusal>
        ensures { (result, self.new) ≡ expect_name stream.now self.old }
    {
        let expected = Expected::Name.code();
        let token = self.next(stream, expected)?;
        if token.kind != NAME {
            let line = self.reading_line(stream);
            return Err(Refusal::unexpected(line, self.place, expected));
        }
        self.place += 1;
        Ok(token)
    }

    // The nth token ahead, or none at the end.
    #[tactic(auto, unfolding(crate::specs::Reader::look_ahead))]
    pub fn look_ahead(&mut self, stream: &[u64], n: u8) -> Option<Token>
        ensures { (result, self.new) ≡ look_ahead stream.now self.old n }
    {
        self.ask(stream, usize::from(n) + 2);
        let token = token_after(stream, self.place, n);
        if token.kind == END_OF_STREAM {
            None
        } else {
            Some(token)
        }
    }

    // Whether the nth token ahead is of this kind.
    #[tactic(auto, unfolding(crate::specs::Reader::check_ahead))]
    pub fn check_ahead(&mut self, stream: &[u64], n: u8, kind: u64) -> bool
        ensures { (result, self.new) ≡ check_ahead stream.now self.old n kind }
    {
        self.read_ahead(stream, n);
        let token = token_after(stream, self.place, n);
        token.kind != END_OF_STREAM && token.kind == kind
    }
}
