// Whether a stream is well formed: refusal 6 of 01.
ghost use Rattle.std.specs.Prelude.{◌≡◌};
ghost use Rattle.stream.specs.Formed.{token_words, end_words, Judged};

use crate::kinds::{END_OF_STREAM, FLOAT, INTEGER};

// Where a stream is not well formed: at its first bad record, or at its start for a bad length.
#[derive(Clone, Copy)]
pub struct BadRecord {
    pub index: usize,
}

// The most that a line or an id may be.
const MOST: u64 = 4294967295;

// The words of as many tokens as there may be, and of the end's record.
const WORDS: usize = 4194308;

// One test after another: a match over the kinds takes five instructions a record more, `&&` ten.
fn is_token(kind: u64, payload: u64, line: u64, after: u64) -> bool
    ensures { result ≡ token_words kind payload line after }
{
    if MOST < line {
        return false;
    }
    if MOST < after {
        return false;
    }
    if kind < INTEGER {
        return payload == 0;
    }
    if kind <= FLOAT {
        return true;
    }
    if kind < END_OF_STREAM {
        return payload <= MOST;
    }
    false
}

fn is_end(kind: u64, payload: u64, line: u64, after: u64) -> bool
    ensures { result ≡ end_words kind payload line after }
{
    kind == END_OF_STREAM && payload == 0 && line <= MOST && line == after
}

pub fn judge(stream: &[u64]) -> Result<(), BadRecord>
    ensures { Judged stream.now result }
{
    let n = stream.len();
    if n == 0 || n % 4 != 0 || WORDS < n {
        return Err(BadRecord { index: 0 });
    }
    let last = n / 4 - 1;
    for index in 0..last {
        let at = index * 4;
        if !is_token(stream[at], stream[at + 1], stream[at + 2], stream[at + 3]) {
            return Err(BadRecord { index });
        }
    }
    let at = last * 4;
    if !is_end(stream[at], stream[at + 1], stream[at + 2], stream[at + 3]) {
        return Err(BadRecord { index: last });
    }
    Ok(())
}
