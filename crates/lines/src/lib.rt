// Records as lines of text, in the form of 01's program: four words in hexadecimal, 2, 16, 8 and 8 digits, a space between and a newline
// at the end.
#![tactic(auto)]

ghost use Rattle.std.specs.Prelude.{◌≡◌, ◌+◌, ◌*◌, ◌^◌, ◌≤◌, ◌<◌, length, set, slice_index};
ghost use Rattle.std.proofs.lemmas.List.Edits.{sets};
ghost use Rattle.lines.specs.Lines.{glyph, field, line, shown, shown_answer, Told};
ghost use Rattle.lines.specs.Parts.{Digit, Field, Took};

use tree::Record;

pub const LINE: usize = 38;

// The first line that has another form, or is one too many.
#[derive(Clone, Copy, PartialEq, Eq, Debug)]
pub struct BadLine {
    pub index: usize,
}

// The value of a lowercase hexadecimal digit. With a `match` over the two ranges a text can take half as much time
// again (docs/DESIGN-PASS.md).
#[tactic(auto, using(crate::proofs::Hex::glyph_low, crate::proofs::Hex::glyph_high))]
fn digit(b: u8) -> Option<u64>
    ensures { Digit b result }
{
    if b'0' <= b && b <= b'9' {
        Some(u64::from(b - b'0'))
    } else if b'a' <= b && b <= b'f' {
        Some(u64::from(b - b'a') + 10)
    } else {
        None
    }
}

// The number of these digits, if they are that and end with this byte.
fn number(part: &[u8], end: u8) -> Option<u64>
    requires { length part.now ≤ 17 }
    ensures { Field part.now end result }
{
    let (last, digits) = part.split_last()?;
    if *last != end {
        return None;
    }
    let mut v = 0;
    for b in digits {
        v = v * 16 + digit(*b)?;
    }
    Some(v)
}

// The four words of a line.
fn take_line(bytes: &[u8]) -> Option<[u64; 4]>
    ensures { Took bytes.now result }
{
    if bytes.len() != LINE {
        return None;
    }
    let kind = number(&bytes[..3], b' ')?;
    let payload = number(&bytes[3..20], b' ')?;
    let line = number(&bytes[20..29], b' ')?;
    let after = number(&bytes[29..38], b'\n')?;
    Some([kind, payload, line, after])
}

// Puts the text's lines as the records of a stream; how many there are.
pub fn read_lines(text: &[u8], stream: &mut [u64], most: usize) -> Result<usize, BadLine>
    ensures { Told text.now most stream.old stream.new result }
{
    let mut index = 0;
    for bytes in text.chunks(LINE) {
        if index == most {
            return Err(BadLine { index });
        }
        let Some(words) = take_line(bytes) else {
            return Err(BadLine { index });
        };
        // kind, payload, line and after-line
        tree::put(
            stream,
            index,
            Record {
                tag: words[0],
                value: words[1],
                line: words[2],
                size: words[3],
            },
        );
        index += 1;
    }
    Ok(index)
}

// A digit's byte.
#[tactic(auto, using(crate::proofs::Hex::glyph_low, crate::proofs::Hex::glyph_high))]
fn byte(d: u64) -> u8
    requires { d < 16 }
    ensures { result ≡ glyph d }
{
    if d < 10 {
        b'0' + d as u8
    } else {
        b'a' + (d - 10) as u8
    }
}

// Stores b, where there is room.
fn store(out: &mut [u8], at: usize, off: usize, b: u8)
    ensures { out.new ≡ set out.old (at + off) b }
{
    let n = out.len();
    if at < n && off < n - at {
        out[at + off] = b;
    }
}

// The last so many digits of a number, and the byte that ends them, as far as they fit.
fn put_number(out: &mut [u8], at: usize, off: usize, digits: usize, n: u64, end: u8)
    requires { off + digits < 2 ^ 64 }
    ensures { out.new ≡ sets out.old (at + off) (field digits n end) }
{
    let mut rest = n;
    for i in (0..digits).rev() {
        store(out, at, off + i, byte(rest % 16));
        rest /= 16;
    }
    store(out, at, off + digits, end);
}

// A record's line, as far as it fits.
pub fn write_line(out: &mut [u8], at: usize, words: [u64; 4])
    ensures { out.new ≡ sets out.old at (shown (line (slice_index words 0) (slice_index words 1) (slice_index words 2) (slice_index words 3))) }
{
    put_number(out, at, 0, 2, words[0], b' ');
    put_number(out, at, 3, 16, words[1], b' ');
    put_number(out, at, 20, 8, words[2], b' ');
    put_number(out, at, 29, 8, words[3], b'\n');
}

// The five numbers of an answer, on one line of 45 bytes, as far as it fits.
pub fn write_answer(out: &mut [u8], numbers: [u64; 5])
    ensures { out.new ≡ sets out.old 0 (shown_answer (slice_index numbers 0) (slice_index numbers 1) (slice_index numbers 2) (slice_index numbers 3) (slice_index numbers 4)) }
{
    put_number(out, 0, 0, 8, numbers[0], b' ');
    put_number(out, 0, 9, 8, numbers[1], b' ');
    put_number(out, 0, 18, 8, numbers[2], b' ');
    put_number(out, 0, 27, 8, numbers[3], b' ');
    put_number(out, 0, 36, 8, numbers[4], b'\n');
}
