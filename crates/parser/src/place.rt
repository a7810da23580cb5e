// Where the descent is, and what it reads: two structs that every member shares.
ghost use Rattle.std.specs.Prelude.{◌≡◌, ◌+◌, ◌-◌, ◌*◌, ◌≤◌, ◌<◌};
ghost use Rattle.std.proofs.lemmas.List.Edits.{sets};
ghost use Rattle.stream.specs.Formed.{Formed};
ghost use Rattle.stream.specs.Words.{records, line as line_at};
ghost use Rattle.stream.specs.Reader.{told};
ghost use Rattle.tree.specs.Forest.{words};
ghost use Rattle.tree.specs.Tags.{tag_word};

use operators::Ranking;
use stream::reader::{Cursor, Refusal};
use stream::refusals::Fault;
use tree::{Record, Tag};

// A well-formed stream, how it is ranked, and how many more guards may live.
#[derive(Clone, Copy)]
pub(crate) struct Script<'a> {
    pub(crate) stream: &'a [u64],
    pub(crate) ranking: Ranking,
    pub(crate) levels: usize,
    ghost formed: { Formed stream.now },
}

// The reader's cursor, and how many tree records are used by then.
#[derive(Clone, Copy)]
pub(crate) struct Place {
    pub(crate) cursor: Cursor,
    pub(crate) used: usize,
}

impl Script<'_> {
    // The line of the token at a place; at the end, the end line.
    pub(crate) fn line(&self, at: &Place) -> u64
        requires { at.now.cursor.place < records self.now.stream.now }
        ensures { result ≡ line_at self.now.stream.now at.now.cursor.place }
    {
        self.stream[at.cursor.place * 4 + 2]
    }

    // No guard may live any more.
    pub(crate) fn too_deep(&self, at: &Place) -> Refusal
        ensures { result ≡ record { number = 5; line = told self.now.stream.now at.now.cursor.mark; found = 0; expected = 0 } }
    {
        Refusal::at_line(Fault::TooDeep, at.cursor.reading_line(self.stream))
    }
}

impl Place {
    // The record of a parent: it stands at `first`, and its parts up to here.
    pub(crate) fn close(&self, nodes: &mut [u64], first: usize, tag: Tag, value: u64, line: u64)
        requires { first ≤ self.now.used }
        ensures { nodes.new ≡ sets nodes.old (first * 4) (words (tag_word tag) value line (self.now.used - first)) }
    {
        let size = (self.used - first) as u64;
        let node = Record {
            tag: tag.word(),
            value,
            line,
            size,
        };
        tree::put(nodes, first, node);
    }

    // A record without parts, which is the next.
    pub(crate) fn leaf(&self, nodes: &mut [u64], tag: Tag, value: u64)
        ensures { nodes.new ≡ sets nodes.old (self.now.used * 4) (words (tag_word tag) value 0 1) }
    {
        let node = Record {
            tag: tag.word(),
            value,
            line: 0,
            size: 1,
        };
        tree::put(nodes, self.used, node);
    }
}
