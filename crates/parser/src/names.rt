// What needs no guard and holds no expression: names in lists, and the statements made of them.
ghost use Rattle.std.specs.Prelude.{◌≡◌, List, [], ◌∷◌, ℕ, ◌+◌};
ghost use Rattle.stream.specs.Kinds.{RightParen, SemiColon};
ghost use Rattle.grammar.specs.Term.{check, empty, any, leaf, plus, opt, ◌⨾◌, on};
ghost use Rattle.grammar.specs.Productions.{nameleaf, parlist};
ghost use Rattle.grammar.specs.Productions.{label, breakstat, gotostat};
ghost use Rattle.tree.specs.Tags.{tag_word};
ghost use Rattle.parser.specs.Parts as P;
ghost use Rattle.parser.specs.Contract.{Ready, Meets, Reads, Counts, Ordinary, says, unexpected};

use crate::place::{Place, Script};
use stream::kinds::{COLON, COMMA, DOT, DOTS, DOUBLE_COLON, GOTO, NAME, RIGHT_PAREN, SEMI_COLON};
use stream::reader::{Refusal, Token};
use stream::refusals::Expected;
use tree::Tag;

const PARAMETER_EXPECTED: u64 = Expected::Parameter as u64;

// A token stands where another is expected.
pub(crate) fn unexpected(token: &Token, found: usize, expected: u64) -> Refusal
    ensures { result ≡ unexpected token.now found expected }
{
    Refusal::unexpected(token.line, found, expected)
}

impl Script<'_> {
    // A token that is a record by itself.
    pub(crate) fn leaf(&self, at: &mut Place, nodes: &mut [u64], tag: Tag) -> Result<(), Refusal>
        requires { Ready self.now.stream.now at.old 2 × Ordinary (tag_word tag) }
        ensures { Reads self.now (any ⨾ leaf (tag_word tag)) 0 at.old at.new nodes.old nodes.new result }
    {
        let token = at.cursor.take_next(self.stream)?;
        at.leaf(nodes, tag, token.payload);
        at.used += 1;
        Ok(())
    }

    // Name; called once for each name of a list, so inline
    #[inline(always)]
    pub(crate) fn name(&self, at: &mut Place, nodes: &mut [u64]) -> Result<(), Refusal>
        requires { Ready self.now.stream.now at.old 3 }
        ensures { Reads self.now nameleaf 0 at.old at.new nodes.old nodes.new result }
    {
        let token = at.cursor.expect_name(self.stream)?;
        at.leaf(nodes, Tag::Name, token.payload);
        at.used += 1;
        Ok(())
    }

    // {',' Name}; how many
    pub(crate) fn names(&self, at: &mut Place, nodes: &mut [u64]) -> Result<u64, Refusal>
        requires { Ready self.now.stream.now at.old 0 }
        ensures { Counts self.now P.names at.old.cursor.place 0 at.old at.new nodes.old nodes.new result }
    {
        let mut count = 0;
        while at.cursor.check_ahead(self.stream, 0, COMMA) {
            at.cursor.take_next(self.stream)?;
            self.name(at, nodes)?;
            count += 1;
        }
        Ok(count)
    }

    // attnamelist ::= Name {',' Name}; how many
    pub(crate) fn name_list(&self, at: &mut Place, nodes: &mut [u64]) -> Result<u64, Refusal>
        requires { Ready self.now.stream.now at.old 3 }
        ensures { Counts self.now (nameleaf ⨾ plus 1 ⨾ P.names) (at.old.cursor.place + 1) 0 at.old at.new nodes.old nodes.new result }
    {
        self.name(at, nodes)?;
        let more = self.names(at, nodes)?;
        Ok(more + 1)
    }

    // parlist ::= Name [',' parlist] | '...'; the number is 2 x parameters + varargs
    pub(crate) fn parameters(&self, at: &mut Place, nodes: &mut [u64]) -> Result<u64, Refusal>
        requires { Ready self.now.stream.now at.old 0 }
        ensures { Counts self.now parlist (at.old.cursor.place + 1) 0 at.old at.new nodes.old nodes.new result }
    {
        let mut value = 0;
        loop {
            let place = at.cursor.place;
            let token = at.cursor.take_next(self.stream)?;
            if token.kind == DOTS {
                return Ok(value + 1);
            }
            if token.kind != NAME {
                return Err(unexpected(&token, place, PARAMETER_EXPECTED));
            }
            at.leaf(nodes, Tag::Name, token.payload);
            at.used += 1;
            value += 2;
            if !at.cursor.check_ahead(self.stream, 0, COMMA) {
                return Ok(value);
            }
            at.cursor.take_next(self.stream)?;
        }
    }

    // [parlist] of a definition: nothing where `)` comes next
    pub(crate) fn parameter_list(&self, at: &mut Place, nodes: &mut [u64]) -> Result<u64, Refusal>
        requires { Ready self.now.stream.now at.old 0 }
        ensures { Counts self.now (on check (RightParen ∷ []) empty parlist) at.old.cursor.place 0 at.old at.new nodes.old nodes.new result }
    {
        if at.cursor.check_ahead(self.stream, 0, RIGHT_PAREN) {
            return Ok(0);
        }
        self.parameters(at, nodes)
    }

    // {'.' Name} [':' Name]; the number is 2 x fields + method
    pub(crate) fn field_names(&self, at: &mut Place, nodes: &mut [u64]) -> Result<u64, Refusal>
        requires { Ready self.now.stream.now at.old 0 }
        ensures { Counts self.now P.fieldnames at.old.cursor.place 0 at.old at.new nodes.old nodes.new result }
    {
        let mut value = 0;
        while let Some(token) = at.cursor.look_ahead(self.stream, 0) {
            if token.kind == COLON {
                self.method_name(at, nodes)?;
                return Ok(value + 1);
            }
            if token.kind != DOT {
                return Ok(value);
            }
            at.cursor.take_next(self.stream)?;
            self.name(at, nodes)?;
            value += 2;
        }
        Ok(value)
    }

    // ':' Name
    fn method_name(&self, at: &mut Place, nodes: &mut [u64]) -> Result<(), Refusal>
        requires { Ready self.now.stream.now at.old 0 }
        ensures { Reads self.now (any ⨾ nameleaf) 0 at.old at.new nodes.old nodes.new result }
    {
        at.cursor.take_next(self.stream)?;
        self.name(at, nodes)
    }

    // parse_label_statement: '::' Name '::'
    pub(crate) fn label(&self, at: &mut Place, nodes: &mut [u64]) -> Result<(), Refusal>
        requires { Ready self.now.stream.now at.old 1 }
        ensures { Reads self.now label 0 at.old at.new nodes.old nodes.new result }
    {
        let line = self.line(at);
        let first = at.used;
        at.used += 1;
        at.cursor.expect_next(self.stream, DOUBLE_COLON)?;
        let name = at.cursor.expect_name(self.stream)?;
        at.cursor.expect_next(self.stream, DOUBLE_COLON)?;
        at.close(nodes, first, Tag::Label, name.payload, line);
        Ok(())
    }

    // parse_goto_statement: goto Name
    pub(crate) fn goto(&self, at: &mut Place, nodes: &mut [u64]) -> Result<(), Refusal>
        requires { Ready self.now.stream.now at.old 1 }
        ensures { Reads self.now gotostat 0 at.old at.new nodes.old nodes.new result }
    {
        let line = self.line(at);
        let first = at.used;
        at.used += 1;
        at.cursor.expect_next(self.stream, GOTO)?;
        let name = at.cursor.expect_name(self.stream)?;
        at.close(nodes, first, Tag::Goto, name.payload, line);
        Ok(())
    }

    // break
    pub(crate) fn stop(&self, at: &mut Place, nodes: &mut [u64]) -> Result<(), Refusal>
        requires { Ready self.now.stream.now at.old 1 }
        ensures { Reads self.now breakstat 0 at.old at.new nodes.old nodes.new result }
    {
        let line = self.line(at);
        let first = at.used;
        at.used += 1;
        at.cursor.take_next(self.stream)?;
        at.close(nodes, first, Tag::Break, 0, line);
        Ok(())
    }

    // [';']
    pub(crate) fn semicolon(&self, at: &mut Place) -> Result<(), Refusal>
        requires { Ready self.now.stream.now at.old 0 }
        ensures { (n : List ℕ) → Meets self.now.stream.now at.old.cursor.note at.old.cursor.place at.old.used 0 n n (says self.now.stream.now self.now.ranking self.now.levels (opt check (SemiColon ∷ []) any) at.old.cursor) at.new result }
    {
        if at.cursor.check_ahead(self.stream, 0, SEMI_COLON) {
            at.cursor.take_next(self.stream)?;
        }
        Ok(())
    }
}
