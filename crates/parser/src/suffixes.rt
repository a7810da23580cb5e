// Suffixed expressions: primaries, suffixes, arguments.
ghost use Rattle.std.specs.Prelude.{◌≡◌, ◌+◌};
ghost use Rattle.stream.specs.Words.{kind as kind_at};
ghost use Rattle.grammar.specs.Productions.{args, suffix, primary, suffixed};
ghost use Rattle.parser.specs.Parts as P;
ghost use Rattle.parser.specs.Contract.{Ready, Reads, Counts, Ends, Suffixes, kids, itself};

use crate::names::unexpected;
use crate::place::{Place, Script};
use operators::MIN_PRIORITY;
use stream::kinds::{
    COLON, DOT, LEFT_BRACE, LEFT_BRACKET, LEFT_PAREN, NAME, RIGHT_BRACKET, RIGHT_PAREN, STRING,
};
use stream::reader::Refusal;
use stream::refusals::Expected;
use tree::Tag;

const PRIMARY_EXPECTED: u64 = Expected::Primary as u64;

const ARGUMENTS_EXPECTED: u64 = Expected::Arguments as u64;

impl Script<'_> {
    // parse_suffixed_expression: primary {suffix}; the tag of the last record among its parts
    #[cycle(descent)]
    pub(crate) fn suffixed(&self, at: &mut Place, nodes: &mut [u64]) -> Result<Tag, Refusal>
        requires { Ready self.now.stream.now at.old 2 }
        ensures { Ends self.now suffixed kids at.old at.new nodes.old nodes.new result }
    {
        let first = at.used;
        at.used += 1;
        let mut last = self.primary(at, nodes)?;
        let mut count = 0;
        while let Some(token) = at.cursor.look_ahead(self.stream, 0) {
            let Some(tag) = self.suffix(at, nodes, token.kind)? else {
                break;
            };
            last = tag;
            count += 1;
        }
        at.close(nodes, first, Tag::Suffixed, count, 0);
        Ok(last)
    }

    // parse_suffix_part, if a token of this kind begins one; the tag of its record
    #[cycle(descent)]
    fn suffix(&self, at: &mut Place, nodes: &mut [u64], kind: u64) -> Result<Option<Tag>, Refusal>
        requires { Ready self.now.stream.now at.old 0 × (kind ≡ kind_at self.now.stream.now at.old.cursor.place) }
        ensures { Suffixes self.now suffix kind at.old at.new nodes.old nodes.new result }
    {
        match kind {
            DOT => {
                self.field_name(at, nodes)?;
                Ok(Some(Tag::Field))
            }
            LEFT_BRACKET => {
                self.index(at, nodes)?;
                Ok(Some(Tag::Index))
            }
            COLON => {
                self.method_call(at, nodes)?;
                Ok(Some(Tag::MethodCall))
            }
            LEFT_PAREN | LEFT_BRACE | STRING => {
                self.call(at, nodes)?;
                Ok(Some(Tag::Call))
            }
            _ => Ok(None),
        }
    }

    // parse_field_suffix: '.' Name
    fn field_name(&self, at: &mut Place, nodes: &mut [u64]) -> Result<(), Refusal>
        requires { Ready self.now.stream.now at.old 0 }
        ensures { Reads self.now P.dotted 0 at.old at.new nodes.old nodes.new result }
    {
        let first = at.used;
        at.used += 1;
        at.cursor.take_next(self.stream)?;
        let name = at.cursor.expect_name(self.stream)?;
        at.close(nodes, first, Tag::Field, name.payload, 0);
        Ok(())
    }

    // parse_field_suffix: '[' exp ']'
    #[cycle(descent)]
    fn index(&self, at: &mut Place, nodes: &mut [u64]) -> Result<(), Refusal>
        requires { Ready self.now.stream.now at.old 0 }
        ensures { Reads self.now P.index 0 at.old at.new nodes.old nodes.new result }
    {
        let first = at.used;
        at.used += 1;
        at.cursor.take_next(self.stream)?;
        self.expression(at, nodes, MIN_PRIORITY)?;
        at.cursor.expect_next(self.stream, RIGHT_BRACKET)?;
        at.close(nodes, first, Tag::Index, 0, 0);
        Ok(())
    }

    // parse_call_suffix: ':' Name args
    #[cycle(descent)]
    fn method_call(&self, at: &mut Place, nodes: &mut [u64]) -> Result<(), Refusal>
        requires { Ready self.now.stream.now at.old 0 }
        ensures { Reads self.now P.method 0 at.old at.new nodes.old nodes.new result }
    {
        let first = at.used;
        at.used += 1;
        at.cursor.take_next(self.stream)?;
        let name = at.cursor.expect_name(self.stream)?;
        self.arguments(at, nodes)?;
        at.close(nodes, first, Tag::MethodCall, name.payload, 0);
        Ok(())
    }

    // parse_call_suffix: args
    #[cycle(descent)]
    fn call(&self, at: &mut Place, nodes: &mut [u64]) -> Result<(), Refusal>
        requires { Ready self.now.stream.now at.old 0 }
        ensures { Reads self.now P.call 0 at.old at.new nodes.old nodes.new result }
    {
        let first = at.used;
        at.used += 1;
        let count = self.arguments(at, nodes)?;
        at.close(nodes, first, Tag::Call, count, 0);
        Ok(())
    }

    // args ::= '(' [explist] ')' | tableconstructor | String; how many
    #[cycle(descent)]
    fn arguments(&self, at: &mut Place, nodes: &mut [u64]) -> Result<u64, Refusal>
        requires { Ready self.now.stream.now at.old 1 }
        ensures { Counts self.now (args 1) (at.old.cursor.place + 1) 0 at.old at.new nodes.old nodes.new result }
    {
        let token = at.cursor.get_next(self.stream)?;
        match token.kind {
            LEFT_PAREN => self.bracketed(at, nodes),
            LEFT_BRACE => {
                let first = at.used;
                at.used += 1;
                self.table(at, nodes)?;
                at.close(nodes, first, Tag::Expression, 0, 0);
                Ok(1)
            }
            STRING => {
                let first = at.used;
                at.used += 1;
                self.leaf(at, nodes, Tag::String)?;
                at.close(nodes, first, Tag::Expression, 0, 0);
                Ok(1)
            }
            _ => Err(unexpected(&token, at.cursor.place, ARGUMENTS_EXPECTED)),
        }
    }

    // '(' [explist] ')'; how many
    #[cycle(descent)]
    fn bracketed(&self, at: &mut Place, nodes: &mut [u64]) -> Result<u64, Refusal>
        requires { Ready self.now.stream.now at.old 1 }
        ensures { Counts self.now P.list (at.old.cursor.place + 1) 0 at.old at.new nodes.old nodes.new result }
    {
        at.cursor.take_next(self.stream)?;
        let count = self.listed(at, nodes)?;
        at.cursor.expect_next(self.stream, RIGHT_PAREN)?;
        Ok(count)
    }

    // [explist] before a ')'; how many
    #[cycle(descent)]
    fn listed(&self, at: &mut Place, nodes: &mut [u64]) -> Result<u64, Refusal>
        requires { Ready self.now.stream.now at.old 1 }
        ensures { Counts self.now P.listed at.old.cursor.place 1 at.old at.new nodes.old nodes.new result }
    {
        let token = at.cursor.get_next(self.stream)?;
        if token.kind == RIGHT_PAREN {
            return Ok(0);
        }
        self.expressions(at, nodes)
    }

    // parse_primary_expression: '(' exp ')' | Name; the tag of its record
    #[cycle(descent)]
    fn primary(&self, at: &mut Place, nodes: &mut [u64]) -> Result<Tag, Refusal>
        requires { Ready self.now.stream.now at.old 3 }
        ensures { Ends self.now primary itself at.old at.new nodes.old nodes.new result }
    {
        let place = at.cursor.place;
        let token = at.cursor.take_next(self.stream)?;
        match token.kind {
            LEFT_PAREN => {
                let first = at.used;
                at.used += 1;
                self.expression(at, nodes, MIN_PRIORITY)?;
                at.cursor.expect_next(self.stream, RIGHT_PAREN)?;
                at.close(nodes, first, Tag::Group, 0, 0);
                Ok(Tag::Group)
            }
            NAME => {
                at.leaf(nodes, Tag::Name, token.payload);
                at.used += 1;
                Ok(Tag::Name)
            }
            _ => Err(unexpected(&token, place, PRIMARY_EXPECTED)),
        }
    }
}
