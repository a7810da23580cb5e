// Function definitions and tables.
ghost use Rattle.std.specs.Prelude.{◌+◌};
ghost use Rattle.grammar.specs.Productions.{funcbody, field, table};
ghost use Rattle.parser.specs.Parts as P;
ghost use Rattle.parser.specs.Contract.{Ready, Reads, Counts};

use crate::place::{Place, Script};
use operators::MIN_PRIORITY;
use stream::kinds::{
    ASSIGN, COMMA, LEFT_BRACE, LEFT_BRACKET, LEFT_PAREN, NAME, RIGHT_BRACE, RIGHT_BRACKET,
    RIGHT_PAREN, SEMI_COLON,
};
use stream::reader::Refusal;
use tree::Tag;

impl Script<'_> {
    // parse_function_definition: '(' [parlist] ')' block end
    #[cycle(descent)]
    pub(crate) fn definition(&self, at: &mut Place, nodes: &mut [u64]) -> Result<(), Refusal>
        requires { Ready self.now.stream.now at.old 0 }
        ensures { Reads self.now funcbody 0 at.old at.new nodes.old nodes.new result }
    {
        let first = at.used;
        at.used += 1;
        at.cursor.expect_next(self.stream, LEFT_PAREN)?;
        let parameters = self.parameter_list(at, nodes)?;
        at.cursor.expect_next(self.stream, RIGHT_PAREN)?;
        self.ended_block(at, nodes)?;
        at.close(nodes, first, Tag::Definition, parameters, 0);
        Ok(())
    }

    // parse_table_constructor: '{' [fieldlist] '}'
    #[cycle(descent)]
    pub(crate) fn table(&self, at: &mut Place, nodes: &mut [u64]) -> Result<(), Refusal>
        requires { Ready self.now.stream.now at.old 2 }
        ensures { Reads self.now table 0 at.old at.new nodes.old nodes.new result }
    {
        let first = at.used;
        at.used += 1;
        at.cursor.expect_next(self.stream, LEFT_BRACE)?;
        let fields = self.fields(at, nodes)?;
        at.close(nodes, first, Tag::Table, fields, 0);
        Ok(())
    }

    // [fieldlist] '}'; how many fields
    #[cycle(descent)]
    fn fields(&self, at: &mut Place, nodes: &mut [u64]) -> Result<u64, Refusal>
        requires { Ready self.now.stream.now at.old 0 }
        ensures { Counts self.now P.fields (at.old.cursor.place + 1) 0 at.old at.new nodes.old nodes.new result }
    {
        let mut count = 0;
        while !at.cursor.check_ahead(self.stream, 0, RIGHT_BRACE) {
            self.field(at, nodes)?;
            count += 1;
            let token = at.cursor.get_next(self.stream)?;
            match token.kind {
                COMMA | SEMI_COLON => {
                    at.cursor.take_next(self.stream)?;
                }
                _ => break,
            }
        }
        at.cursor.expect_next(self.stream, RIGHT_BRACE)?;
        Ok(count)
    }

    // parse_constructor_field: '[' exp ']' '=' exp | Name '=' exp | exp
    #[cycle(descent)]
    fn field(&self, at: &mut Place, nodes: &mut [u64]) -> Result<(), Refusal>
        requires { Ready self.now.stream.now at.old 0 }
        ensures { Reads self.now field 0 at.old at.new nodes.old nodes.new result }
    {
        let token = at.cursor.get_next(self.stream)?;
        match token.kind {
            NAME => {
                if at.cursor.check_ahead(self.stream, 1, ASSIGN) {
                    self.named_field(at, nodes)
                } else {
                    self.item(at, nodes)
                }
            }
            LEFT_BRACKET => self.indexed_field(at, nodes),
            _ => self.item(at, nodes),
        }
    }

    // exp
    #[cycle(descent)]
    fn item(&self, at: &mut Place, nodes: &mut [u64]) -> Result<(), Refusal>
        requires { Ready self.now.stream.now at.old 0 }
        ensures { Reads self.now P.item 0 at.old at.new nodes.old nodes.new result }
    {
        let first = at.used;
        at.used += 1;
        self.expression(at, nodes, MIN_PRIORITY)?;
        at.close(nodes, first, Tag::Item, 0, 0);
        Ok(())
    }

    // Name '=' exp
    #[cycle(descent)]
    fn named_field(&self, at: &mut Place, nodes: &mut [u64]) -> Result<(), Refusal>
        requires { Ready self.now.stream.now at.old 0 }
        ensures { Reads self.now P.fielded 0 at.old at.new nodes.old nodes.new result }
    {
        let first = at.used;
        at.used += 1;
        let name = at.cursor.expect_name(self.stream)?;
        at.cursor.expect_next(self.stream, ASSIGN)?;
        self.expression(at, nodes, MIN_PRIORITY)?;
        at.close(nodes, first, Tag::NamedField, name.payload, 0);
        Ok(())
    }

    // '[' exp ']' '=' exp
    #[cycle(descent)]
    fn indexed_field(&self, at: &mut Place, nodes: &mut [u64]) -> Result<(), Refusal>
        requires { Ready self.now.stream.now at.old 0 }
        ensures { Reads self.now P.keyed 0 at.old at.new nodes.old nodes.new result }
    {
        let first = at.used;
        at.used += 1;
        at.cursor.take_next(self.stream)?;
        self.expression(at, nodes, MIN_PRIORITY)?;
        at.cursor.expect_next(self.stream, RIGHT_BRACKET)?;
        at.cursor.expect_next(self.stream, ASSIGN)?;
        self.expression(at, nodes, MIN_PRIORITY)?;
        at.close(nodes, first, Tag::IndexedField, 0, 0);
        Ok(())
    }
}
