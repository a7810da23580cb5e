// Expressions: operators, operands, and lists of them.
ghost use Rattle.std.specs.Prelude.{◌≡◌, false, eqb, ◌+◌};
ghost use Rattle.stream.specs.Words.{kind as kind_at};
ghost use Rattle.operators.specs.Ranks.{ranks, code};
ghost use Rattle.grammar.specs.Levels.{readers};
ghost use Rattle.grammar.specs.Productions.{explist, simple, head, tails};
ghost use Rattle.parser.specs.Parts as P;
ghost use Rattle.parser.specs.Contract.{Ready, Meeting, Reads, Counts, Sums, counts, begins, backs, under};

use crate::place::{Place, Script};
use operators::{MIN_PRIORITY, UNARY_PRIORITY};
use stream::kinds::{COMMA, DOTS, FALSE, FLOAT, FUNCTION, INTEGER, LEFT_BRACE, NIL, STRING, TRUE};
use stream::reader::{Note, Refusal};
use tree::Tag;

// An expression of its own has a chain of its own; an operand goes on with the chain that it stands in.
fn begin_chain(limit: u64, note: &mut Note)
    ensures { note.new ≡ begins (eqb limit 0) note.old }
{
    if limit == MIN_PRIORITY {
        *note = quarrel::fresh(*note);
    }
}

fn end_chain(limit: u64, outer: Note, note: &mut Note)
    ensures { note.new ≡ backs (eqb limit 0) outer note.old }
{
    if limit == MIN_PRIORITY {
        *note = quarrel::resume(outer, *note);
    }
}

impl Script<'_> {
    // parse_expression_list: exp {',' exp}; how many
    #[cycle(descent)]
    pub(crate) fn expressions(&self, at: &mut Place, nodes: &mut [u64]) -> Result<u64, Refusal>
        requires { Ready self.now.stream.now at.old 1 }
        ensures { Counts self.now (explist 1) (at.old.cursor.place + 1) 0 at.old at.new nodes.old nodes.new result }
    {
        self.expression(at, nodes, MIN_PRIORITY)?;
        let mut count = 1;
        while at.cursor.check_ahead(self.stream, 0, COMMA) {
            at.cursor.take_next(self.stream)?;
            self.expression(at, nodes, MIN_PRIORITY)?;
            count += 1;
        }
        Ok(count)
    }

    // parse_sub_expression: an expression whose operators rank above `limit`
    #[cycle(descent)]
    pub(crate) fn expression(
        &self,
        at: &mut Place,
        nodes: &mut [u64],
        limit: u64,
    ) -> Result<(), Refusal>
        requires { Ready self.now.stream.now at.old 1 }
        ensures { Meeting (counts self.now.stream.now limit) self.now.stream.now at.old.cursor.note (at.old.cursor.place + 1) at.old.used 0 nodes.old nodes.new ((readers self.now.stream.now (ranks self.now.ranking) self.now.levels).exps limit at.old.cursor.place at.old.cursor.mark) at.new result }
    {
        if self.levels == 0 {
            return Err(self.too_deep(at));
        }
        let inner = Script {
            stream: self.stream,
            ranking: self.ranking,
            levels: self.levels - 1,
        };
        let outer = at.cursor.note;
        begin_chain(limit, &mut at.cursor.note);
        let first = at.used;
        at.used += 1;
        inner.head(at, nodes)?;
        let tails = inner.tails(at, nodes, limit)?;
        end_chain(limit, outer, &mut at.cursor.note);
        at.close(nodes, first, Tag::Expression, tails, 0);
        Ok(())
    }

    // a unary operator and its operand, or a simple expression
    #[cycle(descent)]
    fn head(&self, at: &mut Place, nodes: &mut [u64]) -> Result<(), Refusal>
        requires { Ready self.now.stream.now at.old 2 }
        ensures { Reads self.now head 0 at.old at.new nodes.old nodes.new result }
    {
        let token = at.cursor.get_next(self.stream)?;
        let Some(operator) = operators::get_unary_operator(token.kind) else {
            return self.simple(at, nodes);
        };
        let first = at.used;
        at.used += 1;
        at.cursor.take_next(self.stream)?;
        self.expression(at, nodes, UNARY_PRIORITY)?;
        at.close(nodes, first, Tag::Unary, operator, 0);
        Ok(())
    }

    // the binary operators above `limit`, each with its right operand; how many
    #[cycle(descent)]
    fn tails(&self, at: &mut Place, nodes: &mut [u64], limit: u64) -> Result<u64, Refusal>
        requires { Ready self.now.stream.now at.old 0 }
        ensures { Sums self.now.stream.now at.old.cursor.note at.old.cursor.place at.old.cursor.place at.old.used 0 nodes.old nodes.new (under self.now.stream.now self.now.ranking limit self.now.levels 0 tails at.old.cursor.place at.old.cursor.mark) at.new result }
    {
        let mut count = 0;
        while let Some(token) = at.cursor.look_ahead(self.stream, 0) {
            let Some(operator) = operators::get_binary_operator(token.kind) else {
                return Ok(count);
            };
            let priority = operators::binary_priority(self.ranking, token.kind);
            if priority.left <= limit {
                return Ok(count);
            }
            self.tail(at, nodes, priority.right, operator)?;
            count += 1;
        }
        Ok(count)
    }

    // a binary operator and its right operand
    #[cycle(descent)]
    fn tail(
        &self,
        at: &mut Place,
        nodes: &mut [u64],
        limit: u64,
        operator: u64,
    ) -> Result<(), Refusal>
        requires { Ready self.now.stream.now at.old 0 × (limit ≡ (ranks self.now.ranking).right (kind_at self.now.stream.now at.old.cursor.place)) × (operator ≡ code (kind_at self.now.stream.now at.old.cursor.place)) × (eqb limit 0 ≡ false) }
        ensures { Reads self.now P.operation 0 at.old at.new nodes.old nodes.new result }
    {
        let place = at.cursor.place;
        let first = at.used;
        at.used += 1;
        let token = at.cursor.take_next(self.stream)?;
        at.cursor.note = quarrel::hear(at.cursor.note, token.kind, place);
        self.expression(at, nodes, limit)?;
        at.close(nodes, first, Tag::Tail, operator, 0);
        Ok(())
    }

    // parse_simple_expression
    #[cycle(descent)]
    fn simple(&self, at: &mut Place, nodes: &mut [u64]) -> Result<(), Refusal>
        requires { Ready self.now.stream.now at.old 2 }
        ensures { Reads self.now simple 0 at.old at.new nodes.old nodes.new result }
    {
        let token = at.cursor.get_next(self.stream)?;
        match token.kind {
            FLOAT => self.leaf(at, nodes, Tag::Float),
            INTEGER => self.leaf(at, nodes, Tag::Integer),
            STRING => self.leaf(at, nodes, Tag::String),
            NIL => self.leaf(at, nodes, Tag::Nil),
            TRUE => self.leaf(at, nodes, Tag::True),
            FALSE => self.leaf(at, nodes, Tag::False),
            DOTS => self.leaf(at, nodes, Tag::Varargs),
            LEFT_BRACE => self.table(at, nodes),
            FUNCTION => {
                at.cursor.take_next(self.stream)?;
                self.definition(at, nodes)
            }
            _ => {
                self.suffixed(at, nodes)?;
                Ok(())
            }
        }
    }
}
