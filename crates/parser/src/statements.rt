// Statements and blocks.
ghost use Rattle.std.specs.Prelude.{◌≡◌, [], ◌∷◌, ℕ, ◌+◌, ◌-◌, ◌≤◌};
ghost use Rattle.stream.specs.Refusals.{fault_number};
ghost use Rattle.stream.specs.Words.{line as line_at};
ghost use Rattle.operators.specs.Ranks.{ranks};
ghost use Rattle.grammar.specs.Member.{member};
ghost use Rattle.grammar.specs.Levels.{readers};
ghost use Rattle.grammar.specs.Productions.{block, retstat};
ghost use Rattle.grammar.specs.Productions.{ifstat, whilestat, dostat, forstat, repeatstat, functionstat, localfunction, localstat, exprstat};
ghost use Rattle.tree.specs.Tags.{tag_word};
ghost use Rattle.parser.specs.Parts as P;
ghost use Rattle.parser.specs.Contract.{Ready, Meets, Reads, Counts, Sums, Calls, says, under, misfit};

use crate::names::unexpected;
use crate::place::{Place, Script};
use operators::MIN_PRIORITY;
use stream::kinds::{
    ASSIGN, BREAK, COMMA, DO, DOUBLE_COLON, ELSE, ELSE_IF, END, FOR, FUNCTION, GOTO, IF, IN, LOCAL,
    REPEAT, RETURN, SEMI_COLON, THEN, UNTIL, WHILE,
};
use stream::reader::Refusal;
use stream::refusals::{Expected, Fault};
use tree::Tag;

const FOR_EXPECTED: u64 = Expected::ForClause as u64;

// Whether a suffixed expression whose last record has this tag can be assigned to: a name, a field or an index.
fn is_target(last: Tag) -> bool
    ensures { result ≡ member (tag_word last) (30 ∷ 32 ∷ 33 ∷ []) }
{
    matches!(last, Tag::Name | Tag::Field | Tag::Index)
}

// Whether it is a call.
fn is_call(last: Tag) -> bool
    ensures { result ≡ member (tag_word last) (34 ∷ 35 ∷ []) }
{
    matches!(last, Tag::Call | Tag::MethodCall)
}

// A refusal that tells the line after the first suffixed expression.
fn misfit(fault: Fault, line: u64) -> Refusal
    ensures { result ≡ misfit (fault_number fault) line }
{
    Refusal::at_line(fault, line)
}

// a call as a statement
fn call_statement(
    at: &Place,
    nodes: &mut [u64],
    first: usize,
    last: Tag,
    line: u64,
    after: u64,
) -> Result<(), Refusal>
    requires { first ≤ at.now.used }
    ensures { Calls first at.now.used nodes.old nodes.new line (tag_word last) after result }
{
    if !is_call(last) {
        return Err(misfit(Fault::NoStatement, after));
    }
    at.close(nodes, first, Tag::CallStatement, 0, line);
    Ok(())
}

impl Script<'_> {
    // parse_block: {stat} [retstat]
    #[cycle(descent)]
    pub(crate) fn block(&self, at: &mut Place, nodes: &mut [u64]) -> Result<(), Refusal>
        requires { Ready self.now.stream.now at.old 0 }
        ensures { Meets self.now.stream.now at.old.cursor.note at.old.cursor.place at.old.used 1 nodes.old nodes.new (says self.now.stream.now self.now.ranking self.now.levels block at.old.cursor) at.new result }
    {
        let first = at.used;
        at.used += 1;
        self.statements(at, nodes)?;
        let returns = self.return_part(at, nodes)?;
        at.cursor.read_ahead(self.stream, 1);
        let line = self.line(at);
        at.close(nodes, first, Tag::Block, returns, line);
        Ok(())
    }

    // {stat}: until the end, or a token that ends a block
    #[cycle(descent)]
    fn statements(&self, at: &mut Place, nodes: &mut [u64]) -> Result<(), Refusal>
        requires { Ready self.now.stream.now at.old 1 }
        ensures { Meets self.now.stream.now at.old.cursor.note at.old.cursor.place at.old.used 1 nodes.old nodes.new (says self.now.stream.now self.now.ranking self.now.levels P.stats at.old.cursor) at.new result }
    {
        let stream = self.stream;
        while let Some(token) = at.cursor.look_ahead(stream, 0) {
            match token.kind {
                ELSE | ELSE_IF | END | UNTIL | RETURN => return Ok(()),
                SEMI_COLON => {
                    at.cursor.take_next(stream)?;
                }
                _ => self.statement(at, nodes)?,
            }
        }
        Ok(())
    }

    // [retstat]; 1 where there is one
    #[cycle(descent)]
    fn return_part(&self, at: &mut Place, nodes: &mut [u64]) -> Result<u64, Refusal>
        requires { Ready self.now.stream.now at.old 1 }
        ensures { Counts self.now P.returns at.old.cursor.place 1 at.old at.new nodes.old nodes.new result }
    {
        let Some(token) = at.cursor.look_ahead(self.stream, 0) else {
            return Ok(0);
        };
        if token.kind != RETURN {
            return Ok(0);
        }
        self.return_statement(at, nodes)?;
        Ok(1)
    }

    // parse_statement
    #[cycle(descent)]
    fn statement(&self, at: &mut Place, nodes: &mut [u64]) -> Result<(), Refusal>
        requires { Ready self.now.stream.now at.old 1 }
        ensures { Meets self.now.stream.now at.old.cursor.note (at.old.cursor.place + 1) at.old.used 0 nodes.old nodes.new ((readers self.now.stream.now (ranks self.now.ranking) self.now.levels).stats at.old.cursor.place at.old.cursor.mark) at.new result }
    {
        if self.levels == 0 {
            return Err(self.too_deep(at));
        }
        let inner = Script {
            stream: self.stream,
            ranking: self.ranking,
            levels: self.levels - 1,
        };
        let token = at.cursor.get_next(self.stream)?;
        match token.kind {
            IF => inner.if_statement(at, nodes),
            WHILE => inner.while_statement(at, nodes),
            DO => inner.do_statement(at, nodes),
            FOR => inner.for_statement(at, nodes),
            REPEAT => inner.repeat_statement(at, nodes),
            FUNCTION => inner.function_statement(at, nodes),
            LOCAL => {
                if at.cursor.check_ahead(self.stream, 1, FUNCTION) {
                    inner.local_function(at, nodes)
                } else {
                    inner.local_statement(at, nodes)
                }
            }
            DOUBLE_COLON => inner.label(at, nodes),
            BREAK => inner.stop(at, nodes),
            GOTO => inner.goto(at, nodes),
            _ => inner.expression_statement(at, nodes),
        }
    }

    // parse_return_statement: return [explist] [';']
    #[cycle(descent)]
    fn return_statement(&self, at: &mut Place, nodes: &mut [u64]) -> Result<(), Refusal>
        requires { Ready self.now.stream.now at.old 1 }
        ensures { Reads self.now retstat 0 at.old at.new nodes.old nodes.new result }
    {
        let line = self.line(at);
        let first = at.used;
        at.used += 1;
        at.cursor.expect_next(self.stream, RETURN)?;
        let values = self.returned(at, nodes)?;
        self.semicolon(at)?;
        at.close(nodes, first, Tag::Return, values, line);
        Ok(())
    }

    // [explist] of a return: none at the end of the block; how many
    #[cycle(descent)]
    fn returned(&self, at: &mut Place, nodes: &mut [u64]) -> Result<u64, Refusal>
        requires { Ready self.now.stream.now at.old 0 }
        ensures { Counts self.now P.values at.old.cursor.place 0 at.old at.new nodes.old nodes.new result }
    {
        let Some(token) = at.cursor.look_ahead(self.stream, 0) else {
            return Ok(0);
        };
        match token.kind {
            END | SEMI_COLON | ELSE | ELSE_IF | UNTIL => Ok(0),
            _ => self.expressions(at, nodes),
        }
    }

    // parse_if_statement: if exp then block {elseif exp then block} [else block] end
    #[cycle(descent)]
    fn if_statement(&self, at: &mut Place, nodes: &mut [u64]) -> Result<(), Refusal>
        requires { Ready self.now.stream.now at.old 1 }
        ensures { Reads self.now ifstat 0 at.old at.new nodes.old nodes.new result }
    {
        let line = self.line(at);
        let first = at.used;
        at.used += 1;
        at.cursor.expect_next(self.stream, IF)?;
        self.arm(at, nodes)?;
        let arms = self.arms(at, nodes)?;
        let otherwise = self.otherwise(at, nodes)?;
        at.cursor.expect_next(self.stream, END)?;
        at.close(nodes, first, Tag::If, arms + otherwise, line);
        Ok(())
    }

    // exp then block
    #[cycle(descent)]
    fn arm(&self, at: &mut Place, nodes: &mut [u64]) -> Result<(), Refusal>
        requires { Ready self.now.stream.now at.old 1 }
        ensures { Reads self.now P.arm 1 at.old at.new nodes.old nodes.new result }
    {
        self.expression(at, nodes, MIN_PRIORITY)?;
        at.cursor.expect_next(self.stream, THEN)?;
        self.block(at, nodes)
    }

    // {elseif exp then block}; each weighs 2
    #[cycle(descent)]
    fn arms(&self, at: &mut Place, nodes: &mut [u64]) -> Result<u64, Refusal>
        requires { Ready self.now.stream.now at.old 1 }
        ensures { Counts self.now P.arms at.old.cursor.place 1 at.old at.new nodes.old nodes.new result }
    {
        let mut value = 0;
        while at.cursor.check_ahead(self.stream, 0, ELSE_IF) {
            at.cursor.take_next(self.stream)?;
            self.arm(at, nodes)?;
            value += 2;
        }
        Ok(value)
    }

    // [else block]; 1 where there is one
    #[cycle(descent)]
    fn otherwise(&self, at: &mut Place, nodes: &mut [u64]) -> Result<u64, Refusal>
        requires { Ready self.now.stream.now at.old 1 }
        ensures { Counts self.now P.otherwise at.old.cursor.place 1 at.old at.new nodes.old nodes.new result }
    {
        if !at.cursor.check_ahead(self.stream, 0, ELSE) {
            return Ok(0);
        }
        at.cursor.take_next(self.stream)?;
        self.block(at, nodes)?;
        Ok(1)
    }

    // block end
    #[cycle(descent)]
    pub(crate) fn ended_block(&self, at: &mut Place, nodes: &mut [u64]) -> Result<(), Refusal>
        requires { Ready self.now.stream.now at.old 0 }
        ensures { Reads self.now P.ended 0 at.old at.new nodes.old nodes.new result }
    {
        self.block(at, nodes)?;
        at.cursor.expect_next(self.stream, END)?;
        Ok(())
    }

    // do block end, of a loop
    #[cycle(descent)]
    fn loop_body(&self, at: &mut Place, nodes: &mut [u64]) -> Result<(), Refusal>
        requires { Ready self.now.stream.now at.old 0 }
        ensures { Reads self.now P.body 0 at.old at.new nodes.old nodes.new result }
    {
        at.cursor.expect_next(self.stream, DO)?;
        self.ended_block(at, nodes)
    }

    // parse_while_statement: while exp do block end
    #[cycle(descent)]
    fn while_statement(&self, at: &mut Place, nodes: &mut [u64]) -> Result<(), Refusal>
        requires { Ready self.now.stream.now at.old 1 }
        ensures { Reads self.now whilestat 0 at.old at.new nodes.old nodes.new result }
    {
        let line = self.line(at);
        let first = at.used;
        at.used += 1;
        at.cursor.expect_next(self.stream, WHILE)?;
        self.expression(at, nodes, MIN_PRIORITY)?;
        self.loop_body(at, nodes)?;
        at.close(nodes, first, Tag::While, 0, line);
        Ok(())
    }

    // do block end
    #[cycle(descent)]
    fn do_statement(&self, at: &mut Place, nodes: &mut [u64]) -> Result<(), Refusal>
        requires { Ready self.now.stream.now at.old 1 }
        ensures { Reads self.now dostat 0 at.old at.new nodes.old nodes.new result }
    {
        let line = self.line(at);
        let first = at.used;
        at.used += 1;
        at.cursor.take_next(self.stream)?;
        self.ended_block(at, nodes)?;
        at.close(nodes, first, Tag::Do, 0, line);
        Ok(())
    }

    // parse_for_statement
    #[cycle(descent)]
    fn for_statement(&self, at: &mut Place, nodes: &mut [u64]) -> Result<(), Refusal>
        requires { Ready self.now.stream.now at.old 1 }
        ensures { Reads self.now forstat 0 at.old at.new nodes.old nodes.new result }
    {
        let line = self.line(at);
        let first = at.used;
        at.used += 1;
        at.cursor.expect_next(self.stream, FOR)?;
        let name = at.cursor.expect_name(self.stream)?;
        let token = at.cursor.get_next(self.stream)?;
        match token.kind {
            ASSIGN => {
                self.numeric_for(at, nodes)?;
                at.close(nodes, first, Tag::NumericFor, name.payload, line);
                Ok(())
            }
            COMMA | IN => {
                at.leaf(nodes, Tag::Name, name.payload);
                at.used += 1;
                let more = self.generic_for(at, nodes)?;
                at.close(nodes, first, Tag::GenericFor, more + 1, line);
                Ok(())
            }
            _ => Err(unexpected(&token, at.cursor.place, FOR_EXPECTED)),
        }
    }

    // '=' exp ',' exp [',' exp] do block end, after the name
    #[cycle(descent)]
    fn numeric_for(&self, at: &mut Place, nodes: &mut [u64]) -> Result<(), Refusal>
        requires { Ready self.now.stream.now at.old 0 }
        ensures { Reads self.now P.numeric 0 at.old at.new nodes.old nodes.new result }
    {
        at.cursor.take_next(self.stream)?;
        self.expression(at, nodes, MIN_PRIORITY)?;
        at.cursor.expect_next(self.stream, COMMA)?;
        self.expression(at, nodes, MIN_PRIORITY)?;
        self.step(at, nodes)?;
        self.loop_body(at, nodes)
    }

    // [',' exp]
    #[cycle(descent)]
    fn step(&self, at: &mut Place, nodes: &mut [u64]) -> Result<(), Refusal>
        requires { Ready self.now.stream.now at.old 0 }
        ensures { Meets self.now.stream.now at.old.cursor.note at.old.cursor.place at.old.used 0 nodes.old nodes.new (says self.now.stream.now self.now.ranking self.now.levels P.step at.old.cursor) at.new result }
    {
        if !at.cursor.check_ahead(self.stream, 0, COMMA) {
            return Ok(());
        }
        at.cursor.take_next(self.stream)?;
        self.expression(at, nodes, MIN_PRIORITY)
    }

    // {',' Name} in explist do block end, after the first name; how many names
    #[cycle(descent)]
    fn generic_for(&self, at: &mut Place, nodes: &mut [u64]) -> Result<u64, Refusal>
        requires { Ready self.now.stream.now at.old 0 }
        ensures { Counts self.now P.generic (at.old.cursor.place + 1) 0 at.old at.new nodes.old nodes.new result }
    {
        let names = self.names(at, nodes)?;
        at.cursor.expect_next(self.stream, IN)?;
        self.expressions(at, nodes)?;
        self.loop_body(at, nodes)?;
        Ok(names)
    }

    // parse_repeat_statement: repeat block until exp
    #[cycle(descent)]
    fn repeat_statement(&self, at: &mut Place, nodes: &mut [u64]) -> Result<(), Refusal>
        requires { Ready self.now.stream.now at.old 1 }
        ensures { Reads self.now repeatstat 0 at.old at.new nodes.old nodes.new result }
    {
        let line = self.line(at);
        let first = at.used;
        at.used += 1;
        at.cursor.expect_next(self.stream, REPEAT)?;
        self.block(at, nodes)?;
        at.cursor.expect_next(self.stream, UNTIL)?;
        self.expression(at, nodes, MIN_PRIORITY)?;
        at.close(nodes, first, Tag::Repeat, 0, line);
        Ok(())
    }

    // parse_function_statement: function funcname funcbody
    #[cycle(descent)]
    fn function_statement(&self, at: &mut Place, nodes: &mut [u64]) -> Result<(), Refusal>
        requires { Ready self.now.stream.now at.old 1 }
        ensures { Reads self.now functionstat 0 at.old at.new nodes.old nodes.new result }
    {
        let line = self.line(at);
        let first = at.used;
        at.used += 1;
        at.cursor.expect_next(self.stream, FUNCTION)?;
        self.name(at, nodes)?;
        let fields = self.field_names(at, nodes)?;
        self.definition(at, nodes)?;
        at.close(nodes, first, Tag::Function, fields, line);
        Ok(())
    }

    // parse_local_function_statement: local function Name funcbody
    #[cycle(descent)]
    fn local_function(&self, at: &mut Place, nodes: &mut [u64]) -> Result<(), Refusal>
        requires { Ready self.now.stream.now at.old 1 }
        ensures { Reads self.now localfunction 0 at.old at.new nodes.old nodes.new result }
    {
        let line = self.line(at);
        let first = at.used;
        at.used += 1;
        at.cursor.take_next(self.stream)?;
        at.cursor.expect_next(self.stream, FUNCTION)?;
        let name = at.cursor.expect_name(self.stream)?;
        self.definition(at, nodes)?;
        at.close(nodes, first, Tag::LocalFunction, name.payload, line);
        Ok(())
    }

    // parse_local_statement: local attnamelist ['=' explist]
    #[cycle(descent)]
    fn local_statement(&self, at: &mut Place, nodes: &mut [u64]) -> Result<(), Refusal>
        requires { Ready self.now.stream.now at.old 1 }
        ensures { Reads self.now localstat 0 at.old at.new nodes.old nodes.new result }
    {
        let line = self.line(at);
        let first = at.used;
        at.used += 1;
        at.cursor.expect_next(self.stream, LOCAL)?;
        let names = self.name_list(at, nodes)?;
        self.initial_values(at, nodes)?;
        at.close(nodes, first, Tag::Local, names, line);
        Ok(())
    }

    // ['=' explist]
    #[cycle(descent)]
    fn initial_values(&self, at: &mut Place, nodes: &mut [u64]) -> Result<(), Refusal>
        requires { Ready self.now.stream.now at.old 0 }
        ensures { Meets self.now.stream.now at.old.cursor.note at.old.cursor.place at.old.used 0 nodes.old nodes.new (says self.now.stream.now self.now.ranking self.now.levels P.initial at.old.cursor) at.new result }
    {
        if !at.cursor.check_ahead(self.stream, 0, ASSIGN) {
            return Ok(());
        }
        at.cursor.take_next(self.stream)?;
        self.expressions(at, nodes)?;
        Ok(())
    }

    // parse_expression_statement: varlist '=' explist, or a functioncall
    #[cycle(descent)]
    fn expression_statement(&self, at: &mut Place, nodes: &mut [u64]) -> Result<(), Refusal>
        requires { Ready self.now.stream.now at.old 1 }
        ensures { Reads self.now exprstat 0 at.old at.new nodes.old nodes.new result }
    {
        let line = self.line(at);
        let first = at.used;
        at.used += 1;
        let last = self.suffixed(at, nodes)?;
        let after = self.line(at);
        let Some(token) = at.cursor.look_ahead(self.stream, 0) else {
            return call_statement(at, nodes, first, last, line, after);
        };
        match token.kind {
            ASSIGN | COMMA => {
                if !is_target(last) {
                    return Err(misfit(Fault::NoTarget, after));
                }
                let more = self.assigned(at, nodes, after)?;
                at.close(nodes, first, Tag::Assignment, more + 1, line);
                Ok(())
            }
            _ => call_statement(at, nodes, first, last, line, after),
        }
    }

    // {',' var} '=' explist, after the first target; how many targets follow it
    #[cycle(descent)]
    fn assigned(&self, at: &mut Place, nodes: &mut [u64], after: u64) -> Result<u64, Refusal>
        requires { Ready self.now.stream.now at.old 0 × (after ≡ line_at self.now.stream.now at.old.cursor.place) }
        ensures { Sums self.now.stream.now at.old.cursor.note at.old.cursor.place (at.old.cursor.place + 1) at.old.used 0 nodes.old nodes.new (under self.now.stream.now self.now.ranking 0 self.now.levels at.old.cursor.place P.assigned at.old.cursor.place at.old.cursor.mark) at.new result }
    {
        let targets = self.targets(at, nodes, after)?;
        at.cursor.expect_next(self.stream, ASSIGN)?;
        self.expressions(at, nodes)?;
        Ok(targets)
    }

    // {',' var}; how many
    #[cycle(descent)]
    fn targets(&self, at: &mut Place, nodes: &mut [u64], after: u64) -> Result<u64, Refusal>
        requires { Ready self.now.stream.now at.old 0 }
        ensures { (e : ℕ) → after ≡ line_at self.now.stream.now e → Sums self.now.stream.now at.old.cursor.note at.old.cursor.place at.old.cursor.place at.old.used 0 nodes.old nodes.new (under self.now.stream.now self.now.ranking 0 self.now.levels e P.targets at.old.cursor.place at.old.cursor.mark) at.new result }
    {
        let mut count = 0;
        while at.cursor.check_ahead(self.stream, 0, COMMA) {
            at.cursor.take_next(self.stream)?;
            let last = self.suffixed(at, nodes)?;
            if !is_target(last) {
                return Err(misfit(Fault::NoTarget, after));
            }
            count += 1;
        }
        Ok(count)
    }
}
