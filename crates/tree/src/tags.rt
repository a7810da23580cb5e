// What a tree record is, told by its first word.
#![tactic(auto)]

ghost use Rattle.std.specs.Prelude.{◌≡◌};
ghost use Rattle.tree.specs.Tags.{tag_word};

#[derive(Clone, Copy, PartialEq, Eq, Debug)]
pub enum Tag {
    Block = 1,
    Return,
    If,
    While,
    Do,
    NumericFor,
    GenericFor,
    Repeat,
    Function,
    LocalFunction,
    Local,
    Label,
    Break,
    Goto,
    CallStatement,
    Assignment,
    Expression,
    Unary,
    Tail,
    Integer,
    Float,
    String,
    Nil,
    True,
    False,
    Varargs,
    Table,
    Definition,
    Suffixed,
    Name,
    Group,
    Field,
    Index,
    Call,
    MethodCall,
    Item,
    NamedField,
    IndexedField,
}

impl Tag {
    // The word that stands for it.
    pub fn word(self) -> u64
        ensures { result ≡ tag_word self }
    {
        self as u64
    }
}
