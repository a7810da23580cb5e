// 000's three lookups, each one decision over the token's kind.
#![tactic(auto)]

ghost use Rattle.std.specs.Prelude.{◌≡◌};
ghost use Rattle.operators.specs.Ranks.{unary_operator, binary_operator, priority, ranks};

use stream::kinds::{
    ADD, AND, BIT_AND, BIT_NOT_XOR, BIT_OR, CONCAT, DIV, EQUAL, GREATER_EQUAL, GREATER_THAN, IDIV,
    LEN, LESS_EQUAL, LESS_THAN, MINUS, MOD, MUL, NOT, NOT_EQUAL, OR, POW, SHIFT_LEFT, SHIFT_RIGHT,
};

// Where `~=` stands: beside `+` and `-` in the crate, beside `==` in the manual.
#[derive(Clone, Copy, PartialEq, Eq, Debug)]
pub enum Ranking {
    Crate,
    Manual,
}

#[derive(Clone, Copy, PartialEq, Eq, Debug)]
pub struct Priority {
    pub left: u64,
    pub right: u64,
}

// Priority lower than any unary or binary operator.
pub const MIN_PRIORITY: u64 = 0;

// Priority of all unary operators.
pub const UNARY_PRIORITY: u64 = 12;

// A unary operator's number in the tree: its place in 000's enum.
#[tactic(auto, unfolding(crate::specs::Ranks::find, crate::specs::Ranks::unary_operator))]
pub fn get_unary_operator(kind: u64) -> Option<u64>
    ensures { result ≡ unary_operator kind }
{
    match kind {
        NOT => Some(0),
        MINUS => Some(1),
        BIT_NOT_XOR => Some(2),
        LEN => Some(3),
        _ => None,
    }
}

// A binary operator's number in the tree, likewise.
#[tactic(auto, unfolding(crate::specs::Ranks::find, crate::specs::Ranks::binary_operator))]
pub fn get_binary_operator(kind: u64) -> Option<u64>
    ensures { result ≡ binary_operator kind }
{
    match kind {
        OR => Some(20),
        AND => Some(19),
        EQUAL => Some(14),
        LESS_THAN => Some(15),
        LESS_EQUAL => Some(16),
        GREATER_THAN => Some(17),
        GREATER_EQUAL => Some(18),
        NOT_EQUAL => Some(13),
        BIT_OR => Some(8),
        BIT_NOT_XOR => Some(9),
        BIT_AND => Some(7),
        SHIFT_LEFT => Some(10),
        SHIFT_RIGHT => Some(11),
        CONCAT => Some(12),
        ADD => Some(0),
        MINUS => Some(1),
        MUL => Some(2),
        MOD => Some(3),
        DIV => Some(5),
        IDIV => Some(6),
        POW => Some(4),
        _ => None,
    }
}

impl Priority {
    fn new(left: u64, right: u64) -> Priority
        ensures { (result.left ≡ left) × (result.right ≡ right) }
    {
        Priority { left, right }
    }
}

// The left and right priority of the binary operator that a token of this kind is; 0 where it is none.
#[tactic(auto, unfolding(crate::specs::Ranks::find))]
pub fn binary_priority(ranking: Ranking, kind: u64) -> Priority
    ensures { result ≡ priority (ranks ranking) kind }
{
    match kind {
        OR => Priority::new(1, 1),
        AND => Priority::new(2, 2),
        EQUAL | LESS_THAN | LESS_EQUAL | GREATER_THAN | GREATER_EQUAL => Priority::new(3, 3),
        NOT_EQUAL => match ranking {
            Ranking::Crate => Priority::new(10, 10),
            Ranking::Manual => Priority::new(3, 3),
        },
        BIT_OR => Priority::new(4, 4),
        BIT_NOT_XOR => Priority::new(5, 5),
        BIT_AND => Priority::new(6, 6),
        SHIFT_LEFT | SHIFT_RIGHT => Priority::new(7, 7),
        CONCAT => Priority::new(9, 8),
        ADD | MINUS => Priority::new(10, 10),
        MUL | MOD | DIV | IDIV => Priority::new(11, 11),
        POW => Priority::new(14, 13),
        _ => Priority::new(0, 0),
    }
}
