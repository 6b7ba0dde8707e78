//! Why a text isn't well typed.
ghost use Rattle.std.specs.Prelude.{◌≡◌};
ghost use Rattle.vg_ctyper.specs.Faults as faults;

use thiserror::Error;

/// A rule of typing, with the sections of C11 that it is from; one without a section is the profile's own.
#[derive(Clone, Copy, Debug, PartialEq, Eq)]
pub enum Rule {
    /// A name is declared before it is used, and only a function or a call of the library is called (6.2.1, 6.5.1, 6.5.2.2).
    Declared,
    /// A name is declared once in the file, and once in blocks that stand in one another (6.7).
    DeclaredOnce,
    /// The last item is `int nf_process(uint16_t P, uint64_t N)`, by these words.
    LastItem,
    /// The attribute is `packed`; the fields of a struct have names of their own, and are integers, structs before or arrays of integers (6.7.2.1).
    Fields,
    /// An array has a constant length from 1 to 65,536; an object, and all variables of blocks together, take at most 65,536 bytes (6.7.6.2).
    Sizes,
    /// Operands of arithmetic and of bit operators are integers (6.5.3.3, 6.5.5, 6.5.6, 6.5.10 to 6.5.12).
    Arithmetic,
    /// Operands of a shift are integers (6.5.7).
    Shift,
    /// Operands of comparisons, `!`, `&&` and `||` are integers (6.5.3.3, 6.5.8, 6.5.9, 6.5.13, 6.5.14).
    Comparison,
    /// The operands of `?:` are integers (6.5.15).
    Conditional,
    /// What is assigned to, stepped or has its address taken is an lvalue, and no number from outside (6.3.2.1, 6.5.3.2, 6.5.16).
    Lvalue,
    /// An integer is assigned an integer, and a pointer one of its own type or `void *` (6.5.16.1, 6.7.9).
    Assignment,
    /// `*`, `->` and `[]` take a pointer to an object or an array; an index is an integer (6.5.2.1, 6.5.2.3, 6.5.3.2).
    Indirection,
    /// A field after `.` or `->` is one of the struct's (6.5.2.3).
    Member,
    /// The operand of `&` is no pointer and no array.
    Address,
    /// A call has an argument for each parameter, which it can be assigned (6.5.2.2).
    Arguments,
    /// `return` has an integer exactly where the function answers one (6.8.6.4).
    Return,
    /// A condition is an integer (6.8.4.1).
    Condition,
    /// A loop counts by constants up to a constant, within its counter's type, which nothing else changes.
    Loop,
    /// A handle stands only as an argument.
    Handle,
    /// A cast goes from integer to integer, or from pointer to pointer (6.5.4).
    Cast,
    /// A statement without an assignment is a call, and a call without an answer stands only there (6.8.3).
    Statement,
    /// `packet_borrow` takes a constant.
    Borrow,
}

impl Rule {
    /// The number that the rule is printed by, from 1 to 22 (docs/C_PROFILE.md).
    pub fn number(self) -> u8
        ensures { result ≡ faults.number self }
    {
        match self {
            Rule::Declared => 1,
            Rule::DeclaredOnce => 2,
            Rule::LastItem => 3,
            Rule::Fields => 4,
            Rule::Sizes => 5,
            Rule::Arithmetic => 6,
            Rule::Shift => 7,
            Rule::Comparison => 8,
            Rule::Conditional => 9,
            Rule::Lvalue => 10,
            Rule::Assignment => 11,
            Rule::Indirection => 12,
            Rule::Member => 13,
            Rule::Address => 14,
            Rule::Arguments => 15,
            Rule::Return => 16,
            Rule::Condition => 17,
            Rule::Loop => 18,
            Rule::Handle => 19,
            Rule::Cast => 20,
            Rule::Statement => 21,
            Rule::Borrow => 22,
        }
    }
}

/// Why a text isn't well typed. Places are in bytes from the text's start.
#[derive(Clone, Copy, Debug, PartialEq, Eq, Error)]
pub enum TypeFault {
    /// A rule is broken.
    #[error("type {} at {at}", .rule.number())]
    Typing { at: u32, rule: Rule },
    /// A struct that isn't packed would get bytes between its fields or behind them: the place of its tag, and the first such offset.
    #[error("padded at {tag}, offset {offset}")]
    Padded { tag: u32, offset: u32 },
    /// A function calls itself.
    #[error("recursive at {at}")]
    Recursive { at: u32 },
    /// A loop has more than 4,096 turns, or `nf_process` may take more than 1,000,000 steps.
    #[error("turns at {at}")]
    Turns { at: u32 },
    /// Memory ran out.
    #[error("out of memory")]
    Memory,
}

impl TypeFault {
    /// Its place, and at one place its rank: rules by their numbers, and then the others.
    fn rank(self) -> (u32, u32, u32)
        ensures { result ≡ faults.rank self }
    {
        match self {
            TypeFault::Typing { at, rule } => (at, u32::from(rule.number()), 0),
            TypeFault::Padded { tag, offset } => (tag, 300, offset),
            TypeFault::Recursive { at } => (at, 301, 0),
            TypeFault::Turns { at } => (at, 302, 0),
            TypeFault::Memory => (u32::MAX, 303, 0),
        }
    }
}

/// Whether the first fault comes before the second.
fn is_before(a: TypeFault, b: TypeFault) -> bool
    ensures { result ≡ faults.is_before a b }
{
    let (a_place, a_rule, a_offset) = a.rank();
    let (b_place, b_rule, b_offset) = b.rank();
    if a_place != b_place {
        a_place < b_place
    } else if a_rule != b_rule {
        a_rule < b_rule
    } else {
        a_offset < b_offset
    }
}

/// Of two faults the one that comes first.
pub(crate) fn sooner(a: Option<TypeFault>, b: Option<TypeFault>) -> Option<TypeFault>
    ensures { result ≡ faults.sooner a b }
{
    match (a, b) {
        (Some(x), Some(y)) => Some(if is_before(y, x) { y } else { x }),
        (Some(x), None) => Some(x),
        (None, y) => y,
    }
}
