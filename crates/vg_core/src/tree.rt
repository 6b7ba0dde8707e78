//! The tree of a C text: its nodes in one list, each part before the node that it is a part of.
ghost use Rattle.std.specs.Prelude.{◌≡◌, ◌+◌, ◌<◌, ◌^◌, ◌++◌, [], ◌∷◌, length, IfOk, OnOk, OnErr};
ghost use Rattle.vg_core.specs.Syntax.{Syntax, with_node, with_parts, listed};

use std::alloc::Global;
use std::marker::Model;
use vg_parts::Memory;

/// A name, by the bytes of the text that spell it, from `from` up to but not with `to`.
#[derive(Clone, Copy, Debug, PartialEq, Eq)]
pub struct Name {
    pub from: u32,
    pub to: u32,
}

/// An integer type, by the word that names it. `Int` is `int`, `Unsigned` is `unsigned` or `unsigned int`, and `Int8` is `int8_t`.
#[derive(Clone, Copy, Debug, PartialEq, Eq)]
pub enum IntType {
    Int,
    Unsigned,
    Int8,
    Int16,
    Int32,
    Int64,
    Uint8,
    Uint16,
    Uint32,
    Uint64,
}

/// What a field, a parameter or a variable is of, or points to.
#[derive(Clone, Copy, Debug, PartialEq, Eq)]
pub enum Base {
    /// An integer.
    Int(IntType),
    /// A struct, with the place of the word `struct`.
    Struct { at: u32, tag: Name },
}

/// What an extern handle stands for: `map_t`, `chain_t`, `vector_t` or `prefix_t`.
#[derive(Clone, Copy, Debug, PartialEq, Eq)]
pub enum HandleKind {
    Map,
    Chain,
    Vector,
    Prefix,
}

/// The operators with one operand, as `-`, `~`, `!`, `*` and `&`.
#[derive(Clone, Copy, Debug, PartialEq, Eq)]
pub enum UnaryOp {
    Negate,
    Complement,
    Not,
    Load,
    Address,
}

/// The operators with two operands, the loosest first.
#[derive(Clone, Copy, Debug, PartialEq, Eq)]
pub enum BinaryOp {
    /// `||`
    OrElse,
    /// `&&`
    AndThen,
    BitOr,
    BitXor,
    BitAnd,
    Equal,
    NotEqual,
    Less,
    Greater,
    LessEqual,
    GreaterEqual,
    ShiftLeft,
    ShiftRight,
    Add,
    Subtract,
    Multiply,
    Divide,
    Remainder,
}

/// A list of parts of a node: as many of the tree's items, from one on.
#[derive(Clone, Copy, Debug, PartialEq, Eq)]
pub struct Parts {
    pub from: u32,
    pub count: u32,
}

/// What a node is. A part is told by its node's number.
#[derive(Clone, Copy, Debug, PartialEq, Eq)]
pub enum Kind {
    /// The whole text: structs, externs and functions.
    Unit {
        items: Parts,
    },
    /// `struct name { fields };`, with the attribute's name where it has one.
    Struct {
        tag: Name,
        fields: Parts,
        attribute: Option<Name>,
    },
    /// A field of a struct.
    Field {
        base: Base,
        name: Name,
        length: Option<u32>,
    },
    /// `extern map_t name;`
    ExternHandle {
        handle: HandleKind,
        name: Name,
    },
    /// `extern const int name;`
    ExternNumber {
        of: IntType,
        name: Name,
    },
    /// A function. One without a type of its answer is `void`.
    Function {
        is_static: bool,
        is_inline: bool,
        answer: Option<IntType>,
        name: Name,
        params: Parts,
        body: u32,
    },
    /// A parameter of a function.
    Param {
        base: Base,
        pointer: bool,
        name: Name,
    },
    /// `{ .. }`: declarations and statements, and the place of the last brace.
    Block {
        statements: Parts,
        end: u32,
    },
    /// A declaration of a variable in a block.
    Declare {
        base: Base,
        pointer: bool,
        name: Name,
        length: Option<u32>,
        value: Option<u32>,
    },
    /// `;`
    Empty,
    /// An expression as a statement.
    Evaluate {
        value: u32,
    },
    /// `target = value;`, or `target op= value;`.
    Assign {
        op: Option<BinaryOp>,
        target: u32,
        value: u32,
    },
    /// `target++;`
    Increment {
        target: u32,
    },
    /// `target--;`
    Decrement {
        target: u32,
    },
    /// `if (condition) then`, and an `else` where it has one.
    If {
        condition: u32,
        then: u32,
        otherwise: Option<u32>,
    },
    /// `for (of counter = start; tested < bound; stepped += step) body`; without `step` it is `stepped++`.
    For {
        of: IntType,
        counter: Name,
        start: u32,
        tested: Name,
        bound: u32,
        stepped: Name,
        step: Option<u32>,
        body: u32,
    },
    /// `return value;`, or `return;`.
    Return {
        value: Option<u32>,
    },
    /// `condition ? then : otherwise`
    Choose {
        condition: u32,
        then: u32,
        otherwise: u32,
    },
    /// `left op right`
    Binary {
        op: BinaryOp,
        left: u32,
        right: u32,
    },
    /// An operator before its operand.
    Unary {
        op: UnaryOp,
        operand: u32,
    },
    /// `(base) operand`, or `(base *) operand`.
    Cast {
        base: Base,
        pointer: bool,
        operand: u32,
    },
    /// `sizeof (base)`
    Sizeof {
        base: Base,
    },
    /// `array[index]`
    Index {
        array: u32,
        index: u32,
    },
    /// `whole.field`
    Member {
        whole: u32,
        field: Name,
    },
    /// `pointer->field`
    Arrow {
        pointer: u32,
        field: Name,
    },
    /// A number, with the type that C11 6.4.4.1 gives it. A defined name is a number too.
    Number {
        value: u64,
        of: IntType,
    },
    /// A name as an expression.
    Variable {
        name: Name,
    },
    /// `name(arguments)`
    Call {
        name: Name,
        arguments: Parts,
    },
    /// `(inner)`
    Parens {
        inner: u32,
    },
}

/// A node: what it is, and the place of its first token in the text.
#[derive(Clone, Copy, Debug, PartialEq, Eq)]
pub struct Node {
    pub kind: Kind,
    pub at: u32,
}

/// The nodes of a text, each numbered by its place in the list, the whole text's last; and the lists of parts, in a row.
#[derive(Drop)]
pub struct Tree {
    node_list: Vec<Node>,
    item_list: Vec<u32>,
}

impl Model for Tree {
    ghost use Rattle.vg_core.specs.Syntax.{Syntax};

    ghost Value = { Syntax };

    ghost view = { λ t. record { nodes = t.node_list.items; items = t.item_list.items } };

    ghost use Rattle.std.specs.Prelude.{◌<◌, ◌^◌, length};

    ghost invariant = { λ t. length t.node_list.items < 2 ^ 32 };
}

impl Tree {
    /// A tree without nodes.
    pub fn new(alloc: Global) -> Tree
        ensures { result ≡ record { nodes = []; items = [] } }
    {
        Tree {
            node_list: Vec::new(alloc),
            item_list: Vec::new(alloc),
        }
    }

    /// The same tree, in memory of its own.
    pub fn copy(&self, alloc: Global) -> Result<Tree, Memory>
        ensures { IfOk result (λ copy. copy ≡ self.now) }
    {
        Ok(Tree {
            node_list: Vec::from_slice(alloc, &self.node_list)?,
            item_list: Vec::from_slice(alloc, &self.item_list)?,
        })
    }

    /// The nodes, in the order of their numbers.
    pub fn nodes(&self) -> &[Node]
        ensures nodes { result.now ≡ self.now.nodes }
        ensures numbered { length self.now.nodes < 2 ^ 32 }
    {
        &self.node_list
    }

    /// The numbers of parts in lists, one list behind the other.
    pub fn items(&self) -> &[u32]
        ensures { result.now ≡ self.now.items }
    {
        &self.item_list
    }

    /// The numbers of the parts in a list.
    pub fn listed(&self, parts: Parts) -> &[u32]
        ensures { result.now ≡ listed self.now.items parts }
    {
        let from = usize::min(parts.from as usize, self.item_list.len());
        let (_, behind) = self.item_list.split_at(from);
        let count = usize::min(parts.count as usize, behind.len());
        let (list, _) = behind.split_at(count);
        list
    }

    /// Adds a node, and answers its number.
    pub fn add(&mut self, at: u32, kind: Kind) -> Result<u32, Memory>
        ensures number { IfOk result (λ n. n ≡ length self.old.nodes) }
        ensures added { OnOk result (self.new ≡ with_node self.old at kind) }
        ensures kept { OnErr result (self.new ≡ self.old) }
    {
        let count = self.node_list.len();
        if count >= u32::MAX as usize {
            return Err(Memory);
        }
        self.node_list.push(Node { kind, at })?;
        Ok(count as u32)
    }

    /// Adds a list of parts, and answers where it stands.
    pub fn add_parts(&mut self, parts: &[u32]) -> Result<Parts, Memory>
        ensures place { IfOk result (λ p. p ≡ record { from = length self.old.items; count = length parts.now }) }
        ensures added { OnOk result (self.new ≡ with_parts self.old parts.now) }
    {
        let from = self.item_list.len();
        if from >= u32::MAX as usize || parts.len() >= u32::MAX as usize {
            return Err(Memory);
        }
        self.item_list.extend_from_slice(parts)?;
        Ok(Parts {
            from: from as u32,
            count: parts.len() as u32,
        })
    }
}
