//! Expressions and statements of a specification, each told by its number in a list in which parts stand before what they are parts of.
ghost use Rattle.std.specs.Prelude.{◌≡◌, ◌+◌, ◌<◌, ◌≤◌, ◌^◌, ◌++◌, [], ◌∷◌, length, IfOk, OnOk};
ghost use Rattle.vg_stree.specs.Syntax.{Syntax, with_expression, with_statement, with_operations, with_items, listed};

use std::alloc::Global;
use std::marker::Model;
use vg_parts::Memory;

/// So many items of a list, from one on.
#[derive(Clone, Copy, Debug, PartialEq, Eq)]
pub struct Parts {
    pub from: u32,
    pub count: u32,
}

/// The operators with two operands, as in C, the loosest first.
#[derive(Clone, Copy, Debug, PartialEq, Eq)]
pub enum Operator {
    /// `||`
    OrElse,
    /// `&&`
    AndThen,
    BitOr,
    BitXor,
    BitAnd,
    Equal,
    NotEqual,
    Less,
    Greater,
    LessEqual,
    GreaterEqual,
    ShiftLeft,
    ShiftRight,
    Add,
    Subtract,
    Multiply,
    Divide,
    Remainder,
}

/// An operator of a chain, and its right operand's number.
#[derive(Clone, Copy, Debug, PartialEq, Eq)]
pub struct Operation {
    pub operator: Operator,
    pub operand: u32,
}

/// Bytes of a frame that are read or written as one number, the highest byte first: `u8`, `be16`, `be32`, `be48` or `be64`.
#[derive(Clone, Copy, Debug, PartialEq, Eq)]
pub enum FrameWord {
    U8,
    Be16,
    Be32,
    Be48,
    Be64,
}

/// An expression. Parts are told by their numbers among the expressions, objects by theirs, in order of declaration, and fields by
/// their place in the struct, from 0. The names that a `let`, an `as` or a define's parameters bring are told by how many were in scope before.
#[derive(Clone, Copy, Debug, PartialEq, Eq)]
pub enum SExpr {
    Number(u64),
    /// A declared number, by how many are declared before it.
    Config(u16),
    /// A name that is in scope.
    Local(u32),
    /// `cell.field`, in a rule.
    CellField(u16),
    /// `length`
    Length,
    /// `port`
    Port,
    /// `now`
    Now,
    /// `(inner)`
    Parens(u32),
    /// `!operand`
    Not(u32),
    /// `first operator operand operator operand ..`: operators of one level, the leftmost first.
    Chain {
        first: u32,
        rest: Parts,
    },
    /// `condition ? then : otherwise`
    Choose {
        condition: u32,
        then: u32,
        otherwise: u32,
    },
    /// `define(arguments)`, by the number of the define's body.
    Call {
        body: u32,
        arguments: Parts,
    },
    /// `vector[index].field`
    Cell {
        vector: u16,
        index: u32,
        field: u16,
    },
    /// `frame.word[place]`
    Frame {
        word: FrameWord,
        place: u32,
    },
    /// `has(link, index)`, by the number of the link's map.
    Has {
        link: u16,
        index: u32,
    },
}

/// A statement. Its expressions are told by their numbers, and blocks by the list of their statements' numbers. A link is told by the
/// number of its map. Where a block has a new name, it comes behind those in scope.
#[derive(Clone, Copy, Debug, PartialEq, Eq)]
pub enum SStmt {
    /// `let name = value;`, whose name comes behind those in scope.
    Let {
        value: u32,
    },
    Drop,
    Flood,
    Send {
        port: u32,
    },
    If {
        condition: u32,
        then: Parts,
        otherwise: Parts,
    },
    /// `frame.word[place] = value;`
    SetFrame {
        word: FrameWord,
        place: u32,
        value: u32,
    },
    /// `vector[index].field = value;`
    SetCell {
        vector: u16,
        index: u32,
        field: u16,
        value: u32,
    },
    /// `expire link before bound;`
    Expire {
        link: u16,
        before: u32,
    },
    /// `find link {key} as index then else otherwise`
    Find {
        link: u16,
        key: Parts,
        then: Parts,
        otherwise: Parts,
    },
    /// `add link {key} as index then else otherwise`
    Add {
        link: u16,
        key: Parts,
        then: Parts,
        otherwise: Parts,
    },
    /// `touch link index;`
    Touch {
        link: u16,
        index: u32,
    },
    /// `remove link index;`
    Remove {
        link: u16,
        index: u32,
    },
    /// `lookup table address as value then else otherwise`
    Lookup {
        table: u16,
        address: u32,
        then: Parts,
        otherwise: Parts,
    },
}

/// Expressions and statements, each numbered by its place in its list; the operations of chains; and the lists of arguments, keys and
/// blocks, one behind the other.
#[derive(Drop)]
pub struct Code {
    expression_list: Vec<SExpr>,
    operation_list: Vec<Operation>,
    statement_list: Vec<SStmt>,
    item_list: Vec<u32>,
}

impl Model for Code {
    ghost use Rattle.vg_stree.specs.Syntax.{Syntax};

    ghost Value = { Syntax };

    ghost view = { λ c. record {
      expressions = c.expression_list.items;
      operations = c.operation_list.items;
      statements = c.statement_list.items;
      items = c.item_list.items;
    } };
}

impl Code {
    /// No expressions and no statements.
    pub fn new(alloc: Global) -> Code
        ensures { result ≡ record { expressions = []; operations = []; statements = []; items = [] } }
    {
        Code {
            expression_list: Vec::new(alloc),
            operation_list: Vec::new(alloc),
            statement_list: Vec::new(alloc),
            item_list: Vec::new(alloc),
        }
    }

    /// The expressions, in the order of their numbers.
    pub fn expressions(&self) -> &[SExpr]
        ensures { result.now ≡ self.now.expressions }
    {
        &self.expression_list
    }

    /// The statements, in the order of their numbers.
    pub fn statements(&self) -> &[SStmt]
        ensures { result.now ≡ self.now.statements }
    {
        &self.statement_list
    }

    /// The operations of a chain.
    pub fn operations(&self, parts: Parts) -> &[Operation]
        ensures { result.now ≡ listed self.now.operations parts }
    {
        part_of(&self.operation_list, parts)
    }

    /// The numbers in a list of arguments, of a key's parts, or of a block's statements.
    pub fn items(&self, parts: Parts) -> &[u32]
        ensures { result.now ≡ listed self.now.items parts }
    {
        part_of(&self.item_list, parts)
    }

    /// Adds an expression, and answers its number.
    pub fn add_expression(&mut self, expression: SExpr) -> Result<u32, Memory>
        ensures number { IfOk result (λ n. n ≡ length self.old.expressions) }
        ensures added { OnOk result (self.new ≡ with_expression self.old expression) }
    {
        let number = number_of(self.expression_list.len())?;
        self.expression_list.push(expression)?;
        Ok(number)
    }

    /// Adds a statement, and answers its number.
    pub fn add_statement(&mut self, statement: SStmt) -> Result<u32, Memory>
        ensures number { IfOk result (λ n. n ≡ length self.old.statements) }
        ensures added { OnOk result (self.new ≡ with_statement self.old statement) }
    {
        let number = number_of(self.statement_list.len())?;
        self.statement_list.push(statement)?;
        Ok(number)
    }

    /// Adds the operations of a chain, and answers where they stand.
    pub fn add_operations(&mut self, operations: &[Operation]) -> Result<Parts, Memory>
        ensures place { IfOk result (λ p. p ≡ record { from = length self.old.operations; count = length operations.now }) }
        ensures added { OnOk result (self.new ≡ with_operations self.old operations.now) }
    {
        let from = number_of(self.operation_list.len())?;
        let count = number_of(operations.len())?;
        self.operation_list.extend_from_slice(operations)?;
        Ok(Parts { from, count })
    }

    /// Adds a list of numbers, and answers where it stands.
    pub fn add_items(&mut self, items: &[u32]) -> Result<Parts, Memory>
        ensures place { IfOk result (λ p. p ≡ record { from = length self.old.items; count = length items.now }) }
        ensures added { OnOk result (self.new ≡ with_items self.old items.now) }
    {
        let from = number_of(self.item_list.len())?;
        let count = number_of(items.len())?;
        self.item_list.extend_from_slice(items)?;
        Ok(Parts { from, count })
    }

    /// The same code once more.
    pub fn copy(&self, alloc: Global) -> Result<Code, Memory>
        ensures { IfOk result (λ copied. copied ≡ self.now) }
    {
        Ok(Code {
            expression_list: Vec::from_slice(alloc, &self.expression_list)?,
            operation_list: Vec::from_slice(alloc, &self.operation_list)?,
            statement_list: Vec::from_slice(alloc, &self.statement_list)?,
            item_list: Vec::from_slice(alloc, &self.item_list)?,
        })
    }
}

// A length as a number of 32 bits, but for the greatest.
fn number_of(length: usize) -> Result<u32, Memory>
    ensures same { IfOk result (λ n. n ≡ length) }
    ensures fits { OnOk result (length + 1 < 2 ^ 32) }
{
    if length >= u32::MAX as usize {
        return Err(Memory);
    }
    Ok(length as u32)
}

/// So many items of a list, from one on, as far as they are there.
pub fn part_of<T>(list: &[T], parts: Parts) -> &[T]
    ensures part { result.now ≡ listed list.now parts }
    ensures within { length result.now ≤ parts.count }
{
    let from = usize::min(parts.from as usize, list.len());
    let (_, behind) = list.split_at(from);
    let count = usize::min(parts.count as usize, behind.len());
    let (part, _) = behind.split_at(count);
    part
}
