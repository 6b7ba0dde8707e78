//! A specification as it is written: a tree whose parts are told by their numbers in lists, each part before what it is a part of.
ghost use Rattle.std.specs.Prelude.{◌≡◌, ◌+◌, ◌<◌, ◌^◌, ◌++◌, [], ◌∷◌, length, IfOk, OnOk};
ghost use Rattle.vg_sgrammar.specs.Written.{Written, empty, with_expression, with_statement, with_block, with_declaration, with_operations};
ghost use Rattle.vg_sgrammar.specs.Written.{with_items, with_names, with_fields};

use std::alloc::Global;
use std::marker::Model;
use vg_parts::Memory;
use vg_stree::{FieldType, FrameWord, Operation, Parts, Width};

/// A name, by its bytes in the text.
#[derive(Clone, Copy, Debug, PartialEq, Eq)]
pub struct Name {
    pub from: u32,
    pub to: u32,
}

/// Something with the place of its first token.
#[derive(Clone, Copy, Debug, PartialEq, Eq)]
pub struct Placed<T> {
    pub at: u32,
    pub what: T,
}

/// An expression as it is written. Parts are told by their numbers among the expressions.
#[derive(Clone, Copy, Debug, PartialEq, Eq)]
pub enum Expression {
    Number(u64),
    /// A name alone: of a declared number, or one that is in scope.
    Name(Name),
    /// `cell.field`
    CellField(Name),
    /// `length`
    Length,
    /// `port`
    Port,
    /// `now`
    Now,
    /// `(inner)`
    Parens(u32),
    /// `!operand`
    Not(u32),
    /// `first operator operand operator operand ..`: operators of one level, the leftmost first.
    Chain {
        first: u32,
        rest: Parts,
    },
    /// `condition ? then : otherwise`
    Choose {
        condition: u32,
        then: u32,
        otherwise: u32,
    },
    /// `define(arguments)`
    Call {
        define: Name,
        arguments: Parts,
    },
    /// `vector[index].field`
    Cell {
        vector: Name,
        index: u32,
        field: Name,
    },
    /// `frame.word[place]`; the place is a number.
    Frame {
        word: FrameWord,
        place: u32,
    },
    /// `has(link, index)`
    Has {
        link: Name,
        index: u32,
    },
}

/// A statement as it is written. Expressions and blocks are told by their numbers.
#[derive(Clone, Copy, Debug, PartialEq, Eq)]
pub enum Statement {
    /// `let name = value;`
    Let {
        name: Name,
        value: u32,
    },
    /// `drop;`
    Drop,
    /// `flood;`
    Flood,
    /// `send port;`
    Send {
        port: u32,
    },
    /// `if condition then else otherwise`
    If {
        condition: u32,
        then: u32,
        otherwise: Option<u32>,
    },
    /// `frame.word[place] = value;`
    SetFrame {
        word: FrameWord,
        place: u32,
        value: u32,
    },
    /// `vector[index].field = value;`
    SetCell {
        vector: Name,
        index: u32,
        field: Name,
        value: u32,
    },
    /// `expire link before bound;`
    Expire {
        link: Name,
        before: u32,
    },
    /// `find link {key} as index then else otherwise`
    Find {
        link: Name,
        key: Parts,
        index: Name,
        then: u32,
        otherwise: Option<u32>,
    },
    /// `add link {key} as index then else otherwise`
    Add {
        link: Name,
        key: Parts,
        index: Name,
        then: u32,
        otherwise: Option<u32>,
    },
    /// `touch link index;`
    Touch {
        link: Name,
        index: u32,
    },
    /// `remove link index;`
    Remove {
        link: Name,
        index: u32,
    },
    /// `lookup table address as value then else otherwise`
    Lookup {
        table: Name,
        address: u32,
        value: Name,
        then: u32,
        otherwise: Option<u32>,
    },
}

/// A block: its statements, and the place of its last brace.
#[derive(Clone, Copy, Debug, PartialEq, Eq)]
pub struct Block {
    pub statements: Parts,
    pub end: u32,
}

/// A field of a struct.
#[derive(Clone, Copy, Debug, PartialEq, Eq)]
pub struct Field {
    pub name: Name,
    pub of: FieldType,
}

/// The capacity of a link or the length of a vector.
#[derive(Clone, Copy, Debug, PartialEq, Eq)]
pub enum Size {
    Count(u64),
    Name(Name),
}

/// A declaration as it is written.
#[derive(Clone, Copy, Debug, PartialEq, Eq)]
pub enum Declaration {
    /// `ports count;`
    Ports {
        count: u64,
    },
    /// `config name : of low .. high;`
    Config {
        name: Name,
        of: Width,
        low: u64,
        high: u64,
    },
    /// `premise value;`
    Premise {
        value: u32,
    },
    /// `struct name { fields }`
    Struct {
        name: Name,
        fields: Parts,
    },
    /// `link map, chain, keys : key, capacity;`
    Link {
        map: Name,
        chain: Name,
        keys: Name,
        key: Name,
        capacity: Size,
    },
    /// `vector name : cell, length;`
    Vector {
        name: Name,
        cell: Name,
        length: Size,
    },
    /// `prefix name : low .. high;`
    Prefix {
        name: Name,
        low: u64,
        high: u64,
    },
    /// `rule vector : value;`
    Rule {
        vector: Name,
        value: u32,
    },
    /// `define name(parameters) = value;`
    Define {
        name: Name,
        parameters: Parts,
        value: u32,
    },
}

/// What is written: expressions, statements, blocks and declarations, each numbered by its place in its list; and the operations of
/// chains, the numbers in arguments, keys and blocks, the names of parameters, and the fields of structs, one list behind the other.
#[derive(Drop)]
pub struct Tree {
    expression_list: Vec<Placed<Expression>>,
    operation_list: Vec<Operation>,
    statement_list: Vec<Placed<Statement>>,
    block_list: Vec<Placed<Block>>,
    item_list: Vec<u32>,
    name_list: Vec<Name>,
    field_list: Vec<Field>,
    declaration_list: Vec<Placed<Declaration>>,
}

impl Model for Tree {
    ghost use Rattle.vg_sgrammar.specs.Written.{Written};

    ghost Value = { Written };

    ghost view = { λ t. record {
      expressions = t.expression_list.items;
      operations = t.operation_list.items;
      statements = t.statement_list.items;
      blocks = t.block_list.items;
      items = t.item_list.items;
      names = t.name_list.items;
      fields = t.field_list.items;
      declarations = t.declaration_list.items;
    } };
}

impl Tree {
    /// Nothing yet.
    pub fn new(alloc: Global) -> Tree
        ensures { result ≡ empty }
    {
        Tree {
            expression_list: Vec::new(alloc),
            operation_list: Vec::new(alloc),
            statement_list: Vec::new(alloc),
            block_list: Vec::new(alloc),
            item_list: Vec::new(alloc),
            name_list: Vec::new(alloc),
            field_list: Vec::new(alloc),
            declaration_list: Vec::new(alloc),
        }
    }

    /// The expressions, in the order of their numbers.
    pub fn expressions(&self) -> &[Placed<Expression>]
        ensures { result.now ≡ self.now.expressions }
    {
        &self.expression_list
    }

    /// The statements, in the order of their numbers.
    pub fn statements(&self) -> &[Placed<Statement>]
        ensures { result.now ≡ self.now.statements }
    {
        &self.statement_list
    }

    /// The blocks, in the order of their numbers.
    pub fn blocks(&self) -> &[Placed<Block>]
        ensures { result.now ≡ self.now.blocks }
    {
        &self.block_list
    }

    /// The declarations, in the order of their numbers.
    pub fn declarations(&self) -> &[Placed<Declaration>]
        ensures { result.now ≡ self.now.declarations }
    {
        &self.declaration_list
    }

    /// All operations of chains, one list behind the other.
    pub fn operations(&self) -> &[Operation]
        ensures { result.now ≡ self.now.operations }
    {
        &self.operation_list
    }

    /// All numbers of arguments, keys and blocks, one list behind the other.
    pub fn items(&self) -> &[u32]
        ensures { result.now ≡ self.now.items }
    {
        &self.item_list
    }

    /// All names of parameters, one list behind the other.
    pub fn names(&self) -> &[Name]
        ensures { result.now ≡ self.now.names }
    {
        &self.name_list
    }

    /// All fields of structs, one list behind the other.
    pub fn fields(&self) -> &[Field]
        ensures { result.now ≡ self.now.fields }
    {
        &self.field_list
    }

    /// Adds an expression at a place, and answers its number.
    pub fn add_expression(&mut self, at: u32, what: Expression) -> Result<u32, Memory>
        ensures number { IfOk result (λ n. n ≡ length self.old.expressions) }
        ensures added { OnOk result (self.new ≡ with_expression self.old at what) }
    {
        let number = number_of(self.expression_list.len())?;
        self.expression_list.push(Placed { at, what })?;
        Ok(number)
    }

    /// Adds a statement at a place, and answers its number.
    pub fn add_statement(&mut self, at: u32, what: Statement) -> Result<u32, Memory>
        ensures number { IfOk result (λ n. n ≡ length self.old.statements) }
        ensures added { OnOk result (self.new ≡ with_statement self.old at what) }
    {
        let number = number_of(self.statement_list.len())?;
        self.statement_list.push(Placed { at, what })?;
        Ok(number)
    }

    /// Adds a block at a place, and answers its number.
    pub fn add_block(&mut self, at: u32, what: Block) -> Result<u32, Memory>
        ensures number { IfOk result (λ n. n ≡ length self.old.blocks) }
        ensures added { OnOk result (self.new ≡ with_block self.old at what) }
    {
        let number = number_of(self.block_list.len())?;
        self.block_list.push(Placed { at, what })?;
        Ok(number)
    }

    /// Adds a declaration at a place, and answers its number.
    pub fn add_declaration(&mut self, at: u32, what: Declaration) -> Result<u32, Memory>
        ensures number { IfOk result (λ n. n ≡ length self.old.declarations) }
        ensures added { OnOk result (self.new ≡ with_declaration self.old at what) }
    {
        let number = number_of(self.declaration_list.len())?;
        self.declaration_list.push(Placed { at, what })?;
        Ok(number)
    }

    /// Adds the operations of a chain, and answers where they stand.
    pub fn add_operations(&mut self, list: &[Operation]) -> Result<Parts, Memory>
        ensures place { IfOk result (λ p. p ≡ record { from = length self.old.operations; count = length list.now }) }
        ensures added { OnOk result (self.new ≡ with_operations self.old list.now) }
    {
        let from = number_of(self.operation_list.len())?;
        let count = number_of(list.len())?;
        self.operation_list.extend_from_slice(list)?;
        Ok(Parts { from, count })
    }

    /// Adds the numbers in a list of arguments, of a key's parts, or of a block's statements, and answers where they stand.
    pub fn add_items(&mut self, list: &[u32]) -> Result<Parts, Memory>
        ensures place { IfOk result (λ p. p ≡ record { from = length self.old.items; count = length list.now }) }
        ensures added { OnOk result (self.new ≡ with_items self.old list.now) }
    {
        let from = number_of(self.item_list.len())?;
        let count = number_of(list.len())?;
        self.item_list.extend_from_slice(list)?;
        Ok(Parts { from, count })
    }

    /// Adds the names of parameters, and answers where they stand.
    pub fn add_names(&mut self, list: &[Name]) -> Result<Parts, Memory>
        ensures place { IfOk result (λ p. p ≡ record { from = length self.old.names; count = length list.now }) }
        ensures added { OnOk result (self.new ≡ with_names self.old list.now) }
    {
        let from = number_of(self.name_list.len())?;
        let count = number_of(list.len())?;
        self.name_list.extend_from_slice(list)?;
        Ok(Parts { from, count })
    }

    /// Adds the fields of a struct, and answers where they stand.
    pub fn add_fields(&mut self, list: &[Field]) -> Result<Parts, Memory>
        ensures place { IfOk result (λ p. p ≡ record { from = length self.old.fields; count = length list.now }) }
        ensures added { OnOk result (self.new ≡ with_fields self.old list.now) }
    {
        let from = number_of(self.field_list.len())?;
        let count = number_of(list.len())?;
        self.field_list.extend_from_slice(list)?;
        Ok(Parts { from, count })
    }
}

// A length as a number of 32 bits, but for the greatest.
fn number_of(length: usize) -> Result<u32, Memory>
    ensures { IfOk result (λ n. n ≡ length) }
{
    if length >= u32::MAX as usize {
        return Err(Memory);
    }
    Ok(length as u32)
}
