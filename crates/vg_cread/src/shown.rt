//! Trees as text, for the tests: each node in parentheses, its kind or its operator first and its parts behind it.
use std::alloc::{AllocError, Global};
use vg_core::{Base, BinaryOp, HandleKind, IntType, Kind, Name, Node, Parts, Tree, UnaryOp};

// A piece of a node's text.
#[derive(Clone, Copy)]
enum Piece {
    N,
    Word(&'static str),
    Name(Name),
    Value(u64),
    Part(u32),
    Parts(Parts),
}

use Piece::{N, Part, Value, Word};

// The text of the tokens, the items, and the nodes as text so far.
#[derive(Clone, Copy)]
struct Page<'a> {
    text: &'a [u8],
    items: &'a [u32],
    done: &'a [Vec<u8>],
}

fn int_word(of: IntType) -> &'static str {
    match of {
        IntType::Int => "int",
        IntType::Unsigned => "unsigned",
        IntType::Int8 => "int8_t",
        IntType::Int16 => "int16_t",
        IntType::Int32 => "int32_t",
        IntType::Int64 => "int64_t",
        IntType::Uint8 => "uint8_t",
        IntType::Uint16 => "uint16_t",
        IntType::Uint32 => "uint32_t",
        IntType::Uint64 => "uint64_t",
    }
}

fn binary_word(op: BinaryOp) -> &'static str {
    match op {
        BinaryOp::OrElse => "||",
        BinaryOp::AndThen => "&&",
        BinaryOp::BitOr => "|",
        BinaryOp::BitXor => "^",
        BinaryOp::BitAnd => "&",
        BinaryOp::Equal => "==",
        BinaryOp::NotEqual => "!=",
        BinaryOp::Less => "<",
        BinaryOp::Greater => ">",
        BinaryOp::LessEqual => "<=",
        BinaryOp::GreaterEqual => ">=",
        BinaryOp::ShiftLeft => "<<",
        BinaryOp::ShiftRight => ">>",
        BinaryOp::Add => "+",
        BinaryOp::Subtract => "-",
        BinaryOp::Multiply => "*",
        BinaryOp::Divide => "/",
        BinaryOp::Remainder => "%",
    }
}

fn unary_word(op: UnaryOp) -> &'static str {
    match op {
        UnaryOp::Negate => "-",
        UnaryOp::Complement => "~",
        UnaryOp::Not => "!",
        UnaryOp::Load => "*",
        UnaryOp::Address => "&",
    }
}

fn handle_word(handle: HandleKind) -> &'static str {
    match handle {
        HandleKind::Map => "map_t",
        HandleKind::Chain => "chain_t",
        HandleKind::Vector => "vector_t",
        HandleKind::Prefix => "prefix_t",
    }
}

fn base(base: Base) -> [Piece; 2] {
    match base {
        Base::Int(of) => [Word(int_word(of)), N],
        Base::Struct { at: _, tag } => [Word("struct"), Piece::Name(tag)],
    }
}

fn if_word(holds: bool, word: &'static str) -> Piece {
    if holds { Word(word) } else { N }
}

fn star(pointer: bool) -> Piece {
    if_word(pointer, "*")
}

fn maybe(part: Option<u32>) -> Piece {
    match part {
        Some(part) => Part(part),
        None => N,
    }
}

fn maybe_name(name: Option<Name>) -> Piece {
    match name {
        Some(name) => Piece::Name(name),
        None => N,
    }
}

fn assign_word(op: Option<BinaryOp>) -> &'static str {
    match op {
        Some(op) => binary_word(op),
        None => "",
    }
}

fn answer_word(answer: Option<IntType>) -> &'static str {
    match answer {
        Some(of) => int_word(of),
        None => "void",
    }
}

// The pieces of a declaration of any kind.
fn item_pieces(kind: Kind) -> [Piece; 8] {
    match kind {
        Kind::Unit { items } => [Word("unit"), Piece::Parts(items), N, N, N, N, N, N],
        Kind::Struct {
            tag,
            fields,
            attribute,
        } => [
            Word("struct"),
            Piece::Name(tag),
            Piece::Parts(fields),
            maybe_name(attribute),
            N,
            N,
            N,
            N,
        ],
        Kind::Field {
            base: of,
            name,
            length,
        } => {
            let [word, tag] = base(of);
            [
                Word("field"),
                word,
                tag,
                Piece::Name(name),
                maybe(length),
                N,
                N,
                N,
            ]
        }
        Kind::ExternHandle { handle, name } => [
            Word("extern"),
            Word(handle_word(handle)),
            Piece::Name(name),
            N,
            N,
            N,
            N,
            N,
        ],
        Kind::ExternNumber { of, name } => [
            Word("extern"),
            Word("const"),
            Word(int_word(of)),
            Piece::Name(name),
            N,
            N,
            N,
            N,
        ],
        Kind::Function {
            is_static,
            is_inline,
            answer,
            name,
            params,
            body,
        } => {
            [
                Word("function"),
                if_word(is_static, "static"),
                if_word(is_inline, "inline"),
                Word(answer_word(answer)),
                Piece::Name(name),
                Piece::Parts(params),
                Part(body),
                N,
            ]
        }
        Kind::Param {
            base: of,
            pointer,
            name,
        } => {
            let [word, tag] = base(of);
            [
                Word("param"),
                word,
                tag,
                star(pointer),
                Piece::Name(name),
                N,
                N,
                N,
            ]
        }
        _ => [N, N, N, N, N, N, N, N],
    }
}

// The pieces of a statement.
fn statement_pieces(kind: Kind) -> [Piece; 8] {
    match kind {
        Kind::Block { statements, .. } => [
            Word("block"),
            Piece::Parts(statements),
            N,
            N,
            N,
            N,
            N,
            N,
        ],
        Kind::Declare {
            base: of,
            pointer,
            name,
            length,
            value,
        } => {
            let [word, tag] = base(of);
            [
                Word("declare"),
                word,
                tag,
                star(pointer),
                Piece::Name(name),
                maybe(length),
                if_word(value.is_some(), "="),
                maybe(value),
            ]
        }
        Kind::Empty => [Word("empty"), N, N, N, N, N, N, N],
        Kind::Evaluate { value } => [Word("evaluate"), Part(value), N, N, N, N, N, N],
        Kind::Assign { op, target, value } => [
            Word("set"),
            Word(assign_word(op)),
            Part(target),
            Part(value),
            N,
            N,
            N,
            N,
        ],
        Kind::Increment { target } => [Word("++"), Part(target), N, N, N, N, N, N],
        Kind::Decrement { target } => [Word("--"), Part(target), N, N, N, N, N, N],
        Kind::If {
            condition,
            then,
            otherwise,
        } => [
            Word("if"),
            Part(condition),
            Part(then),
            if_word(otherwise.is_some(), "else"),
            maybe(otherwise),
            N,
            N,
            N,
        ],
        Kind::For {
            of,
            counter,
            start,
            tested,
            bound,
            stepped,
            step,
            body,
        } => {
            [
                Word(int_word(of)),
                Piece::Name(counter),
                Part(start),
                Piece::Name(tested),
                Part(bound),
                Piece::Name(stepped),
                maybe(step),
                Part(body),
            ]
        }
        Kind::Return { value } => [Word("return"), maybe(value), N, N, N, N, N, N],
        _ => item_pieces(kind),
    }
}

// The pieces of a node.
fn pieces(kind: Kind) -> [Piece; 8] {
    match kind {
        Kind::Choose {
            condition,
            then,
            otherwise,
        } => [
            Word("?"),
            Part(condition),
            Part(then),
            Part(otherwise),
            N,
            N,
            N,
            N,
        ],
        Kind::Binary { op, left, right } => [
            Word(binary_word(op)),
            Part(left),
            Part(right),
            N,
            N,
            N,
            N,
            N,
        ],
        Kind::Unary { op, operand } => [Word(unary_word(op)), Part(operand), N, N, N, N, N, N],
        Kind::Cast {
            base: of,
            pointer,
            operand,
        } => {
            let [word, tag] = base(of);
            [
                Word("cast"),
                word,
                tag,
                star(pointer),
                Part(operand),
                N,
                N,
                N,
            ]
        }
        Kind::Sizeof { base: of } => {
            let [word, tag] = base(of);
            [Word("sizeof"), word, tag, N, N, N, N, N]
        }
        Kind::Index { array, index } => [Word("[]"), Part(array), Part(index), N, N, N, N, N],
        Kind::Member { whole, field } => [
            Word("."),
            Part(whole),
            Piece::Name(field),
            N,
            N,
            N,
            N,
            N,
        ],
        Kind::Arrow { pointer, field } => [
            Word("->"),
            Part(pointer),
            Piece::Name(field),
            N,
            N,
            N,
            N,
            N,
        ],
        Kind::Number {
            value,
            of: IntType::Int,
        } => [Value(value), N, N, N, N, N, N, N],
        Kind::Number { value, of } => [Value(value), Word(int_word(of)), N, N, N, N, N, N],
        Kind::Variable { name } => [Piece::Name(name), N, N, N, N, N, N, N],
        Kind::Call { name, arguments } => [
            Word("call"),
            Piece::Name(name),
            Piece::Parts(arguments),
            N,
            N,
            N,
            N,
            N,
        ],
        Kind::Parens { inner } => [Word("()"), Part(inner), N, N, N, N, N, N],
        _ => statement_pieces(kind),
    }
}

// Adds a word behind a blank, where something stands before it.
fn add(out: &mut Vec<u8>, word: &[u8]) -> Result<(), AllocError> {
    if word.is_empty() {
        return Ok(());
    }
    if !out.is_empty() {
        out.push(b' ')?;
    }
    out.extend_from_slice(word)?;
    Ok(())
}

fn add_part(page: Page<'_>, out: &mut Vec<u8>, part: u32) -> Result<(), AllocError> {
    match page.done.get(part as usize) {
        Some(shown) => add(out, shown),
        None => add(out, b"?"),
    }
}

fn add_parts(page: Page<'_>, out: &mut Vec<u8>, parts: Parts) -> Result<(), AllocError> {
    for k in 0..parts.count {
        match page.items.get(parts.from as usize + k as usize) {
            Some(part) => add_part(page, out, *part)?,
            None => add(out, b"?")?,
        }
    }
    Ok(())
}

fn add_name(page: Page<'_>, out: &mut Vec<u8>, name: Name) -> Result<(), AllocError> {
    let (from, to) = (name.from as usize, name.to as usize);
    if from > to || to > page.text.len() {
        return add(out, b"?");
    }
    let (front, _) = page.text.split_at(to);
    let (_, word) = front.split_at(from);
    add(out, word)
}

fn add_value(alloc: Global, out: &mut Vec<u8>, value: u64) -> Result<(), AllocError> {
    let digits = format!(in alloc; "{value}")?;
    add(out, digits.as_str().as_bytes())
}

fn add_piece(
    alloc: Global,
    page: Page<'_>,
    out: &mut Vec<u8>,
    piece: Piece,
) -> Result<(), AllocError> {
    match piece {
        N => Ok(()),
        Word(word) => add(out, word.as_bytes()),
        Piece::Name(name) => add_name(page, out, name),
        Value(value) => add_value(alloc, out, value),
        Part(part) => add_part(page, out, part),
        Piece::Parts(parts) => add_parts(page, out, parts),
    }
}

// A node as text, in parentheses where it has more than one word.
fn node(alloc: Global, page: Page<'_>, kind: Kind) -> Result<Vec<u8>, AllocError> {
    let mut out = Vec::new(alloc);
    for piece in pieces(kind) {
        add_piece(alloc, page, &mut out, piece)?;
    }
    if !out.contains(&b' ') {
        return Ok(out);
    }
    let mut closed = Vec::new(alloc);
    closed.push(b'(')?;
    closed.extend_from_slice(&out)?;
    closed.push(b')')?;
    Ok(closed)
}

/// The root of a tree of a text, with all its parts, as text.
pub fn shown(alloc: Global, text: &[u8], tree: &Tree) -> Result<Vec<u8>, AllocError> {
    let mut done: Vec<Vec<u8>> = Vec::new(alloc);
    for n in tree.nodes() {
        let page = Page {
            text,
            items: tree.items(),
            done: &done,
        };
        let next = node(alloc, page, n.kind)?;
        done.push(next)?;
    }
    match done.pop() {
        Some(root) => Ok(root),
        None => Ok(Vec::new(alloc)),
    }
}
