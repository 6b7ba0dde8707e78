//! What tokens are in the grammar.
ghost use Rattle.std.specs.Prelude.{◌≡◌};
ghost use Rattle.vg_cread.specs.Kinds.{is_sign, is_word, name_of, number_of, number_type, int_of, int_word, handle_of, handle_word, unary_of};
ghost use Rattle.vg_cread.specs.Kinds.{unary_sign, binary_of, binary_sign, assign_of, assign_sign, begins_base, begins_expression, begins_statement};
ghost use Rattle.vg_cread.specs.Kinds.{begins_piece, begins_suffix, is_postfix_operator};

use vg_core::{BinaryOp, HandleKind, IntType, Name, UnaryOp};
use vg_ctok::{Keyword, Number, NumberType, Sign, Token, TokenKind};

/// Whether a token is this sign.
pub fn is_sign(t: Token, sign: Sign) -> bool
    ensures { result ≡ is_sign sign t }
{
    match t.kind {
        TokenKind::Sign(found) => found as u8 == sign as u8,
        _ => false,
    }
}

/// Whether a token is this keyword.
pub fn is_word(t: Token, word: Keyword) -> bool
    ensures { result ≡ is_word word t }
{
    match t.kind {
        TokenKind::Keyword(found) => found as u8 == word as u8,
        _ => false,
    }
}

/// The name that a token is.
pub fn name_of(t: Token) -> Option<Name>
    ensures { result ≡ name_of t }
{
    match t.kind {
        TokenKind::Name => Some(Name {
            from: t.from,
            to: t.to,
        }),
        _ => None,
    }
}

/// The number that a token is.
pub fn number_of(t: Token) -> Option<Number>
    ensures { result ≡ number_of t }
{
    match t.kind {
        TokenKind::Number(number) => Some(number),
        _ => None,
    }
}

/// The type of a number.
pub fn number_type(of: NumberType) -> IntType
    ensures { result ≡ number_type of }
{
    match of {
        NumberType::Int => IntType::Int,
        NumberType::Uint32 => IntType::Uint32,
        NumberType::Int64 => IntType::Int64,
        NumberType::Uint64 => IntType::Uint64,
    }
}

// The integer type that a keyword names.
fn int_word(word: Keyword) -> Option<IntType>
    ensures { result ≡ int_word word }
{
    match word {
        Keyword::Int => Some(IntType::Int),
        Keyword::Int8 => Some(IntType::Int8),
        Keyword::Int16 => Some(IntType::Int16),
        Keyword::Int32 => Some(IntType::Int32),
        Keyword::Int64 => Some(IntType::Int64),
        Keyword::Uint8 => Some(IntType::Uint8),
        Keyword::Uint16 => Some(IntType::Uint16),
        Keyword::Uint32 => Some(IntType::Uint32),
        Keyword::Uint64 => Some(IntType::Uint64),
        _ => None,
    }
}

/// The integer type that a token names.
pub fn int_of(t: Token) -> Option<IntType>
    ensures { result ≡ int_of t }
{
    match t.kind {
        TokenKind::Keyword(word) => int_word(word),
        _ => None,
    }
}

// The kind of handle that a keyword names.
fn handle_word(word: Keyword) -> Option<HandleKind>
    ensures { result ≡ handle_word word }
{
    match word {
        Keyword::Map => Some(HandleKind::Map),
        Keyword::Chain => Some(HandleKind::Chain),
        Keyword::Vector => Some(HandleKind::Vector),
        Keyword::Prefix => Some(HandleKind::Prefix),
        _ => None,
    }
}

/// The kind of handle that a token names.
pub fn handle_of(t: Token) -> Option<HandleKind>
    ensures { result ≡ handle_of t }
{
    match t.kind {
        TokenKind::Keyword(word) => handle_word(word),
        _ => None,
    }
}

// The operator that a sign is before an operand.
fn unary_sign(sign: Sign) -> Option<UnaryOp>
    ensures { result ≡ unary_sign sign }
{
    match sign {
        Sign::Minus => Some(UnaryOp::Negate),
        Sign::Tilde => Some(UnaryOp::Complement),
        Sign::Not => Some(UnaryOp::Not),
        Sign::Star => Some(UnaryOp::Load),
        Sign::And => Some(UnaryOp::Address),
        _ => None,
    }
}

/// The operator that a token is before an operand.
pub fn unary_of(t: Token) -> Option<UnaryOp>
    ensures { result ≡ unary_of t }
{
    match t.kind {
        TokenKind::Sign(sign) => unary_sign(sign),
        _ => None,
    }
}

// The operator that a sign is between two operands, with its rank.
fn binary_sign(sign: Sign) -> Option<(u8, BinaryOp)>
    ensures { result ≡ binary_sign sign }
{
    match sign {
        Sign::Star => Some((1, BinaryOp::Multiply)),
        Sign::Slash => Some((1, BinaryOp::Divide)),
        Sign::Percent => Some((1, BinaryOp::Remainder)),
        Sign::Plus => Some((2, BinaryOp::Add)),
        Sign::Minus => Some((2, BinaryOp::Subtract)),
        Sign::ShiftLeft => Some((3, BinaryOp::ShiftLeft)),
        Sign::ShiftRight => Some((3, BinaryOp::ShiftRight)),
        Sign::Less => Some((4, BinaryOp::Less)),
        Sign::Greater => Some((4, BinaryOp::Greater)),
        Sign::LessEqual => Some((4, BinaryOp::LessEqual)),
        Sign::GreaterEqual => Some((4, BinaryOp::GreaterEqual)),
        Sign::EqualEqual => Some((5, BinaryOp::Equal)),
        Sign::NotEqual => Some((5, BinaryOp::NotEqual)),
        Sign::And => Some((6, BinaryOp::BitAnd)),
        Sign::Xor => Some((7, BinaryOp::BitXor)),
        Sign::Or => Some((8, BinaryOp::BitOr)),
        Sign::AndAnd => Some((9, BinaryOp::AndThen)),
        Sign::OrOr => Some((10, BinaryOp::OrElse)),
        _ => None,
    }
}

/// The operator of a rank that a token is between two operands.
pub fn binary_of(t: Token, rank: u8) -> Option<BinaryOp>
    ensures { result ≡ binary_of rank t }
{
    match t.kind {
        TokenKind::Sign(sign) => {
            let (found, op) = binary_sign(sign)?;
            if found == rank { Some(op) } else { None }
        }
        _ => None,
    }
}

// The assignment that a sign is: the operator before its `=`, if it has one.
fn assign_sign(sign: Sign) -> Option<Option<BinaryOp>>
    ensures { result ≡ assign_sign sign }
{
    match sign {
        Sign::Assign => Some(None),
        Sign::PlusAssign => Some(Some(BinaryOp::Add)),
        Sign::MinusAssign => Some(Some(BinaryOp::Subtract)),
        Sign::StarAssign => Some(Some(BinaryOp::Multiply)),
        Sign::SlashAssign => Some(Some(BinaryOp::Divide)),
        Sign::PercentAssign => Some(Some(BinaryOp::Remainder)),
        Sign::AndAssign => Some(Some(BinaryOp::BitAnd)),
        Sign::OrAssign => Some(Some(BinaryOp::BitOr)),
        Sign::XorAssign => Some(Some(BinaryOp::BitXor)),
        Sign::ShiftLeftAssign => Some(Some(BinaryOp::ShiftLeft)),
        Sign::ShiftRightAssign => Some(Some(BinaryOp::ShiftRight)),
        _ => None,
    }
}

/// The assignment that a token is: the operator before its `=`, if it has one.
pub fn assign_of(t: Token) -> Option<Option<BinaryOp>>
    ensures { result ≡ assign_of t }
{
    match t.kind {
        TokenKind::Sign(sign) => assign_sign(sign),
        _ => None,
    }
}

/// Whether a token begins the type of a variable.
pub fn begins_base(t: Token) -> bool
    ensures { result ≡ begins_base t }
{
    int_of(t).is_some() || is_word(t, Keyword::Unsigned) || is_word(t, Keyword::Struct)
}

/// Whether a token begins an expression.
pub fn begins_expression(t: Token) -> bool
    ensures { result ≡ begins_expression t }
{
    name_of(t).is_some()
        || number_of(t).is_some()
        || is_sign(t, Sign::LeftParen)
        || unary_of(t).is_some()
        || is_word(t, Keyword::Sizeof)
}

/// Whether a token begins a statement.
pub fn begins_statement(t: Token) -> bool
    ensures { result ≡ begins_statement t }
{
    is_sign(t, Sign::LeftBrace)
        || is_sign(t, Sign::Semicolon)
        || is_word(t, Keyword::If)
        || is_word(t, Keyword::For)
        || is_word(t, Keyword::Return)
        || begins_expression(t)
}

/// Whether a token begins a suffix of an operand.
pub fn begins_suffix(t: Token) -> bool
    ensures { result ≡ begins_suffix t }
{
    is_sign(t, Sign::LeftBracket) || is_sign(t, Sign::Dot) || is_sign(t, Sign::Arrow)
}

/// Whether a token is an operator that stands behind a postfix alone (C11 6.5.2).
pub fn is_postfix_operator(t: Token) -> bool
    ensures { result ≡ is_postfix_operator t }
{
    begins_suffix(t) || is_sign(t, Sign::PlusPlus) || is_sign(t, Sign::MinusMinus)
}
