use super::*;
use std::alloc::Global;
use std::test::Fail;

fn name(from: u32, to: u32) -> Token {
    Token {
        kind: TokenKind::Name,
        from,
        to,
    }
}

fn keyword(keyword: Keyword, from: u32, to: u32) -> Token {
    Token {
        kind: TokenKind::Keyword(keyword),
        from,
        to,
    }
}

fn sign(sign: Sign, from: u32, to: u32) -> Token {
    Token {
        kind: TokenKind::Sign(sign),
        from,
        to,
    }
}

fn number(value: u64, of: NumberType, from: u32, to: u32) -> Token {
    Token {
        kind: TokenKind::Number(Number { value, of }),
        from,
        to,
    }
}

// Whether a text has these tokens.
fn reads(alloc: Global, text: &str, want: &[Token]) -> Result<bool, TokFault> {
    if text.len() >= 4096 {
        return Ok(false);
    }
    match tokens(alloc, text.as_bytes()) {
        Ok(found) => Ok(found.as_slice() == want),
        Err(TokFault::Memory) => Err(TokFault::Memory),
        Err(_) => Ok(false),
    }
}

// Whether a text is a single number, of this value and type, from its first byte to its last.
fn counts(alloc: Global, text: &str, value: u64, of: NumberType) -> Result<bool, TokFault> {
    if text.len() >= 4096 {
        return Ok(false);
    }
    reads(alloc, text, &[number(value, of, 0, text.len() as u32)])
}

// Whether a text has this fault.
fn refuses(alloc: Global, text: &str, want: TokFault) -> Result<bool, TokFault> {
    if text.len() >= 4096 {
        return Ok(false);
    }
    match tokens(alloc, text.as_bytes()) {
        Ok(_) => Ok(false),
        Err(TokFault::Memory) => Err(TokFault::Memory),
        Err(fault) => Ok(fault == want),
    }
}

#[test]
fn names_keywords_and_blanks(rt: HostRuntime) -> Result<(), Fail> {
    assert!(rt; reads(rt.alloc(), "", &[])?);
    assert!(rt; reads(rt.alloc(), " \t\r\n", &[])?);
    let if_iff = [keyword(Keyword::If, 0, 2), name(3, 6)];
    assert!(rt; reads(rt.alloc(), "if iff", &if_iff)?);
    let types = [
        keyword(Keyword::Uint16, 0, 8),
        name(9, 15),
        keyword(Keyword::Chain, 16, 23),
    ];
    assert!(rt; reads(rt.alloc(), "uint16_t\nuint16\tchain_t", &types)?);
    let case = [name(0, 2), name(3, 9), keyword(Keyword::Attribute, 10, 23)];
    assert!(rt; reads(rt.alloc(), "If _a9Z__ __attribute__", &case)?);
    Ok(())
}

#[test]
fn the_longest_sign_stands(rt: HostRuntime) -> Result<(), Fail> {
    let shift = [
        name(0, 1),
        sign(Sign::ShiftLeftAssign, 1, 4),
        name(4, 5),
        sign(Sign::ShiftLeft, 5, 7),
        sign(Sign::Less, 7, 8),
    ];
    assert!(rt; reads(rt.alloc(), "a<<=b<<<", &shift)?);
    let minus = [
        sign(Sign::MinusMinus, 0, 2),
        sign(Sign::Arrow, 2, 4),
        sign(Sign::MinusAssign, 4, 6),
    ];
    assert!(rt; reads(rt.alloc(), "--->-=", &minus)?);
    let plus = [
        name(0, 1),
        sign(Sign::PlusPlus, 1, 3),
        sign(Sign::PlusPlus, 3, 5),
        sign(Sign::Plus, 5, 6),
        name(6, 7),
    ];
    assert!(rt; reads(rt.alloc(), "x+++++y", &plus)?);
    let brackets = [
        sign(Sign::LeftBracket, 0, 1),
        sign(Sign::RightParen, 1, 2),
        sign(Sign::LeftBrace, 2, 3),
        sign(Sign::Tilde, 3, 4),
        sign(Sign::Question, 4, 5),
    ];
    assert!(rt; reads(rt.alloc(), "[){~?", &brackets)?);
    Ok(())
}

#[test]
fn numbers_have_the_first_type_that_holds_them(rt: HostRuntime) -> Result<(), Fail> {
    assert!(rt; counts(rt.alloc(), "0", 0, NumberType::Int)?);
    assert!(rt; counts(rt.alloc(), "2147483647", 2147483647, NumberType::Int)?);
    assert!(rt; counts(rt.alloc(), "2147483648", 2147483648, NumberType::Int64)?);
    assert!(rt; counts(rt.alloc(), "0x80000000", 2147483648, NumberType::Uint32)?);
    assert!(rt; counts(rt.alloc(), "0XffFFffff", 4294967295, NumberType::Uint32)?);
    assert!(rt; counts(rt.alloc(), "4294967296", 4294967296, NumberType::Int64)?);
    assert!(rt; counts(rt.alloc(), "0777", 511, NumberType::Int)?);
    assert!(rt;
        counts(
            rt.alloc(),
            "01777777777777777777777",
            18446744073709551615,
            NumberType::Uint64
        )?
    );
    Ok(())
}

#[test]
fn suffixes_choose_the_type(rt: HostRuntime) -> Result<(), Fail> {
    assert!(rt; counts(rt.alloc(), "1u", 1, NumberType::Uint32)?);
    assert!(rt; counts(rt.alloc(), "4294967296U", 4294967296, NumberType::Uint64)?);
    assert!(rt;
        counts(
            rt.alloc(),
            "18446744073709551615u",
            18446744073709551615,
            NumberType::Uint64
        )?
    );
    assert!(rt; counts(rt.alloc(), "1l", 1, NumberType::Int64)?);
    assert!(rt;
        counts(
            rt.alloc(),
            "0xffffffffffffffffLL",
            18446744073709551615,
            NumberType::Uint64
        )?
    );
    assert!(rt; counts(rt.alloc(), "1ull", 1, NumberType::Uint64)?);
    assert!(rt; counts(rt.alloc(), "1LLU", 1, NumberType::Uint64)?);
    assert!(rt; counts(rt.alloc(), "0xABCDEFuL", 11259375, NumberType::Uint64)?);
    Ok(())
}

#[test]
fn words_that_are_no_numbers(rt: HostRuntime) -> Result<(), Fail> {
    assert!(rt; refuses(rt.alloc(), "08", TokFault::BadNumber(0))?);
    assert!(rt; refuses(rt.alloc(), "a 0x", TokFault::BadNumber(2))?);
    assert!(rt; refuses(rt.alloc(), "0xg", TokFault::BadNumber(0))?);
    assert!(rt; refuses(rt.alloc(), "1lul", TokFault::BadNumber(0))?);
    assert!(rt; refuses(rt.alloc(), "1lL", TokFault::BadNumber(0))?);
    assert!(rt; refuses(rt.alloc(), "5x", TokFault::BadNumber(0))?);
    assert!(rt; refuses(rt.alloc(), "1_", TokFault::BadNumber(0))?);
    assert!(rt; refuses(rt.alloc(), "18446744073709551616", TokFault::BadNumber(0))?);
    assert!(rt; refuses(rt.alloc(), "9223372036854775808", TokFault::BadNumber(0))?);
    assert!(rt; refuses(rt.alloc(), "a 0xe+1", TokFault::BadNumber(2))?);
    assert!(rt; refuses(rt.alloc(), "0X1E-1", TokFault::BadNumber(0))?);
    assert!(rt; refuses(rt.alloc(), "#define A 0xe+1", TokFault::Directive(0))?);
    let apart = [
        number(14, NumberType::Int, 0, 3),
        sign(Sign::Plus, 4, 5),
        number(1, NumberType::Int, 5, 6),
    ];
    assert!(rt; reads(rt.alloc(), "0xe +1", &apart)?);
    Ok(())
}

#[test]
fn a_point_parts_two_numbers(rt: HostRuntime) -> Result<(), Fail> {
    let three = [
        number(1, NumberType::Int, 0, 1),
        sign(Sign::Dot, 1, 2),
        number(5, NumberType::Int, 2, 3),
    ];
    assert!(rt; reads(rt.alloc(), "1.5", &three)?);
    Ok(())
}

#[test]
fn comments_stand_between_tokens(rt: HostRuntime) -> Result<(), Fail> {
    let apart = [name(0, 1), name(7, 8)];
    assert!(rt; reads(rt.alloc(), "a/* * */b", &[name(0, 1), name(8, 9)])?);
    assert!(rt; reads(rt.alloc(), "a/*/ */b", &apart)?);
    assert!(rt; reads(rt.alloc(), "a//\u{e9}{\nb", &[name(0, 1), name(7, 8)])?);
    assert!(rt; reads(rt.alloc(), "/**/a//", &[name(4, 5)])?);
    let slash = [name(0, 1), sign(Sign::SlashAssign, 1, 3), name(3, 4)];
    assert!(rt; reads(rt.alloc(), "a/=b", &slash)?);
    assert!(rt; refuses(rt.alloc(), "a /* b *", TokFault::BadByte(2))?);
    assert!(rt; refuses(rt.alloc(), "/*/", TokFault::BadByte(0))?);
    assert!(rt; refuses(rt.alloc(), "a \u{e9}", TokFault::BadByte(2))?);
    assert!(rt; refuses(rt.alloc(), "'a'", TokFault::BadByte(0))?);
    Ok(())
}

#[test]
fn a_name_has_64_bytes_at_most(rt: HostRuntime) -> Result<(), Fail> {
    let longest = "a123456789b123456789c123456789d123456789e123456789f123456789g123";
    assert!(rt; reads(rt.alloc(), longest, &[name(0, 64)])?);
    let longer = " a123456789b123456789c123456789d123456789e123456789f123456789g1234";
    assert!(rt; refuses(rt.alloc(), longer, TokFault::BadByte(1))?);
    let defined = "#define a123456789b123456789c123456789d123456789e123456789f123456789g1234 5";
    assert!(rt; refuses(rt.alloc(), defined, TokFault::BadByte(8))?);
    Ok(())
}

#[test]
fn includes_are_skipped(rt: HostRuntime) -> Result<(), Fail> {
    assert!(rt; reads(rt.alloc(), "#include <stdint.h>\na", &[name(20, 21)])?);
    assert!(rt;
        reads(
            rt.alloc(),
            " # /* c */ include /* \u{e9}\na",
            &[name(25, 26)]
        )?
    );
    assert!(rt; reads(rt.alloc(), "#include", &[])?);
    assert!(rt; refuses(rt.alloc(), "a\n#includex", TokFault::Directive(2))?);
    assert!(rt; refuses(rt.alloc(), "a #include", TokFault::BadByte(2))?);
    assert!(rt; refuses(rt.alloc(), "/* c */ #include", TokFault::BadByte(8))?);
    Ok(())
}

#[test]
fn defines_are_carried_out(rt: HostRuntime) -> Result<(), Fail> {
    let two = [name(0, 1), number(16, NumberType::Uint32, 19, 20)];
    assert!(rt; reads(rt.alloc(), "A\n#define A 0x10u\n\nA", &two)?);
    let commented = [number(7, NumberType::Int, 31, 33)];
    assert!(rt;
        reads(
            rt.alloc(),
            "\t#/**/define AB/* x */ 7 // y\r\nAB",
            &commented
        )?
    );
    assert!(rt;
        refuses(
            rt.alloc(),
            "#define A 1\n#define A 1",
            TokFault::Directive(12)
        )?
    );
    assert!(rt; refuses(rt.alloc(), "#define int 1", TokFault::Directive(0))?);
    assert!(rt; refuses(rt.alloc(), "#define A 08", TokFault::Directive(0))?);
    assert!(rt; refuses(rt.alloc(), "#define A 5x", TokFault::Directive(0))?);
    assert!(rt;
        refuses(
            rt.alloc(),
            "#define B 1\n#define A B",
            TokFault::Directive(12)
        )?
    );
    assert!(rt; refuses(rt.alloc(), "#define A 1 2", TokFault::Directive(0))?);
    assert!(rt; refuses(rt.alloc(), "#define A 1 /* x\n*/", TokFault::Directive(0))?);
    assert!(rt; refuses(rt.alloc(), "#define A", TokFault::Directive(0))?);
    assert!(rt; refuses(rt.alloc(), " #", TokFault::Directive(1))?);
    Ok(())
}
