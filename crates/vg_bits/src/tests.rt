use super::*;

// RFC 1071, section 3: the sum of 00 01 f2 03 f4 f5 f6 f7 in 16-bit words, folded and complemented.
#[test]
fn internet_checksum(rt: HostRuntime) {
    let first = add(Word::new(32, 0x0001), Word::new(32, 0xf203));
    let second = add(zext(Word::new(16, 0xf4f5), 32), Word::new(32, 0xf6f7));
    let sum = add(first, second);
    assert_eq!(rt; sum, Word::new(32, 0x2ddf0));
    let high = extract(sum, 16, 16);
    let low = extract(sum, 0, 16);
    assert_eq!(rt; concat(high, low), sum);
    assert_eq!(rt; add(high, low), Word::new(16, 0xddf2));
    assert_eq!(rt; not(add(high, low)), Word::new(16, 0x220d));
}

// The FNV-1a hash of "a" at 64 bits, as its authors list it.
#[test]
fn fnv_hash(rt: HostRuntime) {
    let basis = Word::new(64, 0xcbf2_9ce4_8422_2325);
    let prime = Word::new(64, 0x0000_0100_0000_01b3);
    let hash = mul(xor(basis, Word::new(64, 0x61)), prime);
    assert_eq!(rt; hash, Word::new(64, 0xaf63_dc4c_8601_ec8c));
}

// At 8 bits, by hand: name, found, wanted.
#[test]
fn bytes(rt: HostRuntime) {
    let zero = Word::zero(8);
    let least = Word::new(8, 0x80);
    let minus_five = Word::from_signed(8, -5);
    let eight = Word::new(8, 8);
    let rows = [
        ("0 - 1", sub(zero, Word::one(8)), 0xff),
        ("5 / 0", udiv(Word::new(8, 5), zero), 0xff),
        ("5 % 0", urem(Word::new(8, 5), zero), 5),
        ("200 / 7", udiv(Word::new(8, 200), Word::new(8, 7)), 28),
        ("200 % 7", urem(Word::new(8, 200), Word::new(8, 7)), 4),
        ("0x80 << 8", shl(least, eight), 0),
        ("0x41 << 1", shl(Word::new(8, 0x41), Word::one(8)), 0x82),
        ("0x80 >> 8", lshr(least, eight), 0),
        ("0x80 >> 7", lshr(least, Word::new(8, 7)), 1),
        ("-128 >> 8", ashr(least, eight), 0xff),
        ("-128 >> 200", ashr(least, Word::new(8, 200)), 0xff),
        ("127 >> 8", ashr(Word::new(8, 0x7f), eight), 0),
        ("-5 >> 1 is -3", ashr(minus_five, Word::one(8)), 0xfd),
        ("and", and(Word::new(8, 0xf0), Word::new(8, 0x3c)), 0x30),
        ("or", or(Word::new(8, 0xf0), Word::new(8, 0x3c)), 0xfc),
        ("all ones", Word::all_ones(8), 0xff),
    ];
    for (name, found, value) in rows {
        assert_eq!(rt; found, Word::from_low_bits(8, value), "{name}");
    }
}

// Where the signed and the unsigned reading differ, at the widths at the ends.
#[test]
fn signs(rt: HostRuntime) {
    let least = Word::new(64, 1 << 63);
    let most = Word::new(64, (1 << 63) - 1);
    assert_eq!(rt; slt(least, most), Word::from_bool(true));
    assert_eq!(rt; ult(least, most), Word::from_bool(false));
    assert_eq!(rt; slt(most, most), Word::from_bool(false));
    assert_eq!(rt; eq(most, most), Word::from_bool(true));
    assert_eq!(rt; least.signed(), i64::MIN);
    assert_eq!(rt; Word::one(1).signed(), -1);
    assert_eq!(rt; sext(Word::new(8, 0x80), 16), Word::new(16, 0xff80));
    assert_eq!(rt; sext(Word::one(1), 64), Word::all_ones(64));
    assert_eq!(rt; zext(Word::new(8, 0x80), 16), Word::new(16, 0x0080));
}
