// Machine words of 1 to 64 bits and their operations, each its formula on whole numbers modulo 2 to the width.
#![tactic(auto)]

mod arithmetic;
mod bitwise;
mod comparing;
mod resizing;
mod shifting;
#[cfg(test)]
mod tests;
mod word;

pub use arithmetic::{add, mul, sub, udiv, urem};
pub use bitwise::{and, not, or, xor};
pub use comparing::{eq, slt, ult};
pub use resizing::{concat, extract, sext, zext};
pub use shifting::{ashr, lshr, shl};
pub use word::Word;
