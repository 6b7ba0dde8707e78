//! Why a C text is refused, by one kind and one place.
ghost use Rattle.std.specs.Prelude.{◌≡◌};
ghost use Rattle.vg_cfront.specs.Refusals.{of_tokens, of_tree, of_types};

use thiserror::Error;
use vg_cread::ReadFault;
use vg_ctok::TokFault;
use vg_ctyper::{Rule, TypeFault};

/// What is wrong with a C text.
#[derive(Clone, Copy, Debug, PartialEq, Eq, Error)]
pub enum FaultKind {
    /// A byte that begins nothing, a comment without end, or a name of more than 64 bytes.
    #[error("bad byte")]
    BadByte,
    /// A word that begins with a digit and is no number.
    #[error("bad number")]
    BadNumber,
    /// A `#` line that is neither `#include` nor `#define` of a new name as a number.
    #[error("directive")]
    Directive,
    /// The first token with which no text of the grammar goes on, or the end of the text.
    #[error("syntax")]
    Syntax,
    /// The token that opens a statement, block or expression within 64 others.
    #[error("deep")]
    Deep,
    /// A broken typing rule, printed by its number (docs/C_PROFILE.md).
    #[error("type {}", .0.number())]
    Type(Rule),
    /// A struct that isn't packed would get bytes at this offset.
    #[error("padded")]
    Padded(u32),
    /// A function calls itself.
    #[error("recursive")]
    Recursive,
    /// A loop has more than 4,096 turns, or `nf_process` may take more than 1,000,000 steps.
    #[error("turns")]
    Turns,
}

/// Why a C text has no typed unit.
#[derive(Clone, Copy, Debug, PartialEq, Eq, Error)]
pub enum CFault {
    /// The text is refused, for what stands behind `at` bytes of it.
    #[error("{kind} at {at}")]
    Refused { kind: FaultKind, at: u32 },
    /// Memory ran out.
    #[error("out of memory")]
    Memory,
}

fn refused(kind: FaultKind, at: u32) -> CFault
    ensures { result ≡ CFault.Refused kind at }
{
    CFault::Refused { kind, at }
}

impl From<TokFault> for CFault {
    ghost from_gives = { λ f e. e ≡ of_tokens f };

    fn from(fault: TokFault) -> CFault {
        match fault {
            TokFault::BadByte(at) => refused(FaultKind::BadByte, at),
            TokFault::BadNumber(at) => refused(FaultKind::BadNumber, at),
            TokFault::Directive(at) => refused(FaultKind::Directive, at),
            TokFault::Memory => CFault::Memory,
        }
    }
}

impl From<ReadFault> for CFault {
    ghost from_gives = { λ f e. e ≡ of_tree f };

    fn from(fault: ReadFault) -> CFault {
        match fault {
            ReadFault::Syntax(at) => refused(FaultKind::Syntax, at),
            ReadFault::Deep(at) => refused(FaultKind::Deep, at),
            ReadFault::Memory => CFault::Memory,
        }
    }
}

impl From<TypeFault> for CFault {
    ghost from_gives = { λ f e. e ≡ of_types f };

    fn from(fault: TypeFault) -> CFault {
        match fault {
            TypeFault::Typing { at, rule } => refused(FaultKind::Type(rule), at),
            TypeFault::Padded { tag, offset } => refused(FaultKind::Padded(offset), tag),
            TypeFault::Recursive { at } => refused(FaultKind::Recursive, at),
            TypeFault::Turns { at } => refused(FaultKind::Turns, at),
            TypeFault::Memory => CFault::Memory,
        }
    }
}
