//! A small function, and why a text is none.
ghost use Rattle.std.specs.Prelude.{◌≡◌, ◌↔◌, ◌==◌, ◌||◌, IsTrue};
ghost use Rattle.std.specs.List.{list_any};
ghost use Rattle.vg_small.specs.Meaning.{value_at, verdict_at, steps_at, sides_at, SendsBelow};
ghost use Rattle.vg_small.specs.declared.small.SmallFault.TheVariants.{Memory};

use std::alloc::{AllocError, AllocFailed};
use std::marker::Model;
use thiserror::Error;
use vg_core::Verdict;

/// One test: if the frame came in at `port`, it goes to `value`.
#[derive(Clone, Copy, Debug, PartialEq, Eq)]
pub struct Test {
    pub port: u16,
    /// The port that frames are sent to; where a text was read, it is below the number of ports, or below 16 in C.
    pub value: u16,
}

/// Tests in order, which contracts see as their list.
#[derive(Debug, Drop)]
pub struct Tests {
    items: Vec<Test>,
}

impl Model for Tests {
    ghost use Rattle.std.specs.Prelude.{List};
    ghost use Rattle.vg_small.specs.declared.small.Test.{Test};

    ghost Value = { List Test };

    ghost view = { λ t. t.items.items };
}

impl Tests {
    /// These tests, in this order.
    pub fn new(items: Vec<Test>) -> Tests
        ensures { result ≡ items.items }
    {
        Tests { items }
    }

    /// The tests, the first one first.
    pub fn as_slice(&self) -> &[Test]
        ensures { result.now ≡ self.now }
    {
        self.items.as_slice()
    }
}

/// A function of the port: the value of the first test that names it, or the last value.
#[derive(Debug, Drop)]
pub struct Small {
    /// How many ports the specification declares, 1 to 16; 0 for a C text.
    pub ports: u16,
    /// The place of the name `nf_process`, in bytes; 0 for a specification.
    pub at: u32,
    /// The tests, in the order of the text.
    pub tests: Tests,
    /// The value where no test holds.
    pub last: u16,
}

/// The languages that a small function is written in.
#[derive(Clone, Copy, Debug, PartialEq, Eq)]
pub enum Lang {
    /// `int nf_process(uint16_t port, uint64_t now) { if (port == 0) return 1; return 0; }`
    C,
    /// `ports 2; step { if port == 0 { send 1; } send 0; }`
    Spec,
}

/// Why a text was not read as a small function.
#[derive(Clone, Copy, Debug, PartialEq, Eq, Error)]
pub enum SmallFault {
    /// The text is not of the small form.
    #[error("not a small function")]
    Form,
    /// Memory ran out.
    #[error("out of memory")]
    Memory,
}

impl From<AllocError> for SmallFault {
    ghost from_gives = { λ _ e. e ≡ Memory };

    fn from(_e: AllocError) -> SmallFault {
        SmallFault::Memory
    }
}

impl<T: Drop> From<AllocFailed<T>> for SmallFault {
    ghost from_gives = { λ _ e. e ≡ Memory };

    fn from(_e: AllocFailed<T>) -> SmallFault {
        SmallFault::Memory
    }
}

impl Small {
    /// What the function does with a frame that comes in at a port.
    pub fn verdict(&self, port: u16) -> Verdict
        ensures { result ≡ verdict_at self.now.tests self.now.last port }
    {
        Verdict::Send(self.value(port))
    }

    // The value of the first test that names the port, or the last value.
    fn value(&self, port: u16) -> u16
        ensures { result ≡ value_at self.now.tests self.now.last port }
    {
        for t in self.tests.as_slice() {
            if port == t.port {
                return t.value;
            }
        }
        self.last
    }

    /// How many steps a run at a port takes: one for each `if` and one for its condition, up to the test that holds, and
    /// one for the `return`.
    pub fn steps(&self, port: u16) -> u64
        ensures { result ≡ steps_at self.now.tests port }
    {
        let mut n = 1;
        for t in self.tests.as_slice() {
            if port == t.port {
                return n + 2;
            }
            n += 2;
        }
        n
    }

    /// Whether runs at two ports take the same side of each test that they come to, and come to the same ones.
    pub fn same_sides(&self, p: u16, q: u16) -> bool
        ensures { IsTrue result ↔ (sides_at self.now.tests p ≡ sides_at self.now.tests q) }
    {
        p == q || !self.names_either(p, q)
    }

    /// Whether each value is below `ports`, so that no frame is sent to another port.
    pub fn sends_below(&self, ports: u16) -> bool
        ensures { IsTrue result ↔ SendsBelow ports self.now }
    {
        self.last < ports && self.tests.as_slice().iter().all(|t| t.value < ports)
    }

    // Whether some test names one of two ports.
    fn names_either(&self, p: u16, q: u16) -> bool
        ensures { result ≡ list_any (λ t. p == t.port || q == t.port) self.now.tests }
    {
        self.tests
            .as_slice()
            .iter()
            .any(|t| p == t.port || q == t.port)
    }
}
