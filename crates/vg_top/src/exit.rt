//! How a command can end, and its exit status.
ghost use Rattle.std.specs.Prelude.{◌≡◌};
ghost use Rattle.vg_top.specs.Exits.{number_of};

/// How a command ended.
#[derive(Clone, Copy)]
pub enum Exit {
    /// All was done.
    Done,
    /// The function does something else than its specification.
    Wrong,
    /// The words are those of no command.
    Usage,
    /// A capture is refused.
    Capture,
    /// A file couldn't be read.
    Read,
    /// A file couldn't be written, or the text not printed.
    Write,
    /// Memory ran out.
    Memory,
    /// Something is larger than it may be.
    Limit,
    /// The command, or what it asks for, isn't built.
    NotBuilt,
}

impl Exit {
    /// The exit status.
    pub fn number(self) -> u8
        ensures { result ≡ number_of self }
    {
        match self {
            Exit::Done => 0,
            Exit::Wrong => 1,
            Exit::Usage => 2,
            Exit::Capture => 5,
            Exit::Read => 6,
            Exit::Write => 7,
            Exit::Memory => 8,
            Exit::Limit => 11,
            Exit::NotBuilt => 12,
        }
    }
}
