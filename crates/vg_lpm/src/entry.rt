//! What an entry of the table says, and its word.
ghost use Rattle.std.specs.Prelude.{◌≡◌, ◌+◌, ◌<◌, ◌^◌};
ghost use Rattle.vg_lpm.specs.Table.{Says, leaf, link};

// The least word that is a link. Below it are the leaf without a value and those with one.
const LINK: u32 = 0x1_0001;

/// What an entry says.
#[derive(Clone, Copy, Debug, PartialEq, Eq)]
pub enum Entry {
    /// The end of a look-up: a route's value, or nothing.
    Leaf(Option<u16>),
    /// The number of a block of the level below.
    Link(u32),
}

/// What a word says.
pub fn entry_of(word: u32) -> Entry
    ensures { Says word result }
{
    if word >= LINK {
        Entry::Link(word - LINK)
    } else if word == 0 {
        Entry::Leaf(None)
    } else {
        Entry::Leaf(Some((word - 1) as u16))
    }
}

/// The word of a leaf with a value.
pub fn leaf_with(value: u16) -> u32
    ensures value { result ≡ leaf (Some value) }
    ensures below { result < link }
{
    u32::from(value) + 1
}

/// The word of a link to a block.
pub fn link_to(block: u32) -> u32
    requires { block < 2 ^ 31 }
    ensures { result ≡ link + block }
{
    LINK + block
}
