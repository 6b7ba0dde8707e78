//! The library as the function calls it.
ghost use Rattle.std.specs.Prelude.{◌≡◌, ◌≤◌, ◌<◌, ◌+◌, ◌-◌, ◌≢◌, ◌⊎◌, ℕ, List, length, true, false, Some, None, IsSome};
ghost use Rattle.std.specs.FinMap.{get};
ghost use Rattle.vg_abs.specs.Library.{Library, IsMap, IsChain, IsVector, IsTable, Meets, Fits, SameShape, Gets, Tells, LooksUp, Does, Allocates};
ghost use Rattle.vg_abs.specs.Library.{MayExpire, Expires, Lends, TakesBack, Stores, Differs};
ghost use Rattle.vg_abs.specs.State.{link_of_map, link_of_chain, vector_of};
ghost use Rattle.vg_abs.specs.Rows.{MapPut, MapErase, ChainAllocate, ChainRejuvenate, ChainFree, ChainIsAllocated};

use crate::state::LibState;
use vg_vector::CellLoan;

/// The library: maps, chains, vectors and prefix tables, each by its number among the declared objects. What is seen of it are its state, which
/// cells are lent, whether something was asked that a partial state doesn't tell, and, where it tells them, the indices that it is still to hand
/// out. Each call is its row of the library's table over that. What a row needs is asked of the caller; what it needs of the calls of a frame
/// so far is kept by whoever runs the frame. No call takes memory.
pub trait Lib {
    /// What is seen of it.
    ghost library: { Self → Library };

    /// Whether something was asked that the state doesn't tell; a full state tells all. From then on nothing is promised of answers, and nothing
    /// changes but that loans are taken back.
    fn missed(&self) -> bool
        ensures missed { result ≡ (library self.now).missed }
        ensures full { (library self.now).state.full ≡ true → result ≡ false };

    /// The index of a key, or none where the key is absent.
    fn map_get(&mut self, map: u16, key: &[u8]) -> Option<u32>
        requires map { IsMap (library self.old) map }
        requires key { length key.now ≡ (link_of_map (library self.old).state map).key_length }
        ensures { Gets (library self.old) (library self.new) map key.now result };

    /// Maps an absent key to an index, where there is room.
    fn map_put(&mut self, map: u16, key: &[u8], index: u32)
        requires map { IsMap (library self.old) map }
        requires key { length key.now ≡ (link_of_map (library self.old).state map).key_length }
        requires needs { Meets (library self.old) (MapPut map key.now index) }
        ensures { Does (library self.old) (library self.new) (MapPut map key.now index) };

    /// Makes a present key absent.
    fn map_erase(&mut self, map: u16, key: &[u8])
        requires map { IsMap (library self.old) map }
        requires key { length key.now ≡ (link_of_map (library self.old).state map).key_length }
        requires needs { Meets (library self.old) (MapErase map key.now) }
        ensures { Does (library self.old) (library self.new) (MapErase map key.now) };

    /// How many keys are mapped.
    fn map_size(&self, map: u16) -> u32
        requires { IsMap (library self.now) map }
        ensures { (library self.now).missed ≡ false → result ≡ (link_of_map (library self.now).state map).size };

    /// Hands out a free index and gives it this time, or none where no index is free.
    fn chain_allocate(&mut self, chain: u16, now: u64) -> Option<u32>
        requires chain { IsChain (library self.old) chain }
        requires needs { Meets (library self.old) (ChainAllocate chain now) }
        ensures { Allocates (library self.old) (library self.new) chain now result };

    /// Whether an index is allocated.
    fn chain_is(&mut self, chain: u16, index: u32) -> bool
        requires chain { IsChain (library self.old) chain }
        requires needs { Meets (library self.old) (ChainIsAllocated chain index) }
        ensures { Tells (library self.old) (library self.new) chain index result };

    /// How many indices are allocated.
    fn chain_count(&self, chain: u16) -> u32
        requires { IsChain (library self.now) chain }
        ensures { (library self.now).missed ≡ false → result ≡ (link_of_chain (library self.now).state chain).count };

    /// The highest time that the chain was told.
    fn chain_highest(&self, chain: u16) -> u64
        requires { IsChain (library self.now) chain }
        ensures { (library self.now).missed ≡ false → result ≡ (link_of_chain (library self.now).state chain).highest };

    /// Gives an allocated index this time.
    fn chain_rejuvenate(&mut self, chain: u16, index: u32, now: u64)
        requires chain { IsChain (library self.old) chain }
        requires needs { Meets (library self.old) (ChainRejuvenate chain index now) }
        ensures { Does (library self.old) (library self.new) (ChainRejuvenate chain index now) };

    /// Frees an allocated index.
    fn chain_free(&mut self, chain: u16, index: u32)
        requires chain { IsChain (library self.old) chain }
        requires needs { Meets (library self.old) (ChainFree chain index) }
        ensures { Does (library self.old) (library self.new) (ChainFree chain index) };

    /// Frees exactly the indices with a time before a bound, erases the keys in their cells, and answers how many they are. A link is named by its map.
    fn expire(&mut self, link: u16, before: u64) -> u32
        requires map { IsMap (library self.old) link }
        requires ready { MayExpire (library self.old) link }
        ensures { Expires (library self.old) (library self.new) link before result };

    /// Lends a cell that isn't lent.
    fn borrow(&mut self, vector: u16, index: u32) -> CellLoan
        requires vector { IsVector (library self.old) vector }
        requires told { (library self.old).missed ≡ false }
        requires inside { index < (vector_of (library self.old).state vector).cell_count }
        requires not_lent { (library self.old).lent vector index ≡ false }
        ensures loan { result ≡ index }
        ensures lends { Lends (library self.old) (library self.new) vector index };

    /// The bytes of a lent cell.
    fn cell(&self, vector: u16, index: u32) -> &[u8]
        requires vector { IsVector (library self.now) vector }
        requires lent { (library self.now).lent vector index ≡ true }
        ensures { (library self.now).missed ≡ false → get (vector_of (library self.now).state vector).cells index ≡ Some result.now };

    /// Stores bytes into a lent cell, from a place on.
    fn store(&mut self, vector: u16, index: u32, from: u32, bytes: &[u8])
        requires vector { IsVector (library self.old) vector }
        requires lent { (library self.old).lent vector index ≡ true }
        requires within { Fits (library self.old) vector index (from + length bytes.now) }
        ensures { Stores (library self.old) (library self.new) vector index from bytes.now };

    /// Takes back a lent cell.
    fn give_back(&mut self, vector: u16, loan: CellLoan)
        requires vector { IsVector (library self.old) vector }
        requires lent { ((library self.old).lent vector loan ≡ true) ⊎ ((library self.old).missed ≡ true) }
        ensures { TakesBack (library self.old) (library self.new) vector loan };

    /// What a look-up of an address in a prefix table answers.
    fn lookup(&mut self, table: u16, address: u32) -> Option<u16>
        requires { IsTable (library self.old) table }
        ensures { LooksUp (library self.old) (library self.new) table address result };

    /// The least object at which the state differs from another of its shape, in what both tell.
    fn differs(&self, state: &LibState) -> Option<u16>
        requires none_lent { (vector index : ℕ) → (library self.now).lent vector index ≡ false }
        requires told { (library self.now).missed ≡ false }
        requires shape { SameShape (library self.now).state state.now }
        ensures { Differs (library self.now).state state.now result };
}
