//! Calls of the library, by their arguments.

use vg_cmemory::Pointer;

/// An object of the library as a call names it.
#[derive(Clone, Copy, Debug, PartialEq, Eq)]
pub struct Handle {
    /// Its number among the declared objects.
    pub number: u16,
    /// The capacity of a map's or chain's link, or how many cells a vector has; nothing for a prefix table.
    pub count: u64,
    /// How many bytes each key of a map has.
    pub key_length: u32,
}

/// A call of the library: its objects, words and pointers.
#[derive(Clone, Copy, Debug, PartialEq, Eq)]
pub enum Request {
    /// `packet_length`
    PacketLength,
    /// `packet_borrow`
    PacketBorrow {
        count: u64,
    },
    /// `packet_return`
    PacketReturn {
        chunk: Pointer,
    },
    /// `map_get`
    MapGet {
        map: Handle,
        key: Pointer,
        index: Pointer,
    },
    /// `map_put`
    MapPut {
        map: Handle,
        key: Pointer,
        index: u32,
    },
    /// `map_erase`
    MapErase {
        map: Handle,
        key: Pointer,
    },
    /// `map_size`
    MapSize {
        map: Handle,
    },
    /// `chain_allocate`
    ChainAllocate {
        chain: Handle,
        index: Pointer,
        time: u64,
    },
    /// `chain_is_allocated`
    ChainIsAllocated {
        chain: Handle,
        index: u32,
    },
    /// `chain_rejuvenate`
    ChainRejuvenate {
        chain: Handle,
        index: u32,
        time: u64,
    },
    /// `chain_free`
    ChainFree {
        chain: Handle,
        index: u32,
    },
    /// `expire_items`
    ExpireItems {
        map: Handle,
        chain: Handle,
        vector: Handle,
        before: u64,
    },
    /// `vector_borrow`
    VectorBorrow {
        vector: Handle,
        index: u32,
    },
    /// `vector_return`
    VectorReturn {
        vector: Handle,
        cell: Pointer,
    },
    /// `prefix_lookup`
    PrefixLookup {
        table: Handle,
        address: u32,
        value: Pointer,
    },
}
