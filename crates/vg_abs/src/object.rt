//! The tables of the library's objects.
ghost use Rattle.std.specs.Prelude.{◌≡◌, IfOk};

use crate::bytes::Bytes;
use crate::keyed::Keyed;
use crate::numbered::Numbered;
use std::alloc::Global;
use std::marker::Model;
use vg_parts::Memory;
use vg_stree::Route;

/// The table of a link.
#[derive(Drop)]
pub struct LinkTable {
    pub capacity: u64,
    pub key_length: u64,
    pub keys: Keyed,
    pub times: Numbered<Option<u64>>,
    pub cells: Numbered<Bytes>,
    pub size: u32,
    pub count: u32,
    pub highest: u64,
    pub bounds: Numbered<u32>,
}

impl Model for LinkTable {
    ghost use Rattle.vg_abs.specs.Tables.{Link};
    ghost use Rattle.vg_abs.specs.TableCodes.{link_code};

    ghost Value = { Link };

    ghost coded = { link_code };

    ghost view = { λ l. record {
      capacity = l.capacity;
      key_length = l.key_length;
      keys = l.keys;
      times = l.times;
      cells = l.cells;
      size = l.size;
      count = l.count;
      highest = l.highest;
      bounds = l.bounds;
    } };
}

/// The table of a vector of its own.
#[derive(Drop)]
pub struct VectorTable {
    pub cell_count: u64,
    pub cells: Numbered<Bytes>,
}

impl Model for VectorTable {
    ghost use Rattle.vg_abs.specs.Tables.{Vector};
    ghost use Rattle.vg_abs.specs.TableCodes.{vector_code};

    ghost Value = { Vector };

    ghost coded = { vector_code };

    ghost view = { λ v. record { cell_count = v.cell_count; cells = v.cells } };
}

/// A prefix table: the routes of a full state, or the addresses of which a partial one tells.
#[derive(Drop)]
pub struct PrefixTable {
    pub routes: Vec<Route>,
    pub addresses: Numbered<Option<u16>>,
}

impl Model for PrefixTable {
    ghost use Rattle.vg_abs.specs.Tables.{Routing};
    ghost use Rattle.vg_abs.specs.TableCodes.{routing_code};

    ghost Value = { Routing };

    ghost coded = { routing_code };

    ghost view = { λ p. record { routes = p.routes.items; addresses = p.addresses } };
}

/// An object of the library. A link stands as its map.
#[derive(Drop)]
pub enum Object {
    Map(LinkTable),
    Chain,
    Keys,
    Cells(VectorTable),
    Prefixes(PrefixTable),
}

impl LinkTable {
    /// The same table once more.
    pub fn copy(&self) -> Result<LinkTable, Memory>
        ensures { IfOk result (λ copied. copied ≡ self.now) }
    {
        Ok(LinkTable {
            capacity: self.capacity,
            key_length: self.key_length,
            keys: self.keys.copy()?,
            times: self.times.copy()?,
            cells: self.cells.copy()?,
            size: self.size,
            count: self.count,
            highest: self.highest,
            bounds: self.bounds.copy()?,
        })
    }
}

impl VectorTable {
    /// The same table once more.
    pub fn copy(&self) -> Result<VectorTable, Memory>
        ensures { IfOk result (λ copied. copied ≡ self.now) }
    {
        Ok(VectorTable {
            cell_count: self.cell_count,
            cells: self.cells.copy()?,
        })
    }
}

impl PrefixTable {
    /// The same table once more.
    pub fn copy(&self, alloc: Global) -> Result<PrefixTable, Memory>
        ensures { IfOk result (λ copied. copied ≡ self.now) }
    {
        Ok(PrefixTable {
            routes: Vec::from_slice(alloc, &self.routes)?,
            addresses: self.addresses.copy()?,
        })
    }
}

impl Object {
    /// The same object once more.
    pub fn copy(&self, alloc: Global) -> Result<Object, Memory>
        ensures { IfOk result (λ copied. copied ≡ self.now) }
    {
        match self {
            Object::Map(link) => Ok(Object::Map(link.copy()?)),
            Object::Chain => Ok(Object::Chain),
            Object::Keys => Ok(Object::Keys),
            Object::Cells(vector) => Ok(Object::Cells(vector.copy()?)),
            Object::Prefixes(prefixes) => Ok(Object::Prefixes(prefixes.copy(alloc)?)),
        }
    }
}
