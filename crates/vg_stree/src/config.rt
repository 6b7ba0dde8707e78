//! What a configuration tells beside a specification's text.
ghost use Rattle.std.specs.Prelude.{◌≡◌, IfOk};

use std::alloc::Global;
use std::marker::Model;
use vg_parts::Memory;

/// A route of a prefix table: addresses whose first `len` bits are those of `address` come to `value`.
#[derive(Clone, Copy, Debug, PartialEq, Eq)]
pub struct Route {
    /// The number of the table among the specification's objects, in order of declaration.
    pub table: u16,
    /// An IPv4 address as a number, its first byte the highest. Bits past the first `len` don't count.
    pub address: u32,
    /// How many bits have to agree, from the highest on: 0 to 32.
    pub len: u8,
    /// What a look-up answers.
    pub value: u16,
}

/// What a field of a vector's cell holds at the start.
#[derive(Clone, Copy, Debug, PartialEq, Eq)]
pub struct Fill {
    /// The number of the vector among the specification's objects, in order of declaration.
    pub vector: u16,
    /// Which cell of the vector, counted from 0.
    pub index: u32,
    /// Which field of the cell's struct, counted from 0.
    pub field: u16,
    /// What the field holds.
    pub value: u64,
}

/// A configuration: the declared numbers in order of declaration, the routes of all prefix tables, and what cells hold at the start.
#[derive(Drop)]
pub struct Config {
    number_list: Vec<u64>,
    route_list: Vec<Route>,
    fill_list: Vec<Fill>,
}

impl Model for Config {
    ghost use Rattle.vg_stree.specs.Configuration.{Configuration};

    ghost Value = { Configuration };

    ghost view = { λ c. record { numbers = c.number_list.items; routes = c.route_list.items; fills = c.fill_list.items } };
}

impl Config {
    /// A configuration of these numbers, routes and fills, in this order.
    pub fn new(numbers: Vec<u64>, routes: Vec<Route>, fills: Vec<Fill>) -> Config
        ensures { result ≡ record { numbers = numbers.items; routes = routes.items; fills = fills.items } }
    {
        Config {
            number_list: numbers,
            route_list: routes,
            fill_list: fills,
        }
    }

    /// The declared numbers, in order of declaration.
    pub fn numbers(&self) -> &[u64]
        ensures { result.now ≡ self.now.numbers }
    {
        &self.number_list
    }

    /// The routes of all prefix tables, in order; of two with equal prefixes in one table the later counts.
    pub fn routes(&self) -> &[Route]
        ensures { result.now ≡ self.now.routes }
    {
        &self.route_list
    }

    /// What cells hold at the start, in order; of two for one field the later counts.
    pub fn fills(&self) -> &[Fill]
        ensures { result.now ≡ self.now.fills }
    {
        &self.fill_list
    }

    /// The same configuration once more.
    pub fn copy(&self, alloc: Global) -> Result<Config, Memory>
        ensures { IfOk result (λ copied. copied ≡ self.now) }
    {
        Ok(Config {
            number_list: Vec::from_slice(alloc, &self.number_list)?,
            route_list: Vec::from_slice(alloc, &self.route_list)?,
            fill_list: Vec::from_slice(alloc, &self.fill_list)?,
        })
    }
}
