//! What the lines of a configuration's text give.
ghost use Rattle.std.specs.Prelude.{◌≡◌, IfOk};
ghost use Rattle.vg_conf.specs.Given.{nothing_given};

use std::alloc::Global;
use std::marker::Model;
use vg_parts::Memory;
use vg_stree::{Route, Spec};

/// A line that fills a field of a cell: its number, the vector's number among the objects, the cell, the field's place and its value.
#[derive(Clone, Copy, Debug, PartialEq, Eq)]
pub struct CellLine {
    pub line: u64,
    pub vector: u16,
    pub index: u64,
    pub field: u16,
    pub value: u64,
}

/// What lines give: the declared numbers where they are given, the routes, and the lines on cells.
#[derive(Drop)]
pub struct Given {
    pub numbers: Vec<Option<u64>>,
    pub routes: Vec<Route>,
    pub cells: Vec<CellLine>,
}

impl Model for Given {
    ghost use Rattle.vg_conf.specs.Given.{Gathered};

    ghost Value = { Gathered };

    ghost view = { λ g. record { numbers = g.numbers.items; routes = g.routes.items; cells = g.cells.items } };
}

impl Given {
    /// Nothing is given yet.
    pub fn new(alloc: Global, spec: &Spec) -> Result<Given, Memory>
        ensures { IfOk result (λ given. given ≡ nothing_given spec.now) }
    {
        let mut numbers = Vec::new(alloc);
        numbers.resize(spec.shape().numbers().len(), None)?;
        Ok(Given {
            numbers,
            routes: Vec::new(alloc),
            cells: Vec::new(alloc),
        })
    }
}
