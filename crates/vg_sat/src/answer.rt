// What a solver answers.

use vg_cnf::{Refutation, Values};

/// What a solver answers of clauses.
#[derive(Drop)]
pub enum Answer {
    /// Values that make each clause true.
    Model(Values),
    /// A good refutation: the clauses have no model.
    Refuted(Refutation),
    /// As many clauses were learned as was allowed, each of them new.
    Spent(Refutation),
}
