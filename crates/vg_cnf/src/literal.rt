// Literals, and lists of them as clauses.

ghost use Rattle.std.specs.Prelude.{◌≡◌, ◌≢◌, ◌<◌, ◌^◌, ◌↔◌, ℤ, pos, neg_ℤ, unsigned_abs, negsuc, IfSome, IsNone, IsTrue, ◌⊎◌};
ghost use Rattle.vg_cnf.specs.Clauses.{is_clause as clause_test, holds as list_holds};

use std::marker::Model;

/// A literal: n stands for variable n and -n for its negation, as in the DIMACS format. Contracts see the number; it is neither 0 nor the least `i32`.
#[derive(Clone, Copy, PartialEq, Eq, Hash, Debug)]
pub struct Lit(i32);

impl Model for Lit {
    ghost Value = { ℤ };

    ghost view = { λ l. l.0 };

    ghost invariant = { λ l. (0 < unsigned_abs l.0) × (unsigned_abs l.0 < 2 ^ 31) };

    ghost inverse = { λ z. record { 0 = z } };
}

impl Lit {
    /// The literal with this number; `None` for 0 and the least `i32`, which have no negation or none that differs.
    pub fn new(number: i32) -> Option<Lit>
        ensures none { IsNone result ↔ ((number ≡ pos 0) ⊎ (number ≡ negsuc 2147483647)) }
        ensures literal { IfSome result (λ l. l ≡ number) }
    {
        if number == 0 || number == i32::MIN {
            None
        } else {
            Some(Lit(number))
        }
    }

    /// The literal that says that a variable, from 1 on, is true.
    pub fn of_variable(variable: u32) -> Lit
        requires not_zero { 0 < variable }
        requires in_range { variable < 2 ^ 31 }
        ensures { result ≡ pos variable }
    {
        Lit(variable as i32)
    }

    /// Its number.
    pub fn number(self) -> i32
        ensures { result ≡ self }
    {
        self.0
    }

    /// Its variable, from 1 on.
    pub fn variable(self) -> u32
        ensures variable { result ≡ unsigned_abs self }
        ensures not_zero { 0 < result }
        ensures in_range { result < 2 ^ 31 }
    {
        self.0.unsigned_abs()
    }

    /// Whether it says that its variable is true.
    pub fn is_positive(self) -> bool
        ensures { IsTrue result ↔ (self ≡ pos (unsigned_abs self)) }
    {
        self.0 > 0
    }

    /// The literal that is true where this one is false.
    pub fn negated(self) -> Lit
        ensures { result ≡ neg_ℤ self }
    {
        Lit(-self.0)
    }
}

/// Whether a list holds this literal.
fn holds(literals: &[Lit], literal: Lit) -> bool
    ensures { result ≡ list_holds literals.now literal }
{
    literals.iter().any(|l| *l == literal)
}

/// Whether a list is a clause: it holds no literal along with its negation. Takes time quadratic in the length.
pub fn is_clause(literals: &[Lit]) -> bool
    ensures { result ≡ clause_test literals.now }
{
    literals.iter().all(|l| !holds(literals, l.negated()))
}
