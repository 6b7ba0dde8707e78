// Gates, and what is known of their outputs without a new variable.

ghost use Rattle.std.specs.Prelude.{◌≡◌, ◌&&◌, ◌<◌, pos, unsigned_abs, IfSome};
ghost use Rattle.vg_blast.specs.Gates.{Folds, IsGateFor, HasSigns};
ghost use Rattle.vg_blast.specs.Circuits.{differ};

use vg_cnf::Lit;

/// A gate with its inputs.
#[derive(Clone, Copy, PartialEq, Eq, Hash, Debug)]
pub(crate) enum Gate {
    /// Whether both are true.
    And(Lit, Lit),
    /// Whether just one is true.
    Xor(Lit, Lit),
}

/// The literal that is true in each model.
pub(crate) fn truth() -> Lit
    ensures { result ≡ pos 1 }
{
    Lit::of_variable(1)
}

/// Whether both are true, where that is a literal that stands: of constant, equal or opposite inputs.
pub(crate) fn folded_and(a: Lit, b: Lit) -> Option<Lit>
    ensures { IfSome result (λ out. Folds a b out (λ x y. x && y)) }
{
    if a == truth() || a == b {
        Some(b)
    } else if b == truth() {
        Some(a)
    } else if a == truth().negated() || b == truth().negated() || a == b.negated() {
        Some(truth().negated())
    } else {
        None
    }
}

/// The gate that tells whether both are true: the same in either order.
pub(crate) fn and_gate(a: Lit, b: Lit) -> Gate
    ensures { IsGateFor result a b (λ x y. x && y) }
{
    if a.number() <= b.number() {
        Gate::And(a, b)
    } else {
        Gate::And(b, a)
    }
}

/// The gate that tells whether just one of two variables is true: the same in either order and for either sign.
pub(crate) fn xor_gate(a: Lit, b: Lit) -> Gate
    ensures { IsGateFor result (pos (unsigned_abs a)) (pos (unsigned_abs b)) differ }
{
    let first = Lit::of_variable(a.variable());
    let second = Lit::of_variable(b.variable());
    if a.variable() <= b.variable() {
        Gate::Xor(first, second)
    } else {
        Gate::Xor(second, first)
    }
}

/// What tells whether just one of two literals is true, by what tells it of their variables.
pub(crate) fn with_signs(a: Lit, b: Lit, out: Lit) -> Lit
    ensures { HasSigns a b out result }
{
    if a.is_positive() == b.is_positive() {
        out
    } else {
        out.negated()
    }
}

/// Whether just one is true, where that is a literal that stands.
pub(crate) fn folded_xor(a: Lit, b: Lit) -> Option<Lit>
    ensures { IfSome result (λ out. Folds a b out differ) }
{
    if a == b {
        Some(truth().negated())
    } else if a == b.negated() {
        Some(truth())
    } else if a.variable() == 1 {
        Some(if a.is_positive() { b.negated() } else { b })
    } else if b.variable() == 1 {
        Some(if b.is_positive() { a.negated() } else { a })
    } else {
        None
    }
}
