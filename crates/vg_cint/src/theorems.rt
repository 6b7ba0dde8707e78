//! Laws of the definitions, each as the contract of a function that does nothing.
ghost use Rattle.vg_cint.specs.Tests.{NothingAgainst};
ghost use Rattle.vg_core.specs.declared.tree.BinaryOp.{BinaryOp};
ghost use Rattle.vg_cint.specs.Formulas.{IsFormula, OneIsFormula, ConvertedIsFormula};

/// No reason is against what all tests of a list allow, and only that.
pub fn nothing_against()
    ensures { NothingAgainst }
{}

/// Each operator, and each conversion, gives what a formula of machine words gives where its tests hold.
pub fn operators_are_formulas()
    ensures binary { (op : BinaryOp) → IsFormula op }
    ensures unary { OneIsFormula }
    ensures conversions { ConvertedIsFormula }
{}
