//! The first rule that a node breaks.
ghost use Rattle.std.specs.Prelude.{◌≡◌};
ghost use Rattle.vg_ctyper.specs.Rules as rules;
ghost use Rattle.vg_ctyper.specs.Views.{known};

use crate::demands::Demand;
use crate::fault::{Rule, TypeFault, sooner};
use crate::given::Given;
use vg_core::Kind;

impl Given<'_> {
    fn for_fault(&self, n: u32, kind: Kind) -> Option<TypeFault>
        ensures { result ≡ rules.for_fault (known self.now) n kind }
    {
        match kind {
            Kind::For {
                of,
                counter,
                start,
                tested,
                bound,
                stepped,
                step,
                ..
            } => {
                let constants = self.constants_fault(start, bound, step);
                let counted = sooner(self.counter_fault(n, of, start, bound, step), constants);
                let alike = self.names_fault(n, counter, tested, stepped);
                sooner(self.name_fault(n, kind, counter), sooner(alike, counted))
            }
            _ => None,
        }
    }

    /// The rule that a declaration of the file, a field or a parameter breaks.
    fn item_fault(&self, n: u32, kind: Kind) -> Option<TypeFault>
        ensures { result ≡ rules.item_fault (known self.now) n kind }
    {
        match kind {
            Kind::Unit { items } => self.unit_fault(self.scopes.tree.listed(items)),
            Kind::Struct {
                tag,
                fields,
                attribute,
            } => self.struct_fault(n, tag, self.scopes.tree.listed(fields), attribute),
            Kind::Field { base, name, length } => self.field_fault(n, kind, base, name, length),
            Kind::ExternHandle { name, .. } => self.name_fault(n, kind, name),
            Kind::ExternNumber { name, .. } => self.name_fault(n, kind, name),
            Kind::Function { name, .. } => self.name_fault(n, kind, name),
            Kind::Param { base, name, .. } => self.param_fault(n, kind, base, name),
            _ => None,
        }
    }

    /// The rule that a declaration or statement of a block breaks.
    fn statement_fault(&self, locals: u32, n: u32, kind: Kind) -> Option<TypeFault>
        ensures { result ≡ rules.statement_fault (known self.now) locals n kind }
    {
        match kind {
            Kind::Declare { .. } => self.declare_fault(locals, n, kind),
            Kind::Evaluate { value } => self.evaluate_fault(n, value),
            Kind::Assign { op, target, value } => self.assign_fault(n, op, target, value),
            Kind::Increment { target } | Kind::Decrement { target } => {
                self.target_fault(target, Demand::Integer, Rule::Arithmetic)
            }
            Kind::If { condition, .. } => self.wants(condition, Demand::Integer, Rule::Condition),
            Kind::For { .. } => self.for_fault(n, kind),
            Kind::Return { value } => self.return_fault(n, value),
            _ => None,
        }
    }

    fn broken_by(&self, locals: u32, n: u32, kind: Kind) -> Option<TypeFault>
        ensures { result ≡ rules.broken_by (known self.now) locals n kind }
    {
        let inner = sooner(
            self.statement_fault(locals, n, kind),
            self.expression_fault(n, kind),
        );
        sooner(self.item_fault(n, kind), inner)
    }

    /// The first rule that a node breaks, where the variables of blocks before it take so many bytes together.
    pub fn broken(&self, locals: u32, n: u32) -> Option<TypeFault>
        ensures { result ≡ rules.broken (known self.now) locals n }
    {
        self.broken_by(locals, n, self.kind(n))
    }
}
