//! What typing says of a node that breaks no rule.
ghost use Rattle.std.specs.Prelude.{◌≡◌, ◌+◌, ◌<◌, ◌^◌, max};
ghost use Rattle.vg_ctyper.specs.Notes as notes;
ghost use Rattle.vg_ctyper.specs.Views.{known};

use crate::declaration_rules::last_of;
use crate::fields::rounded_up;
use crate::given::Given;
use crate::kinds::below_2_32;
use vg_core::{BinaryOp, CType, Kind, Layout, Name, Note, Parts, Referent};

/// The greatest count of steps; it stands for all above.
const MOST_COUNTED: u32 = 1_000_001;

/// Nothing.
pub(crate) const BLANK: Note = Note {
    of: None,
    stands_for: None,
    constant: None,
    layout: None,
    offset: None,
    steps: 0,
};

fn capped(steps: u64) -> u32
    ensures { result ≡ notes.capped steps }
{
    if steps < 1_000_001 {
        steps as u32
    } else {
        MOST_COUNTED
    }
}

fn added(sum: u32, steps: u32) -> u32
    ensures { result ≡ notes.capped (sum + steps) }
{
    capped(u64::from(sum) + u64::from(steps))
}

fn loop_steps(turns: u64, body: u32) -> u32
    ensures { result ≡ notes.loop_steps turns body }
{
    let steps = 1 + u128::from(turns) * (1 + u128::from(body));
    if steps < 1_000_001 {
        steps as u32
    } else {
        MOST_COUNTED
    }
}

fn binary_steps(op: BinaryOp, left: u32, right: u32) -> u32
    ensures { result ≡ notes.binary_steps op left right }
{
    match op {
        BinaryOp::AndThen | BinaryOp::OrElse => capped(1 + u64::from(left) + u64::from(right)),
        _ => capped(u64::from(left) + u64::from(right)),
    }
}

fn laid(size: u128, align: u32) -> Option<Layout>
    ensures { result ≡ notes.laid size align }
{
    if size <= 65536 {
        Some(Layout {
            size: size as u32,
            align,
        })
    } else {
        None
    }
}

fn whole_struct(fields: Layout) -> Option<Layout>
    ensures { result ≡ notes.whole_struct fields }
{
    laid(
        u128::from(rounded_up(fields.size, u32::max(fields.align, 1))),
        fields.align,
    )
}

impl Given<'_> {
    fn steps_at(&self, n: u32) -> u32
        ensures { result ≡ notes.steps_at (known self.now) n }
    {
        match self.notes.get(n as usize) {
            Some(note) => note.steps,
            None => 0,
        }
    }

    fn optional_steps(&self, n: Option<u32>) -> u32
        ensures { result ≡ notes.optional_steps (known self.now) n }
    {
        match n {
            Some(n) => self.steps_at(n),
            None => 0,
        }
    }

    fn sum_of_steps(&self, parts: &[u32]) -> u32
        ensures { result ≡ notes.sum_of_steps (known self.now) parts.now }
    {
        let mut sum = 0;
        for part in parts {
            sum = added(sum, self.steps_at(*part));
        }
        sum
    }

    fn callee_steps(&self, callee: Option<Referent>) -> u32
        ensures { result ≡ notes.callee_steps (known self.now) callee }
    {
        match callee {
            Some(Referent::Declared(function)) => self.steps_at(function),
            _ => 0,
        }
    }

    fn call_steps(&self, n: u32, name: Name, arguments: Parts) -> u32
        ensures { result ≡ notes.call_steps (known self.now) n name arguments }
    {
        let arguments = self.sum_of_steps(self.scopes.tree.listed(arguments));
        let callee = self.callee_steps(self.callee(n, name));
        capped(1 + u64::from(arguments) + u64::from(callee))
    }

    // A condition, and the greater of two branches, behind so many steps.
    fn branch_steps(&self, before: u64, condition: u32, one: u32, other: u32) -> u32
        requires { before < 2 ^ 32 }
        ensures { result ≡ notes.capped (before + notes.steps_at (known self.now) condition + max one other) }
    {
        let condition = u64::from(self.steps_at(condition));
        capped(before + condition + u64::from(u32::max(one, other)))
    }

    /// At most how many steps it takes to run a node.
    pub fn node_steps(&self, n: u32, kind: Kind) -> u32
        ensures { result ≡ notes.node_steps (known self.now) n kind }
    {
        match kind {
            Kind::Function { body, .. } => self.steps_at(body),
            Kind::Block { statements, .. } => self.sum_of_steps(
                self.scopes.tree.listed(statements),
            ),
            Kind::Declare { value, .. } => self.optional_steps(value),
            Kind::Empty => 1,
            Kind::Evaluate { value: part }
            | Kind::Increment { target: part }
            | Kind::Decrement { target: part } => capped(1 + u64::from(self.steps_at(part))),
            Kind::Assign { target, value, .. } => {
                capped(1 + u64::from(self.steps_at(target)) + u64::from(self.steps_at(value)))
            }
            Kind::If {
                condition,
                then,
                otherwise,
            } => self.branch_steps(
                2,
                condition,
                self.steps_at(then),
                self.optional_steps(otherwise),
            ),
            Kind::Choose {
                condition,
                then,
                otherwise,
            } => self.branch_steps(1, condition, self.steps_at(then), self.steps_at(otherwise)),
            Kind::For {
                of,
                start,
                bound,
                step,
                body,
                ..
            } => loop_steps(
                self.turns(of, start, bound, step).unwrap_or(0),
                self.steps_at(body),
            ),
            Kind::Return { value } => capped(1 + u64::from(self.optional_steps(value))),
            Kind::Call { name, arguments } => self.call_steps(n, name, arguments),
            _ => self.operator_steps(kind),
        }
    }

    // Of an operator: the steps of its operands.
    fn operator_steps(&self, kind: Kind) -> u32
        ensures { result ≡ notes.operator_steps (known self.now) kind }
    {
        match kind {
            Kind::Binary { op, left, right } => {
                binary_steps(op, self.steps_at(left), self.steps_at(right))
            }
            Kind::Index { array, index } => {
                capped(u64::from(self.steps_at(array)) + u64::from(self.steps_at(index)))
            }
            Kind::Unary { operand: part, .. }
            | Kind::Cast { operand: part, .. }
            | Kind::Member { whole: part, .. }
            | Kind::Arrow { pointer: part, .. }
            | Kind::Parens { inner: part } => self.steps_at(part),
            _ => 0,
        }
    }

    fn behind_field(&self, n: u32, of: CType, before: Layout) -> Option<Layout>
        ensures { result ≡ notes.behind_field (known self.now) n of before }
    {
        laid(
            u128::from(self.field_offset(n, of, before)) + u128::from(self.size_of(of)),
            u32::max(before.align, self.field_align(n, of)),
        )
    }

    fn node_layout(&self, n: u32, kind: Kind) -> Option<Layout>
        ensures { result ≡ notes.node_layout (known self.now) n kind }
    {
        match kind {
            Kind::Field { .. } => {
                let of = self.type_declared(n, kind)?;
                self.behind_field(n, of, self.fields_before(n)?)
            }
            Kind::Struct { fields, .. } => {
                whole_struct(self.layout_at(last_of(self.scopes.tree.listed(fields))?)?)
            }
            _ => None,
        }
    }

    fn node_offset(&self, n: u32, kind: Kind) -> Option<u32>
        ensures { result ≡ notes.node_offset (known self.now) n kind }
    {
        match kind {
            Kind::Field { .. } => {
                let of = self.type_declared(n, kind)?;
                below_2_32(self.field_offset(n, of, self.fields_before(n)?))
            }
            _ => None,
        }
    }

    fn node_type(&self, n: u32, kind: Kind) -> Option<CType>
        ensures { result ≡ notes.node_type (known self.now) n kind }
    {
        match self.type_declared(n, kind) {
            Some(of) => Some(of),
            None => self.expression_type(n, kind),
        }
    }

    /// What typing says of a node that breaks no rule.
    pub fn note_of(&self, n: u32, kind: Kind) -> Note
        ensures { result ≡ notes.note_of (known self.now) n kind }
    {
        Note {
            of: self.node_type(n, kind),
            stands_for: self.referent(n, kind),
            constant: self.constant_word(n, kind),
            layout: self.node_layout(n, kind),
            offset: self.node_offset(n, kind),
            steps: self.node_steps(n, kind),
        }
    }
}
