//! The rules that statements meet.
ghost use Rattle.std.specs.Prelude.{◌≡◌, ◌<◌, ◌^◌};
ghost use Rattle.vg_ctyper.specs.StatementRules as rules;
ghost use Rattle.vg_ctyper.specs.Views.{known};
ghost use Rattle.vg_cint.specs.Types.{integer_of};

use crate::demands::{Demand, meets};
use crate::expression_rules::operand_rule;
use crate::fault::{Rule, TypeFault, sooner};
use crate::given::Given;
use crate::kinds::UNSIGNED_64;
use vg_cint::{common, converted, integer_of, less};
use vg_core::{BinaryOp, CType, IntType, Integer, Kind, Name};
use vg_cscope::Wanted;

fn is_call(kind: Kind) -> bool
    ensures { result ≡ rules.is_call kind }
{
    matches!(kind, Kind::Call { .. })
}

/// Whether a function answers a value.
fn has_answer(kind: Kind) -> bool
    ensures { result ≡ rules.has_answer kind }
{
    match kind {
        Kind::Function { answer, .. } => answer.is_some(),
        _ => false,
    }
}

/// The greatest value of an integer type.
fn greatest(of: IntType) -> u64
    ensures { result ≡ rules.greatest (integer_of of) }
{
    match of {
        IntType::Int8 => 0x7f,
        IntType::Uint8 => 0xff,
        IntType::Int16 => 0x7fff,
        IntType::Uint16 => 0xffff,
        IntType::Int | IntType::Int32 => 0x7fff_ffff,
        IntType::Unsigned | IntType::Uint32 => 0xffff_ffff,
        IntType::Int64 => 0x7fff_ffff_ffff_ffff,
        IntType::Uint64 => 0xffff_ffff_ffff_ffff,
    }
}

fn is_positive(number: Option<u32>) -> bool
    ensures { result ≡ rules.is_positive number }
{
    match number {
        Some(number) => 0 < number,
        None => false,
    }
}

/// Whether a counter of a type holds a bound and a step more.
fn fits(of: IntType, bound: u32, step: u32) -> bool
    ensures { result ≡ rules.fits of bound step }
{
    u64::from(bound) + u64::from(step) <= greatest(of)
}

/// How many words an integer type of at most 32 bits has.
fn words(of: IntType) -> u64
    ensures { result ≡ rules.words of }
{
    match of {
        IntType::Int8 | IntType::Uint8 => 1 << 8,
        IntType::Int16 | IntType::Uint16 => 1 << 16,
        _ => 1 << 32,
    }
}

/// How far it is from a counter's first word to the bound.
fn distance(of: IntType, compared: Integer, first: u64, bound: u32) -> u64
    ensures { result ≡ rules.distance of compared first bound }
{
    let counter = integer_of(of);
    if less(counter, first, 0) {
        if common(counter, compared).signed {
            u64::from(bound) + words(of).saturating_sub(first)
        } else {
            0
        }
    } else {
        u64::from(bound).saturating_sub(first)
    }
}

/// How often a counter is below the bound that starts so far from it.
fn steps_to(distance: u64, step: u32) -> u64
    ensures { result ≡ rules.steps_to distance step }
{
    if step == 0 || distance == 0 {
        0
    } else {
        (distance - 1) / u64::from(step) + 1
    }
}

impl Given<'_> {
    fn target_of_type(
        &self,
        target: u32,
        demand: Demand,
        rule: Rule,
        of: CType,
    ) -> Option<TypeFault>
        ensures { result ≡ rules.target_of_type (known self.now) target demand rule of }
    {
        let wanted = self.unless(target, rule, meets(demand, of));
        self.used_as(target, of, sooner(self.object_fault(target), wanted))
    }

    /// The fault of what is assigned to or incremented.
    pub fn target_fault(&self, target: u32, demand: Demand, rule: Rule) -> Option<TypeFault>
        ensures { result ≡ rules.target_fault (known self.now) target demand rule }
    {
        self.target_of_type(target, demand, rule, self.type_at(target)?)
    }

    fn stored_fault(&self, n: u32, target: u32, value: u32) -> Option<TypeFault>
        ensures { result ≡ rules.stored_fault (known self.now) n target value }
    {
        self.assigned(n, self.value_at(target)?, value)
    }

    fn plain_fault(&self, n: u32, target: u32, value: u32) -> Option<TypeFault>
        ensures { result ≡ rules.plain_fault (known self.now) n target value }
    {
        let value_fault = self.wants(value, Demand::Value, Rule::Assignment);
        sooner(
            self.target_fault(target, Demand::Value, Rule::Lvalue),
            sooner(value_fault, self.stored_fault(n, target, value)),
        )
    }

    fn compound_fault(&self, op: BinaryOp, target: u32, value: u32) -> Option<TypeFault>
        ensures { result ≡ rules.compound_fault (known self.now) op target value }
    {
        let rule = operand_rule(op);
        sooner(
            self.target_fault(target, Demand::Integer, rule),
            self.wants(value, Demand::Integer, rule),
        )
    }

    /// The rule that an assignment breaks.
    pub fn assign_fault(
        &self,
        n: u32,
        op: Option<BinaryOp>,
        target: u32,
        value: u32,
    ) -> Option<TypeFault>
        ensures { result ≡ rules.assign_fault (known self.now) n op target value }
    {
        match op {
            None => self.plain_fault(n, target, value),
            Some(op) => self.compound_fault(op, target, value),
        }
    }

    /// The rule that an expression as a statement breaks.
    pub fn evaluate_fault(&self, n: u32, value: u32) -> Option<TypeFault>
        ensures { result ≡ rules.evaluate_fault (known self.now) n value }
    {
        if is_call(self.kind(value)) {
            None
        } else {
            self.used(value, self.fault_at(n, Rule::Statement))
        }
    }

    /// Whether the function that a node stands in answers a value.
    fn answers(&self, n: u32) -> bool
        ensures { result ≡ rules.answers (known self.now) n }
    {
        match self.found(Wanted::Function, n) {
            Some(function) => has_answer(self.kind(function)),
            None => false,
        }
    }

    fn answer_fault(&self, n: u32, answers: bool, value: Option<u32>) -> Option<TypeFault>
        ensures { result ≡ rules.answer_fault (known self.now) n answers value }
    {
        match (answers, value) {
            (true, None) | (false, Some(_)) => self.fault_at(n, Rule::Return),
            (true, Some(value)) => self.wants(value, Demand::Integer, Rule::Return),
            (false, None) => None,
        }
    }

    /// The rule that a `return` breaks.
    pub fn return_fault(&self, n: u32, value: Option<u32>) -> Option<TypeFault>
        ensures { result ≡ rules.return_fault (known self.now) n value }
    {
        self.answer_fault(n, self.answers(n), value)
    }

    fn constant_fault(&self, n: u32) -> Option<TypeFault>
        ensures { result ≡ rules.constant_fault (known self.now) n }
    {
        self.used(n, self.unless(n, Rule::Loop, self.number_at(n).is_some()))
    }

    fn step_fault(&self, step: Option<u32>) -> Option<TypeFault>
        ensures { result ≡ rules.step_fault (known self.now) step }
    {
        let step = step?;
        self.used(
            step,
            self.unless(step, Rule::Loop, is_positive(self.number_at(step))),
        )
    }

    /// By how much a loop's counter is stepped: by 1 where no step stands.
    pub fn step_number(&self, step: Option<u32>) -> Option<u32>
        ensures { result ≡ rules.step_number (known self.now) step }
    {
        match step {
            Some(step) => self.number_at(step),
            None => Some(1),
        }
    }

    pub fn names_fault(
        &self,
        n: u32,
        counter: Name,
        tested: Name,
        stepped: Name,
    ) -> Option<TypeFault>
        ensures { result ≡ rules.names_fault (known self.now) n counter tested stepped }
    {
        let alike = self.is_same(counter, tested) && self.is_same(counter, stepped);
        self.unless(n, Rule::Loop, alike)
    }

    fn range_fault(&self, n: u32, of: IntType, bound: u32, step: Option<u32>) -> Option<TypeFault>
        ensures { result ≡ rules.range_fault (known self.now) n of bound step }
    {
        let bound = self.number_at(bound)?;
        let step = self.step_number(step)?;
        self.unless(n, Rule::Loop, fits(of, bound, step))
    }

    /// How many turns a loop has.
    pub fn turns(&self, of: IntType, start: u32, bound: u32, step: Option<u32>) -> Option<u64>
        ensures { result ≡ rules.turns (known self.now) of start bound step }
    {
        let start = self.number_at(start)?;
        let last = self.number_at(bound)?;
        let compared = self.integer_at(bound)?;
        let step = self.step_number(step)?;
        let first = converted(integer_of(of), UNSIGNED_64, u64::from(start));
        Some(steps_to(distance(of, compared, first, last), step))
    }

    fn turns_fault(&self, n: u32, turns: Option<u64>) -> Option<TypeFault>
        ensures { result ≡ rules.turns_fault (known self.now) n turns }
    {
        match turns {
            Some(count) => {
                if count <= 4096 {
                    None
                } else {
                    let at = self.place(n);
                    Some(TypeFault::Turns { at })
                }
            }
            None => None,
        }
    }

    /// The faults of a loop's head but for its counter's name, which is one of its own.
    pub fn counter_fault(
        &self,
        n: u32,
        of: IntType,
        start: u32,
        bound: u32,
        step: Option<u32>,
    ) -> Option<TypeFault>
        ensures { result ≡ rules.counter_fault (known self.now) n of start bound step }
    {
        let turns = self.turns(of, start, bound, step);
        sooner(
            self.range_fault(n, of, bound, step),
            self.turns_fault(n, turns),
        )
    }

    pub fn constants_fault(&self, start: u32, bound: u32, step: Option<u32>) -> Option<TypeFault>
        ensures { result ≡ rules.constants_fault (known self.now) start bound step }
    {
        let bounds = sooner(self.constant_fault(bound), self.step_fault(step));
        sooner(self.constant_fault(start), bounds)
    }
}
