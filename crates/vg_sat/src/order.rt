// Which variable is decided next, and how: that of the highest activity (Moskewicz, Madigan, Zhao, Zhang and Malik: Chaff, 2001), with the value that
// it had last.

ghost use Rattle.std.specs.Prelude.{◌<◌, IfSome, length};
ghost use Rattle.vg_sat.specs.Choices.{IsUndecided};

use crate::restarts::Restarts;
use crate::walking::is_open;
use std::alloc::{AllocError, Global};
use std::collections::BinaryHeap;
use vg_cnf::Lit;
use vg_units::Propagator;

/// What the first conflict adds to the activities of its variables.
const FIRST_INCREMENT: u64 = 1 << 20;

/// Above this increment all activities are made smaller.
const GREATEST_INCREMENT: u64 = 1 << 56;

/// An order of the variables. It only makes a search shorter or longer.
#[derive(Drop)]
pub(crate) struct Order {
    /// How often and how lately each variable came up in conflicts.
    activities: Vec<u64>,
    /// What the next conflict adds to the activities of its variables.
    increment: u64,
    /// Variables with their activities. Of one that stands there twice the higher counts.
    queue: BinaryHeap<(u64, u32)>,
    /// Which variables stand in the queue with the activity of now.
    queued: Vec<bool>,
    /// The value that each variable had last.
    phases: Vec<bool>,
    restarts: Restarts,
}

impl Order {
    /// No variable came up yet.
    pub fn new(alloc: Global, variables: u32) -> Result<Self, AllocError> {
        let places = variables as usize + 1;
        let mut order = Order {
            activities: vec![in alloc; 0; places]?,
            increment: FIRST_INCREMENT,
            queue: BinaryHeap::new(alloc),
            queued: vec![in alloc; false; places]?,
            phases: vec![in alloc; false; places]?,
            restarts: Restarts::new(),
        };
        order.refill()?;
        Ok(order)
    }

    /// The variable has come up in a conflict.
    pub fn bump(&mut self, variable: u32) {
        if let Some(activity) = self.activities.get_mut(variable as usize) {
            *activity = activity.saturating_add(self.increment);
        }
        self.mark(variable, false);
    }

    /// A conflict is over: later ones count for more, and at a restart the last values are forgotten.
    pub fn end_conflict(&mut self) -> Result<(), AllocError> {
        self.increment = self.increment.saturating_add(self.increment / 16);
        if self.increment > GREATEST_INCREMENT {
            for activity in self.activities.iter_mut() {
                *activity >>= 36;
            }
            self.increment >>= 36;
            self.refill()?;
        }
        if self.restarts.is_over() {
            self.phases.fill(false);
            self.refill()?;
        }
        Ok(())
    }

    /// The literal to decide: of the variable with the highest activity among those that are neither true nor false.
    pub fn next(&mut self, search: &Propagator) -> Option<Lit>
        ensures { IfSome result (IsUndecided search.now) }
    {
        for _turn in 0..self.queue.len() {
            let Some((_activity, variable)) = self.queue.pop() else {
                return None;
            };
            self.mark(variable, false);
            if let Some(literal) = self.with_last_value(variable) {
                if is_open(search, literal) {
                    return Some(literal);
                }
            }
        }
        None
    }

    /// Notes the values of the variables that were decided or forced since the first decision, and queues them again.
    pub fn leave(&mut self, search: &Propagator) -> Result<(), AllocError>
        requires { 0 < length search.now.starts }
    {
        for at in search.start(0)..search.true_count() {
            let literal = search.literal(at);
            let variable = literal.variable();
            if let Some(phase) = self.phases.get_mut(variable as usize) {
                *phase = literal.is_positive();
            }
            self.enqueue(variable)?;
        }
        Ok(())
    }

    /// Queues all variables anew.
    fn refill(&mut self) -> Result<(), AllocError> {
        self.queue.clear();
        self.queued.fill(false);
        for variable in 1..self.activities.len() {
            if variable <= 2_147_483_647 {
                self.enqueue(variable as u32)?;
            }
        }
        Ok(())
    }

    fn enqueue(&mut self, variable: u32) -> Result<(), AllocError> {
        if self.queued.get(variable as usize) == Some(&false) {
            if let Some(activity) = self.activities.get(variable as usize) {
                self.queue.push((*activity, variable))?;
                self.mark(variable, true);
            }
        }
        Ok(())
    }

    fn mark(&mut self, variable: u32, is_queued: bool) {
        if let Some(queued) = self.queued.get_mut(variable as usize) {
            *queued = is_queued;
        }
    }

    fn with_last_value(&self, variable: u32) -> Option<Lit> {
        if variable == 0 || variable > 2_147_483_647 {
            return None;
        }
        let literal = Lit::of_variable(variable);
        if self.phases.get(variable as usize) == Some(&true) {
            Some(literal)
        } else {
            Some(literal.negated())
        }
    }
}
