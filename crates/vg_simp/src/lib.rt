// Terms simplified under facts.
#![tactic(auto)]

mod bounding;
mod covering;
mod judging;
mod knowledge;
mod learning;
mod lists;
mod marking;
mod placing;
mod range;
mod ranging;
mod simplifying;
mod summing;
#[cfg(test)]
mod tests;

pub use simplifying::simplify;
