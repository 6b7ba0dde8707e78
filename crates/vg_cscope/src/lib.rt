//! Scopes of C texts: what each node sees, and which declaration a name stands for (C11 6.2.1 to 6.2.3).
#![tactic(auto)]

mod answers;
mod names;
mod scopes;
mod standing;
mod table;
mod walk;

pub use names::{Wanted, field_name, is_function, spelling};
pub use scopes::Scopes;
pub use standing::{Standing, kind_at};
