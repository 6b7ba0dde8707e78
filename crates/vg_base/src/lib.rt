//! Files and sinks as traits, with counts of their faults, and the real ones.
#![tactic(auto)]

mod faults;
mod files;
mod handles;
mod host;
mod host_sink;
mod loading;
mod put;
mod sink;
#[cfg(test)]
mod tests;

pub use faults::{Failed, LoadFault};
pub use files::{Files, MAX_OPEN};
pub use host::HostFiles;
pub use host_sink::HostSink;
pub use loading::load;
pub use put::put_all;
pub use sink::{Sink, say_all};
