//! `containers lookups COUNT` and `containers mix COUNT`: the map and the chain on made keys.

mod lookups;
mod mix;

use crate::count::count_of;
use crate::stop::Stop;

/// How many keys the map has room for, and how many indices the chain has.
pub const CAPACITY: u32 = 65_536;

/// Runs what the words name and prints its counts on one line.
pub fn run(rt: &(impl AllocGlobal + Print), words: &[String]) -> Result<(), Stop> {
    let [what, count] = words else {
        return Err(Stop::Usage);
    };
    let count = count_of(count.as_str()).ok_or(Stop::Usage)?;
    let printed = match what.as_str() {
        "lookups" => {
            let found = lookups::lookups(rt.alloc(), count)?;
            println!(rt; "found {found}")
        }
        "mix" => {
            let counts = mix::mix(rt.alloc(), count)?;
            println!(rt;
                "found {} new {} expired {}",
                counts.found, counts.new, counts.expired
            )
        }
        _ => return Err(Stop::Usage),
    };
    printed.map_err(|_| Stop::Print)
}
