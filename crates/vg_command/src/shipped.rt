//! The shipped functions, by their names.
ghost use Rattle.std.specs.Prelude.{◌↔◌, IsTrue, Contains};
ghost use Rattle.vg_command.specs.Commands.{shipped, parts};

/// Whether a word is the name of a shipped function.
pub fn is_shipped(name: &str) -> bool
    ensures { IsTrue result ↔ Contains shipped name.now }
{
    matches!(
        name,
        "nat" | "bridge" | "firewall" | "policer" | "balancer" | "router"
    )
}

/// Whether a word names one of the texts that each shipped function has.
pub fn is_part(part: &str) -> bool
    ensures { IsTrue result ↔ Contains parts part.now }
{
    matches!(part, "c" | "spec" | "conf")
}
