//! The look-up in a list of routes.
ghost use Rattle.std.specs.Prelude.{◌≡◌};
ghost use Rattle.vg_stree.specs.Routes as routes;

use vg_stree::Route;

// Whether a route matches an address.
fn matches(route: Route, address: u32) -> bool
    ensures { result ≡ routes.matches route address }
{
    let free = 32u8.saturating_sub(route.len);
    (u64::from(address) >> free) == (u64::from(route.address) >> free)
}

// The route for an address among a route and those behind it, whose own is told.
fn longer(route: Route, address: u32, behind: Option<Route>) -> Option<Route>
    ensures { result ≡ routes.longer route address behind }
{
    match behind {
        Some(other) if other.len >= route.len => Some(other),
        _ if matches(route, address) => Some(route),
        other => other,
    }
}

/// What a look-up of an address answers: the value of the longest route that matches, of equally long ones the last.
pub fn longest_match(table: &[Route], address: u32) -> Option<u16>
    ensures { result ≡ routes.longest_match table.now address }
{
    let mut best = None;
    let mut left = table.len();
    while left > 0 {
        left -= 1;
        best = longer(table[left], address, best);
    }
    best.map(|route| route.value)
}
