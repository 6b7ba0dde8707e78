//! Reading a small function from its words.
ghost use Rattle.std.specs.Prelude.{◌≡◌, ◌<◌, ◌≤◌, ◌^◌, ℕ, List, length, map, option_map, IfOk, IsErrOf};
ghost use Rattle.vg_small.specs.Meaning.{value_at, steps_at};
ghost use Rattle.vg_small.specs.Spelling.{Spells, SpellsNone, name_at, value_bound};
ghost use Rattle.vg_small.specs.Reader.{after, number_after, ports_after, head_of, value_after, test_of, last_of, begins_if, body_of, small_of, texts};
ghost use Rattle.vg_small.specs.Reader.{placed, Gives};
ghost use Rattle.vg_small.specs.declared.small.SmallFault.TheVariants as faults;

use crate::form;
use crate::numbers::number_in;
use crate::small::{Lang, Small, SmallFault, Test, Tests};
use crate::words::{Word, cut};
use std::alloc::Global;

/// Reads a small function, as C or as a specification.
///
/// `Form` comes exactly where the text spells no small function, `Memory` where memory ran out.
pub fn read_small(alloc: Global, text: &[u8], lang: Lang) -> Result<Small, SmallFault>
    requires { length text.now < 2 ^ 31 }
    ensures spells { IfOk result (Spells lang text.now) }
    ensures form { IsErrOf result faults.Form → SpellsNone lang text.now }
{
    let words = cut(alloc, text)?;
    read(alloc, &words, lang)
}

/// The function that a text spells sends each frame to a port below the number that is declared, or below 16 in C.
pub fn sends_to_ports()
    ensures { (lang : Lang) (text : List ℕ) (f : Small) (port : ℕ) → Spells lang text f → value_at f.tests f.last port < value_bound lang f.ports }
{}

/// A run of the function that a text spells takes no more steps than the text has bytes.
pub fn takes_few_steps()
    ensures { (lang : Lang) (text : List ℕ) (f : Small) (port : ℕ) → Spells lang text f → steps_at f.tests port ≤ length text }
{}

// Reads a small function, word after word.
#[tactic(auto, unfolding(crate::specs::Reader::small_of))]
fn read(alloc: Global, words: &[Word<'_>], lang: Lang) -> Result<Small, SmallFault>
    ensures { Gives result (small_of lang (placed words.now)) }
{
    let Some((ports, rest)) = head(words, lang) else {
        return Err(SmallFault::Form);
    };
    let bound = form::value_bound_of(lang, ports);
    let (tests, last) = body(alloc, rest, lang, bound)?;
    Ok(Small {
        ports,
        at: place(words, lang),
        tests,
        last,
    })
}

// The words after these first ones.
fn strip<'a, 'b>(words: &'b [Word<'a>], want: &[&str]) -> Option<&'b [Word<'a>]>
    ensures { option_map (λ ws. texts ws.now) result ≡ after (map (λ e. e.now) want.now) (texts words.now) }
{
    let mut rest = words;
    for e in want {
        let [first, others @ ..] = rest else {
            return None;
        };
        if first.text != e.as_bytes() {
            return None;
        }
        rest = others;
    }
    Some(rest)
}

// A number, and the words after it.
fn number<'a, 'b>(words: &'b [Word<'a>]) -> Option<(u16, &'b [Word<'a>])>
    ensures { option_map (λ x. (x.0, texts x.1.now)) result ≡ number_after (texts words.now) }
{
    let [first, rest @ ..] = words else {
        return None;
    };
    let n = number_in(first.text)?;
    Some((n, rest))
}

// A number of ports, 1 to 16, and the words after it.
fn ports<'a, 'b>(words: &'b [Word<'a>]) -> Option<(u16, &'b [Word<'a>])>
    ensures { option_map (λ x. (x.0, texts x.1.now)) result ≡ ports_after (texts words.now) }
{
    let (n, rest) = number(words)?;
    if 1 <= n && n <= form::MOST_PORTS {
        Some((n, rest))
    } else {
        None
    }
}

// The number of ports that the head declares, 0 where it declares none, and the words after the head.
fn head<'a, 'b>(words: &'b [Word<'a>], lang: Lang) -> Option<(u16, &'b [Word<'a>])>
    ensures { option_map (λ x. (x.0, texts x.1.now)) result ≡ head_of lang (texts words.now) }
{
    match lang {
        Lang::C => {
            let rest = strip(words, form::c_head())?;
            Some((0, rest))
        }
        Lang::Spec => {
            let rest = strip(words, form::before_ports())?;
            let (n, rest) = ports(rest)?;
            let rest = strip(rest, form::after_ports())?;
            Some((n, rest))
        }
    }
}

// A value below a bound, and the words after it.
fn value<'a, 'b>(words: &'b [Word<'a>], bound: u16) -> Option<(u16, &'b [Word<'a>])>
    ensures { option_map (λ x. (x.0, texts x.1.now)) result ≡ value_after bound (texts words.now) }
{
    let (n, rest) = number(words)?;
    if n < bound { Some((n, rest)) } else { None }
}

// A test, and the words after it.
#[tactic(auto, unfolding(crate::specs::Reader::test_of))]
fn test<'a, 'b>(words: &'b [Word<'a>], lang: Lang, bound: u16) -> Option<(Test, &'b [Word<'a>])>
    ensures { option_map (λ x. (x.0, texts x.1.now)) result ≡ test_of lang bound (texts words.now) }
{
    let rest = strip(words, form::before_port(lang))?;
    let (port, rest) = number(rest)?;
    let rest = strip(rest, form::before_value(lang))?;
    let (value, rest) = value(rest, bound)?;
    let rest = strip(rest, form::after_value(lang))?;
    Some((Test { port, value }, rest))
}

// The last value, after which no word stands.
#[tactic(auto, unfolding(crate::specs::Reader::last_of))]
fn last(words: &[Word<'_>], lang: Lang, bound: u16) -> Option<u16>
    ensures { result ≡ last_of lang bound (texts words.now) }
{
    let rest = strip(words, form::before_last(lang))?;
    let (value, rest) = value(rest, bound)?;
    let rest = strip(rest, &[";", "}"])?;
    if rest.is_empty() { Some(value) } else { None }
}

// Whether a test comes next.
fn has_test(words: &[Word<'_>]) -> bool
    ensures { result ≡ begins_if (texts words.now) }
{
    strip(words, &["if"]).is_some()
}

// The tests and the last value.
fn body(
    alloc: Global,
    words: &[Word<'_>],
    lang: Lang,
    bound: u16,
) -> Result<(Tests, u16), SmallFault>
    ensures { Gives result (body_of lang bound (length words.now) (texts words.now)) }
{
    let mut tests = Vec::new(alloc);
    let mut at = 0;
    for _ in 0..words.len() {
        let (_, rest) = words.split_at(at);
        if !has_test(rest) {
            let Some(last) = last(rest, lang, bound) else {
                return Err(SmallFault::Form);
            };
            return Ok((Tests::new(tests), last));
        }
        let Some((next, after)) = test(rest, lang, bound) else {
            return Err(SmallFault::Form);
        };
        tests.push(next)?;
        at = words.len() - after.len();
    }
    Err(SmallFault::Form)
}

// The place of the function's name.
fn place(words: &[Word<'_>], lang: Lang) -> u32
    ensures { result ≡ name_at lang (placed words.now) }
{
    match lang {
        Lang::C => match words {
            [_, name, ..] => name.at,
            _ => 0,
        },
        Lang::Spec => 0,
    }
}
