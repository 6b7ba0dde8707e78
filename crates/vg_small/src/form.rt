//! The fixed words of the small form, in each language.
ghost use Rattle.std.specs.Prelude.{◌≡◌, map};
ghost use Rattle.vg_small.specs.Spelling.{head_words, value_bound};
ghost use Rattle.vg_small.specs.Reader.{ports_words, step_words, if_words, then_words, end_words, answer_words};
ghost use Rattle.vg_small.specs.declared.small.Lang.TheVariants.{C};

use crate::small::Lang;

/// The most ports that there can be.
pub const MOST_PORTS: u16 = 16;

/// What a C text begins with, up to its first statement.
pub fn c_head() -> &'static [&'static str]
    ensures { map (λ e. e.now) result.now ≡ head_words C 0 }
{
    &[
        "int",
        "nf_process",
        "(",
        "uint16_t",
        "port",
        ",",
        "uint64_t",
        "now",
        ")",
        "{",
    ]
}

/// What a specification begins with, up to its number of ports.
pub fn before_ports() -> &'static [&'static str]
    ensures { map (λ e. e.now) result.now ≡ ports_words }
{
    &["ports"]
}

/// What stands between a specification's number of ports and its first statement.
pub fn after_ports() -> &'static [&'static str]
    ensures { map (λ e. e.now) result.now ≡ step_words }
{
    &[";", "step", "{"]
}

/// What a test begins with, up to its port.
pub fn before_port(lang: Lang) -> &'static [&'static str]
    ensures { map (λ e. e.now) result.now ≡ if_words lang }
{
    match lang {
        Lang::C => &["if", "(", "port", "=="],
        Lang::Spec => &["if", "port", "=="],
    }
}

/// What stands between a test's port and its value.
pub fn before_value(lang: Lang) -> &'static [&'static str]
    ensures { map (λ e. e.now) result.now ≡ then_words lang }
{
    match lang {
        Lang::C => &[")", "return"],
        Lang::Spec => &["{", "send"],
    }
}

/// What ends a test, after its value.
pub fn after_value(lang: Lang) -> &'static [&'static str]
    ensures { map (λ e. e.now) result.now ≡ end_words lang }
{
    match lang {
        Lang::C => &[";"],
        Lang::Spec => &[";", "}"],
    }
}

/// What stands before the last value.
pub fn before_last(lang: Lang) -> &'static [&'static str]
    ensures { map (λ e. e.now) result.now ≡ answer_words lang }
{
    match lang {
        Lang::C => &["return"],
        Lang::Spec => &["send"],
    }
}

/// What each value is below, where the head declares this many ports.
pub fn value_bound_of(lang: Lang, ports: u16) -> u16
    ensures { result ≡ value_bound lang ports }
{
    match lang {
        Lang::C => MOST_PORTS,
        Lang::Spec => ports,
    }
}
