//! The files that words name.
ghost use Rattle.std.specs.Prelude.{◌≡◌, ◌≢◌, ◌↔◌, [], ◌∷◌, length, IsTrue, IfSome, IfNone, All, AllPairs};
ghost use Rattle.vg_command.specs.Commands.{words_in, inputs, IsName, IsNoneOf, AreFiles};
ghost use Rattle.vg_command.specs.View.{files_of};
ghost use Rattle.vg_command.specs.Reading.{AreOutputs, Splits, SplitsNone};

use crate::command::FileNames;

/// The most ports that a command can name captures for.
pub const MOST_PORTS: usize = 16;

/// Whether a word names a file.
pub fn is_name(word: &str) -> bool
    ensures { IsTrue result ↔ IsName word.now }
{
    word != "-"
}

/// Whether each of three words names a file.
pub fn are_names(one: &str, two: &str, three: &str) -> bool
    ensures { IsTrue result ↔ (IsName one.now × IsName two.now × IsName three.now) }
{
    is_name(one) && is_name(two) && is_name(three)
}

// Whether two names are the same, byte for byte.
fn is_same(a: &str, b: &str) -> bool
    ensures { IsTrue result ↔ (a.now ≡ b.now) }
{
    a == b
}

// Whether a name is none of these words.
fn is_none_of(name: &str, words: &[String]) -> bool
    ensures { IsTrue result ↔ IsNoneOf (words_in words.now) name.now }
{
    for word in words {
        if is_same(name, word.as_str()) {
            return false;
        }
    }
    true
}

/// Whether a name is neither of two words.
pub fn is_neither(name: &str, one: &str, other: &str) -> bool
    ensures { IsTrue result ↔ IsNoneOf (one.now ∷ other.now ∷ []) name.now }
{
    !is_same(name, one) && !is_same(name, other)
}

/// Whether a name is none of the files that are written.
pub fn is_no_output(name: &str, n: &FileNames<'_>) -> bool
    ensures { IsTrue result ↔ IsNoneOf (n.now.log.now ∷ words_in n.now.outs.now) name.now }
{
    !is_same(name, n.log) && is_none_of(name, n.outs)
}

// Whether words differ from one another.
fn are_apart(words: &[String]) -> bool
    ensures { IsTrue result ↔ AllPairs ◌≢◌ (words_in words.now) }
{
    for (i, word) in words.iter().enumerate() {
        let (_, later) = words.split_at(i + 1);
        if !is_none_of(word.as_str(), later) {
            return false;
        }
    }
    true
}

// Whether a name is that of no text, and of no capture that comes in.
fn is_no_input(name: &str, n: &FileNames<'_>) -> bool
    ensures { IsTrue result ↔ IsNoneOf (inputs (files_of n.now)) name.now }
{
    if is_same(name, n.c) || is_same(name, n.spec) || is_same(name, n.conf) {
        return false;
    }
    is_none_of(name, n.ins)
}

// Whether each capture that goes out has a name, which no input has.
fn are_outputs(n: &FileNames<'_>) -> bool
    ensures { IsTrue result ↔ AreOutputs (files_of n.now) }
{
    for out in n.outs {
        let name = out.as_str();
        if !is_name(name) || !is_no_input(name, n) {
            return false;
        }
    }
    true
}

// Whether these can be the files of a command, where there are as many captures in as out.
fn are_files(n: &FileNames<'_>) -> bool
    requires { length n.now.ins.now ≡ length n.now.outs.now }
    ensures { IsTrue result ↔ AreFiles (files_of n.now) }
{
    if n.ins.is_empty() || n.ins.len() > MOST_PORTS {
        return false;
    }
    if !are_names(n.c, n.spec, n.log) {
        return false;
    }
    if !is_no_input(n.log, n) || !is_none_of(n.log, n.outs) {
        return false;
    }
    are_outputs(n) && are_apart(n.outs)
}

/// The files that words name, where they can be those of a command: a configuration, a log, and as many captures in as out.
pub fn files_in<'a>(c: &'a str, spec: &'a str, words: &'a [String]) -> Option<FileNames<'a>>
    ensures files { IfSome result (λ n. Splits c.now spec.now (words_in words.now) (files_of n)) }
    ensures none { IfNone result (SplitsNone c.now spec.now (words_in words.now)) }
{
    let [conf, log, captures @ ..] = words else {
        return None;
    };
    let (ins, outs) = captures.split_at(captures.len() / 2);
    if ins.len() != outs.len() {
        return None;
    }
    let files = FileNames {
        c,
        spec,
        conf: conf.as_str(),
        log: log.as_str(),
        ins,
        outs,
    };
    if are_files(&files) { Some(files) } else { None }
}
