//! Lines of text of bounded length: those that are printed.
ghost use Rattle.std.specs.Prelude.{◌≡◌, ◌≤◌, ◌++◌, codes, length};
ghost use Rattle.vg_top.specs.Lines.{verified_line, totals_line, wrong_text, field_name, damage_name, capture_line, text_name, unbuilt_name};
ghost use Rattle.vg_top.specs.Lines.{usage_line, refusal_text};

use crate::report::Report;
use crate::stop::{Stop, Unbuilt};
use arrayvec::ArrayString;
use itoa::Buffer;
use vg_pcap::{CaptureRefusal, Damage, HeaderField};
use vg_replay::Totals;
use vg_small::Lang;

// What is printed where the C function meets its specification.
#[tactic(auto, unfolding(crate::specs::Lines::verified_line))]
fn verified_line(paths: u32, steps: u64) -> ArrayString<200>
    ensures { result.bytes ≡ verified_line paths steps }
{
    let mut line = ArrayString::new();
    let mut digits = Buffer::new();
    line.push_str("verified paths ");
    line.push_str(digits.format(paths));
    line.push_str(" steps ");
    line.push_str(digits.format(steps));
    line.push_str("\n");
    line
}

// What is printed of a replay that came to its end.
#[tactic(auto, unfolding(crate::specs::Lines::totals_line))]
fn totals_line(totals: Totals) -> ArrayString<300>
    ensures { result.bytes ≡ totals_line totals }
{
    let mut line = ArrayString::new();
    let mut digits = Buffer::new();
    line.push_str("frames ");
    line.push_str(digits.format(totals.frames));
    line.push_str(" sent ");
    line.push_str(digits.format(totals.sent));
    line.push_str(" dropped ");
    line.push_str(digits.format(totals.dropped));
    line.push_str(" flooded ");
    line.push_str(digits.format(totals.flooded));
    line.push_str("\n");
    line
}

/// What is printed where a run is done.
pub fn report_text(report: Report) -> ArrayString<600>
    ensures { result.bytes ≡ verified_line report.paths report.steps ++ totals_line report.totals }
{
    let mut text = ArrayString::new();
    text.push_str(verified_line(report.paths, report.steps).as_str());
    text.push_str(totals_line(report.totals).as_str());
    text
}

// What is printed of a wrong run.
#[tactic(auto, unfolding(crate::specs::Lines::wrong_text))]
fn wrong_text(at: u32, port: u16) -> ArrayString<200>
    ensures { result.bytes ≡ wrong_text at port }
{
    let mut text = ArrayString::new();
    let mut digits = Buffer::new();
    text.push_str("wrong at byte ");
    text.push_str(digits.format(at));
    text.push_str(": verdict\nwrong-run 1\nport ");
    text.push_str(digits.format(port));
    text.push_str("\nnow 0\nframe -\n");
    text
}

fn field_name(field: HeaderField) -> &'static str
    ensures name { result.now ≡ field_name field }
    ensures short { length result.now ≤ 7 }
{
    match field {
        HeaderField::Length => "length",
        HeaderField::Magic => "magic",
        HeaderField::Version => "version",
        HeaderField::Link => "link",
    }
}

fn damage_name(damage: Damage) -> &'static str
    ensures name { result.now ≡ damage_name damage }
    ensures short { length result.now ≤ 8 }
{
    match damage {
        Damage::Cut => "cut",
        Damage::Long => "long",
        Damage::Fraction => "fraction",
    }
}

// What is printed of a capture that is refused.
#[tactic(auto, unfolding(crate::specs::Lines::capture_line))]
fn capture_line(port: u16, refusal: CaptureRefusal) -> ArrayString<200>
    ensures { result.bytes ≡ capture_line port refusal }
{
    let mut line = ArrayString::new();
    let mut digits = Buffer::new();
    line.push_str("capture ");
    line.push_str(digits.format(port));
    match refusal {
        CaptureRefusal::Header(field) => {
            line.push_str(" header ");
            line.push_str(field_name(field));
        }
        CaptureRefusal::Record { number, why } => {
            line.push_str(" nth ");
            line.push_str(digits.format(number));
            line.push_str(" ");
            line.push_str(damage_name(why));
        }
    }
    line.push_str("\n");
    line
}

fn text_name(lang: Lang) -> &'static str
    ensures name { result.now ≡ text_name lang }
    ensures short { length result.now ≤ 4 }
{
    match lang {
        Lang::C => "c",
        Lang::Spec => "spec",
    }
}

fn unbuilt_name(what: Unbuilt) -> &'static str
    ensures name { result.now ≡ unbuilt_name what }
    ensures short { length result.now ≤ 7 }
{
    match what {
        Unbuilt::Words => "words",
        Unbuilt::Text(lang) => text_name(lang),
    }
}

// A line of two words.
fn line_of_two(first: &str, second: &str) -> ArrayString<200>
    requires first { length first.now ≤ 20 }
    requires second { length second.now ≤ 20 }
    ensures { result.bytes ≡ first.now ++ second.now ++ codes "\n" }
{
    let mut line = ArrayString::new();
    line.push_str(first);
    line.push_str(second);
    line.push_str("\n");
    line
}

// What is printed where the words are those of no command, or name captures of another number of ports.
fn usage_line() -> ArrayString<200>
    ensures { result.bytes ≡ usage_line }
{
    let mut line = ArrayString::new();
    line.push_str("usage: run|verify|check|replay|try|rerun|show|bench\n");
    line
}

/// What is printed where a run stops.
#[tactic(auto, unfolding(crate::specs::Lines::refusal_text))]
pub fn refusal_text(stop: Stop) -> ArrayString<200>
    ensures { result.bytes ≡ refusal_text stop }
{
    match stop {
        Stop::Wrong { at, port } => wrong_text(at, port),
        Stop::Usage => usage_line(),
        Stop::Capture { port, refusal } => capture_line(port, refusal),
        Stop::Read => line_of_two("read ", "fault"),
        Stop::Write => line_of_two("write ", "fault"),
        Stop::Memory => line_of_two("no ", "memory"),
        Stop::Limit(lang) => line_of_two("limit ", text_name(lang)),
        Stop::Frames => line_of_two("limit ", "frames"),
        Stop::NotBuilt(what) => line_of_two("not built ", unbuilt_name(what)),
    }
}
