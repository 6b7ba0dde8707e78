//! Lines and columns.
ghost use Rattle.std.specs.Prelude.{◌≡◌, ◌<◌, ◌≤◌, ◌+◌, ◌-◌, ◌^◌, length, take};
ghost use Rattle.vg_cfront.specs.Places.{start, after, behind, place};

/// A place in a text, as editors tell it: both are counted from 1, and a column in bytes.
#[derive(Clone, Copy, Debug, PartialEq, Eq)]
pub struct LineColumn {
    pub line: u32,
    pub column: u32,
}

// So many bytes of a text, or all where it has fewer.
fn front(text: &[u8], count: u32) -> &[u8]
    ensures { result.now ≡ take count text.now }
{
    if (count as usize) < text.len() {
        let (front, _) = text.split_at(count as usize);
        front
    } else {
        text
    }
}

/// The line and the column of a place, told by the number of bytes before it; of a place past the text's end those of the end.
pub fn line_column(text: &[u8], at: u32) -> LineColumn
    requires { length text.now < 2 ^ 31 }
    ensures { result ≡ place text.now at }
{
    end_of(front(text, at))
}

// The place behind one byte more.
fn after(here: LineColumn, b: u8) -> LineColumn
    requires { here.line + here.column < 2 ^ 32 - 1 }
    ensures place { result ≡ after here b }
    ensures sum { 1 ≤ here.column → result.line + result.column ≤ here.line + here.column + 1 }
    ensures column { 1 ≤ result.column }
{
    if b == b'\n' {
        LineColumn {
            line: here.line + 1,
            column: 1,
        }
    } else {
        LineColumn {
            line: here.line,
            column: here.column + 1,
        }
    }
}

// The place behind bytes.
fn end_of(bytes: &[u8]) -> LineColumn
    requires { length bytes.now < 2 ^ 31 }
    ensures { result ≡ behind start bytes.now }
{
    let mut here = LineColumn { line: 1, column: 1 };
    for b in bytes {
        here = after(here, *b);
    }
    here
}
