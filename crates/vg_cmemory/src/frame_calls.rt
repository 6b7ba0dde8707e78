//! The library's calls for the frame.
ghost use Rattle.std.specs.Prelude.{◌≡◌};
ghost use Rattle.vg_cmemory.specs.FrameCalls as frame_calls;

/// A call of the library for the frame.
#[derive(Clone, Copy, Debug, PartialEq, Eq)]
pub enum FrameCall {
    /// `packet_length`
    Length,
    /// `packet_borrow`
    Borrow,
    /// `packet_return`
    Return,
}

/// The number of a call's row in the library's table.
pub fn row_of(call: FrameCall) -> u8
    ensures { result ≡ frame_calls.row_of call }
{
    match call {
        FrameCall::Length => 1,
        FrameCall::Borrow => 2,
        FrameCall::Return => 3,
    }
}

/// The call whose row has a number. The rows behind these need objects of the library.
pub fn call_in_row(row: u8) -> Option<FrameCall>
    ensures { result ≡ frame_calls.call_in_row row }
{
    match row {
        1 => Some(FrameCall::Length),
        2 => Some(FrameCall::Borrow),
        3 => Some(FrameCall::Return),
        _ => None,
    }
}
