//! What holds of all captures, whoever reads them.
ghost use Rattle.std.specs.Prelude.{◌⊎◌, ℕ, List, All};
ghost use Rattle.std.specs.List.Sorted.{IsNonDecreasingBy};
ghost use Rattle.vg_base.specs.Files.{AreBytes};
ghost use Rattle.vg_pcap.specs.declared.faults.HeaderField.{HeaderField};
ghost use Rattle.vg_pcap.specs.Captures.{IsBadHeader, Whole};
ghost use Rattle.vg_pcap.specs.Frames.{Framed, Stream, Fits, HoldsStream, capture_of};

/// A file has a header that is refused, or it is a capture, whose frames end at its end or at a record that is refused.
pub fn stream_or_bad()
    ensures { (file : List ℕ) → AreBytes file →
        ((field : HeaderField) × IsBadHeader file field) ⊎ ((stream : Stream) × HoldsStream file stream) }
{}

/// What is written for frames whose times don't fall is a capture of these frames.
pub fn written_is_read()
    ensures { (frames : List Framed) → All Fits frames → IsNonDecreasingBy (λ f. f.time) frames →
        HoldsStream (capture_of frames) (record { frames = frames; end = Whole }) }
{}
