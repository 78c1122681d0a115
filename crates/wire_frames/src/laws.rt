//! Laws of frames, each the contract of a function that does nothing.

ghost use Rattle.wire_frames.specs.Laws.{FramesAreCut, BrokenIsNoFrame};

/// The law that a frame stands at the front of its bytes, whatever stands behind it.
pub fn frames_are_cut()
    ensures { FramesAreCut }
{}

/// The law that bytes which a read answers as broken have no frame at their front, and are some.
pub fn broken_is_no_frame()
    ensures { BrokenIsNoFrame }
{}
