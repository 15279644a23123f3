//! What the levels say, over plain data.

ghost use Rattle.ic3_query.specs.Laws.{FramesFit};

/// Where each known clause is blocked at the top, up to the top no word on what is known is needed.
pub fn fits_frames()
    ensures { FramesFit }
{}
