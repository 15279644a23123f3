//! First breaks, over plain data.

ghost use Rattle.ja_base.specs.Laws.{FirstBrokenFailsLocally, BreaksHaveFirst};
ghost use Rattle.debug_set.specs.FirstBreaks.{FirstBrokenIsNamed};

/// The stimulus is cut after the step at which the property is broken.
pub fn first_broken_fails_locally()
    ensures { FirstBrokenFailsLocally }
{}

pub fn breaks_have_first()
    ensures { BreaksHaveFirst }
{}

/// So whoever mends the debugging set meets what a stimulus breaks first.
pub fn first_broken_is_named()
    ensures { FirstBrokenIsNamed }
{}
