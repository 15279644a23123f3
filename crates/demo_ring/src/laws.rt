//! What is written is a design: a law over the definitions alone.

ghost use Rattle.demo_ring.specs.DemoParts.{DemoTextIsADesign};

/// The text of each size is a design in the ASCII form.
pub fn demo_text_is_a_design()
    ensures { DemoTextIsADesign }
{}
