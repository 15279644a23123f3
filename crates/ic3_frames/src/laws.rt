//! What additions and moves do to levels, over plain data.

ghost use Rattle.ic3_frames.specs.Laws.{AdditionsGain, AdditionsNeverFall, AdditionsRaise, AdditionsStayApart, AdditionsTighten, FixedIsInductive, GainsAreSound, GreatestIsWithin, MovesGain, MovesNeverFall, MovesStayApart, MovesTighten, SumIsBounded, TopIsBounded};

pub fn additions_gain()
    ensures { AdditionsGain }
{}

pub fn moves_gain()
    ensures { MovesGain }
{}

pub fn gains_are_sound()
    ensures { GainsAreSound }
{}

pub fn fixed_is_inductive()
    ensures { FixedIsInductive }
{}

pub fn additions_raise()
    ensures { AdditionsRaise }
{}

pub fn additions_never_fall()
    ensures { AdditionsNeverFall }
{}

pub fn moves_never_fall()
    ensures { MovesNeverFall }
{}

pub fn greatest_is_within()
    ensures { GreatestIsWithin }
{}

pub fn additions_tighten()
    ensures { AdditionsTighten }
{}

pub fn moves_tighten()
    ensures { MovesTighten }
{}

pub fn additions_stay_apart()
    ensures { AdditionsStayApart }
{}

pub fn moves_stay_apart()
    ensures { MovesStayApart }
{}

pub fn sum_is_bounded()
    ensures { SumIsBounded }
{}

pub fn top_is_bounded()
    ensures { TopIsBounded }
{}
