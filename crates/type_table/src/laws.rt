ghost use Rattle.type_table.specs.StoreLaws.{FramesStay, FramesAreHigh, FramesAreWide, GrowthGoesOn, GrowthMayStop};

/// A frame that is there stays what it is where entries are added, and has so many operands and locals.
pub fn frames_stay()
    ensures stay { FramesStay }
    ensures goes_on { GrowthGoesOn }
    ensures stops { GrowthMayStop }
    ensures high { FramesAreHigh }
    ensures wide { FramesAreWide }
{}
