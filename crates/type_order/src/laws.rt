ghost use Rattle.type_order.specs.OrderLaws.{MergesAreAbove, MergesAreLeast, AboveGoesOn, AboveIsOneWay, ProperIsAbove, StartIsProper, AfterIsProper, EnteredIsProper, MergeIsProper, RulesAreMonotone, EnteredIsAbove, AfterIsKnown};

/// The merge of two frames is the least frame above both.
pub fn frames_merge()
    ensures above { MergesAreAbove }
    ensures least { MergesAreLeast }
    ensures goes_on { AboveGoesOn }
    ensures one_way { AboveIsOneWay }
    ensures itself { ProperIsAbove }
    ensures proper { MergeIsProper }
{}

/// A rule that holds in a frame holds in each frame that says more, and leads to one that says more; frames stay
/// proper.
pub fn rules_are_monotone()
    ensures monotone { RulesAreMonotone }
    ensures entered { EnteredIsAbove }
    ensures start { StartIsProper }
    ensures after { AfterIsProper }
    ensures handlers { EnteredIsProper }
    ensures known { AfterIsKnown }
{}
