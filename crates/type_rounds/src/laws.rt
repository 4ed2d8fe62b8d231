ghost use Rattle.type_rounds.specs.RoundLaws.{QuietIsLeast, FailingHasNoRight, RoundsEnd, OneFailing, OneLeast};

/// Rounds end: where none fails with the least right table, else at one failing pc, and then there is no right table.
pub fn rounds_find_the_least()
    ensures quiet { QuietIsLeast }
    ensures failing { FailingHasNoRight }
    ensures end { RoundsEnd }
    ensures one_failing { OneFailing }
    ensures one_least { OneLeast }
{}
