//! That the run of an accepted set on the typed machine and the run of its image on the split machine show the same,
//! within all limits and for all answers. What is said stands in specs/SetRuns.antt. This crate has no code of its own. It
//! stands on the crates that follow the machines (`follow_calls` and those below), `match_starts`, `run_measures`, `body_limits`,
//! `set_compile` and `set_image`.
#![tactic(auto)]

ghost use Rattle.set_runs.specs.SetRuns.{SetsRunAlike};

use body_limits::bodies_keep_limits;
use class_order::class_order_is_right;
use run_measures::runs_are_measured;
use set_compile::sets_compile;
use type_safety::typed_code_starts;

/// The run of an accepted set and that of its image are alike.
pub fn sets_run_alike()
    ensures { SetsRunAlike }
{
    class_order_is_right();
    sets_compile();
    bodies_keep_limits();
    typed_code_starts();
    runs_are_measured();
}
