ghost use Rattle.std.specs.Prelude.{◌≡◌, ℕ, false, List};
ghost use Rattle.dialogue.specs.Answers.{Answers};
ghost use Rattle.dialogue.specs.Limits.{Limits};
ghost use Rattle.dialogue.specs.Outcome.{Outcome};
ghost use Rattle.image_form.specs.declared.record.Image.{Image};
ghost use Rattle.image_form.specs.Grammar.{IsImage};
ghost use Rattle.image_check.specs.Checked.{IsBuilt, IsChecked};
ghost use Rattle.mote_model.specs.declared.ending.Ending.{Ending};
ghost use Rattle.set_verdict.specs.Verdict.{Accepted, IsImageOf};
ghost use Rattle.set_outcome.specs.ImageOutcome.{LimitedSo};
ghost use Rattle.set_outcome.specs.RunsAlike.{RunsAlike, is_want, IsPrefix};
ghost use Rattle.set_outcome.specs.SetOutcome.{SetEnding, Run, LimitedRun};

use image_rules::set_images_keep_rules;
use set_grammar::set_images_are_images;
use set_runs::sets_run_alike;
use set_verdict::one_linked;

/// The image of an accepted set of files of bytes is of the grammar, keeps the rules of the check, and is run; and for all
/// limits and inputs its limited run on the split machine is that of the set on the typed machine.
pub fn accepted_sets_run()
    ensures image { (files : List (List ℕ)) (image : Image) → IsImageOf files image → IsImage image }
    ensures checked { (files : List (List ℕ)) (image : Image) → IsImageOf files image → IsChecked image }
    ensures built { (files : List (List ℕ)) (image : Image) → IsImageOf files image → IsBuilt image }
    ensures runs_alike { (files : List (List ℕ)) (image : Image) → IsImageOf files image → (limits : Limits) (answers : Answers) → RunsAlike files image limits answers }
{
    one_linked();
    set_images_are_images();
    set_images_keep_rules();
    sets_run_alike();
}

/// Each run of an accepted set, with a budget of ticks alone or within limits, ends in one way; and so does the limited run
/// of an image, where it ends.
pub fn one_outcome()
    ensures runs { (files : List (List ℕ)) → Accepted files → (ticks : ℕ) (answers : Answers) → (outcome : Outcome SetEnding) × Run files ticks answers outcome }
    ensures run_is_one { (files : List (List ℕ)) (ticks : ℕ) (answers : Answers) (first second : Outcome SetEnding) → Run files ticks answers first → Run files ticks answers second → first ≡ second }
    ensures runs_limited { (files : List (List ℕ)) → Accepted files → (limits : Limits) (answers : Answers) → (outcome : Outcome SetEnding) × LimitedRun files limits answers outcome }
    ensures limited_run_is_one { (files : List (List ℕ)) (limits : Limits) (answers : Answers) (first second : Outcome SetEnding) → LimitedRun files limits answers first → LimitedRun files limits answers second → first ≡ second }
    ensures image_run_is_one { (image : Image) (limits : Limits) (answers : Answers) (first second : Outcome Ending) → LimitedSo image limits answers first → LimitedSo image limits answers second → first ≡ second }
{
    one_linked();
    sets_run_alike();
}

/// Limits do nothing but end a run early: what the limited run says is a prefix of what the unlimited run of as many ticks
/// says, and unless it ends with a want of heap or of stack, the unlimited run ends the same.
pub fn limits_cut()
    ensures said { (files : List (List ℕ)) (limits : Limits) (answers : Answers) (outcome unlimited : Outcome SetEnding) → LimitedRun files limits answers outcome → Run files limits.ticks answers unlimited → IsPrefix outcome.dialogue unlimited.dialogue }
    ensures ends { (files : List (List ℕ)) (limits : Limits) (answers : Answers) (outcome : Outcome SetEnding) → LimitedRun files limits answers outcome → is_want outcome.ending ≡ false → Run files limits.ticks answers outcome }
{
    one_linked();
    sets_run_alike();
}
