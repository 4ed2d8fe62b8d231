ghost use Rattle.std.specs.Prelude.{◌≡◌, ◌≢◌, ℕ, List};
ghost use Rattle.image_form.specs.declared.record.Image.{Image};
ghost use Rattle.jvm_model.specs.declared.refusal.Refusal.{Refusal};
ghost use Rattle.set_verdict.specs.Verdict.{IsRefused};
ghost use Rattle.mote_top.specs.declared.status.ImageRefusal.{ImageRefusal};
ghost use Rattle.mote_top.specs.declared.status.Status.TheVariants.{Memory as NoMemory};
ghost use Rattle.mote_top.specs.Words.{IsName, Setting, AreOptions, run_of, limits_of};
ghost use Rattle.mote_top.specs.Call.{Call, After};
ghost use Rattle.mote_top.specs.Reply.{IsInfusion, IsNoInfusion};
ghost use Rattle.mote_top.specs.Headline.{RunsSet, InfusesTo, StoresInfusion, IsAnswer, NoneRose};
ghost use Rattle.mote_top.specs.Promises.{Promises};

/// Bytes are the encoding of one checked image at most, and then no refusal of infusions is theirs. So a
/// `run` that answers says why its bytes are no infusion exactly where they are none.
pub fn infusions_are_one_or_none()
    ensures exclusive { (bytes : List ℕ) (image : Image) (refusal : ImageRefusal) → IsInfusion bytes image → IsNoInfusion bytes refusal → ⊥ }
    ensures one_image { (bytes : List ℕ) (first second : Image) → IsInfusion bytes first → IsInfusion bytes second → first ≡ second }
{}

/// A `run` that finds what an `infuse` stored for a set runs the set, so the headline is of it too.
pub fn stored_sets_run()
    ensures { (first second : Call) (between : After) (files : List (List ℕ)) (out : List ℕ) (settings : List Setting) → StoresInfusion first between files out
        → second.shelf.kept ≡ between.shelf.kept → second.words ≡ run_of out settings → IsName out → AreOptions settings → RunsSet second files (limits_of settings) }
{}

/// A refused set leaves all that is kept, whatever the call answers.
pub fn refused_sets_store_nothing()
    ensures { (call : Call) (after : After) (files : List (List ℕ)) (out : List ℕ) (refusal : Refusal) → Promises call after
        → InfusesTo call files out → IsRefused files refusal → after.shelf.kept ≡ call.shelf.kept }
{}

/// Where no count of faults rose in a call, it answers, unless there was no memory.
pub fn calls_without_faults_answer()
    ensures { (call : Call) (after : After) → Promises call after → NoneRose call after → after.status ≢ NoMemory → IsAnswer after.status }
{}
