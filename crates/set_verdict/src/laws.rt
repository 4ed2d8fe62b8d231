ghost use Rattle.std.specs.Prelude.{◌≡◌, ℕ, List, Option, None};
ghost use Rattle.image_form.specs.declared.record.Image.{Image};
ghost use Rattle.jvm_model.specs.declared.refusal.Refusal.{Refusal};
ghost use Rattle.jvm_model.specs.Verdict.{AreBytes, AreFunctions};
ghost use Rattle.set_image.specs.Linked.{Linked, IsOfFiles};
ghost use Rattle.set_image.specs.LinkRefusals.{link_refusal};
ghost use Rattle.set_verdict.specs.Verdict.{phases, Verdict, Accepted, IsImageOf};

/// Files are linked to one set at most, and those of an accepted set are.
pub fn one_linked()
    ensures unique { (files : List (List ℕ)) (first second : Linked) → IsOfFiles files first → IsOfFiles files second → first ≡ second }
    ensures linked { (files : List (List ℕ)) → Accepted files → (linked : Linked) × IsOfFiles files linked × (link_refusal linked ≡ None) }
{}

/// Each phase has an answer for each set of files of bytes, and one at most; and so each such set has one verdict, and an
/// accepted one one image.
pub fn one_verdict()
    ensures phases { AreFunctions phases }
    ensures total { (files : List (List ℕ)) → AreBytes files → (found : Option Refusal) × Verdict files found }
    ensures unique { (files : List (List ℕ)) (first second : Option Refusal) → Verdict files first → Verdict files second → first ≡ second }
    ensures image { (files : List (List ℕ)) → AreBytes files → Accepted files → (image : Image) × IsImageOf files image }
    ensures one_image { (files : List (List ℕ)) (first second : Image) → IsImageOf files first → IsImageOf files second → first ≡ second }
{}
