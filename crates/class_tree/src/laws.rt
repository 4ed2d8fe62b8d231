ghost use Rattle.std.specs.Prelude.{◌≡◌, ◌↔◌, ℕ, Bool, true, List, Option};
ghost use Rattle.class_pool.specs.declared.types.MemberId.{MemberId};
ghost use Rattle.class_file.specs.declared.record.ClassFile.{ClassFile};
ghost use Rattle.class_tree.specs.declared.refusal.TreeRefusal.{TreeRefusal};
ghost use Rattle.class_tree.specs.Tree.{Gathers};
ghost use Rattle.class_tree.specs.Found.{AreMembers};
ghost use Rattle.class_tree.specs.Subtypes.{IsSubclass};
ghost use Rattle.class_tree.specs.Access.{IsAllowed};
ghost use Rattle.class_tree.specs.AccessTests.{is_subclass, is_allowed};
ghost use Rattle.class_tree.specs.LookupLaws.{FieldsAreRuled, InterfaceMethodsAreRuled, SuperclassesAreRuled};

/// Files are a closed set, or are refused for one reason.
pub fn one_answer()
    ensures total { (files : List ClassFile) → (found : Option TreeRefusal) × Gathers files found }
    ensures unique { (files : List ClassFile) (first second : Option TreeRefusal) → Gathers files first → Gathers files second → first ≡ second }
{}

/// In a set that the phases accept, each lookup keeps its rule as an equation, and only it does.
pub fn lookups_are_ruled()
    ensures fields { FieldsAreRuled }
    ensures interface_methods { InterfaceMethodsAreRuled }
    ensures superclasses { SuperclassesAreRuled }
{}

/// What lookups find are members of the set.
pub fn found_are_members()
    ensures { (files : List ClassFile) (name descriptor : List ℕ) (class : ℕ) (id : MemberId) → AreMembers files name descriptor class id }
{}

/// The tests of subclasses and of access answer what the relations say.
pub fn tests_are_relations()
    ensures subclass { (files : List ClassFile) (lower upper : ℕ) → (is_subclass files lower upper ≡ true) ↔ IsSubclass files lower upper }
    ensures allowed { (files : List ClassFile) (from : ℕ) (id : MemberId) (field : Bool) → (is_allowed files from field id ≡ true) ↔ IsAllowed files from id field }
{}
