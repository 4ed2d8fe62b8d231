ghost use Rattle.class_tree.specs.MergeLaws.{CommonIsLeast, EqualTypesStay, FitsWhereBelow, InterfacesAreBelowObject, MergeAssociates, MergeCommutes, MergeFits, SupersAreRuled};

/// In a set that the phases accept: what the superclasses of a class are, that the common superclass of two
/// classes is the least above both, that merges do not depend on what comes first and keep equal types, that a merge
/// fits what both fit, and that a reference fits a class that is no interface where it is below it.
pub fn merges_are_joins()
    ensures supers { SupersAreRuled }
    ensures common { CommonIsLeast }
    ensures commutes { MergeCommutes }
    ensures associates { MergeAssociates }
    ensures stays { EqualTypesStay }
    ensures fits { MergeFits }
    ensures interfaces { InterfacesAreBelowObject }
    ensures below { FitsWhereBelow }
{}
