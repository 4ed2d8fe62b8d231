ghost use Rattle.flow_split.specs.SplitLaws.{RightTypesName};

/// Where a table of types is right, each local that an instruction with types names is one of the method's.
pub fn right_types_name_locals()
    ensures { RightTypesName }
{}
