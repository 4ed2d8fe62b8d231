ghost use Rattle.infuse_ids.specs.Layouts.{FieldsBySuperclass};

/// In a closed set an object has the fields of an object of its superclass, and then those that its class declares.
pub fn fields_come_from_superclasses()
    ensures { FieldsBySuperclass }
{}
