ghost use Rattle.image_form.specs.BadTables.{BadTableIsOfEntry};
ghost use Rattle.image_form.specs.Prefixes.{FaultsHold, PrefixesAreTruncated, PrefixesOfFaults, PrefixesOfTruncated, NoneBeginsWithFaults};
ghost use Rattle.image_form.specs.Laws.{HasOneEncoding, IsInjective, IsPrefixFree};

/// An image has one encoding and a encoding is that of one image, and none is a proper prefix of another.
pub fn encoding_is_injective()
    ensures encoding { HasOneEncoding }
    ensures image { IsInjective }
    ensures prefix { IsPrefixFree }
{}

/// An infusion that is cut off is truncated, a fault stands whatever follows it, and before the first
/// fault there is no other.
pub fn prefixes_decide()
    ensures cut { PrefixesAreTruncated }
    ensures holds { FaultsHold }
    ensures none { NoneBeginsWithFaults }
    ensures first { PrefixesOfFaults }
    ensures truncated { PrefixesOfTruncated }
{}

/// Where an entry of a table is refused, all before it is good, and none by the rules begins there.
pub fn faults_say()
    ensures { BadTableIsOfEntry }
{}
