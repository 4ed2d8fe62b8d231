ghost use Rattle.class_file.specs.Faults.{TruncatedIsUnfinished, BadPoolIsBadEntry, BadDescriptorIsOfMember, BadShapeIsOfPart};
ghost use Rattle.class_file.specs.Prefixes.{FaultsHold, PrefixesAreTruncated, PrefixesOfFaults, PrefixesOfTruncated, NoneBeginsWithFaults};

/// A class file that is cut off is truncated, a fault stands whatever follows it, and before the first
/// fault there is no other.
pub fn prefixes_decide()
    ensures cut { PrefixesAreTruncated }
    ensures holds { FaultsHold }
    ensures none { NoneBeginsWithFaults }
    ensures first { PrefixesOfFaults }
    ensures truncated { PrefixesOfTruncated }
{}

/// What a fault says of the bytes: they are cut off, or after good parts an entry of the pool is wrong, a
/// member has a descriptor that is none, or no part by the rules begins.
pub fn faults_say()
    ensures truncated { TruncatedIsUnfinished }
    ensures pool { BadPoolIsBadEntry }
    ensures descriptor { BadDescriptorIsOfMember }
    ensures shape { BadShapeIsOfPart }
{}
