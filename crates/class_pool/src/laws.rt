ghost use Rattle.class_pool.specs.Laws.{BeginsWithOnePool, NamesOneType, IsOneDescriptor};

/// Bytes begin with the encoding of one constant pool at most, and a text is one descriptor at most.
pub fn one_value()
    ensures pool { BeginsWithOnePool }
    ensures field { NamesOneType }
    ensures method { IsOneDescriptor }
{}
