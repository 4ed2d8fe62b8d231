//! The classes of the library, by their numbers.

ghost use Rattle.std.specs.Prelude.{◌≡◌, slice_get, option_and_then, option_map, position};
ghost use Rattle.std.specs.Str.{bytes_eq};
ghost use Rattle.library.specs.Classes.{class_names, superclasses};

/// The first number of what is a set's or an image's own, its types and its methods; those below are the
/// library's, and those of them that name nothing are kept for later versions.
pub const FIRST_OWN: u16 = 32;

/// How many classes the library has in version 1. Their numbers are those below.
pub const CLASS_COUNT: u16 = 15;

/// The names of the classes, that of number 0 first.
const CLASS_NAMES: [&[u8]; 15] = [
    b"java/lang/Object",
    b"java/lang/Throwable",
    b"java/lang/Exception",
    b"java/lang/RuntimeException",
    b"java/lang/ArithmeticException",
    b"java/lang/NullPointerException",
    b"java/lang/ClassCastException",
    b"java/lang/ArrayStoreException",
    b"java/lang/NegativeArraySizeException",
    b"java/lang/IndexOutOfBoundsException",
    b"java/lang/ArrayIndexOutOfBoundsException",
    b"java/lang/Error",
    b"java/lang/LinkageError",
    b"java/lang/IncompatibleClassChangeError",
    b"mote/Console",
];

/// The name of a class of the library, with `/` between its parts. `None` where the number names none.
pub fn class_name(class: u16) -> Option<&'static [u8]>
    ensures { option_map (λ name. name.now) result ≡ slice_get class_names class }
{
    CLASS_NAMES.get(usize::from(class)).copied()
}

/// The superclass of a class of the library. `None` where it is `java/lang/Object`, which has none, or the
/// number names no class.
pub fn superclass_of(class: u16) -> Option<u16>
    ensures { result ≡ option_and_then (λ above. above) (slice_get superclasses class) }
{
    match class {
        1 | 14 => Some(0),
        2 | 11 => Some(1),
        3 => Some(2),
        4 | 5 | 6 | 7 | 8 | 9 => Some(3),
        10 => Some(9),
        12 => Some(11),
        13 => Some(12),
        _ => None,
    }
}

/// The first position of a name among names.
#[tactic(auto, using(crate::proofs::Positions::position_here, crate::proofs::Positions::position_absent))]
fn position_of(names: &[&[u8]], name: &[u8]) -> Option<usize>
    ensures { result ≡ position (λ own. bytes_eq name.now own.now) names.now }
{
    for (position, own) in names.iter().enumerate() {
        if name == *own {
            return Some(position);
        }
    }
    None
}

/// The number of the class of the library that has this name.
pub fn class_of_name(name: &[u8]) -> Option<u16>
    ensures { result ≡ position (bytes_eq name.now) class_names }
{
    position_of(&CLASS_NAMES, name).map(|class| class as u16)
}
