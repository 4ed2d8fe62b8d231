//! What an instruction does to a frame.

ghost use Rattle.std.specs.Prelude.{◌≡◌, ◌≤◌, length};

use body_form::VType;
use std::marker::Model;

/// The most operands that an instruction pushes (JVMS 6.5, dup2_x2).
const MOST_PUSHES: usize = 6;

/// Up to six types that are pushed, the top first. Contracts see their list.
#[derive(Debug, Drop)]
pub struct Pushes {
    types: [VType; MOST_PUSHES],
    count: usize,
}

impl Model for Pushes {
    ghost use Rattle.std.specs.Prelude.{List, ◌≤◌, take};
    ghost use Rattle.body_form.specs.declared.types.VType.{VType as Known};

    ghost Value = { List Known };

    ghost view = { λ pushes. take pushes.count pushes.types };

    ghost invariant = { λ pushes. pushes.count ≤ 6 };
}

impl Pushes {
    /// These types, the top first.
    pub fn of(types: &[VType]) -> Pushes
        requires { length types.now ≤ 6 }
        ensures { result ≡ types.now }
    {
        let mut pushed = [VType::Top; MOST_PUSHES];
        for (position, value) in types.iter().enumerate() {
            pushed[position] = *value;
        }
        Pushes {
            types: pushed,
            count: types.len(),
        }
    }

    pub fn as_slice(&self) -> &[VType]
        ensures { result.now ≡ self.now }
    {
        &self.types[..self.count]
    }
}

/// What an instruction does to a frame: operands are taken, then each entry of one object that is not yet constructed
/// gets another type, then a local is set, and then operands are pushed, the top first.
#[derive(Debug, Drop)]
pub struct Change {
    /// How many operands are taken.
    pub pops: u32,
    /// The object, and the type in its place.
    pub renames: Option<(VType, VType)>,
    /// The index of the local, and its type; past the last local nothing is set.
    pub stores: Option<(u16, VType)>,
    pub pushes: Pushes,
    /// Whether a constructor has yet to call another one, after the instruction.
    pub pending: bool,
}
