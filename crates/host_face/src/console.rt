ghost use Rattle.std.specs.Prelude.{◌≡◌, ℕ, ◌≤◌, List, Option, IsOk, IsSome, IfOk, OnOk, OnErr};
ghost use Rattle.host_face.specs.Faults.{Rose};
ghost use Rattle.host_face.specs.Console.{Takes, with_byte, FitsRoom, FillsRoom};

/// A call on the console failed: its count of faults rose.
#[derive(Clone, Copy, Debug, PartialEq, Eq)]
pub struct ConsoleFailed;

/// Has an input of bytes, an output of bytes and notes.
pub trait Console {
    /// The bytes of the input that are still to be read, where the console tells them.
    ghost left: { Self → Option (List ℕ) };

    /// The bytes that were put, where the console tells them.
    ghost shown: { Self → Option (List ℕ) };

    /// The bytes that were noted, where the console tells them.
    ghost noted: { Self → Option (List ℕ) };

    /// How often a call failed. It never falls.
    ghost faults: { Self → ℕ };

    /// How many bytes the output and the notes have room for, each for itself. Where it is told, a
    /// call fails only for want of room.
    ghost room: { Self → Option ℕ };

    /// The next byte of the input, or nothing at its end.
    fn get(&mut self) -> Result<Option<u8>, ConsoleFailed>
        ensures left { IfOk result (λ byte. Takes byte (left self.old) (left self.new)) }
        ensures shown { shown self.new ≡ shown self.old }
        ensures noted { noted self.new ≡ noted self.old }
        ensures failed { OnErr result (Rose (faults self.old) (faults self.new)) }
        ensures faults { faults self.old ≤ faults self.new }
        ensures room { room self.new ≡ room self.old }
        ensures fits { FitsRoom (room self.old) (shown self.old) × FitsRoom (room self.old) (noted self.old) }
        ensures succeeds { IsSome (room self.old) → IsOk result };

    /// Shows a byte.
    fn put(&mut self, byte: u8) -> Result<(), ConsoleFailed>
        ensures shown { OnOk result (shown self.new ≡ with_byte byte (shown self.old)) }
        ensures refused { OnErr result (shown self.new ≡ shown self.old) }
        ensures left { left self.new ≡ left self.old }
        ensures noted { noted self.new ≡ noted self.old }
        ensures failed { OnErr result (Rose (faults self.old) (faults self.new)) }
        ensures faults { faults self.old ≤ faults self.new }
        ensures room { room self.new ≡ room self.old }
        ensures fits { FitsRoom (room self.old) (shown self.old) × FitsRoom (room self.old) (noted self.old) }
        ensures full { OnErr result (FillsRoom (room self.old) (shown self.old)) };

    /// Notes a byte.
    fn note(&mut self, byte: u8) -> Result<(), ConsoleFailed>
        ensures noted { OnOk result (noted self.new ≡ with_byte byte (noted self.old)) }
        ensures refused { OnErr result (noted self.new ≡ noted self.old) }
        ensures left { left self.new ≡ left self.old }
        ensures shown { shown self.new ≡ shown self.old }
        ensures failed { OnErr result (Rose (faults self.old) (faults self.new)) }
        ensures faults { faults self.old ≤ faults self.new }
        ensures room { room self.new ≡ room self.old }
        ensures fits { FitsRoom (room self.old) (shown self.old) × FitsRoom (room self.old) (noted self.old) }
        ensures full { OnErr result (FillsRoom (room self.old) (noted self.old)) };
}
