ghost use Rattle.std.specs.Prelude.{◌≡◌, ◌≤◌, [], ◌∷◌, IfOk, OnOk, OnErr};
ghost use Rattle.std.specs.Option.{option_to_list};
ghost use Rattle.std.specs.Io.KnownBytes.{Consumes, Appends, Keeps, IsAtEnd};
ghost use Rattle.host_face.specs.StdConsole.{failed};

use crate::console::{Console, ConsoleFailed};
use crate::streams;
use crate::streams::StreamFailed;
use std::io::{Read, Stderr, Stdin, Stdout, Write};
use std::marker::Model;

/// A console over three streams, by default the standard ones: the input, the output, and the error
/// stream for the notes. It tells no bytes as a console, and counts the failed calls. Each byte is
/// read and written at once.
#[derive(Drop)]
pub struct StdConsole<I = Stdin, O = Stdout, N = Stderr> {
    reader: I,
    writer: O,
    noter: N,
    failures: u64,
}

impl<I, O, N> Model for StdConsole<I, O, N> {
    ghost use Rattle.host_face.specs.StdConsole.{Streams, streams_code};

    ghost Value = { Streams I O N };

    ghost coded = { streams_code I.code O.code N.code };

    ghost view = { λ a. record {
      input = a.reader;
      output = a.writer;
      notes = a.noter;
      faults = a.failures;
    } };
}

impl<I: Read, O: Write, N: Write> StdConsole<I, O, N> {
    /// The console over these streams, with no fault.
    pub fn new(input: I, output: O, notes: N) -> StdConsole<I, O, N>
        ensures { result ≡ record { input = input; output = output; notes = notes; faults = 0 } }
    {
        StdConsole {
            reader: input,
            writer: output,
            noter: notes,
            failures: 0,
        }
    }
}

impl<I: Read, O: Write, N: Write> Console for StdConsole<I, O, N> {
    ghost use Rattle.std.specs.Prelude.{None};

    ghost left = { λ _. None };

    ghost shown = { λ _. None };

    ghost noted = { λ _. None };

    ghost faults = { λ console. console.faults };

    ghost room = { λ _. None };

    /// The next byte of the input, or nothing at its end. Fails where the read fails, and
    /// then leaves the input.
    fn get(&mut self) -> Result<Option<u8>, ConsoleFailed>
        ensures taken { IfOk result (λ byte.
            Consumes (I.remaining self.old.input) (I.remaining self.new.input) (option_to_list byte)) }
        ensures end { IfOk result (λ byte. byte ≡ None → IsAtEnd (I.remaining self.new.input)) }
        ensures kept { OnErr result (Keeps (I.remaining self.old.input) (I.remaining self.new.input)) }
        ensures done { OnOk result (self.new ≡ record self.old { input = self.new.input }) }
        ensures undone { OnErr result (self.new ≡ failed (record self.old { input = self.new.input })) }
        ensures faults { self.old.faults ≤ self.new.faults }
    {
        match streams::read_byte(&mut self.reader) {
            Ok(byte) => Ok(byte),
            Err(StreamFailed) => {
                self.failures = self.failures.saturating_add(1);
                Err(ConsoleFailed)
            }
        }
    }

    /// Writes the byte to the output. Fails where the write fails or takes nothing, and then leaves the
    /// output.
    fn put(&mut self, byte: u8) -> Result<(), ConsoleFailed>
        ensures written { OnOk result
            (Appends (O.contents self.old.output) (O.contents self.new.output) (byte ∷ [])) }
        ensures kept { OnErr result (Keeps (O.contents self.old.output) (O.contents self.new.output)) }
        ensures done { OnOk result (self.new ≡ record self.old { output = self.new.output }) }
        ensures undone { OnErr result (self.new ≡ failed (record self.old { output = self.new.output })) }
        ensures faults { self.old.faults ≤ self.new.faults }
    {
        match streams::write_byte(&mut self.writer, byte) {
            Ok(()) => Ok(()),
            Err(StreamFailed) => {
                self.failures = self.failures.saturating_add(1);
                Err(ConsoleFailed)
            }
        }
    }

    /// Writes the byte to the notes. Fails where the write fails or takes nothing, and then leaves the
    /// notes.
    fn note(&mut self, byte: u8) -> Result<(), ConsoleFailed>
        ensures written { OnOk result
            (Appends (N.contents self.old.notes) (N.contents self.new.notes) (byte ∷ [])) }
        ensures kept { OnErr result (Keeps (N.contents self.old.notes) (N.contents self.new.notes)) }
        ensures done { OnOk result (self.new ≡ record self.old { notes = self.new.notes }) }
        ensures undone { OnErr result (self.new ≡ failed (record self.old { notes = self.new.notes })) }
        ensures faults { self.old.faults ≤ self.new.faults }
    {
        match streams::write_byte(&mut self.noter, byte) {
            Ok(()) => Ok(()),
            Err(StreamFailed) => {
                self.failures = self.failures.saturating_add(1);
                Err(ConsoleFailed)
            }
        }
    }
}
