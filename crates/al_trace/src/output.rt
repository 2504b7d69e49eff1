// Where a trace is written to.
ghost use Rattle.std.specs.Prelude.{◌≡◌, true, IsTrue};
ghost use Rattle.std.specs.Io.KnownBytes.{Appends, Keeps};

use std::io::Write;

/// A file to which nothing more is written once writing failed.
pub(crate) struct Output<W: Write> {
    file: W,
    // Whether all could be written.
    is_whole: bool,
}

impl<W: Write + Drop> Drop for Output<W> {
    fn drop(self) {
        let Output {
            file: _,
            is_whole: _,
        } = self;
    }
}

impl<W: Write> Output<W> {
    pub(crate) fn new(file: W) -> Output<W>
        ensures { (result.file ≡ file) × (result.is_whole ≡ true) }
    {
        Output {
            file,
            is_whole: true,
        }
    }

    /// Writes the bytes.
    pub(crate) fn write(&mut self, bytes: &[u8])
        ensures { IsTrue self.new.is_whole → IsTrue self.old.is_whole × Appends (W.contents self.old.file) (W.contents self.new.file) bytes.now }
    {
        if self.is_whole {
            self.is_whole = self.file.write_all(bytes).is_ok();
        }
    }

    /// Passes on what was written; whether all could be written.
    pub(crate) fn pass(&mut self) -> bool
        ensures result { result ≡ self.new.is_whole }
        ensures bytes { IsTrue self.new.is_whole → IsTrue self.old.is_whole × Keeps (W.contents self.old.file) (W.contents self.new.file) }
    {
        if self.is_whole {
            self.is_whole = self.file.flush().is_ok();
        }
        self.is_whole
    }
}
