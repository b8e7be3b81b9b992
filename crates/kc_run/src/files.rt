//! The files that a job names.
ghost use Rattle.std.specs.Prelude.{◌≡◌, false, List, ℕ, Option, Some, None, Err, IfOk, OnOk};

use kc_texts::Headed;

/// Why a file is not open.
#[derive(Clone, Copy, Debug, PartialEq, Eq)]
pub enum Unopened {
    /// It cannot be opened.
    Refused,
    /// A growth of memory was refused.
    Memory,
}

/// The files that a job names, by their paths.
pub trait Files {
    /// A file that is open to be read.
    type File: Headed + Drop;

    /// The bytes of the file at a path, if the files report them.
    ghost held: { Self → List ℕ → Option (List ℕ) };

    /// The path of the file that could not be opened, if there is one. After that none is opened.
    ghost refused: { Self → Option (List ℕ) };

    /// Opens the file at a path, of which all bytes are left.
    fn open(&mut self, path: &str) -> Result<Self::File, Unopened>
        requires { refused self.old ≡ None }
        ensures bytes { IfOk result (λ file. Self.File.left file ≡ held self.old path.now) }
        ensures ready { IfOk result (λ file. Self.File.failed file ≡ false) }
        ensures opened { OnOk result (refused self.new ≡ None) }
        ensures refused { result ≡ Err Unopened.Refused → refused self.new ≡ Some path.now }
        ensures memory { result ≡ Err Unopened.Memory → refused self.new ≡ None }
        ensures same { held self.new ≡ held self.old };

    /// Takes back a file that was read, whatever came of it.
    fn close(&mut self, file: Self::File)
        ensures refused { refused self.new ≡ refused self.old }
        ensures same { held self.new ≡ held self.old };
}
