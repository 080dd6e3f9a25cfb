//! What a command reads.
ghost use Rattle.std.specs.Prelude.{◌≡◌, ◌∷◌, ◌++◌, [], true, false, List, IfOk, IfErr, OnErr, OnOk, option_map};
ghost use Rattle.yf_command_line.specs.declared.command.Input.{Input};
ghost use Rattle.yf_command_line.specs.declared.command.Input.TheVariants.{File as NamedFile, Standard as StandardInput};
ghost use Rattle.yf_lines.specs.declared.fault.Fault.TheVariants.{ReadFailed};
ghost use Rattle.yf_host.specs.World.{InputClaim, IsAgain, StillKnown};

use std::alloc::{AllocError, Global};
use yf_discovery::folders::There;
use yf_lines::fault::Fault;
use yf_lines::watched::Source;

/// The result of a second look at a file.
#[derive(Drop)]
pub enum Again {
    /// The contents of the file.
    Bytes(Vec<u8>),
    /// Why the file can't be read, in words.
    Words(String),
}

/// The inputs of a command: files by their names, and standard input.
pub trait Inputs {
    /// A file that is open for reading.
    type File: Source + Drop;

    /// Standard input.
    type Standard: Source + Drop;

    /// The facts that are known of the inputs. None is known of the system's own files.
    ghost claim: { Self → InputClaim };

    /// The inputs that were opened so far, in order.
    ghost opened: { Self → List Input };

    /// Opens a file for reading. Fails with `Fault::ReadFailed` if the file can't be opened.
    fn open_file(&mut self, name: &str) -> Result<Self::File, Fault>
        ensures opened { (claim self.old).notes → opened self.new ≡ opened self.old ++ NamedFile name.now ∷ [] }
        ensures same { StillKnown (claim self.old) (claim self.new) }
        ensures bytes { (claim self.old).tells
            → IfOk result (λ file. Self.File.remaining file ≡ (claim self.old).holds (NamedFile name.now)) }
        ensures works { IfOk result (λ file. Self.File.has_failed file ≡ false) }
        ensures reads { (claim self.old).tells → OnOk result
            ((file : Self.File) → Self.File.has_failed file ≡ true → (claim self.old).fails (NamedFile name.now)) }
        ensures fault { IfErr result (λ fault. fault ≡ ReadFailed) }
        ensures fails { (claim self.old).tells → OnErr result ((claim self.old).fails (NamedFile name.now)) };

    /// Reads a file without counting it as opened: to explain a fault of it, or for a server that takes its contents as
    /// they are now.
    fn read_again(&self, alloc: Global, name: &str) -> Result<Again, AllocError>
        ensures { (claim self.now).tells → IfOk result (IsAgain (claim self.now) (NamedFile name.now)) };

    /// Looks at a name, relative to the current folder. A symbolic link counts as what it leads to.
    fn look(&self, name: &str) -> There
        ensures { (claim self.now).shows name.now result };

    /// Returns the path of the current folder, from the root on, or `None` if the system doesn't know it.
    fn current_path(&self, alloc: Global) -> Result<Option<Vec<u8>>, AllocError>
        ensures { IfOk result (λ o. (claim self.now).current (option_map (λ v. v.items) o)) };

    /// Opens standard input. If it is known what standard input holds, each call gives all of it.
    fn open_standard(&mut self) -> Self::Standard
        ensures opened { (claim self.old).notes → opened self.new ≡ opened self.old ++ StandardInput ∷ [] }
        ensures same { StillKnown (claim self.old) (claim self.new) }
        ensures bytes { (claim self.old).tells
            → Self.Standard.remaining result ≡ (claim self.old).holds StandardInput }
        ensures works { Self.Standard.has_failed result ≡ false }
        ensures reads { (claim self.old).tells → (reader : Self.Standard) → Self.Standard.has_failed reader ≡ true
            → (claim self.old).fails StandardInput };
}
