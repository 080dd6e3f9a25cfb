//! yamlfmt: formats YAML in one house style, checks its style, prints its events and serves editors.
#![tactic(auto)]

ghost use Rattle.std.specs.Prelude.{[]};
ghost use Rattle.yf_host.specs.World.{nothing_known};

#[cfg(test)]
mod tests;

use std::alloc::{AllocError, Global};
use std::cell::Cell;
use std::env::VarError;
use std::fs::{File, OpenFile};
use std::io::{BufWriter, Input, IsTerminal};
use std::process::ExitCode;
use std::rt::Env;
use std::{env, fs, io};
use yf_discovery::folders::There;
use yf_host::files::open;
use yf_host::inputs::{Again, Inputs};
use yf_host::replacing::SystemFiles;
use yf_host::report::report;
use yf_host::reserved::reserve;
use yf_host::sources::Sources;
use yf_host::streams::Streams;
use yf_lines::fault::Fault;
use yf_lines::watched::Watched;
use yf_program::answer::answer;
use yf_program::left::{LEFT, Noting, Silenced};
use yf_program::terminal::Terminal;
use yf_rule_pages::pages::PAGES;
use yf_rules::input::read_all;
use yf_rules::run::INPUT_LIMIT;

/// The exit status if the command line can't be read, or if no file can be opened for a closed standard stream.
const UNREADABLE: u8 = 3;

/// The size of the output buffer, in bytes.
const HELD_BACK: usize = 65_536;

fn main(rt: HostRuntime) -> ExitCode {
    let Ok(_reserved) = reserve(&rt, &rt.stdin(), &rt.stdout(), &rt.stderr()) else {
        let _ = eprintln!(rt; "error: /dev/null cannot be opened");
        return ExitCode::from(UNREADABLE);
    };
    let has_left = Cell::new(false);
    let status = match words_given(&rt) {
        Ok(words) => answer_words(&rt, words.as_slice(), &has_left),
        Err(error) if error.kind() == io::ErrorKind::OutOfMemory => {
            report(&Fault::Memory, &mut Watched::new(rt.stderr()))
        }
        Err(_) => {
            let _ = eprintln!(rt; "error: the command line cannot be read");
            UNREADABLE
        }
    };
    if has_left.get() {
        return ExitCode::from(LEFT);
    }
    ExitCode::from(status)
}

/// Returns the words after the program's name.
fn words_given(rt: &HostRuntime) -> io::Result<Vec<String>> {
    let mut words = env::args(rt)?;
    let _program = words.next();
    Ok(words.collect(rt.alloc())?)
}

/// Does the task of the words with the system's files and streams, and returns the exit status.
fn answer_words(rt: &HostRuntime, words: &[String], has_left: &Cell<bool>) -> u8 {
    let mut errors = Watched::new(Silenced {
        inner: rt.stderr(),
        has_left,
    });
    let output = Noting {
        inner: rt.stdout(),
        has_left,
    };
    let Ok(output) = BufWriter::with_capacity(rt.alloc(), HELD_BACK, output) else {
        return report(&Fault::Memory, &mut errors);
    };
    let mut sources = Sources {
        inputs: System { rt },
        files: SystemFiles::new(rt),
    };
    let mut streams = Streams {
        output: Watched::new(output),
        errors,
    };
    let terminal = terminal_of(rt);
    answer(
        rt.alloc(),
        words,
        &PAGES,
        terminal,
        &mut sources,
        &mut streams,
    )
}

/// Returns what is known of standard output and the environment. `TERM=dumb` counts as `NO_COLOR`.
fn terminal_of(rt: &HostRuntime) -> Terminal {
    Terminal {
        output: rt.stdout().is_terminal(),
        no_color: has_value(rt, "NO_COLOR") || is_dumb(rt),
    }
}

/// Returns whether a variable of the environment has a value that is not empty. A value that can't be read is one.
fn has_value(rt: &HostRuntime, name: &str) -> bool {
    match env::var(rt, name) {
        Ok(value) => !value.is_empty(),
        Err(VarError::NotPresent) => false,
        Err(_) => true,
    }
}

/// Returns whether the environment says that the terminal shows only text.
fn is_dumb(rt: &HostRuntime) -> bool {
    match env::var(rt, "TERM") {
        Ok(value) => value.as_str() == "dumb",
        Err(_) => false,
    }
}

/// The explanation of a file that can be opened, but not read or not read completely.
const UNREAD: &str = "a read of it failed, or it has more than 1 GiB";

/// Opens a file for a second look. Fails unless it is a regular file, since no other file can be read twice.
fn looked_at(rt: &HostRuntime, name: &str) -> io::Result<File> {
    let metadata = fs::metadata(rt, name)?;
    if metadata.is_dir() {
        return Err(io::Error::from(io::ErrorKind::IsADirectory));
    }
    if !metadata.is_file() {
        return Err(io::Error::from(io::ErrorKind::Unsupported));
    }
    File::open(rt, name)
}

/// The greatest length of the path of the current folder, in bytes.
const LONGEST_PATH: usize = 4096;

/// Returns whether nothing has the name, not even a symbolic link that leads to nothing.
fn is_missing(rt: &HostRuntime, name: &str) -> bool {
    match fs::symlink_metadata(rt, name) {
        Ok(_) => false,
        Err(error) => error.kind() == io::ErrorKind::NotFound,
    }
}

/// The files and the standard input of the system.
#[derive(Drop)]
struct System<'a> {
    rt: &'a HostRuntime,
}

impl Inputs for System<'_> {
    type File = Watched<File>;

    type Standard = Watched<<HostRuntime as Input>::Reader>;

    ghost claim = { λ _. nothing_known };

    ghost opened = { λ _. [] };

    fn open_file(&mut self, name: &str) -> Result<Watched<File>, Fault> {
        match open(self.rt, name) {
            Ok(file) => match file.metadata() {
                Ok(metadata) if metadata.is_dir() => Err(Fault::ReadFailed),
                _ => Ok(Watched::new(file)),
            },
            Err(fault) => Err(fault),
        }
    }

    fn read_again(&self, alloc: Global, name: &str) -> Result<Again, AllocError> {
        match looked_at(self.rt, name) {
            Ok(file) => match read_all(alloc, &mut Watched::new(file), INPUT_LIMIT) {
                Ok(bytes) => Ok(Again::Bytes(bytes)),
                Err(_) => Ok(Again::Words(String::from_str(alloc, UNREAD)?)),
            },
            Err(error) => Ok(Again::Words(format!(in alloc; "{error}")?)),
        }
    }

    fn look(&self, name: &str) -> There {
        match fs::metadata(self.rt, name) {
            Ok(metadata) if metadata.is_dir() => There::Folder,
            Ok(_) => There::File,
            Err(_) if is_missing(self.rt, name) => There::Nothing,
            Err(_) => There::Unknown,
        }
    }

    fn current_path(&self, alloc: Global) -> Result<Option<Vec<u8>>, AllocError> {
        let mut path = [0; LONGEST_PATH];
        match self.rt.current_dir(&mut path) {
            Ok(length) => Ok(Some(Vec::from_slice(alloc, &path[..length])?)),
            Err(_) => Ok(None),
        }
    }

    fn open_standard(&mut self) -> Watched<<HostRuntime as Input>::Reader> {
        Watched::new(self.rt.reader())
    }
}
