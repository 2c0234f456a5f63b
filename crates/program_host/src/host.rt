//! What a program asks of its host: the words of its command line, files by their paths, images that
//! it saves, and the standard streams.
//!
//! All of that goes through a [`ProgramHost`] alone, so that a clause can say what was asked for, in
//! which order, and what was done.
ghost use Rattle.std.specs.Prelude.{◌≡◌, ◌⊎◌, ℕ, Bool, List, [], ◌∷◌, ◌++◌, Option, None, IfErr};
ghost use Rattle.std.specs.Prelude.{IfOk, OnErr, OnOk, map, string_bytes};
ghost use Rattle.s370_num.specs.Counted.{failures_of};
ghost use Rattle.program_host.specs.Deeds.{Adds, Complains, Creates, Deed, IsUncreated, Listens};
ghost use Rattle.program_host.specs.Deeds.{Loses, Misses, Opens, Prints, Saves};

use crate::images::save_image_at;
use crate::words::{UsageError, usage};
use ckd_image::ImageError;
use ckd_volume::Volume;
use s370_num::host::{Counted, HostFault, HostReader, HostWriter};
use std::alloc::{AllocError, Global};
use std::rt::{Env, Files};
use std::{env, fs, io};

/// What is reported of a word of the command line that is no text.
const NO_TEXT: &str = "a word of the command line is no UTF-8 text, and so names no file here\n";

/// The bytes of a transcript that are held back at most, where nobody looks on.
const HELD_BACK: usize = 8192;

/// What a program asks of its host.
pub trait ProgramHost {
    /// A file that is open for reading.
    type File: HostReader + Drop;
    /// A file that was created, and is written.
    type Image: HostWriter + Drop;
    /// Standard input.
    type Input: HostReader + Drop;
    /// Standard output.
    type Output: HostWriter + Drop;

    /// The command line may have these words after the name that it begins with.
    ghost has_words: { Self → List (List ℕ) → Type 0 };

    /// A word of the command line may be no text.
    ghost has_no_text: { Self → Type 0 };

    /// What opening a path may return.
    ghost gives: { List ℕ → Self.File → Type 0 };

    /// What creating the file at a path may return.
    ghost creates: { List ℕ → Self.Image → Type 0 };

    /// What standard input may be when it is asked for.
    ghost listens: { Self.Input → Type 0 };

    /// What standard output may be when it is asked for, watched or not.
    ghost prints: { Bool → Self.Output → Type 0 };

    /// What was asked for so far, in order. Of the process's own host nothing is known.
    ghost deeds: { Self → Option (List Deed) };

    /// Returns the words of the command line after the name that it begins with.
    ///
    /// # Errors
    ///
    /// A `UsageError`: a word is no UTF-8 text, or memory was refused.
    fn words(&self, alloc: Global) -> Result<Vec<String>, UsageError>
        ensures ok { IfOk result (λ words. has_words self.now (map string_bytes words.items)) }
        ensures err { IfErr result
            (λ error. (error ≡ UsageError.Memory) ⊎ has_no_text self.now) };

    /// Opens the file at a path for reading.
    ///
    /// # Errors
    ///
    /// `Device` with the number 1.
    fn open(&mut self, path: &str) -> Result<Self::File, HostFault>
        ensures ok { IfOk result (gives path.now) }
        ensures opened { OnOk result
            (Adds (deeds self.old) (deeds self.new) (Opens path.now ∷ [])) }
        ensures missed { OnErr result
            (Adds (deeds self.old) (deeds self.new) (Misses path.now ∷ [])) }
        ensures err { IfErr result (λ fault. fault ≡ HostFault.Device 1) };

    /// Creates the file at a path, which empties one that exists, and returns it with a buffer.
    ///
    /// # Errors
    ///
    /// `Device` with the number 1: it is not created. `Memory`: it is, and there is no buffer.
    fn create(&mut self, path: &str) -> Result<Self::Image, HostFault>
        ensures ok { IfOk result (creates path.now) }
        ensures created { OnOk result
            (Adds (deeds self.old) (deeds self.new) (Creates path.now ∷ [])) }
        ensures err { IfErr result
            (IsUncreated path.now (deeds self.old) (deeds self.new)) };

    /// Writes the image of a volume to a path, in place of the file that is there.
    ///
    /// # Errors
    ///
    /// An `ImageError`: a failure of a file, or refused memory.
    fn save(&mut self, volume: &Volume, path: &str) -> Result<(), ImageError>
        ensures saved { OnOk result
            (Adds (deeds self.old) (deeds self.new) (Saves path.now volume.now ∷ [])) }
        ensures err { IfErr result (λ error.
            Adds (deeds self.old) (deeds self.new) (Loses path.now volume.now error ∷ [])) };

    /// Returns standard input, with a buffer.
    ///
    /// # Errors
    ///
    /// `AllocError` if memory is refused.
    fn input(&mut self) -> Result<Self::Input, AllocError>
        ensures ok { IfOk result listens }
        ensures deeds { Adds (deeds self.old) (deeds self.new) (Listens ∷ []) };

    /// Returns standard output: one that holds nothing back if it is watched, else one with a
    /// buffer.
    ///
    /// # Errors
    ///
    /// `AllocError` if memory is refused.
    fn output(&mut self, is_watched: bool) -> Result<Self::Output, AllocError>
        ensures ok { IfOk result (prints is_watched) }
        ensures deeds { Adds (deeds self.old) (deeds self.new) (Prints is_watched ∷ []) };

    /// Prints a text on standard error; what fails there is passed over.
    fn complain(&mut self, text: &str)
        ensures { Adds (deeds self.old) (deeds self.new) (Complains text.now ∷ []) };

    /// Prints a text and the end of a line on standard error; what fails there is passed over.
    fn complain_line(&mut self, text: &str)
        ensures { Adds (deeds self.old) (deeds self.new)
            (Complains (text.now ++ 10 ∷ []) ∷ []) };
}

/// The host of this process.
#[derive(Drop)]
pub struct ProcessHost<'a, R> {
    rt: &'a R,
}

impl<'a, R> ProcessHost<'a, R> {
    /// Returns the host that a runtime reaches.
    pub fn new(rt: &'a R) -> ProcessHost<'a, R> {
        ProcessHost { rt }
    }
}

impl<'a, R: AllocGlobal + Env + Files + Input + Print + Eprint> ProgramHost for ProcessHost<'a, R> {
    type File = Counted<R::File>;

    type Image = Counted<io::BufWriter<R::File, Global>>;

    type Input = Counted<io::BufReader<R::Reader, Global>>;

    type Output = Counted<io::BufWriter<io::Printer<'a, R>, Global>>;

    ghost has_words = { λ _ _. Unit {0} };

    ghost has_no_text = { λ _. Unit {0} };

    ghost gives = { λ _ file. failures_of file ≡ 0 };

    ghost creates = { λ _ file. failures_of file ≡ 0 };

    ghost listens = { λ input. failures_of input ≡ 0 };

    ghost prints = { λ _ output. failures_of output ≡ 0 };

    ghost deeds = { λ _. None };

    /// Returns the words of this process's command line after the name that it begins with.
    ///
    /// No file can be opened by a name that is not UTF-8.
    fn words(&self, alloc: Global) -> Result<Vec<String>, UsageError> {
        match env::args(self.rt) {
            Ok(typed) => Ok(typed.skip(1).collect(alloc)?),
            Err(error) if error.kind() == io::ErrorKind::InvalidData => {
                Err(usage(String::from_str(alloc, NO_TEXT).ok()))
            }
            Err(_) => Err(UsageError::Memory),
        }
    }

    /// Opens the host's file at a path for reading.
    fn open(&mut self, path: &str) -> Result<Counted<R::File>, HostFault> {
        match fs::open(self.rt, path) {
            Ok(file) => Ok(Counted::new(file)),
            Err(_) => Err(HostFault::Device(1)),
        }
    }

    /// Creates the host's file at a path, and returns it with a buffer.
    fn create(&mut self, path: &str) -> Result<Counted<io::BufWriter<R::File, Global>>, HostFault> {
        let Ok(file) = fs::create(self.rt, path) else {
            return Err(HostFault::Device(1));
        };
        match io::BufWriter::new(self.rt.alloc(), file) {
            Ok(buffered) => Ok(Counted::new(buffered)),
            Err(_) => Err(HostFault::Memory),
        }
    }

    /// Writes the image of a volume to a path of the host, in place of the file that is there.
    fn save(&mut self, volume: &Volume, path: &str) -> Result<(), ImageError> {
        save_image_at(self.rt, volume, path)
    }

    /// Returns this process's standard input with a buffer.
    fn input(&mut self) -> Result<Counted<io::BufReader<R::Reader, Global>>, AllocError> {
        match io::BufReader::new(self.rt.alloc(), self.rt.reader()) {
            Ok(input) => Ok(Counted::new(input)),
            Err(_) => Err(AllocError),
        }
    }

    /// Returns this process's standard output, with no buffer if it is watched, else with one of
    /// 8192 bytes.
    fn output(
        &mut self,
        is_watched: bool,
    ) -> Result<Counted<io::BufWriter<io::Printer<'a, R>, Global>>, AllocError> {
        let room = if is_watched { 0 } else { HELD_BACK };
        match io::BufWriter::with_capacity(self.rt.alloc(), room, io::writer(self.rt)) {
            Ok(output) => Ok(Counted::new(output)),
            Err(_) => Err(AllocError),
        }
    }

    /// Prints a text on this process's standard error.
    fn complain(&mut self, text: &str) {
        let _ = self.rt.eprint(text);
    }

    /// Prints a text and the end of a line on this process's standard error.
    fn complain_line(&mut self, text: &str) {
        let _ = self.rt.eprintln(text);
    }
}
