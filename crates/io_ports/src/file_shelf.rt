ghost use Rattle.std.specs.Prelude.{◌≡◌, ◌≤◌, [], length, string_bytes, IfOk};
ghost use Rattle.io_ports.specs.Faults.{fault_counts};
ghost use Rattle.io_ports.specs.Shelf.{PutCause};

use crate::errors::{LoadErr, PutErr};
use crate::fault_kind::FaultKind;
use crate::file_use::{FileId, FileUse};
use crate::kept_name::KeptName;
use crate::shelf::Shelf;
use crate::transfer::{read_text, write_piece};
use loc_base::{Bytes, Items};
use std::alloc::Global;
use std::fs::{OpenFile, OpenOptions};
use std::io::ErrorKind;
use std::rt::Files;
use std::{fs, io};

/// The files of the system as a shelf. It tells no text, and counts its failures from 0, all of them and those of writes. A
/// failure hands on what the system says.
///
/// `load` reads the file of that name. `can_begin` opens that file for writing and leaves it as it is; where there is none
/// it makes one and removes it again. `begin` makes that file or empties it, and keeps it open; `put` writes to its end. A
/// text that was begun stays open until another one is begun or written, and closing it answers nothing: what the system
/// first reports then isn't seen.
///
/// A file can have several names, by links and by `..`. A file that was loaded isn't begun, nor one that was begun under
/// another name, where the system tells that they are one file and the other name still leads to it: `begin` fails, and
/// leaves the file as it is. `can_begin` fails there too, and at a file that it was asked for under another name.
#[derive(Drop)]
pub struct FileShelf<'a, R: Files> {
    rt: &'a R,
    alloc: Global,
    current: Option<OpenText<R::File>>,
    used: Vec<FileUse>,
    asked: Items<String>,
    faults: u64,
    write_faults: u64,
    failed_name: KeptName,
}

/// A file that is open for writing at its end.
#[derive(Drop)]
struct OpenText<F> {
    name: String,
    file: F,
}

impl<'a, R: Files> FileShelf<'a, R> {
    /// The shelf of the runtime's files. It takes no memory.
    pub fn new(rt: &'a R, alloc: Global) -> FileShelf<'a, R>
        ensures { ⟦<FileShelf<'a, R> as Shelf>⟧.faults result ≡ fault_counts 0 0 [] }
    {
        FileShelf {
            rt,
            alloc,
            current: None,
            used: Vec::new(alloc),
            asked: Items::new(alloc),
            faults: 0,
            write_faults: 0,
            failed_name: KeptName::of(b""),
        }
    }
}

fn put_failed(error: io::Error) -> PutErr {
    PutErr::Failed(FaultKind::from(error))
}

/// The fault of a file that is in use.
fn refuse(is_in_use: bool) -> Result<(), PutErr> {
    if is_in_use {
        return Err(PutErr::Failed(FaultKind::InUse));
    }
    Ok(())
}

/// Opens the file of a name for writing at its end, and makes it where there is none and that is asked.
fn open_text<R: Files>(
    rt: &R,
    alloc: Global,
    name: &str,
    makes: bool,
) -> Result<OpenText<R::File>, PutErr>
    ensures { IfOk result (λ text. string_bytes text.name ≡ name.now) }
{
    let name = String::from_str(alloc, name)?;
    let file = OpenOptions::new()
        .append(true)
        .create(makes)
        .open(rt, name.as_str())
        .map_err(put_failed)?;
    Ok(OpenText { name, file })
}

/// Empties a file. What has no length, as a terminal, stays as it is.
fn clear<F: OpenFile>(file: &F) -> io::Result<()> {
    if file.metadata()?.is_file() {
        file.set_len(0)?;
    }
    Ok(())
}

impl<R: Files> FileShelf<'_, R> {
    ghost use Rattle.std.specs.Prelude.{true, false, IsErrOf, IsSomeAnd, OnOk};
    ghost use Rattle.io_ports.specs.FileShelf.{IsLongerFile, IsOpenUnder, IsReadOf, Keeps, Took};

    /// Whether a use in this run forbids to begin a text in a file under a name.
    fn is_taken(&self, file: Option<FileId>, name: &str) -> bool {
        let Some(file) = file else {
            return false;
        };
        self.used.iter().any(|entry| {
            entry.forbids(file, name) && FileId::behind(self.rt, entry.name.as_str()) == Some(file)
        })
    }

    /// Whether a file was asked for under another name.
    fn was_asked(&self, file: Option<FileId>, name: &str) -> bool {
        let Some(file) = file else {
            return false;
        };
        self.asked.iter().any(|other| {
            other.as_str() != name && FileId::behind(self.rt, other.as_str()) == Some(file)
        })
    }

    /// Opens the file of a name for reading, and keeps that it was loaded.
    fn open_loaded(&mut self, name: &str) -> Result<R::File, LoadErr>
        ensures faults { self.new.faults ≡ self.old.faults }
        ensures write_faults { self.new.write_faults ≡ self.old.write_faults }
        ensures failed_name { self.new.failed_name.bytes ≡ self.old.failed_name.bytes }
        ensures kept { OnOk result (Keeps name.now true self.old.used.items self.new.used.items) }
        ensures never { ¬ IsErrOf result LoadErr.TooBig }
    {
        let kept = String::from_str(self.alloc, name)?;
        self.used.reserve(1)?;
        let file = match fs::open(self.rt, name) {
            Ok(file) => file,
            Err(error) => return Err(LoadErr::Failed(FaultKind::from(error))),
        };
        self.used
            .push(FileUse {
                name: kept,
                file: FileId::of_open(&file),
                was_loaded: true,
            })
            .unwrap();
        Ok(file)
    }

    /// The text under a name, read to its end.
    fn read(&mut self, alloc: Global, name: &str, limit: u64) -> Result<Bytes, LoadErr>
        ensures faults { self.new.faults ≡ self.old.faults }
        ensures write_faults { self.new.write_faults ≡ self.old.write_faults }
        ensures failed_name { self.new.failed_name.bytes ≡ self.old.failed_name.bytes }
        ensures limit { IfOk result (λ text. length text ≤ limit) }
        ensures text { IfOk result (IsReadOf R.File.remaining) }
        ensures too_big { IsErrOf result LoadErr.TooBig → IsLongerFile R.File.remaining limit }
        ensures kept { OnOk result (Keeps name.now true self.old.used.items self.new.used.items) }
    {
        let mut file = self.open_loaded(name)?;
        read_text(alloc, &mut file, limit)
    }

    /// Opens the file of a name where no use forbids that, or makes it where there is none. What the file holds stays.
    fn open_or_make(&self, name: &str) -> Result<OpenText<R::File>, PutErr>
        ensures { IfOk result (λ text. string_bytes text.name ≡ name.now) }
    {
        match open_text(self.rt, self.alloc, name, false) {
            Ok(text) => {
                refuse(self.is_taken(FileId::of_open(&text.file), name))?;
                Ok(text)
            }
            Err(PutErr::Failed(FaultKind::NotFound)) => {
                open_text(self.rt, self.alloc, name, true)
            }
            Err(error) => Err(error),
        }
    }

    /// Opens the file of a name to begin a text in it, and keeps that. What the file holds stays.
    fn open_begun(&mut self, name: &str) -> Result<OpenText<R::File>, PutErr>
        ensures faults { self.new.faults ≡ self.old.faults }
        ensures write_faults { self.new.write_faults ≡ self.old.write_faults }
        ensures failed_name { self.new.failed_name.bytes ≡ self.old.failed_name.bytes }
        ensures named { IfOk result (λ text. string_bytes text.name ≡ name.now) }
        ensures kept { OnOk result (Keeps name.now false self.old.used.items self.new.used.items) }
    {
        let kept = String::from_str(self.alloc, name)?;
        self.used.reserve(1)?;
        let text = self.open_or_make(name)?;
        self.used
            .push(FileUse {
                name: kept,
                file: FileId::of_open(&text.file),
                was_loaded: false,
            })
            .unwrap();
        Ok(text)
    }

    /// Empties the text under a name and keeps it open.
    fn empty(&mut self, name: &str) -> Result<(), PutErr>
        ensures faults { self.new.faults ≡ self.old.faults }
        ensures write_faults { self.new.write_faults ≡ self.old.write_faults }
        ensures failed_name { self.new.failed_name.bytes ≡ self.old.failed_name.bytes }
        ensures begun { OnOk result (IsSomeAnd self.new.current (λ text. string_bytes text.name ≡ name.now)) }
        ensures kept { OnOk result (Keeps name.now false self.old.used.items self.new.used.items) }
    {
        let text = self.open_begun(name)?;
        clear(&text.file).map_err(put_failed)?;
        self.current = Some(text);
        Ok(())
    }

    /// Takes the text under a name, open for writing at its end: the one that is open, where it is that.
    fn take_open(&mut self, name: &str) -> Result<OpenText<R::File>, PutErr>
        ensures faults { self.new.faults ≡ self.old.faults }
        ensures write_faults { self.new.write_faults ≡ self.old.write_faults }
        ensures failed_name { self.new.failed_name.bytes ≡ self.old.failed_name.bytes }
        ensures used { self.new.used ≡ self.old.used }
        ensures taken { IfOk result (IsOpenUnder name.now self.old.current) }
    {
        match self.current.take() {
            Some(text) if text.name.as_str() == name => Ok(text),
            _ => open_text(self.rt, self.alloc, name, false),
        }
    }

    /// Writes a piece to the end of the text under a name.
    fn append(&mut self, name: &str, piece: &[u8]) -> Result<(), PutErr>
        ensures faults { self.new.faults ≡ self.old.faults }
        ensures write_faults { self.new.write_faults ≡ self.old.write_faults }
        ensures failed_name { self.new.failed_name.bytes ≡ self.old.failed_name.bytes }
        ensures used { self.new.used ≡ self.old.used }
        ensures taken { OnOk result (IsSomeAnd self.new.current (Took R.File.contents name.now piece.now self.old.current)) }
    {
        let mut text = self.take_open(name)?;
        let written = write_piece(&mut text.file, piece);
        self.current = Some(text);
        if let Err(kind) = written {
            return Err(PutErr::Failed(kind));
        }
        Ok(())
    }

    /// Whether the file of a name could be begun. A file that is there is opened for writing and stays as it is; where there
    /// is none one is made and removed again. A link to a file that isn't there isn't followed, and answers `Ok`.
    fn ask(&self, name: &str) -> Result<(), PutErr> {
        match OpenOptions::new().append(true).open(self.rt, name) {
            Ok(file) => {
                let file = FileId::of_open(&file);
                refuse(self.is_taken(file, name) || self.was_asked(file, name))
            }
            Err(error) if error.kind() == ErrorKind::NotFound => self.ask_new(name),
            Err(error) => Err(put_failed(error)),
        }
    }

    /// Makes a file that isn't there, and removes it again.
    fn ask_new(&self, name: &str) -> Result<(), PutErr> {
        match OpenOptions::new()
            .write(true)
            .create_new(true)
            .open(self.rt, name)
        {
            Ok(file) => {
                let was_asked = self.was_asked(FileId::of_open(&file), name);
                fs::remove_file(self.rt, name).map_err(put_failed)?;
                refuse(was_asked)
            }
            Err(error) if error.kind() == ErrorKind::AlreadyExists => Ok(()),
            Err(error) => Err(put_failed(error)),
        }
    }

    /// Asks for a name, and keeps it where it could be begun.
    fn keep_asked(&mut self, name: &str) -> Result<(), PutErr>
        ensures faults { self.new.faults ≡ self.old.faults }
        ensures write_faults { self.new.write_faults ≡ self.old.write_faults }
        ensures failed_name { self.new.failed_name.bytes ≡ self.old.failed_name.bytes }
        ensures used { self.new.used ≡ self.old.used }
    {
        let kept = String::from_str(self.alloc, name)?;
        self.ask(name)?;
        self.asked.push(kept)?;
        Ok(())
    }

    /// Counts a failed answer of `can_begin`, `begin` or `put`.
    fn counted(&mut self, answer: Result<(), PutErr>) -> Result<(), PutErr>
        ensures same { result ≡ answer }
        ensures text { self.new.current ≡ self.old.current }
        ensures used { self.new.used ≡ self.old.used }
        ensures cause { PutCause (fault_counts self.old.faults self.old.write_faults self.old.failed_name.bytes)
            (fault_counts self.new.faults self.new.write_faults self.new.failed_name.bytes) result }
    {
        if let Err(PutErr::Failed(_)) = answer {
            self.faults = self.faults.saturating_add(1);
            self.write_faults = self.write_faults.saturating_add(1);
        }
        answer
    }
}

impl<R: Files> Shelf for FileShelf<'_, R> {
    ghost use Rattle.std.specs.Prelude.{true, false, None, IsErrOf, IsSomeAnd, OnOk};
    ghost use Rattle.io_ports.specs.Shelf.{Appends, Begins, LoadCause, Loads};
    ghost use Rattle.io_ports.specs.FileShelf.{IsLongerFile, IsReadOf, Keeps, Took};

    ghost tells = { λ _. false };

    ghost texts = { λ _ _. None };

    ghost written = { λ _ _. None };

    ghost faults = { λ shelf. fault_counts shelf.faults shelf.write_faults shelf.failed_name.bytes };

    fn load(&mut self, alloc: Global, name: &str, limit: u64) -> Result<Bytes, LoadErr>
        ensures limit { IfOk result (λ text. length text ≤ limit) }
        ensures cause { LoadCause name.now (fault_counts self.old.faults self.old.write_faults self.old.failed_name.bytes)
            (fault_counts self.new.faults self.new.write_faults self.new.failed_name.bytes) result }

        // It tells no text. The text is all that a file gave, and `TooBig` comes only where one gave more than the limit.
        ensures text { false ≡ true → Loads None limit result }
        ensures whole { IfOk result (IsReadOf R.File.remaining) }
        ensures too_big { IsErrOf result LoadErr.TooBig → IsLongerFile R.File.remaining limit }
        ensures kept { OnOk result (Keeps name.now true self.old.used.items self.new.used.items) }
    {
        let answer = self.read(alloc, name, limit);
        if let Err(LoadErr::Failed(_)) = answer {
            self.failed_name = KeptName::of(name.as_bytes());
            self.faults = self.faults.saturating_add(1);
        }
        answer
    }

    fn can_begin(&mut self, name: &str) -> Result<(), PutErr>
        ensures cause { PutCause (fault_counts self.old.faults self.old.write_faults self.old.failed_name.bytes)
            (fault_counts self.new.faults self.new.write_faults self.new.failed_name.bytes) result }
        ensures used { self.new.used ≡ self.old.used }
    {
        let answer = self.keep_asked(name);
        self.counted(answer)
    }

    fn begin(&mut self, name: &str) -> Result<(), PutErr>
        ensures cause { PutCause (fault_counts self.old.faults self.old.write_faults self.old.failed_name.bytes)
            (fault_counts self.new.faults self.new.write_faults self.new.failed_name.bytes) result }

        // It tells no text. A file is open under the name.
        ensures text { false ≡ true → Begins None None result }
        ensures begun { OnOk result (IsSomeAnd self.new.current (λ text. string_bytes text.name ≡ name.now)) }
        ensures kept { OnOk result (Keeps name.now false self.old.used.items self.new.used.items) }
    {
        let answer = self.empty(name);
        self.counted(answer)
    }

    fn put(&mut self, name: &str, piece: &[u8]) -> Result<(), PutErr>
        ensures cause { PutCause (fault_counts self.old.faults self.old.write_faults self.old.failed_name.bytes)
            (fault_counts self.new.faults self.new.write_faults self.new.failed_name.bytes) result }

        // It tells no text. The file that is open under the name took the piece.
        ensures text { false ≡ true → Appends piece.now None None result }
        ensures taken { OnOk result (IsSomeAnd self.new.current (Took R.File.contents name.now piece.now self.old.current)) }
        ensures used { self.new.used ≡ self.old.used }
    {
        let answer = self.append(name, piece);
        self.counted(answer)
    }
}
