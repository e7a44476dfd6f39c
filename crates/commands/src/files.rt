//! The files that an order names: settings, a batch, and the tables.

ghost use Rattle.std.specs.Prelude.{◌≡◌, ℕ, None, List, IfOk, IfErr, IfSome};
ghost use Rattle.sched_book.specs.Limits.{AreSettingsInLimits};
ghost use Rattle.office_files.specs.SettingsTexts.{HasSettings};
ghost use Rattle.sqlite.specs.Files.{file_state, IsOpened};
ghost use Rattle.sqlite.specs.Start.{FindsIn};
ghost use Rattle.sqlite.specs.State.{HasCleanDisk};
ghost use Rattle.sqlite_wal.specs.Files.{image_at};
ghost use Rattle.commands.specs.Leftovers.{LeavesAsHeld};

use crate::ending::Failure;
use crate::new_file::make_file;
use office_files::{SettingsFault, settings_of};
use sched_book::Settings;
use sqlite::{Connection, FileFrom, FileStore, Leftover, Start};
use std::alloc::Global;
use std::fs;
use std::fs::File;
use std::io::Read;
use texts::utf8_text;

/// The longest file of settings, in bytes.
const MOST_SETTINGS_BYTES: usize = 65_536;

/// A connection to the tables in a file, or why there is none. If the files of the tables were opened, this comes with what is
/// left of them.
pub type Opened<B> = Result<
    Connection<FileStore<FileFrom<B>>>,
    (Failure, Option<Leftover<FileFrom<B>>>),
>;

/// The files of a system, as an order reads and opens them. `main` passes those of the operating system, [`SystemFiles`].
///
/// No code can know what a file says, or whether a call of the system fails. So both are ghost members: what is proved for
/// any `Files` holds for what the files say, and for each call that fails.
pub trait Files {
    /// Something is in the way before tables are opened: a call of the system failed, memory ran out, or the file of the
    /// settings says none.
    ghost refuses: { Type 0 };

    /// The file at this path begins with these bytes.
    ghost says: { List ℕ → List ℕ → Type 0 };

    /// Reads a file. Of a file with more than `most` bytes, it reads one byte more than that.
    fn bytes(&self, rt: &HostRuntime, path: &str, most: usize) -> Result<Vec<u8>, Failure>
        ensures { IfOk result (λ bytes. says path.now bytes.items) };

    /// Reads the settings in a file.
    fn settings(&self, rt: &HostRuntime, path: &str) -> Result<Settings, Failure>
        ensures limits { IfOk result AreSettingsInLimits }
        ensures said { IfOk result (λ s. (text : List ℕ) × says path.now text × HasSettings text s) }
        ensures refused { IfErr result (λ _. refuses) };

    /// Makes the file of new tables, if there is none.
    fn make(&self, rt: &HostRuntime, path: &str) -> Result<(), Failure>
        ensures refused { IfErr result (λ _. refuses) };

    /// Opens the database in a file. If there is no such file, none is made. `start` stands for what the file holds.
    fn open<B: Start>(&self, rt: &HostRuntime, path: &str, start: B) -> Opened<B>
        ensures opened { IfOk result (λ c. HasCleanDisk (file_state c) → IsOpened c) }
        ensures found { IfOk result (λ c. HasCleanDisk (file_state c) → FindsIn (image_at B.Start) (file_state c)) }
        ensures left { IfErr result (λ e. IfSome e.1 (LeavesAsHeld (λ _. ⊥) (image_at B.Start))) }
        ensures refused { IfErr result (λ e. e.1 ≡ None → refuses) };
}

/// The files of the operating system.
pub struct SystemFiles;

impl Files for SystemFiles {
    ghost refuses = { Unit {0} };

    ghost says = { λ _ _. Unit {0} };

    fn bytes(&self, rt: &HostRuntime, path: &str, most: usize) -> Result<Vec<u8>, Failure> {
        let file = File::open(rt, path)?;
        let mut bytes = Vec::new(rt.alloc());
        file.take((most as u64).saturating_add(1))
            .read_to_end(&mut bytes)?;
        Ok(bytes)
    }

    fn settings(&self, rt: &HostRuntime, path: &str) -> Result<Settings, Failure> {
        let bytes = self.bytes(rt, path, MOST_SETTINGS_BYTES)?;
        settings_said(rt.alloc(), &bytes)
    }

    fn make(&self, rt: &HostRuntime, path: &str) -> Result<(), Failure> {
        make_file(rt, path)
    }

    fn open<B: Start>(&self, rt: &HostRuntime, path: &str, start: B) -> Opened<B> {
        if let Err(error) = fs::metadata(rt, path) {
            return Err((Failure::from(error), None));
        }
        match Connection::open_from(rt, path, false, start) {
            Ok(conn) => Ok(conn),
            Err((error, left)) => Err((Failure::from(error), left)),
        }
    }
}

/// The settings that the bytes of a file say.
fn settings_said(alloc: Global, bytes: &[u8]) -> Result<Settings, Failure>
    ensures limits { IfOk result AreSettingsInLimits }
    ensures said { IfOk result (HasSettings bytes.now) }
{
    if bytes.len() > MOST_SETTINGS_BYTES {
        return Err(Failure::Settings);
    }
    let Some(text) = utf8_text(bytes) else {
        return Err(Failure::Settings);
    };
    match settings_of(alloc, text) {
        Ok(settings) => Ok(settings),
        Err(SettingsFault::Bad) => Err(Failure::Settings),
        Err(SettingsFault::Memory) => Err(Failure::Unavailable),
    }
}
