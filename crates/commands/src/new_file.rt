//! The file of a new project, with the first page of an empty database.

use crate::ending::Failure;
use std::fs;
use std::fs::OpenOptions;
use std::io::{ErrorKind, Write};
use std::os::unix::fs::OpenOptionsExt;

/// The size of a page of a new file, in bytes. SQLite and its library keep the size that a file has. With pages of this size
/// a call writes fewer bytes than with SQLite's usual 4,096.
const PAGE_BYTES: usize = 2_048;

/// Who may read and write a new file, before the umask: as the library has it.
const MODE: u32 = 0o644;

/// What the first page of an empty database begins with: SQLite's file format, section 1.3 ("The Database Header"). It says
/// pages of 2,048 bytes, a write-ahead log (2, 2), SQLite's fractions (64, 32, 32), one change, one page.
const HEADER: [u8; 32] = *b"SQLite format 3\0\x08\0\x02\x02\0\x40\x20\x20\0\0\0\x01\0\0\0\x01";

/// Where the number of changes is repeated, with the version of SQLite that goes with it (3.40.1).
const CHANGES_AT: usize = 92;

const CHANGES: [u8; 8] = [0, 0, 0, 1, 0, 46, 99, 1];

/// Where the tree of the page begins: a leaf of a table (13) with no cell. Cells would begin at the end of the page.
const TREE_AT: usize = 100;

const TREE: [u8; 8] = [13, 0, 0, 0, 0, 8, 0, 0];

/// The first page of an empty database.
fn first_page() -> [u8; PAGE_BYTES] {
    let mut page = [0; PAGE_BYTES];
    page[..32].copy_from_slice(&HEADER);
    page[CHANGES_AT..CHANGES_AT + 8].copy_from_slice(&CHANGES);
    page[TREE_AT..TREE_AT + 8].copy_from_slice(&TREE);
    page
}

/// Whether the library refuses this name of a file.
fn is_refused(path: &str) -> bool {
    path == ":memory:" || path.starts_with("file:")
}

/// Makes the file of a new project, if there is none. If the process is killed within it, it leaves no file, an empty one, or an
/// empty database, and tables can still be made. A power failure before the sync may leave other bytes, over which no tables are
/// made: remove the file then.
pub(crate) fn make_file(rt: &HostRuntime, path: &str) -> Result<(), Failure> {
    if is_refused(path) {
        return Ok(());
    }
    let opened = OpenOptions::new()
        .write(true)
        .create_new(true)
        .mode(MODE)
        .open(rt, path);
    let mut file = match opened {
        Ok(file) => file,
        Err(error) if error.kind() == ErrorKind::AlreadyExists => return Ok(()),
        Err(error) => return Err(Failure::from(error)),
    };
    let written = file.write_all(&first_page());
    if let Err(error) = written {
        let _removed = fs::remove_file(rt, path);
        return Err(Failure::from(error));
    }
    file.sync_all()?;
    Ok(())
}
