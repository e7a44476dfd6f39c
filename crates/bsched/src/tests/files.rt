//! Databases in the files of disks in memory, and what is done with them.

ghost use Rattle.std.specs.Prelude.{IsTrue, IfOk};
ghost use Rattle.sqlite_disk.specs.Memory.{memory_is_usable};

use super::{replayed_by, service_over};
use commands::default_settings;
use replay_lines::Ended;
use sched_book::Settings;
use sched_tables::{OpenFault, Tables};
use sqlite::types::ValueRef;
use sqlite::{Alter, Connection, Error, FileStore, Options};
use sqlite_disk::{Crash, Disk, Files, Fuse, Memory};
use std::alloc::Global;
use std::test::Fail;
use stores::Store;

/// What the two files of a database hold.
#[derive(Drop)]
pub struct Image {
    log: Vec<u8>,
    db: Vec<u8>,
}

/// How many calls each of the two files lets through before it fails all calls.
#[derive(Clone, Copy)]
pub struct Fuses {
    log: u64,
    db: u64,
}

impl Fuses {
    /// The log, or the database file, fails after this many calls, and the other never fails.
    pub fn after(calls: u64, in_log: bool) -> Fuses {
        let mut fuses = LASTING;
        if in_log {
            fuses.log = calls;
        } else {
            fuses.db = calls;
        }
        fuses
    }
}

/// The most calls after which a file is made to stop.
pub const MOST_CALLS: u64 = 100_000;

/// Files that never fail.
pub const LASTING: Fuses = Fuses {
    log: u64::MAX,
    db: u64::MAX,
};

/// A disk that holds these bytes.
fn disk(alloc: Global, bytes: &[u8]) -> Result<Memory, Fail>
    ensures { IfOk result (λ d. IsTrue (memory_is_usable d)) }
{
    let mut disk = Memory::new(alloc);
    if !bytes.is_empty() {
        disk.write_at(0, bytes)?;
        disk.sync()?;
    }
    Ok(disk)
}

/// What files hold after a stop: what was synced.
fn image_of(alloc: Global, mut files: Files<Fuse<Memory>>) -> Result<Image, Fail> {
    files.log.crash();
    files.db.crash();
    Ok(Image {
        log: files.log.inner().bytes().to_vec(alloc)?,
        db: files.db.inner().bytes().to_vec(alloc)?,
    })
}

/// A store whose files are left at the end.
pub trait Leaves {
    /// What its files hold after a stop.
    fn stopped(self, alloc: Global) -> Result<Image, Fail>;

    /// What its files hold when it is closed.
    fn closed(self, alloc: Global) -> Result<Image, Fail>;
}

impl Leaves for FileStore<Fuse<Memory>> {
    fn stopped(self, alloc: Global) -> Result<Image, Fail> {
        image_of(alloc, self.close())
    }

    fn closed(mut self, alloc: Global) -> Result<Image, Fail> {
        self.checkpoint().ok().ok_or("the log is not copied")?;
        self.stopped(alloc)
    }
}

/// What is done with the database in files.
pub trait Deed: Copy {
    /// What it shows.
    type Shown;

    fn over<S: Alter + Leaves + Drop>(
        self,
        alloc: Global,
        conn: Connection<S>,
    ) -> Result<Self::Shown, Fail>;

    /// What it shows if one of the files failed while they were opened; the files then held this.
    fn unopened(self, _alloc: Global, _left: Image) -> Result<Self::Shown, Fail> {
        Err(Fail::new("the files are not opened"))
    }
}

/// What a deed shows over the database in files that fail after this many calls. (Only this function names a connection
/// to such files, since the proof of each function that does takes a minute.)
pub fn done_in<D: Deed>(
    alloc: Global,
    image: &Image,
    fuses: Fuses,
    deed: D,
) -> Result<D::Shown, Fail> {
    let log = Fuse::new(disk(alloc, &image.log)?, fuses.log);
    let db = Fuse::new(disk(alloc, &image.db)?, fuses.db);
    let mut options = Options::new(1);
    options.checkpoint_frames = 20;
    match Connection::open_files(alloc, Files { log, db }, options) {
        Ok(conn) => deed.over(alloc, conn),
        Err((_, left)) => deed.unopened(alloc, image_of(alloc, left.into_files())?),
    }
}

/// Files that hold nothing.
pub fn empty(alloc: Global) -> Image {
    Image {
        log: Vec::new(alloc),
        db: Vec::new(alloc),
    }
}

/// Runs a statement. (It has no clause, so the proof of a test does not carry what each statement does.)
pub fn run<S: Alter>(
    conn: &mut Connection<S>,
    sql: &str,
    params: &[ValueRef<'_>],
) -> Result<usize, Error> {
    conn.execute(sql, params)
}

/// New tables with these settings in a database or, if there are no settings, the tables that it has.
fn tables_in<S: Alter + Drop>(
    alloc: Global,
    conn: Connection<S>,
    settings: Option<&Settings>,
) -> Result<Tables<S>, OpenFault> {
    match settings {
        Some(settings) => Tables::create(alloc, conn, settings),
        None => Tables::open(alloc, conn),
    }
}

/// What a replay of these lines over a store prints and how it ends, and the store after it.
pub fn run_over<S: Store + Drop>(
    alloc: Global,
    store: S,
    lines: &[u8],
) -> Result<((Vec<u8>, Ended), S), Fail> {
    let mut service = service_over(alloc, store)?;
    let replayed = replayed_by(alloc, &mut service, lines)?;
    Ok((replayed, service.into_tables()))
}

/// Replays lines over new tables with these settings or, if there are no settings, over the tables that are there. It
/// shows what is printed, how the replay ends, and what the files hold when they are closed after it.
#[derive(Clone, Copy)]
pub struct Replay<'s, 'l> {
    pub settings: Option<&'s Settings>,
    pub lines: &'l [u8],
}

impl Deed for Replay<'_, '_> {
    type Shown = ((Vec<u8>, Ended), Image);

    fn over<S: Alter + Leaves + Drop>(
        self,
        alloc: Global,
        conn: Connection<S>,
    ) -> Result<((Vec<u8>, Ended), Image), Fail> {
        let tables = tables_in(alloc, conn, self.settings)?;
        let (replayed, tables) = run_over(alloc, tables, self.lines)?;
        let left = tables.into_connection().into_store().closed(alloc)?;
        Ok((replayed, left))
    }
}

/// Runs a statement, if there is one. It shows how tables are refused after it: new ones with these settings or, if
/// there are no settings, those that are there.
#[derive(Clone, Copy)]
pub struct Refusal<'a> {
    pub sql: Option<&'static str>,
    pub settings: Option<&'a Settings>,
}

impl Deed for Refusal<'_> {
    type Shown = Option<OpenFault>;

    fn over<S: Alter + Leaves + Drop>(
        self,
        alloc: Global,
        mut conn: Connection<S>,
    ) -> Result<Option<OpenFault>, Fail> {
        if let Some(sql) = self.sql {
            run(&mut conn, sql, &[])?;
        }
        Ok(tables_in(alloc, conn, self.settings).err())
    }
}

/// The default settings, except that there may be five hosts.
pub fn settings(alloc: Global) -> Result<Settings, Fail> {
    let mut settings = default_settings(alloc)?;
    settings.max_hosts = 5;
    Ok(settings)
}

/// What the files of a database with new tables print in a replay of these lines, and what they hold after it. There
/// may be five hosts.
pub fn filled_with(alloc: Global, lines: &[u8]) -> Result<((Vec<u8>, Ended), Image), Fail> {
    let settings = settings(alloc)?;
    let chosen = Some(&settings);
    let replay = Replay {
        settings: chosen,
        lines,
    };
    done_in(alloc, &empty(alloc), LASTING, replay)
}

/// The queries that print the tables, row by row.
const ROW_QUERIES: &[&str] = &[
    "SELECT name || ' ' || value FROM setting ORDER BY name",
    "SELECT id || ' ' || auth || ' ' || name FROM account ORDER BY id",
    "SELECT id || ' ' || name || ' ' || coalesce(agreement, '-') FROM app ORDER BY id",
    "SELECT id || ' ' || app_id || ' ' || platform || ' ' || num FROM version ORDER BY id",
    "SELECT id || ' ' || name || ' ' || app_id || ' ' || status FROM unit ORDER BY id",
    "SELECT id || ' ' || account_id || ' ' || cpid || ' ' || platforms || ' ' || fpops || ' ' || quota || ' ' || held || ' ' || credit FROM host ORDER BY id",
    "SELECT unit_id || ' ' || num || ' ' || coalesce(host_id, '-') || ' ' || coalesce(sent, '-') || ' ' || coalesce(deadline, '-') || ' ' || lapse || ' ' || coalesce(outcome, '-') || ' ' || coalesce(output, '-') || ' ' || coalesce(place, '-') || ' ' || queued FROM instance ORDER BY unit_id, num",
    "SELECT host_id || ' ' || seqno || ' ' || text || ' ' || reply FROM kept ORDER BY host_id",
    "SELECT host_id || ' ' || slot || ' ' || seqno || ' ' || text || ' ' || reply FROM kept4 ORDER BY host_id, slot",
    "SELECT kind || ' ' || name || ' ' || answer FROM batch ORDER BY kind, name",
    "SELECT version_id || ' ' || class FROM version_class ORDER BY version_id",
    "SELECT unit_id || ' ' || marked || ' ' || coalesce(class, '-') FROM unit_mark ORDER BY unit_id",
];

/// All rows of the tables, a line each.
fn rows_told<S: Alter>(alloc: Global, conn: &mut Connection<S>) -> Result<String, Fail> {
    let mut told = String::new(alloc);
    for sql in ROW_QUERIES {
        for row in &conn.query_all(sql, &[])? {
            let line: String = row.get(0)?;
            told.push_str(line.as_str())?;
            told.push_str("\n")?;
        }
    }
    Ok(told)
}

/// Shows all rows of the tables.
#[derive(Clone, Copy)]
pub struct ShowRows;

impl Deed for ShowRows {
    type Shown = String;

    fn over<S: Alter + Leaves + Drop>(
        self,
        alloc: Global,
        mut conn: Connection<S>,
    ) -> Result<String, Fail> {
        rows_told(alloc, &mut conn)
    }
}
