//! Tables of the first schema, which are upgraded to the newest one.

use super::files::{
    Deed, Fuses, Image, LASTING, Leaves, MOST_CALLS, Refusal, Replay, ShowRows, done_in, empty,
    filled_with, run,
};
use super::stored::WORKUNITS;
use super::{CALL_START, PROJECT};
use sched_book::{Cause, StorageFault};
use sched_tables::{OpenFault, SCHEMA_1, upgrade};
use sqlite::{Alter, Connection, Row};
use std::alloc::Global;
use std::str;
use std::test::Fail;

/// The second call of Ann's host, which lists no job.
const SECOND: &str =
    "1970-01-01T00:33:20Z scheduler {\"authenticator\":\"k1\",\"rpc_seqno\":2,\"host_info\":{\"host_cpid\":\"c1\",\"p_fpops\":1000,\"m_nbytes\":8000,\"d_free\":9000},\"platform_name\":\"linux\",\"other_results\":[]}\n";

/// Its third call.
const THIRD: &str =
    "1970-01-01T00:35:00Z scheduler {\"authenticator\":\"k1\",\"rpc_seqno\":3,\"host_info\":{\"host_cpid\":\"c1\",\"p_fpops\":1000,\"m_nbytes\":8000,\"d_free\":9000},\"platform_name\":\"linux\"}\n";

/// The lines of a project in which a host called twice.
fn lines(alloc: Global) -> Result<String, Fail> {
    Ok(format!(in alloc; "{PROJECT}{WORKUNITS}{CALL_START},\"work_req_seconds\":7200}}\n{SECOND}")?)
}

/// The statements that read the rows of each table of the newest schema, and insert them into the first schema's. Of the
/// kept calls the last one of a host stays.
const COPIED: &[(&str, &str)] = &[
    (
        "SELECT name, value FROM setting ORDER BY rowid",
        "INSERT INTO setting VALUES (?1, ?2)",
    ),
    (
        "SELECT id, auth, name FROM account ORDER BY id",
        "INSERT INTO account VALUES (?1, ?2, ?3)",
    ),
    (
        "SELECT id, name, agreement FROM app ORDER BY id",
        "INSERT INTO app VALUES (?1, ?2, ?3)",
    ),
    (
        "SELECT id, app_id, platform, num FROM version ORDER BY id",
        "INSERT INTO version VALUES (?1, ?2, ?3, ?4)",
    ),
    (
        "SELECT id, name, app_id, min_quorum, target_nresults, max_error_results, max_total_results, max_success_results, delay_bound, rsc_fpops_est, rsc_memory_bound, rsc_disk_bound, credit, status FROM unit ORDER BY id",
        "INSERT INTO unit VALUES (?1, ?2, ?3, ?4, ?5, ?6, ?7, ?8, ?9, ?10, ?11, ?12, ?13, ?14)",
    ),
    (
        "SELECT id, account_id, cpid, platforms, fpops, memory, disk, quota, held, credit FROM host ORDER BY id",
        "INSERT INTO host VALUES (?1, ?2, ?3, ?4, ?5, ?6, ?7, ?8, ?9, ?10)",
    ),
    (
        "SELECT unit_id, num, host_id, sent, deadline, lapse, outcome, output, place, queued FROM instance ORDER BY unit_id, num",
        "INSERT INTO instance VALUES (?1, ?2, ?3, ?4, ?5, ?6, ?7, ?8, ?9, ?10)",
    ),
    (
        "SELECT kind, name, text, answer FROM batch ORDER BY rowid",
        "INSERT INTO batch VALUES (?1, ?2, ?3, ?4)",
    ),
    (
        "SELECT host_id, seqno, text, reply FROM kept4 ORDER BY seqno",
        "INSERT OR REPLACE INTO kept VALUES (?1, ?2, ?3, ?4)",
    ),
];

/// Shows the rows of each table of the newest schema that the first schema has too.
#[derive(Clone, Copy)]
struct ReadTables;

impl Deed for ReadTables {
    type Shown = Vec<Vec<Row>>;

    fn over<S: Alter + Leaves + Drop>(
        self,
        alloc: Global,
        mut conn: Connection<S>,
    ) -> Result<Vec<Vec<Row>>, Fail> {
        read_tables(alloc, &mut conn)
    }
}

/// The rows of each table of the newest schema that the first schema has too.
fn read_tables<S: Alter>(alloc: Global, conn: &mut Connection<S>) -> Result<Vec<Vec<Row>>, Fail> {
    let mut tables = Vec::new(alloc);
    for (read, _) in COPIED {
        tables.push(conn.query_all(read, &[])?)?;
    }
    Ok(tables)
}

/// Inserts a row by a statement.
fn insert_row<S: Alter>(
    alloc: Global,
    conn: &mut Connection<S>,
    sql: &str,
    row: &Row,
) -> Result<(), Fail> {
    let mut values = Vec::new(alloc);
    for at in 0..row.column_count() {
        values.push(row.get_ref(at)?)?;
    }
    run(conn, sql, &values)?;
    Ok(())
}

/// Inserts rows by a statement.
fn insert_rows<S: Alter>(
    alloc: Global,
    conn: &mut Connection<S>,
    sql: &str,
    rows: &[Row],
) -> Result<(), Fail> {
    for row in rows {
        insert_row(alloc, conn, sql, row)?;
    }
    Ok(())
}

/// Makes tables of the first schema in an empty database, with these rows of each table.
fn make_first<S: Alter>(
    alloc: Global,
    conn: &mut Connection<S>,
    tables: &[Vec<Row>],
) -> Result<(), Fail> {
    conn.execute_batch(SCHEMA_1)?;
    for ((_, insert), rows) in COPIED.iter().zip(tables) {
        insert_rows(alloc, conn, insert, rows)?;
    }
    run(
        conn,
        "UPDATE setting SET value = 1 WHERE name = 'schema'",
        &[],
    )?;
    Ok(())
}

/// Makes tables of the first schema, with these rows of each table.
#[derive(Clone, Copy)]
struct MakeFirst<'a> {
    tables: &'a [Vec<Row>],
}

impl Deed for MakeFirst<'_> {
    type Shown = Image;

    fn over<S: Alter + Leaves + Drop>(
        self,
        alloc: Global,
        mut conn: Connection<S>,
    ) -> Result<Image, Fail> {
        make_first(alloc, &mut conn, self.tables)?;
        conn.into_store().closed(alloc)
    }
}

/// Upgrades the tables. It shows the number of their schema, or how they are refused, and what the files hold then.
#[derive(Clone, Copy)]
struct Upgrade;

impl Deed for Upgrade {
    type Shown = (Result<u32, OpenFault>, Image);

    fn over<S: Alter + Leaves + Drop>(
        self,
        alloc: Global,
        mut conn: Connection<S>,
    ) -> Result<(Result<u32, OpenFault>, Image), Fail> {
        let ended = upgrade(alloc, &mut conn);
        Ok((ended, conn.into_store().stopped(alloc)?))
    }

    fn unopened(
        self,
        _alloc: Global,
        left: Image,
    ) -> Result<(Result<u32, OpenFault>, Image), Fail> {
        Ok((
            Err(OpenFault::Unavailable(Cause::Storage(StorageFault::CannotOpen))),
            left,
        ))
    }
}

/// What a project in which a host called twice prints, and its files in the first schema.
#[derive(Drop)]
struct First {
    printed: Vec<u8>,
    image: Image,
}

/// A project in which a host called twice, in the first schema.
fn first_schema(alloc: Global) -> Result<First, Fail> {
    let lines = format!(in alloc;
        "{PROJECT}{WORKUNITS}{CALL_START},\"work_req_seconds\":7200}}\n{SECOND}"
    )?;
    let ((printed, _), newest) = filled_with(alloc, lines.as_bytes())?;
    let tables = done_in(alloc, &newest, LASTING, ReadTables)?;
    let image = done_in(alloc, &empty(alloc), LASTING, MakeFirst { tables: &tables })?;
    Ok(First { printed, image })
}

/// What the files of tables hold after an upgrade and one more.
fn upgraded(alloc: Global, image: &Image) -> Result<Image, Fail> {
    let (ended, image) = done_in(alloc, image, LASTING, Upgrade)?;
    let (again, image) = done_in(alloc, &image, LASTING, Upgrade)?;
    if ended != Ok(3) || again != Ok(3) {
        return Err(Fail::new("the newest schema has another number"));
    }
    Ok(image)
}

/// Whether the line of this index is this one.
fn line_is(lines: &str, at: usize, wanted: &str) -> bool {
    match lines.lines().nth(at) {
        None => false,
        Some(line) => line.as_bytes() == wanted.as_bytes(),
    }
}

/// Whether the line of this index is a reply.
fn is_reply(lines: &str, at: usize) -> bool {
    match lines.lines().nth(at) {
        None => false,
        Some(line) => line.starts_with("200 {\"end_word\":"),
    }
}

/// Whether answers after an upgrade are these: the reply to the second call as it was given first, a refusal of the first
/// call, a reply to a third, and then the second's again and the refusal with the third's number.
fn are_answers(told: &str, second: &str) -> bool {
    is_reply(told, 0)
        && line_is(told, 0, second)
        && line_is(
            told,
            1,
            "409 {\"error\":\"stale\",\"last\":2,\"number\":10}",
        )
        && is_reply(told, 2)
        && line_is(told, 3, second)
        && line_is(
            told,
            4,
            "409 {\"error\":\"stale\",\"last\":3,\"number\":10}",
        )
}

/// Whether an upgrade of the first schema keeps the last call of a host, with its reply, and no earlier one.
fn keeps_the_last_call(alloc: Global) -> Result<bool, Fail> {
    let First { printed, image } = first_schema(alloc)?;
    let image = upgraded(alloc, &image)?;
    let call = format!(in alloc; "{CALL_START},\"work_req_seconds\":7200}}\n")?;
    let lines = format!(in alloc; "{SECOND}{call}{THIRD}{SECOND}{call}")?;
    let replay = Replay {
        settings: None,
        lines: lines.as_bytes(),
    };
    let ((told, _), _) = done_in(alloc, &image, LASTING, replay)?;
    let before = str::from_utf8(&printed).unwrap_or("");
    let second = before.lines().last().unwrap_or("");
    Ok(are_answers(str::from_utf8(&told).unwrap_or(""), second))
}

#[test]
fn an_upgrade_of_the_first_schema_keeps_the_last_call_of_a_host(
    rt: HostRuntime,
) -> Result<(), Fail> {
    assert!(rt; keeps_the_last_call(rt.alloc())?);
    Ok(())
}

/// The number of the schema of the tables in files, found by opening them; none if they are of no schema, or have a bad
/// row.
fn schema_in(alloc: Global, image: &Image) -> Result<Option<u32>, Fail> {
    let opening = Refusal {
        sql: None,
        settings: None,
    };
    match done_in(alloc, image, LASTING, opening)? {
        Some(OpenFault::OldSchema(number)) => Ok(Some(number)),
        Some(_) => Ok(None),
        None => Ok(Some(3)),
    }
}

/// The number of the schema that a stop of an upgrade left, if its tables are whole and can be upgraded to these rows.
/// None if they are of no schema, or are upgraded to others.
fn schema_left(alloc: Global, left: &Image, rows: &str) -> Result<Option<u32>, Fail> {
    let schema = schema_in(alloc, left)?;
    let (ended, image) = done_in(alloc, left, LASTING, Upgrade)?;
    if ended == Ok(3) && done_in(alloc, &image, LASTING, ShowRows)?.as_str() == rows {
        return Ok(schema);
    }
    Ok(None)
}

/// The numbers of the schemas that were left whole when the log, or the database file, stopped at each call of an
/// upgrade in turn. None if one stop left no schema whole.
fn schemas_left(alloc: Global, in_log: bool) -> Result<Option<Vec<u32>>, Fail> {
    let First {
        printed: _printed,
        image,
    } = first_schema(alloc)?;
    let (_, whole) = done_in(alloc, &image, LASTING, Upgrade)?;
    let rows = done_in(alloc, &whole, LASTING, ShowRows)?;
    let mut schemas = Vec::new(alloc);
    for calls in 0..MOST_CALLS {
        let (ended, left) = done_in(alloc, &image, Fuses::after(calls, in_log), Upgrade)?;
        if ended.is_ok() {
            return Ok(Some(schemas));
        }
        match schema_left(alloc, &left, rows.as_str())? {
            Some(number) => schemas.push(number)?,
            None => return Ok(None),
        }
    }
    Ok(None)
}

/// Whether each stop of an upgrade, of the log or of the database file, left the tables of one schema whole. Some stop
/// must leave those before each step.
fn leaves_one_schema_whole(alloc: Global) -> Result<bool, Fail> {
    let in_log = schemas_left(alloc, true)?.unwrap_or(Vec::new(alloc));
    Ok(in_log.contains(&1) && in_log.contains(&2) && schemas_left(alloc, false)?.is_some())
}

#[test]
fn a_stop_of_an_upgrade_leaves_one_schema_whole(rt: HostRuntime) -> Result<(), Fail> {
    assert!(rt; leaves_one_schema_whole(rt.alloc())?);
    Ok(())
}
