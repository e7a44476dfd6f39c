//! The SQL statements. They make the tables, read a whole table, insert and update a row, and fill a table that a
//! schema adds.

ghost use Rattle.std.specs.Prelude.{◌≡◌, ◌≤◌, [], length, option_map, slice_index_or};
ghost use Rattle.table_meaning.specs.Schema.{parts_at, newest};
ghost use Rattle.table_meaning.specs.Rows.{table_at, row_key_of};
ghost use Rattle.table_meaning.specs.Texts.{definition_texts, read_text as sql_read, put_text as sql_put, update_first};
ghost use Rattle.table_meaning.specs.Fills.{next_text as sql_next, fill_text as sql_fill, fills_of as sql_fills};

use table_meaning::rows::StoredRow;
use table_meaning::tables::{Fill, TableName};

/// The CREATE text at this place in the order of these texts.
pub(crate) fn definition(at: usize) -> &'static str
    ensures { result.now ≡ slice_index_or definition_texts at [] }
{
    match at {
        0 => "CREATE TABLE setting (name TEXT NOT NULL PRIMARY KEY, value ANY NOT NULL) STRICT",
        1 =>
            "CREATE TABLE account (id INTEGER PRIMARY KEY, auth TEXT NOT NULL UNIQUE, name TEXT NOT NULL) STRICT",
        2 =>
            "CREATE TABLE app (id INTEGER PRIMARY KEY, name TEXT NOT NULL UNIQUE, agreement INTEGER) STRICT",
        3 =>
            "CREATE TABLE version (id INTEGER PRIMARY KEY, app_id INTEGER NOT NULL REFERENCES app, platform TEXT NOT NULL, num INTEGER NOT NULL, UNIQUE (app_id, platform, num)) STRICT",
        4 =>
            "CREATE TABLE unit (id INTEGER PRIMARY KEY, name TEXT NOT NULL UNIQUE, app_id INTEGER NOT NULL REFERENCES app, min_quorum INTEGER NOT NULL, target_nresults INTEGER NOT NULL, max_error_results INTEGER NOT NULL, max_total_results INTEGER NOT NULL, max_success_results INTEGER NOT NULL, delay_bound INTEGER NOT NULL, rsc_fpops_est INTEGER NOT NULL, rsc_memory_bound INTEGER NOT NULL, rsc_disk_bound INTEGER NOT NULL, credit INTEGER NOT NULL, status INTEGER NOT NULL) STRICT",
        5 =>
            "CREATE TABLE host (id INTEGER PRIMARY KEY, account_id INTEGER NOT NULL REFERENCES account, cpid TEXT NOT NULL, platforms TEXT NOT NULL, fpops INTEGER NOT NULL, memory INTEGER NOT NULL, disk INTEGER NOT NULL, quota INTEGER NOT NULL, held INTEGER NOT NULL, credit INTEGER NOT NULL, UNIQUE (account_id, cpid)) STRICT",
        6 =>
            "CREATE TABLE instance (unit_id INTEGER NOT NULL REFERENCES unit, num INTEGER NOT NULL, host_id INTEGER REFERENCES host, sent INTEGER, deadline INTEGER, lapse INTEGER NOT NULL, outcome INTEGER, output TEXT, place INTEGER, queued INTEGER NOT NULL, PRIMARY KEY (unit_id, num)) STRICT",
        7 =>
            "CREATE TABLE kept (host_id INTEGER PRIMARY KEY REFERENCES host, seqno INTEGER NOT NULL, text TEXT NOT NULL, reply TEXT NOT NULL) STRICT",
        8 =>
            "CREATE TABLE batch (kind TEXT NOT NULL, name TEXT NOT NULL, text BLOB NOT NULL, answer TEXT NOT NULL, PRIMARY KEY (kind, name)) STRICT",
        9 => "CREATE INDEX instance_queue ON instance (queued, unit_id, num)",
        10 => "CREATE INDEX instance_owner ON instance (host_id, unit_id, num)",
        11 => "CREATE INDEX instance_sent ON instance (host_id, sent)",
        12 => "CREATE INDEX instance_deadline ON instance (deadline)",
        13 =>
            "CREATE TABLE kept4 (host_id INTEGER NOT NULL REFERENCES host, slot INTEGER NOT NULL, seqno INTEGER NOT NULL, text TEXT NOT NULL, reply TEXT NOT NULL, PRIMARY KEY (host_id, slot)) STRICT",
        14 =>
            "CREATE TABLE version_class (version_id INTEGER PRIMARY KEY REFERENCES version, class TEXT NOT NULL) STRICT",
        15 =>
            "CREATE TABLE unit_mark (unit_id INTEGER PRIMARY KEY REFERENCES unit, marked INTEGER NOT NULL, class TEXT) STRICT",
        _ => "",
    }
}

/// How many of these texts make the schema of this number. Number 0 has none.
pub(crate) fn size_of(schema: u32) -> usize
    requires { schema ≤ newest }
    ensures { result ≡ length (parts_at schema) }
{
    match schema {
        0 => 0,
        1 => 13,
        2 => 14,
        _ => 16,
    }
}

/// The statement that reads the whole table.
pub(crate) fn read_text(table: TableName) -> &'static str
    ensures { result.now ≡ sql_read table }
{
    match table {
        TableName::Setting => "SELECT name, value FROM setting ORDER BY rowid",
        TableName::Account => "SELECT id, auth, name FROM account ORDER BY id",
        TableName::App => "SELECT id, name, agreement FROM app ORDER BY id",
        TableName::Version => "SELECT id, app_id, platform, num FROM version ORDER BY id",
        TableName::Unit =>
            "SELECT id, name, app_id, min_quorum, target_nresults, max_error_results, max_total_results, max_success_results, delay_bound, rsc_fpops_est, rsc_memory_bound, rsc_disk_bound, credit, status FROM unit ORDER BY id",
        TableName::Host =>
            "SELECT id, account_id, cpid, platforms, fpops, memory, disk, quota, held, credit FROM host ORDER BY id",
        TableName::Instance =>
            "SELECT unit_id, num, host_id, sent, deadline, lapse, outcome, output, place, queued FROM instance ORDER BY rowid",
        TableName::Kept => "SELECT host_id, slot, seqno, text, reply FROM kept4 ORDER BY rowid",
        TableName::Batch => "SELECT kind, name, text, answer FROM batch ORDER BY rowid",
        TableName::VersionClass =>
            "SELECT version_id, class FROM version_class ORDER BY version_id",
        TableName::UnitMark => "SELECT unit_id, marked, class FROM unit_mark ORDER BY unit_id",
    }
}

/// The statement that puts a setting.
pub const PUT_SETTING: &str =
    "INSERT INTO setting (name, value) VALUES (?1, ?2) ON CONFLICT (name) DO UPDATE SET name = excluded.name, value = excluded.value";

/// The statement that puts the row.
pub(crate) fn put_text(row: &StoredRow) -> &'static str
    ensures { result.now ≡ sql_put (table_at (row_key_of row.now)) }
{
    match row {
        StoredRow::Setting(_) => PUT_SETTING,
        StoredRow::Account(_) =>
            "INSERT INTO account (id, auth, name) VALUES (?1, ?2, ?3) ON CONFLICT (id) DO UPDATE SET auth = excluded.auth, name = excluded.name",
        StoredRow::App(_) =>
            "INSERT INTO app (id, name, agreement) VALUES (?1, ?2, ?3) ON CONFLICT (id) DO UPDATE SET name = excluded.name, agreement = excluded.agreement",
        StoredRow::Version(_) =>
            "INSERT INTO version (id, app_id, platform, num) VALUES (?1, ?2, ?3, ?4) ON CONFLICT (id) DO UPDATE SET app_id = excluded.app_id, platform = excluded.platform, num = excluded.num",
        StoredRow::Unit(_) =>
            "INSERT INTO unit (id, name, app_id, min_quorum, target_nresults, max_error_results, max_total_results, max_success_results, delay_bound, rsc_fpops_est, rsc_memory_bound, rsc_disk_bound, credit, status) VALUES (?1, ?2, ?3, ?4, ?5, ?6, ?7, ?8, ?9, ?10, ?11, ?12, ?13, ?14) ON CONFLICT (id) DO UPDATE SET name = excluded.name, app_id = excluded.app_id, min_quorum = excluded.min_quorum, target_nresults = excluded.target_nresults, max_error_results = excluded.max_error_results, max_total_results = excluded.max_total_results, max_success_results = excluded.max_success_results, delay_bound = excluded.delay_bound, rsc_fpops_est = excluded.rsc_fpops_est, rsc_memory_bound = excluded.rsc_memory_bound, rsc_disk_bound = excluded.rsc_disk_bound, credit = excluded.credit, status = excluded.status",
        StoredRow::Host(_) =>
            "INSERT INTO host (id, account_id, cpid, platforms, fpops, memory, disk, quota, held, credit) VALUES (?1, ?2, ?3, ?4, ?5, ?6, ?7, ?8, ?9, ?10) ON CONFLICT (id) DO UPDATE SET account_id = excluded.account_id, cpid = excluded.cpid, platforms = excluded.platforms, fpops = excluded.fpops, memory = excluded.memory, disk = excluded.disk, quota = excluded.quota, held = excluded.held, credit = excluded.credit",
        StoredRow::Instance(_) =>
            "INSERT INTO instance (unit_id, num, host_id, sent, deadline, lapse, outcome, output, place, queued) VALUES (?1, ?2, ?3, ?4, ?5, ?6, ?7, ?8, ?9, ?10) ON CONFLICT (unit_id, num) DO UPDATE SET unit_id = excluded.unit_id, num = excluded.num, host_id = excluded.host_id, sent = excluded.sent, deadline = excluded.deadline, lapse = excluded.lapse, outcome = excluded.outcome, output = excluded.output, place = excluded.place, queued = excluded.queued",
        StoredRow::Kept(_) =>
            "INSERT INTO kept4 (host_id, slot, seqno, text, reply) VALUES (?1, ?2, ?3, ?4, ?5) ON CONFLICT (host_id, slot) DO UPDATE SET host_id = excluded.host_id, slot = excluded.slot, seqno = excluded.seqno, text = excluded.text, reply = excluded.reply",
        StoredRow::Batch(_) =>
            "INSERT INTO batch (kind, name, text, answer) VALUES (?1, ?2, ?3, ?4) ON CONFLICT (kind, name) DO UPDATE SET kind = excluded.kind, name = excluded.name, text = excluded.text, answer = excluded.answer",
        StoredRow::VersionClass(_) =>
            "INSERT INTO version_class (version_id, class) VALUES (?1, ?2) ON CONFLICT (version_id) DO UPDATE SET class = excluded.class",
        StoredRow::UnitMark(_) =>
            "INSERT INTO unit_mark (unit_id, marked, class) VALUES (?1, ?2, ?3) ON CONFLICT (unit_id) DO UPDATE SET marked = excluded.marked, class = excluded.class",
    }
}

/// The statement that updates the row at its key. Only the tables whose rows mostly exist before they are put have one.
/// For them it costs less than the statement that puts the row.
pub(crate) fn update_text(row: &StoredRow) -> Option<&'static str>
    ensures { option_map (λ text. text.now) result ≡ update_first (table_at (row_key_of row.now)) }
{
    match row {
        StoredRow::Unit(_) => Some(
            "UPDATE unit SET name = ?2, app_id = ?3, min_quorum = ?4, target_nresults = ?5, max_error_results = ?6, max_total_results = ?7, max_success_results = ?8, delay_bound = ?9, rsc_fpops_est = ?10, rsc_memory_bound = ?11, rsc_disk_bound = ?12, credit = ?13, status = ?14 WHERE id = ?1",
        ),
        StoredRow::Host(_) => Some(
            "UPDATE host SET account_id = ?2, cpid = ?3, platforms = ?4, fpops = ?5, memory = ?6, disk = ?7, quota = ?8, held = ?9, credit = ?10 WHERE id = ?1",
        ),
        StoredRow::Instance(_) => Some(
            "UPDATE instance SET unit_id = ?1, num = ?2, host_id = ?3, sent = ?4, deadline = ?5, lapse = ?6, outcome = ?7, output = ?8, place = ?9, queued = ?10 WHERE unit_id = ?1 AND num = ?2",
        ),
        StoredRow::Setting(_)
        | StoredRow::Account(_)
        | StoredRow::App(_)
        | StoredRow::Version(_)
        | StoredRow::Kept(_)
        | StoredRow::Batch(_)
        | StoredRow::VersionClass(_)
        | StoredRow::UnitMark(_) => None,
    }
}

/// The statement that reads the next number of a row that the fill copies.
pub fn next_text(fill: Fill) -> &'static str
    ensures { result.now ≡ sql_next fill }
{
    match fill {
        Fill::Calls => "SELECT host_id FROM kept WHERE host_id >= ?1 ORDER BY host_id LIMIT 1",
        Fill::Classes => "SELECT id FROM version WHERE id >= ?1 ORDER BY id LIMIT 1",
        Fill::Marks => "SELECT id FROM unit WHERE id >= ?1 ORDER BY id LIMIT 1",
    }
}

/// The statement that inserts what the fill copies from the row of a number.
pub fn fill_text(fill: Fill) -> &'static str
    ensures { result.now ≡ sql_fill fill }
{
    match fill {
        Fill::Calls =>
            "INSERT INTO kept4 (host_id, slot, seqno, text, reply) SELECT host_id, 0, seqno, text, reply FROM kept WHERE host_id = ?1 ORDER BY host_id",
        Fill::Classes =>
            "INSERT INTO version_class (version_id, class) SELECT id, platform FROM version WHERE id = ?1 ORDER BY id",
        Fill::Marks =>
            "INSERT INTO unit_mark (unit_id, marked, class) SELECT id, 0, NULL FROM unit WHERE id = ?1 ORDER BY id",
    }
}

/// The fills that lead from the schema of this number to the next one, in the order in which they run.
pub fn fills_of(schema: u32) -> &'static [Fill]
    ensures { result.now ≡ sql_fills schema }
{
    match schema {
        1 => &[Fill::Calls],
        2 => &[Fill::Classes, Fill::Marks],
        _ => &[],
    }
}
