//! The orders of an operator over files of the system: how each ends, and that a `create` that is refused leaves the files as they
//! were.

use command_line::order_of;
use commands::{Ending, Failure, Performed, SystemConnections, SystemFiles, perform};
use sqlite::Unknown;
use std::alloc::Global;
use std::fs;
use std::fs::File;
use std::io::{Read, Write};
use std::test::Fail;

const SETTINGS: &str =
    "daily_result_quota = 4\nmax_hosts = 3\nmax_wus_in_progress = 3\nmax_wus_to_send = 2\noperator_key = \"opkey-01\"\nrequest_delay = 60\nresend_lost_results = true\n";

/// The files of the test, in the folder where it runs.
const FILES: [&str; 5] = [
    "orders_test.toml",
    "orders_test.csv",
    "orders_test.db",
    "orders_test.db-wal",
    "orders_test.other",
];

/// The bytes of a file. Of a file that is not there, none.
fn bytes_in(rt: &HostRuntime, path: &str) -> Result<Vec<u8>, Fail> {
    let mut bytes = Vec::new(rt.alloc());
    if let Ok(mut file) = File::open(rt, path) {
        file.read_to_end(&mut bytes)?;
    }
    Ok(bytes)
}

/// Writes a file.
fn put(rt: &HostRuntime, path: &str, text: &str) -> Result<(), Fail> {
    let mut file = File::create(rt, path)?;
    file.write_all(text.as_bytes())?;
    Ok(())
}

fn remove_all(rt: &HostRuntime) {
    for path in FILES {
        let _removed = fs::remove_file(rt, path);
    }
}

/// The words of a command line. The first is the program's name.
fn words_of(alloc: Global, line: &str) -> Result<Vec<String>, Fail> {
    let mut words = Vec::new(alloc);
    for word in line.split(' ') {
        words.push(format!(in alloc; "{word}")?)?;
    }
    Ok(words)
}

/// How the order of a command line ends.
fn ended(rt: &HostRuntime, line: &str) -> Result<Result<Ending, Failure>, Fail> {
    let words = words_of(rt.alloc(), line)?;
    let Ok(order) = order_of(rt.alloc(), &words) else {
        return Err(Fail::new("this line is no order"));
    };
    let mut connections = SystemConnections::new(rt);
    let Performed { ended, left: _left } = perform(
        rt,
        &order,
        &SystemFiles,
        &mut connections,
        Unknown,
    );
    Ok(ended)
}

/// How a `create` ends, and whether it leaves the bytes of the tables' files as they were.
fn created(rt: &HostRuntime) -> Result<(Result<Ending, Failure>, bool), Fail> {
    let db = bytes_in(rt, "orders_test.db")?;
    let log = bytes_in(rt, "orders_test.db-wal")?;
    let ended = ended(
        rt,
        "bsched create --settings orders_test.toml --tables orders_test.db",
    )?;
    let stays = bytes_in(rt, "orders_test.db")? == db && bytes_in(rt, "orders_test.db-wal")? == log;
    Ok((ended, stays))
}

#[test]
fn create_makes_tables_once(rt: HostRuntime) -> Result<(), Fail> {
    remove_all(&rt);
    put(&rt, "orders_test.toml", SETTINGS)?;
    let (first, _) = created(&rt)?;
    let (second, stays) = created(&rt)?;
    put(&rt, "orders_test.db", "no database")?;
    let _removed = fs::remove_file(&rt, "orders_test.db-wal");
    let (third, stays_other) = created(&rt)?;
    remove_all(&rt);
    assert_eq!(rt; first, Ok(Ending::Done));
    assert_eq!(rt; second, Err(Failure::File));
    assert!(rt; stays);
    assert_eq!(rt; third, Err(Failure::File));
    assert!(rt; stays_other);
    Ok(())
}

#[test]
fn orders_end_as_their_answers_say(rt: HostRuntime) -> Result<(), Fail> {
    remove_all(&rt);
    put(&rt, "orders_test.toml", SETTINGS)?;
    put(&rt, "orders_test.csv", "authenticator,name\nk1,Ann\n")?;
    put(&rt, "orders_test.other", "authenticator\nk1\n")?;
    let (created, _) = created(&rt)?;
    let good =
        "bsched import --tables orders_test.db --kind accounts --batch a --file orders_test.csv";
    let faulty =
        "bsched import --tables orders_test.db --kind accounts --batch b --file orders_test.other";
    let imported = ended(&rt, good)?;
    let refused = ended(&rt, faulty)?;
    let ticked = ended(
        &rt,
        "bsched tick --tables orders_test.db --at 1970-01-01T00:00:00Z",
    )?;
    let stated = ended(&rt, "bsched statement --tables orders_test.db --host 1")?;
    let upgraded = ended(&rt, "bsched upgrade --tables orders_test.db")?;
    let missing = ended(&rt, "bsched upgrade --tables orders_test.none")?;
    remove_all(&rt);
    assert_eq!(rt; created, Ok(Ending::Done));
    assert_eq!(rt; imported, Ok(Ending::Done));
    assert_eq!(rt; refused, Ok(Ending::Refused));
    assert_eq!(rt; ticked, Ok(Ending::Done));
    assert_eq!(rt; stated, Ok(Ending::Refused));
    assert_eq!(rt; upgraded, Ok(Ending::Done));
    assert_eq!(rt; missing, Err(Failure::File));
    Ok(())
}
