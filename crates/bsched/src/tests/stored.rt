//! Tables that are spoiled, and tables in files that are closed after each line.

use super::files::{Image, LASTING, Refusal, Replay, done_in, filled_with, settings};
use super::rows::{NEXT, lines_of};
use super::{CALL_START, PROJECT, classes};
use replay_lines::Ended;
use sched_tables::OpenFault;
use std::alloc::Global;
use std::test::Fail;

/// The rows of two workunits; for one of them a single result is enough.
pub const WORKUNITS: &str =
    "1970-01-01T00:00:00Z import/workunits/a0 \"name,app,min_quorum,target_nresults,max_error_results,max_total_results,max_success_results,delay_bound,rsc_fpops_est,rsc_memory_bound,rsc_disk_bound,credit\\nw1,dock,1,1,3,6,4,7200,3600000,1000,1000,5000\\nw2,dock,2,2,3,6,4,7200,3600000,1000,1000,5000\\n\"\n";

/// What Ann's host says in its next call: it still has one job, and reports the other.
const REPORT: &str =
    "1970-01-01T00:33:20Z scheduler {\"authenticator\":\"k1\",\"rpc_seqno\":2,\"host_info\":{\"host_cpid\":\"c1\",\"p_fpops\":1000,\"m_nbytes\":8000,\"d_free\":9000},\"platform_name\":\"linux\",\"other_results\":[\"w2_0\"],\"results\":[{\"name\":\"w1_0\",\"exit_status\":0,\"output\":\"42\"}]}\n";

/// The lines of a short life: the project, a call that gets a job of each workunit, a report that makes a quorum. Then
/// come the same call again, an older one, and a tick. At the end one instance is held, one waits, and one is valid.
fn lines(alloc: Global) -> Result<String, Fail> {
    Ok(format!(in alloc;
        "{PROJECT}{WORKUNITS}{CALL_START},\"work_req_seconds\":7200}}\n{REPORT}{REPORT}{CALL_START}}}\n1970-01-01T00:50:00Z tick\n"
    )?)
}

/// The files of a database with tables after the short life.
fn filled(alloc: Global) -> Result<Image, Fail> {
    let ((_, ended), image) = filled_with(alloc, lines(alloc)?.as_bytes())?;
    if ended != Ended::Good {
        return Err(Fail::new("the lines end otherwise"));
    }
    Ok(image)
}

/// Statements that make tables of another schema.
const OTHERS: &[&str] = &[
    "UPDATE setting SET value = 9 WHERE name = 'schema'",
    "DROP TABLE unit_mark",
    "CREATE INDEX further ON unit (credit)",
];

/// Statements that spoil a row: a value out of range, one that is missing, a gap, a double count.
const SPOILED: &[&str] = &[
    "DELETE FROM setting WHERE name = 'max_hosts'",
    "UPDATE account SET auth = 'k 1' WHERE id = 1",
    "UPDATE unit SET status = 7 WHERE id = 1",
    "DELETE FROM unit_mark WHERE unit_id = 1",
    "UPDATE host SET quota = 0",
    "UPDATE host SET credit = credit + 1",
    "UPDATE instance SET num = 2 WHERE queued = 1",
    "UPDATE instance SET sent = NULL WHERE host_id IS NOT NULL",
    "UPDATE kept4 SET slot = 4 WHERE slot = 0",
    "UPDATE batch SET kind = 'files' WHERE kind = 'apps'",
];

/// The first of the statements after which the tables in these files are not refused in this way.
fn first_taken(
    alloc: Global,
    image: &Image,
    statements: &[&'static str],
    fault: OpenFault,
) -> Result<Option<&'static str>, Fail> {
    for sql in statements {
        let refusal = Refusal {
            sql: Some(sql),
            settings: None,
        };
        if done_in(alloc, image, LASTING, refusal)? != Some(fault) {
            return Ok(Some(sql));
        }
    }
    Ok(None)
}

#[test]
fn tables_of_another_schema_are_refused(rt: HostRuntime) -> Result<(), Fail> {
    let image = filled(rt.alloc())?;
    assert_eq!(rt;
        first_taken(rt.alloc(), &image, OTHERS, OpenFault::NotTables)?,
        None
    );
    Ok(())
}

#[test]
fn spoiled_rows_are_refused(rt: HostRuntime) -> Result<(), Fail> {
    let image = filled(rt.alloc())?;
    assert_eq!(rt;
        first_taken(rt.alloc(), &image, SPOILED, OpenFault::BadRow)?,
        None
    );
    Ok(())
}

#[test]
fn tables_are_no_new_tables(rt: HostRuntime) -> Result<(), Fail> {
    let image = filled(rt.alloc())?;
    let settings = settings(rt.alloc())?;
    let chosen = Some(&settings);
    let refusal = Refusal {
        sql: None,
        settings: chosen,
    };
    assert_eq!(rt;
        done_in(rt.alloc(), &image, LASTING, refusal)?,
        Some(OpenFault::NotTables)
    );
    Ok(())
}

/// What is printed in a replay of these lines over new tables in files, which are closed after each line.
fn printed_line_by_line(alloc: Global, lines: &str) -> Result<Vec<u8>, Fail> {
    let mut printed = Vec::new(alloc);
    let (_, mut image) = filled_with(alloc, &[])?;
    for line in lines.split_inclusive('\n') {
        let replay = Replay {
            settings: None,
            lines: line.as_bytes(),
        };
        let ((more, _), left) = done_in(alloc, &image, LASTING, replay)?;
        printed.extend(more)?;
        image = left;
    }
    Ok(printed)
}

/// Whether tables in files that are closed after each of these lines give the answers of tables that are not.
fn answers_on(alloc: Global, lines: &str) -> Result<bool, Fail> {
    let ((printed, ended), _) = filled_with(alloc, lines.as_bytes())?;
    Ok(ended == Ended::Good && printed_line_by_line(alloc, lines)? == printed)
}

/// The lines of a life in which a workunit takes a class. A host that lost its job comes back with a version of another
/// class.
fn lines_of_a_class(alloc: Global) -> Result<String, Fail> {
    let row = classes::ROWS.split(NEXT).nth(2).unwrap_or("");
    Ok(format!(in alloc; "{PROJECT}{}", lines_of(alloc, classes::ROWS, row)?)?)
}

#[test]
fn files_that_are_closed_after_each_line_answer_on(rt: HostRuntime) -> Result<(), Fail> {
    let life = lines(rt.alloc())?;
    assert!(rt; answers_on(rt.alloc(), life.as_str())?);
    let class = lines_of_a_class(rt.alloc())?;
    assert!(rt; answers_on(rt.alloc(), class.as_str())?);
    Ok(())
}
