//! What the values of a subcommand's options say.

ghost use Rattle.std.specs.Prelude.{◌≡◌, ◌≤◌, IfOk, IfSome, option_map};
ghost use Rattle.clap.specs.Words.{first_of, found_of, rows_of};
ghost use Rattle.command_line.specs.Orders as spec;

use crate::number::number_up_to;
use crate::order::Order;
use clap::ArgMatches;
use instants::moment_in;
use sched_book::Moment;
use sched_book::limits::MOST_NUMBER;
use std::alloc::Global;
use texts::{Memory, Text, word_of};

/// The last port of TCP.
const LAST_PORT: u32 = 65_535;

/// The most connections that one run serves.
const MOST_CONNECTIONS: u32 = 1_000_000;

/// The value of an option.
fn value_at<'a>(values: &ArgMatches<'a>, name: &str) -> Option<&'a str>
    ensures { option_map (λ value. value.now) result ≡ first_of name.now (rows_of (found_of values.now)) }
{
    values.get_str(name)
}

fn number_at(values: &ArgMatches<'_>, name: &str, most: u32) -> Option<u32>
    ensures value { result ≡ spec.number_at name.now most (rows_of (found_of values.now)) }
    ensures range { IfSome result (λ n. n ≤ most) }
{
    match value_at(values, name) {
        Some(text) => number_up_to(most, text),
        None => None,
    }
}

fn word_at<'a>(values: &ArgMatches<'a>, name: &str) -> Option<&'a str>
    ensures { option_map (λ word. word.now) result ≡ spec.word_at name.now (rows_of (found_of values.now)) }
{
    match value_at(values, name) {
        Some(text) => word_of(text.as_bytes()),
        None => None,
    }
}

fn moment_at(values: &ArgMatches<'_>, name: &str) -> Option<Moment>
    ensures { result ≡ spec.moment_at name.now (rows_of (found_of values.now)) }
{
    match value_at(values, name) {
        Some(text) => moment_in(text),
        None => None,
    }
}

fn create_order(alloc: Global, values: &ArgMatches<'_>) -> Result<Option<Order>, Memory>
    ensures { IfOk result (λ order. order ≡ spec.create_order (rows_of (found_of values.now))) }
{
    let Some(settings) = value_at(values, "settings") else {
        return Ok(None);
    };
    let Some(tables) = value_at(values, "tables") else {
        return Ok(None);
    };
    Ok(Some(Order::Create {
        settings: Text::copied(alloc, settings)?,
        tables: Text::copied(alloc, tables)?,
    }))
}

fn serve_order(alloc: Global, values: &ArgMatches<'_>) -> Result<Option<Order>, Memory>
    ensures { IfOk result (λ order. order ≡ spec.serve_order (rows_of (found_of values.now))) }
{
    let Some(tables) = value_at(values, "tables") else {
        return Ok(None);
    };
    let Some(port) = number_at(values, "port", LAST_PORT) else {
        return Ok(None);
    };
    let Some(count) = number_at(values, "count", MOST_CONNECTIONS) else {
        return Ok(None);
    };
    Ok(Some(Order::Serve {
        tables: Text::copied(alloc, tables)?,
        port: port as u16,
        count,
    }))
}

fn import_order(alloc: Global, values: &ArgMatches<'_>) -> Result<Option<Order>, Memory>
    ensures { IfOk result (λ order. order ≡ spec.import_order (rows_of (found_of values.now))) }
{
    let Some(tables) = value_at(values, "tables") else {
        return Ok(None);
    };
    let Some(kind) = word_at(values, "kind") else {
        return Ok(None);
    };
    let Some(batch) = word_at(values, "batch") else {
        return Ok(None);
    };
    let Some(file) = value_at(values, "file") else {
        return Ok(None);
    };
    Ok(Some(Order::Import {
        tables: Text::copied(alloc, tables)?,
        kind: Text::copied(alloc, kind)?,
        batch: Text::copied(alloc, batch)?,
        file: Text::copied(alloc, file)?,
    }))
}

fn tick_order(alloc: Global, values: &ArgMatches<'_>) -> Result<Option<Order>, Memory>
    ensures { IfOk result (λ order. order ≡ spec.tick_order (rows_of (found_of values.now))) }
{
    let Some(tables) = value_at(values, "tables") else {
        return Ok(None);
    };
    let Some(at) = moment_at(values, "at") else {
        return Ok(None);
    };
    Ok(Some(Order::Tick {
        tables: Text::copied(alloc, tables)?,
        at,
    }))
}

fn statement_order(alloc: Global, values: &ArgMatches<'_>) -> Result<Option<Order>, Memory>
    ensures { IfOk result (λ order. order ≡ spec.statement_order (rows_of (found_of values.now))) }
{
    let Some(tables) = value_at(values, "tables") else {
        return Ok(None);
    };
    let Some(host) = number_at(values, "host", MOST_NUMBER) else {
        return Ok(None);
    };
    Ok(Some(Order::Statement {
        tables: Text::copied(alloc, tables)?,
        host,
    }))
}

fn upgrade_order(alloc: Global, values: &ArgMatches<'_>) -> Result<Option<Order>, Memory>
    ensures { IfOk result (λ order. order ≡ spec.upgrade_order (rows_of (found_of values.now))) }
{
    let Some(tables) = value_at(values, "tables") else {
        return Ok(None);
    };
    Ok(Some(Order::Upgrade {
        tables: Text::copied(alloc, tables)?,
    }))
}

fn replay_order(alloc: Global, values: &ArgMatches<'_>) -> Result<Option<Order>, Memory>
    ensures { IfOk result (λ order. order ≡ spec.replay_order (rows_of (found_of values.now))) }
{
    match value_at(values, "settings") {
        None => Ok(Some(Order::Replay { settings: None })),
        Some(settings) => Ok(Some(Order::Replay {
            settings: Some(Text::copied(alloc, settings)?),
        })),
    }
}

/// What the subcommand of this name orders.
pub(crate) fn order_named(
    alloc: Global,
    name: &str,
    values: &ArgMatches<'_>,
) -> Result<Option<Order>, Memory>
    ensures { IfOk result (λ order. order ≡ spec.order_named name.now (rows_of (found_of values.now))) }
{
    match name {
        "create" => create_order(alloc, values),
        "serve" => serve_order(alloc, values),
        "import" => import_order(alloc, values),
        "tick" => tick_order(alloc, values),
        "statement" => statement_order(alloc, values),
        "upgrade" => upgrade_order(alloc, values),
        "replay" => replay_order(alloc, values),
        _ => Ok(None),
    }
}
