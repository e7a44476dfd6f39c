//! Reading a command line, with `clap`.

ghost use Rattle.std.specs.Prelude.{◌≡◌, IfOk, map};
ghost use Rattle.std.specs.String.{string_bytes};
ghost use Rattle.clap.specs.Words.{FailsBy, fault_of, kind_of, subcommand_of, subcommand_rows_of};
ghost use Rattle.command_line.specs.Orders.{FaultSays, GivesOrder, OrderSays, order_by};
ghost use Rattle.command_line.specs.Program.{the_program};

use crate::order::{Order, OrderFault};
use crate::program::program;
use crate::values::order_named;
use clap::error::ErrorKind;
use clap::{ArgMatches, Error};
use std::alloc::Global;
use texts::{Memory, Text};

/// Returns what the words of a command line order; the first is the program's name.
pub fn order_of(alloc: Global, words: &[String]) -> Result<Order, OrderFault>
    ensures { OrderSays (map string_bytes words.now) result }
{
    match matches_of(alloc, words) {
        Ok(matches) => order_in(alloc, &matches),
        Err(error) => Err(fault_by(alloc, &error)),
    }
}

/// What `clap` finds in the words.
fn matches_of<'a>(alloc: Global, words: &'a [String]) -> Result<ArgMatches<'a>, Error>
    ensures found { IfOk result (λ m. subcommand_rows_of m ≡ subcommand_of the_program (map string_bytes words.now)) }
    ensures faults { FailsBy (fault_of the_program (map string_bytes words.now)) result }
{
    program(alloc)?.try_get_matches_from(words)
}

/// The fault for an error of `clap`.
fn fault_by(alloc: Global, error: &Error) -> OrderFault
    ensures { FaultSays (kind_of error.now) result }
{
    match error.kind() {
        ErrorKind::OutOfMemory => OrderFault::Memory,
        ErrorKind::DisplayHelp => help_by(alloc, error),
        _ => OrderFault::Refused,
    }
}

/// The help in an error of `clap`.
fn help_by(alloc: Global, error: &Error) -> OrderFault
    ensures { FaultSays ErrorKind.DisplayHelp result }
{
    match error.to_string(alloc) {
        Ok(text) => OrderFault::Help(Text::of(text)),
        Err(_) => OrderFault::Memory,
    }
}

/// What the matches order.
fn order_in(alloc: Global, matches: &ArgMatches<'_>) -> Result<Order, OrderFault>
    ensures { GivesOrder (order_by (subcommand_rows_of matches.now)) result }
{
    match subcommand_order(alloc, matches) {
        Ok(Some(order)) => Ok(order),
        Ok(None) => Err(OrderFault::Refused),
        Err(_) => Err(OrderFault::Memory),
    }
}

/// What the subcommand in the words orders. Without one it is a replay.
fn subcommand_order(alloc: Global, matches: &ArgMatches<'_>) -> Result<Option<Order>, Memory>
    ensures { IfOk result (λ order. order ≡ order_by (subcommand_rows_of matches.now)) }
{
    match matches.subcommand() {
        None => Ok(Some(Order::Replay { settings: None })),
        Some((name, values)) => order_named(alloc, name, values),
    }
}
