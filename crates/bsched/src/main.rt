//! The scheduler of a BOINC project, as a program.
//!
//! An operator makes tables, imports a project, serves it, runs ticks, and reads what a host was given. A run of
//! messages is replayed from standard input. `bsched --help` lists the commands, and `docs/PROFILE.md` states the
//! formats.
#![tactic(auto)]

#[cfg(test)]
mod tests;

use command_line::{Order, OrderFault, order_of};
use commands::{Failure, SystemConnections, SystemFiles, perform};
use sqlite::Unknown;
use std::io::Write;
use std::process::ExitCode;
use std::{env, io};

/// The exit status of a command line that is refused.
const BAD_COMMAND_LINE: u8 = 64;

fn main(rt: HostRuntime) -> io::Result<ExitCode> {
    match words_of(&rt) {
        Ok(words) => ordered(&rt, order_of(rt.alloc(), &words)),
        Err(error) => failed(&rt, Failure::from(error)),
    }
}

/// The words of the command line; the first is the program's name.
fn words_of(rt: &HostRuntime) -> io::Result<Vec<String>> {
    Ok(env::args(rt)?.collect(rt.alloc())?)
}

/// Carries out the order of a command line, or says what is wrong with it.
fn ordered(rt: &HostRuntime, order: Result<Order, OrderFault>) -> io::Result<ExitCode> {
    match order {
        Ok(order) => carried_out(rt, &order),
        Err(OrderFault::Help(text)) => {
            io::writer(rt).write_all(text.as_str().as_bytes())?;
            Ok(ExitCode::SUCCESS)
        }
        Err(OrderFault::Refused) => {
            eprintln!(rt; "bsched: bad command line")?;
            Ok(ExitCode::from(BAD_COMMAND_LINE))
        }
        Err(OrderFault::Memory) => failed(rt, Failure::Unavailable),
    }
}

/// Carries out an order. What the tables' file holds is not known: the contract of [`perform`] holds for anything.
fn carried_out(rt: &HostRuntime, order: &Order) -> io::Result<ExitCode> {
    let mut connections = SystemConnections::new(rt);
    let performed = perform(rt, order, &SystemFiles, &mut connections, Unknown);
    match performed.ended {
        Ok(outcome) => Ok(ExitCode::from(outcome.status())),
        Err(failure) => failed(rt, failure),
    }
}

fn failed(rt: &HostRuntime, failure: Failure) -> io::Result<ExitCode> {
    eprintln!(rt; "bsched: {failure}")?;
    Ok(ExitCode::from(failure.status()))
}
