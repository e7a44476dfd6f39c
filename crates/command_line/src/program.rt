//! The program's words, as a command of `clap`, with the help for those who type them.

ghost use Rattle.std.specs.Prelude.{◌≡◌, IfOk, false, map};
ghost use Rattle.clap.specs.Words.{App, app_of, rule_of, with_subcommand};
ghost use Rattle.command_line.specs.Program as spec;

use clap::{Arg, Command};
use std::alloc::Global;
use texts::Memory;

/// The name of an option, that of its value, and its help.
type OptionWords<'a> = (&'a str, &'a str, &'a str);

/// The tables, if their file must exist.
const TABLES: OptionWords<'static> = ("tables", "FILE", "Tables file, as create made it");

/// An option `--NAME VALUE`.
fn optional<'a>(alloc: Global, name: &'a str, value: &'a str, help: &'a str) -> Arg<'a>
    ensures rule { rule_of result ≡ spec.optional name.now }
    ensures local { result.global ≡ false }
{
    Arg::new(alloc, name)
        .long(name)
        .value_name(value)
        .help(help)
}

/// An option that must be given.
fn wanted<'a>(alloc: Global, name: &'a str, value: &'a str, help: &'a str) -> Arg<'a>
    ensures rule { rule_of result ≡ spec.wanted name.now }
    ensures local { result.global ≡ false }
{
    optional(alloc, name, value, help).required(true)
}

/// A subcommand with options that must be given.
fn subcommand<'a>(
    alloc: Global,
    name: &'a str,
    about: &'a str,
    options: &[OptionWords<'a>],
) -> Result<Command<'a>, Memory>
    ensures { IfOk result (spec.IsSubcommand (spec.command name.now (map (λ option. spec.wanted option.0.now) options.now))) }
{
    let mut command = Command::new(alloc, name).about(about);
    for &(option, value, help) in options {
        command = command.arg(wanted(alloc, option, value, help))?;
    }
    Ok(command)
}

fn create_command<'a>(alloc: Global) -> Result<Command<'a>, Memory>
    ensures { IfOk result (spec.IsSubcommand spec.create_command) }
{
    let about = "Make the tables file of a new project and print `created`";
    let settings = "Settings file (TOML) of the project";
    let tables = "Tables file to make; it must not stand yet";
    let options = [("settings", "FILE", settings), ("tables", "FILE", tables)];
    subcommand(alloc, "create", about, &options)
}

fn serve_command<'a>(alloc: Global) -> Result<Command<'a>, Memory>
    ensures { IfOk result (spec.IsSubcommand spec.serve_command) }
{
    let about = "Serve HTTP on 127.0.0.1, one connection after the other";
    let port = "TCP port to listen on, 1 to 65535";
    let count = "How many connections to serve before the program ends, 1 to 1000000";
    let options = [TABLES, ("port", "PORT", port), ("count", "COUNT", count)];
    subcommand(alloc, "serve", about, &options)
}

fn import_command<'a>(alloc: Global) -> Result<Command<'a>, Memory>
    ensures { IfOk result (spec.IsSubcommand spec.import_command) }
{
    let about = "Import a batch of rows, all of them or none, and print the answer";
    let kind = "What the rows are: accounts, apps, versions or workunits";
    let batch = "Name of the batch: 1 to 64 letters, digits, `_`, `-` or `.`";
    let file = "CSV file with the rows, the first line being the header";
    let options = [
        TABLES,
        ("kind", "KIND", kind),
        ("batch", "NAME", batch),
        ("file", "FILE", file),
    ];
    subcommand(alloc, "import", about, &options)
}

fn tick_command<'a>(alloc: Global) -> Result<Command<'a>, Memory>
    ensures { IfOk result (spec.IsSubcommand spec.tick_command) }
{
    let about = "Let the results lapse whose deadlines are past, and print the answer";
    let at = "Instant to act at, in whole seconds from 1970 on, as 2026-01-31T08:00:00Z";
    let options = [TABLES, ("at", "INSTANT", at)];
    subcommand(alloc, "tick", about, &options)
}

fn statement_command<'a>(alloc: Global) -> Result<Command<'a>, Memory>
    ensures { IfOk result (spec.IsSubcommand spec.statement_command) }
{
    let about = "Print the statement of a host (CSV): its results and its credit";
    let host = "Number of the host, 1 to 2147483647";
    let options = [TABLES, ("host", "NUMBER", host)];
    subcommand(alloc, "statement", about, &options)
}

fn upgrade_command<'a>(alloc: Global) -> Result<Command<'a>, Memory>
    ensures { IfOk result (spec.IsSubcommand spec.upgrade_command) }
{
    let about = "Carry a tables file over to the newest schema and print `schema` and its number";
    let tables = "Tables file of any schema; keep a copy of it before";
    subcommand(alloc, "upgrade", about, &[("tables", "FILE", tables)])
}

fn replay_command<'a>(alloc: Global) -> Result<Command<'a>, Memory>
    ensures { IfOk result (spec.IsSubcommand spec.replay_command) }
{
    let settings = "Settings file (TOML); without it the default settings hold";
    Command::new(alloc, "replay")
        .about("Answer messages from standard input, a line each, with tables in memory")
        .arg(optional(alloc, "settings", "FILE", settings))
}

/// Adds a subcommand to the program, if the subcommand could be made.
fn with<'a>(
    program: Command<'a>,
    subcommand: Result<Command<'a>, Memory>,
) -> Result<Command<'a>, Memory>
    ensures { (a b : App) → app_of program.entry ≡ a → IfOk subcommand.entry (spec.IsSubcommand b) →
        IfOk result (λ c. app_of c ≡ with_subcommand a b.top) }
{
    program.subcommand(subcommand?)
}

/// The program with its subcommands.
pub(crate) fn program<'a>(alloc: Global) -> Result<Command<'a>, Memory>
    ensures { IfOk result (λ c. app_of c ≡ spec.the_program) }
{
    let about = "The scheduler of a BOINC project. Without a subcommand it is `bsched replay`.";
    let bsched = Command::new(alloc, "bsched").about(about);
    let bsched = with(bsched, create_command(alloc))?;
    let bsched = with(bsched, serve_command(alloc))?;
    let bsched = with(bsched, import_command(alloc))?;
    let bsched = with(bsched, tick_command(alloc))?;
    let bsched = with(bsched, statement_command(alloc))?;
    let bsched = with(bsched, upgrade_command(alloc))?;
    with(bsched, replay_command(alloc))
}
