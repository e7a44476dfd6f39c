//! Rows of a list by their places, which count from 1.

ghost use Rattle.std.specs.Prelude.{◌≡◌, ◌<◌, ◌≤◌, ◌+◌, length, find, position, option_map, option_and_then, slice_get, IfOk, IfSome};
ghost use Rattle.std.specs.Option.{option_copied};
ghost use Rattle.std.specs.Str.{bytes_eq};
ghost use Rattle.sched_book.specs.Places.{nth, place_where, is_host_of};
ghost use Rattle.sched_book.specs.Desk.{placed_at};
ghost use Rattle.sched_book.specs.Imports.{is_version};
ghost use Rattle.sched_book.specs.declared.instance.UnitBook.{UnitBook};
ghost use Rattle.sched_book.specs.declared.rows.Account.{Account};
ghost use Rattle.sched_book.specs.declared.rows.App.{App};

use crate::desk::Placed;
use crate::instance::{Instance, UnitBook};
use crate::limits::MOST_WORKUNITS;
use crate::rows::{Account, App, HostRow, Version};
use texts::{Memory, Same};

/// The most rows that any table may have.
pub(crate) const MOST_ROWS: usize = MOST_WORKUNITS;

/// The row at a place.
pub fn nth<T>(rows: &[T], place: u32) -> Option<&T>
    ensures { option_copied result ≡ nth rows.now place }
{
    if place == 0 {
        None
    } else {
        rows.get(place as usize - 1)
    }
}

/// A copy of a row, which is equal to it.
pub fn copy_of<T: Same>(row: &T) -> Result<T, Memory>
    ensures { IfOk result (λ copy. copy ≡ row.now) }
{
    row.clone()
}

/// A copy of the row at a place.
pub(crate) fn copy_nth<T: Same>(rows: &[T], place: u32) -> Result<Option<T>, Memory>
    ensures { IfOk result (λ row. row ≡ nth rows.now place) }
{
    match nth(rows, place) {
        None => Ok(None),
        Some(row) => Ok(Some(row.clone()?)),
    }
}

/// A copy of the row at a place, with the place.
fn copy_placed<T: Same>(rows: &[T], place: u32) -> Result<Option<Placed<T>>, Memory>
    ensures { IfOk result (λ row. row ≡ placed_at rows.now place) }
{
    match copy_nth(rows, place)? {
        None => Ok(None),
        Some(row) => Ok(Some(Placed { place, row })),
    }
}

/// The same for a place, if there is one.
pub(crate) fn copy_at<T: Same>(rows: &[T], place: Option<u32>) -> Result<Option<Placed<T>>, Memory>
    ensures { IfOk result (λ row. row ≡ option_and_then (placed_at rows.now) place) }
{
    match place {
        None => Ok(None),
        Some(place) => copy_placed(rows, place),
    }
}

/// A copy of the workunit's instance of this number.
pub(crate) fn copy_instance(book: &UnitBook, number: u32) -> Result<Option<Instance>, Memory>
    ensures { IfOk result (λ r. r ≡ slice_get book.now.instances number) }
{
    match book.instances.as_slice().get(number as usize) {
        None => Ok(None),
        Some(instance) => Ok(Some(instance.clone()?)),
    }
}

/// The place of the row at an index.
fn place_of_index(index: Option<usize>) -> Option<u32>
    requires { IfSome index (λ i. i < MOST_ROWS) }
    ensures { result ≡ option_map (λ i. i + 1) index }
{
    match index {
        None => None,
        Some(index) => Some(index as u32 + 1),
    }
}

fn account_index(accounts: &[Account], authenticator: &str) -> Option<usize>
    ensures value { result ≡ position (λ a. bytes_eq a.authenticator authenticator.now) accounts.now }
    ensures within { IfSome result (λ i. i < length accounts.now) }
{
    accounts
        .iter()
        .position(|account| account.authenticator.is(authenticator))
}

/// The place of the account with this authenticator.
pub(crate) fn account_place(accounts: &[Account], authenticator: &str) -> Option<u32>
    requires { length accounts.now ≤ MOST_ROWS }
    ensures { result ≡ place_where (λ (a : Account). bytes_eq a.authenticator authenticator.now) accounts.now }
{
    place_of_index(account_index(accounts, authenticator))
}

/// The index of the application of this name.
pub fn app_index(apps: &[App], name: &str) -> Option<usize>
    ensures value { result ≡ position (λ a. bytes_eq a.name name.now) apps.now }
    ensures within { IfSome result (λ i. i < length apps.now) }
{
    apps.iter().position(|app| app.name.is(name))
}

/// The place of the application of this name.
pub(crate) fn app_place(apps: &[App], name: &str) -> Option<u32>
    requires { length apps.now ≤ MOST_ROWS }
    ensures { result ≡ place_where (λ (a : App). bytes_eq a.name name.now) apps.now }
{
    place_of_index(app_index(apps, name))
}

fn unit_index(books: &[UnitBook], name: &str) -> Option<usize>
    ensures value { result ≡ position (λ b. bytes_eq b.unit.name name.now) books.now }
    ensures within { IfSome result (λ i. i < length books.now) }
{
    books.iter().position(|book| book.unit.name.is(name))
}

/// The place of the workunit of this name.
pub(crate) fn unit_place(books: &[UnitBook], name: &str) -> Option<u32>
    requires { length books.now ≤ MOST_ROWS }
    ensures { result ≡ place_where (λ (b : UnitBook). bytes_eq b.unit.name name.now) books.now }
{
    place_of_index(unit_index(books, name))
}

fn host_index(hosts: &[HostRow], account: u32, cpid: &str) -> Option<usize>
    ensures value { result ≡ position (is_host_of account cpid.now) hosts.now }
    ensures within { IfSome result (λ i. i < length hosts.now) }
{
    hosts
        .iter()
        .position(|host| host.account == account && host.cpid.is(cpid))
}

/// The number of the host that belongs to this account and has this name for itself.
pub(crate) fn host_place(hosts: &[HostRow], account: u32, cpid: &str) -> Option<u32>
    requires { length hosts.now ≤ MOST_ROWS }
    ensures { result ≡ place_where (is_host_of account cpid.now) hosts.now }
{
    place_of_index(host_index(hosts, account, cpid))
}

/// The version of this application, for this platform, with this number.
pub(crate) fn find_version<'a>(
    versions: &'a [Version],
    app: &str,
    platform: &str,
    version_num: u32,
) -> Option<&'a Version>
    ensures { option_copied result ≡ find (is_version app.now platform.now version_num) versions.now }
{
    versions.iter().find(|version| version.app.is(app)
        && version.platform.is(platform)
        && version.version_num == version_num)
}
