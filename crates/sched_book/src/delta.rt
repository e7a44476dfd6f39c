//! Changes of a world: the rows of an import, or the edits of a call or of a tick.

ghost use Rattle.std.specs.Prelude.{◌≡◌, ◌≤◌, ◌↔◌, All, IsTrue, IfOk, length, map, replicate};
ghost use Rattle.sched_book.specs.Settle.{fresh};
ghost use Rattle.sched_book.specs.Limits.{IsBounded};
ghost use Rattle.sched_book.specs.Imports.{new_unit};
ghost use Rattle.sched_book.specs.declared.instance.UnitBook.{UnitBook};
ghost use Rattle.sched_book.specs.Delta.{with_instance};
ghost use Rattle.sched_book.specs.Classes.{with_class};

use crate::by_place::copy_of;
use crate::changing::put;
use crate::instance::{Instance, Place, UnitBook};
use crate::limits::{
    MOST_ACCOUNTS, MOST_APPS, MOST_HOSTS, MOST_INSTANCES, MOST_VERSIONS, MOST_WORKUNITS,
};
use crate::rows::{HostRow, Rows, Workunit};
use crate::world::World;
use std::alloc::Global;
use texts::{Listed, Memory, Text};

/// One edit of a world, which a call or a tick makes.
#[derive(Drop)]
pub enum Edit {
    /// A host put at a number: it replaces the host there, or is the next one.
    Host { number: u32, row: HostRow },
    /// An instance put at a place: it replaces the instance there, or is the next one of its workunit.
    Instance { place: Place, row: Instance },
    /// A version of this class was granted for the workunit at a place. If the workunit is marked, it takes the class
    /// with its first one.
    Class { unit: u32, class: Text },
}

/// Edits in their order; later ones override earlier ones.
pub type Edits = Listed<Edit>;

/// What one message changes in a world.
#[derive(Drop)]
pub enum Delta {
    /// The rows of an import. They follow those of their table. A new workunit comes with its first instances.
    Rows(Rows),
    /// The edits of a call or of a tick.
    Edits(Edits),
}

/// `count` instances that were given to nobody.
pub fn fresh_instances(alloc: Global, count: usize) -> Result<Listed<Instance>, Memory>
    ensures { IfOk result (λ instances. instances ≡ replicate count fresh) }
{
    let mut instances = Listed::new(alloc);
    for _ in 0..count {
        instances.push(Instance::unsent())?;
    }
    Ok(instances)
}

/// A new workunit with its instances.
fn new_book(alloc: Global, unit: &Workunit) -> Result<UnitBook, Memory>
    ensures { IfOk result (λ book. book ≡ new_unit unit.now) }
{
    Ok(UnitBook {
        unit: unit.clone()?,
        instances: fresh_instances(alloc, unit.target_nresults as usize)?,
    })
}

/// New workunits with their instances.
pub(crate) fn new_books(alloc: Global, units: &[Workunit]) -> Result<Listed<UnitBook>, Memory>
    ensures { IfOk result (λ books. books ≡ map new_unit units.now) }
{
    let mut books = Listed::new(alloc);
    for unit in units {
        books.push(new_book(alloc, unit)?)?;
    }
    Ok(books)
}

/// A copy of the workunit with an instance put at a number.
pub(crate) fn changed_book(book: &UnitBook, number: u32, row: Instance) -> Result<UnitBook, Memory>
    ensures { IfOk result (λ changed. changed ≡ with_instance number row book.now) }
{
    let mut changed = book.clone()?;
    put(&mut changed.instances, number as usize, row)?;
    Ok(changed)
}

/// A copy of the workunit after a version of this class was granted for it.
pub(crate) fn classed_book(book: &UnitBook, class: &Text) -> Result<UnitBook, Memory>
    ensures { IfOk result (λ classed. classed ≡ with_class class.now book.now) }
{
    let mut classed = copy_of(book)?;
    classed.unit.class_rule = book.unit.class_rule.after(class)?;
    Ok(classed)
}

fn are_books_bounded(books: &[UnitBook]) -> bool
    ensures { IsTrue result ↔ All (λ (b : UnitBook). length b.instances ≤ MOST_INSTANCES) books.now }
{
    books
        .iter()
        .all(|book| book.instances.len() <= MOST_INSTANCES)
}

/// Whether no list of the world is longer than its table may be.
pub(crate) fn is_bounded(world: &World) -> bool
    ensures { IsTrue result ↔ IsBounded world.now }
{
    world.accounts.len() <= MOST_ACCOUNTS
        && world.apps.len() <= MOST_APPS
        && world.versions.len() <= MOST_VERSIONS
        && world.hosts.len() <= MOST_HOSTS
        && world.units.len() <= MOST_WORKUNITS
        && are_books_bounded(world.units.as_slice())
}
