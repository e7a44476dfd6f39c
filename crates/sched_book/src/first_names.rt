//! The first of each name.

ghost use Rattle.std.specs.Prelude.{◌≡◌, ℕ, List, [], ◌∷◌, ◌++◌, map, IfOk, OnOk};
ghost use Rattle.texts.specs.SeenSet.{has_text};
ghost use Rattle.sched_book.specs.Reports.{first_of_each};
ghost use Rattle.sched_book.specs.Firsts.{first_unseen};

use rpc_records::Report;
use std::alloc::Global;
use texts::{Memory, SeenSet, Text};

/// An item with a name.
pub trait Named {
    /// Its name.
    ghost name_of: { Self → List ℕ };

    /// Its name.
    fn name(&self) -> &str
        ensures { result.now ≡ name_of self.now };
}

impl Named for Report {
    ghost name_of = { λ report. report.name };

    fn name(&self) -> &str {
        self.name.as_str()
    }
}

impl Named for Text {
    ghost name_of = { λ text. text };

    fn name(&self) -> &str {
        self.as_str()
    }
}

/// Adds an item to the first ones, unless its name was seen before; `seen` has the names that were seen.
fn add_first<'a, T: Named>(
    firsts: &mut Vec<&'a T>,
    seen: &mut SeenSet<&'a str>,
    item: &'a T,
) -> Result<(), Memory>
    ensures { OnOk result ((later : List T) →
        map (λ x. x.now) firsts.new.items ++ first_unseen T.name_of (has_text seen.new) later
        ≡ map (λ x. x.now) firsts.old.items ++ first_unseen T.name_of (has_text seen.old) (item.now ∷ later)) }
{
    if seen.is_first(item.name())? {
        firsts.push(item)?;
    }
    Ok(())
}

/// The first item of each name, in the order of the items.
pub fn first_of_each<'a, T: Named>(alloc: Global, items: &'a [T]) -> Result<Vec<&'a T>, Memory>
    ensures { IfOk result (λ firsts. map (λ x. x.now) firsts.items ≡ first_of_each T.name_of [] items.now) }
{
    let mut seen = SeenSet::new(alloc);
    let mut firsts = Vec::new(alloc);
    for item in items {
        add_first(&mut firsts, &mut seen, item)?;
    }
    Ok(firsts)
}
