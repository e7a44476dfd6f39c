//! Whether two schemas are equal, by what they define.
//!
//! The stored tables have no default, no CHECK and no view. So these are not compared: a schema that has one never
//! counts as equal.

ghost use Rattle.std.specs.Prelude.{◌≡◌, ⊤};
ghost use Rattle.std.specs.Bool.{Decides};
ghost use Rattle.table_rows.specs.Plain.{Each, HasNoDefault, IsBare, IsPlainTable, IsPlain};

use sqlite_items::Items;
use sqlite_schema::schema::{Column, Index, Reference, Schema, Table};
use sqlite_value::keys::Order;
use sqlite_value::value::{Bytes, Value};

pub trait Alike {
    /// It has none of the things that are not compared.
    ghost is_plain: { Self → Type 0 };

    /// Whether the two are equal, and the other one is plain.
    fn is_alike(&self, other: &Self) -> bool
        ensures { Decides result ((self.now ≡ other.now) × Self.is_plain other.now) };
}

/// Whether the two lists are equal, and each item of the second one is plain.
fn are_alike<T: Alike>(first: &[T], second: &[T]) -> bool
    ensures { Decides result ((first.now ≡ second.now) × Each T.is_plain second.now) }
{
    if first.len() != second.len() {
        return false;
    }
    for at in 0..first.len() {
        if !first[at].is_alike(&second[at]) {
            return false;
        }
    }
    true
}

impl Alike for usize {
    ghost is_plain = { λ _. ⊤ };

    fn is_alike(&self, other: &usize) -> bool {
        *self == *other
    }
}

impl Alike for Order {
    ghost is_plain = { λ _. ⊤ };

    fn is_alike(&self, other: &Order) -> bool {
        self.digits == other.digits
    }
}

impl Alike for Bytes {
    ghost is_plain = { λ _. ⊤ };

    fn is_alike(&self, other: &Bytes) -> bool {
        self.as_slice() == other.as_slice()
    }
}

impl<T: Alike> Alike for Items<T> {
    ghost is_plain = { Each T.is_plain };

    fn is_alike(&self, other: &Items<T>) -> bool {
        are_alike(self.as_slice(), other.as_slice())
    }
}

impl Alike for Column {
    ghost is_plain = { HasNoDefault };

    fn is_alike(&self, other: &Column) -> bool {
        self.name.is_alike(&other.name)
            && self.kind == other.kind
            && self.is_strict == other.is_strict
            && self.not_null == other.not_null
            && matches!(&self.default, Value::Null)
            && matches!(&other.default, Value::Null)
            && self.collation == other.collation
    }
}

impl Alike for Reference {
    ghost is_plain = { λ _. ⊤ };

    fn is_alike(&self, other: &Reference) -> bool {
        self.columns.is_alike(&other.columns)
            && self.parent.is_alike(&other.parent)
            && self.parent_columns.is_alike(&other.parent_columns)
            && self.on_delete == other.on_delete
            && self.on_update == other.on_update
            && self.is_deferred == other.is_deferred
    }
}

impl Alike for Index {
    ghost is_plain = { λ _. ⊤ };

    fn is_alike(&self, other: &Index) -> bool {
        self.name.is_alike(&other.name)
            && self.tree == other.tree
            && self.table == other.table
            && self.columns.is_alike(&other.columns)
            && self.order.is_alike(&other.order)
            && self.is_unique == other.is_unique
    }
}

/// Whether the table has no CHECK and no computed default.
fn is_bare(table: &Table) -> bool
    ensures { Decides result (IsBare table.now) }
{
    table.checks.roots.is_empty()
        && table.computed.is_empty()
        && table.stamps.places.is_empty()
        && table.stamps.terms.roots.is_empty()
        && table.stamps.formats.is_empty()
}

impl Alike for Table {
    ghost is_plain = { IsPlainTable };

    fn is_alike(&self, other: &Table) -> bool {
        is_bare(self)
            && is_bare(other)
            && self.name.is_alike(&other.name)
            && self.tree == other.tree
            && self.columns.is_alike(&other.columns)
            && self.key == other.key
            && self.primary.is_alike(&other.primary)
            && self.uniques.is_alike(&other.uniques)
            && self.orders.is_alike(&other.orders)
            && self.references.is_alike(&other.references)
            && self.is_counted == other.is_counted
    }
}

impl Alike for Schema {
    ghost is_plain = { IsPlain };

    fn is_alike(&self, other: &Schema) -> bool {
        self.views.is_empty()
            && other.views.is_empty()
            && self.tables.is_alike(&other.tables)
            && self.indexes.is_alike(&other.indexes)
    }
}
