//! The world of the job machine, the kept calls and the kept imports, in tables of SQLite.
#![tactic(auto)]

mod committing;
mod desk;
mod due;
mod keeping;
pub mod laws;
mod offering;
mod opening;
mod reading;
mod store;
mod tables;
mod upgrading;

pub use stores::{Entry, KeptBatch, Kind, Store};
pub use table_rows::{OpenFault, OpenRefusal};
pub use tables::Tables;
pub use upgrading::{SCHEMA_1, upgrade};
