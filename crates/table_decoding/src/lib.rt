//! The world that rows of the stored tables represent.
#![tactic(auto)]

mod decoded;
mod fault;
mod instances;
mod listed_rows;
mod platforms;
mod rows;
mod settings;
mod units;

pub use decoded::decoded_world;
pub use fault::RowFault;
pub use instances::instance;
pub use rows::{account, host, version_class};
pub use units::{unit_book, workunit};
