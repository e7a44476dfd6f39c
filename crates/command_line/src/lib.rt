//! The program's command line: what its words order.
#![tactic(auto)]

mod number;
mod order;
mod program;
mod reading;
mod values;

pub use order::{Order, OrderFault};
pub use reading::order_of;
