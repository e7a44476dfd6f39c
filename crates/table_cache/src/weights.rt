//! How much room each kind of what is remembered takes: a list as much as it has elements, anything else one unit.

use crate::keys::{AccountRead, HostKeyRead};
use crate::rows_read::Weigh;
use crate::sent::SentRead;
use sched_book::{Instance, Place, Workunit};
use table_desk::CountedHost;
use texts::Listed;

impl Weigh for u32 {
    fn weight(&self) -> usize {
        1
    }
}

impl Weigh for u64 {
    fn weight(&self) -> usize {
        1
    }
}

impl Weigh for AccountRead {
    fn weight(&self) -> usize {
        1
    }
}

impl Weigh for HostKeyRead {
    fn weight(&self) -> usize {
        1
    }
}

impl Weigh for SentRead {
    fn weight(&self) -> usize {
        1
    }
}

impl Weigh for CountedHost {
    fn weight(&self) -> usize {
        1
    }
}

impl Weigh for Workunit {
    fn weight(&self) -> usize {
        1
    }
}

/// The list of the places that a host holds.
impl Weigh for Listed<Place> {
    fn weight(&self) -> usize {
        self.len().saturating_add(1)
    }
}

/// The instances of a workunit.
impl Weigh for Listed<Instance> {
    fn weight(&self) -> usize {
        self.len().saturating_add(1)
    }
}
