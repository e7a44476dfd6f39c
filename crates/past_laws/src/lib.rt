//! Tables that agree with a past are sound, after any messages, and the laws of every run of the machine hold of them.
//!
//! There is no code here. The laws of the job machine are about the worlds of its runs; [`laws`] says the same of the
//! tables before and after messages.
#![tactic(auto)]

pub mod laws;
