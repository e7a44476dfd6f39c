//! The laws that tie stored tables to the messages that they represent.
#![tactic(auto)]

pub mod laws;
