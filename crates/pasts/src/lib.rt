//! Pasts: lists of messages with their answers. When tables agree with a past, they agree with the one run of the job
//! machine over its first-heard messages.
//!
//! There is hardly any code here. `specs/` says which messages are first heard, how the others are answered, and what
//! one message does to tables. It also says what it means to agree with a past. [`laws`] are the theorems.
#![tactic(auto)]

mod answer;
pub mod laws;

pub use answer::AnswerContent;
