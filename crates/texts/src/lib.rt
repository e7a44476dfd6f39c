//! The small types over `String` and `Vec` that records are made of.
//!
//! A contract sees a [`Text`] as the list of its bytes and a [`Listed`] as the list of its items. So in a clause a
//! record of them is plain data: two records are equal exactly if all their parts are.
#![tactic(auto)]

pub mod listed;
pub mod same;
pub mod seen_set;
pub mod text;
pub mod word;

pub use listed::Listed;
pub use same::Same;
pub use seen_set::SeenSet;
pub use text::{Text, utf8_text};
pub use word::{is_word, word_of};

/// Out of memory: an allocation was refused.
pub type Memory = std::alloc::AllocError;
