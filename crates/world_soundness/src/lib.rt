//! Whether a world is sound, tested on the whole of it: its values, names, references and workunits.
#![tactic(auto)]

pub mod in_limits;
mod keyed;
mod sound_units;
mod soundness;

pub use sound_units::is_sound_unit;
pub use soundness::is_sound;
