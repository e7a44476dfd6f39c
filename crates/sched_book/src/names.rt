//! The names of instances: the workunit's name, an underscore and the instance's number.

ghost use Rattle.std.specs.Prelude.{◌≡◌, IfOk, option_map};
ghost use Rattle.sched_book.specs.Names.{instance_name, small_number, name_parts};

use std::alloc::Global;
use texts::{Memory, Text};

/// The name of the instance of this number of the workunit of this name.
pub fn instance_name(alloc: Global, unit: &str, number: u32) -> Result<Text, Memory>
    ensures { IfOk result (λ name. name ≡ instance_name unit.now number) }
{
    Ok(Text::of(format!(in alloc; "{unit}_{number}")?))
}

/// Reads a number from 0 to 99, with no leading zero.
fn small_number_of(text: &[u8]) -> Option<u32>
    ensures { result ≡ small_number text.now }
{
    match text {
        [digit] if digit.is_ascii_digit() => Some(u32::from(*digit - b'0')),
        [tens, ones] if *tens >= b'1' && tens.is_ascii_digit() && ones.is_ascii_digit() => {
            Some(10 * u32::from(*tens - b'0') + u32::from(*ones - b'0'))
        }
        _ => None,
    }
}

/// The parts of an instance's name: that of its workunit, and its number. The name is split at its last underscore.
/// After it is a number from 0 to 99, with no leading zero.
#[tactic(auto, using(crate::proofs::SplitNames::splits))]
pub fn split_name(name: &str) -> Option<(&str, u32)>
    ensures { option_map (λ parts. (parts.0.now, parts.1)) result ≡ name_parts name.now }
{
    let Some((unit, digits)) = name.rsplit_once('_') else {
        return None;
    };
    match small_number_of(digits.as_bytes()) {
        None => None,
        Some(number) => Some((unit, number)),
    }
}
