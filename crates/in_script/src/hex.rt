//! Bytes in hexadecimal.
ghost use Rattle.std.specs.Prelude.{◌<◌, IfOk};
ghost use Rattle.format_model.specs.ScriptReading.{hex_value, pair_at, pairs_at, hex_at};
ghost use Rattle.in_script.specs.Reads.{Gives};

use crate::fault::Broken;
use std::alloc::Global;

// The value of a digit of lower case hexadecimal.
#[tactic(auto, unfolding(format_model::specs::ScriptReading::hex_value))]
fn hex_value(digit: u8) -> Result<u8, Broken>
    ensures value { Gives (λ n. n) result (hex_value digit) }
    ensures small { IfOk result (λ n. n < 16) }
{
    match digit {
        b'0'..=b'9' => Ok(digit - b'0'),
        b'a'..=b'f' => Ok(digit - b'a' + 10),
        _ => Err(Broken::BadLine),
    }
}

// The byte of a pair of such digits.
#[tactic(auto, unfolding(format_model::specs::ScriptReading::pair_at))]
fn pair_at(high: u8, low: u8) -> Result<u8, Broken>
    ensures { Gives (λ n. n) result (pair_at high low) }
{
    let high = hex_value(high)?;
    let low = hex_value(low)?;
    Ok(16 * high + low)
}

// The bytes of pairs of such digits.
fn pairs_at(alloc: Global, text: &[u8]) -> Result<Vec<u8>, Broken>
    ensures { Gives (λ v. v.items) result (pairs_at text.now) }
{
    let mut bytes = Vec::with_capacity(alloc, text.len() / 2)?;
    let mut rest = text;
    while let [high, low, ..] = rest {
        let byte = pair_at(*high, *low)?;
        bytes.push(byte)?;
        rest = &rest[2..];
    }
    if rest.is_empty() {
        Ok(bytes)
    } else {
        Err(Broken::BadLine)
    }
}

// The bytes of one pair of such digits or more.
#[tactic(auto, unfolding(format_model::specs::ScriptReading::hex_at))]
pub(crate) fn hex_at(alloc: Global, text: &[u8]) -> Result<Vec<u8>, Broken>
    ensures { Gives (λ v. v.items) result (hex_at text.now) }
{
    if text.is_empty() {
        return Err(Broken::BadLine);
    }
    pairs_at(alloc, text)
}
