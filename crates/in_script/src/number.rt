//! The numbers of a line.
ghost use Rattle.format_model.specs.ScriptReading.{number_at, number_in};
ghost use Rattle.in_script.specs.Reads.{Gives};

use crate::fault::Broken;
use decimal_text::is_number;

// The value of digits that have no leading zero and are within these ends; else the line has a bad number.
pub(crate) fn number_in(digits: &[u8], least: u32, most: u32) -> Result<u32, Broken>
    ensures { Gives (λ n. n) result (number_in least most digits.now) }
{
    decimal_text::number_in(digits, least, most).ok_or(Broken::BadNumber)
}

// The number that a text is. A text that is no digits makes a bad line.
#[tactic(auto, unfolding(format_model::specs::ScriptReading::number_at))]
pub(crate) fn number_at(text: &[u8], least: u32, most: u32) -> Result<u32, Broken>
    ensures { Gives (λ n. n) result (number_at least most text.now) }
{
    if !is_number(text) {
        return Err(Broken::BadLine);
    }
    number_in(text, least, most)
}
