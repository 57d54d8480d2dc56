//! The numbers of words.
ghost use Rattle.std.specs.Prelude.{◌≡◌};
ghost use Rattle.command_words.specs.Values.{number_in};

use decimal_text::is_number;

// The number of a text: digits without a leading zero, within these ends.
#[tactic(auto, unfolding(format_model::specs::ScriptReading::number_at))]
pub(crate) fn number_in(text: &str, least: u32, most: u32) -> Option<u32>
    ensures { result ≡ number_in least most text.now }
{
    let digits = text.as_bytes();
    if !is_number(digits) {
        return None;
    }
    decimal_text::number_in(digits, least, most)
}
