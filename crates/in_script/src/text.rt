//! Parts of a line.
ghost use Rattle.std.specs.Prelude.{◌≡◌, ◌==◌, ◌<◌, ◌∷◌, length, position, option_copied, option_map};
ghost use Rattle.format_model.specs.Script.{texts_of};
ghost use Rattle.format_model.specs.ScriptReading.{strip, cut, at_space};
ghost use Rattle.in_script.specs.Reads.{Gives};

use crate::fault::Broken;

// What stands after a word, where the text begins with it.
pub(crate) fn after<'a>(text: &'a [u8], word: &[u8]) -> Option<&'a [u8]>
    ensures { option_copied result ≡ strip word.now text.now }
{
    text.strip_prefix(word)
}

// The first place of a byte.
fn place_of(text: &[u8], byte: u8) -> Option<usize>
    ensures { result ≡ position (λ b. b == byte) text.now }
{
    text.iter().position(|b| *b == byte)
}

// What stands before and after the first byte of this value.
fn cut(text: &[u8], byte: u8) -> Option<(&[u8], &[u8])>
    ensures { option_map (λ p. (p.0.now, p.1.now)) result ≡ cut byte text.now }
{
    match place_of(text, byte) {
        Some(at) => Some((&text[..at], &text[at + 1..])),
        None => None,
    }
}

// What stands before and after the first space. A text without one makes a bad line.
pub(crate) fn at_space(text: &[u8]) -> Result<(&[u8], &[u8]), Broken>
    ensures { Gives (λ p. (p.0.now, p.1.now)) result (at_space text.now) }
{
    cut(text, b' ').ok_or(Broken::BadLine)
}

// The first line of a file that is not empty, without its line feed, and what stands after it.
pub(crate) fn first_line(file: &[u8]) -> (&[u8], &[u8])
    requires { 0 < length file.now }
    ensures { texts_of file.now ≡ result.0.now ∷ texts_of result.1.now }
{
    match cut(file, b'\n') {
        Some(parts) => parts,
        None => (file, &[]),
    }
}
