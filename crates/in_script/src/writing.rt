//! Writing a script.
ghost use Rattle.std.specs.Prelude.{◌≡◌, ℕ, ◌<◌, ◌++◌, List, decimal, IfOk, OnOk};
ghost use Rattle.std.specs.List.{flat_map};
ghost use Rattle.format_model.specs.Script.{IsScript, hex_digit, hex, what_text, clock_line, span_line, entry_line, printed};
ghost use Rattle.in_script.specs.What.{arrives};

use crate::script::{Entry, Script, Span, What};
use itoa::Buffer;
use memory_map::NoMemory;
use std::alloc::Global;

// Adds a number in decimal digits.
fn put_number(out: &mut Vec<u8>, number: u32) -> Result<(), NoMemory>
    ensures { OnOk result (out.new.items ≡ out.old.items ++ decimal number) }
{
    let mut buffer = Buffer::new();
    out.extend_from_slice(buffer.format(number).as_bytes())
}

// A digit of lower case hexadecimal.
fn hex_digit(value: u8) -> u8
    requires { value < 16 }
    ensures { result ≡ hex_digit value }
{
    if value < 10 {
        b'0' + value
    } else {
        b'a' - 10 + value
    }
}

// Adds bytes as pairs of such digits.
fn put_hex(out: &mut Vec<u8>, bytes: &[u8]) -> Result<(), NoMemory>
    ensures { OnOk result (out.new.items ≡ out.old.items ++ hex bytes.now) }
{
    for byte in bytes {
        out.extend_from_slice(&[hex_digit(*byte / 16), hex_digit(*byte % 16)])?;
    }
    Ok(())
}

// Adds what arrives, by its word.
fn put_what(out: &mut Vec<u8>, what: &What) -> Result<(), NoMemory>
    ensures { OnOk result (out.new.items ≡ out.old.items ++ what_text (arrives what.now)) }
{
    match what {
        What::Serial { bytes, mark } => {
            let word = if *mark == 0 { b"serial " } else { b"marked " };
            out.extend_from_slice(word)?;
            put_hex(out, bytes.as_slice())
        }
        What::Tick { count } => {
            out.extend_from_slice(b"tick ")?;
            put_number(out, *count)
        }
        What::Latency { steps } => {
            out.extend_from_slice(b"latency ")?;
            put_number(out, *steps)
        }
    }
}

// Adds the line of a span of sectors.
fn put_span(out: &mut Vec<u8>, span: &Span) -> Result<(), NoMemory>
    ensures { OnOk result (out.new.items ≡ out.old.items ++ span_line span.now) }
{
    out.extend_from_slice(b"sectors ")?;
    put_number(out, span.first)?;
    out.push(b' ')?;
    put_number(out, span.last)?;
    out.push(b'\n')?;
    Ok(())
}

// Adds the line of an entry.
fn put_entry(out: &mut Vec<u8>, entry: &Entry) -> Result<(), NoMemory>
    ensures { OnOk result (out.new.items ≡ out.old.items ++ entry_line entry.now) }
{
    out.extend_from_slice(b"at ")?;
    put_number(out, entry.at)?;
    out.push(b' ')?;
    put_what(out, &entry.what)?;
    out.push(b'\n')?;
    Ok(())
}

// Adds the line of the clock.
fn put_clock(out: &mut Vec<u8>, period: u32) -> Result<(), NoMemory>
    ensures { OnOk result (out.new.items ≡ out.old.items ++ clock_line period) }
{
    out.extend_from_slice(b"clock ")?;
    put_number(out, period)?;
    out.push(b'\n')?;
    Ok(())
}

// Adds the lines of all spans.
fn put_spans(out: &mut Vec<u8>, spans: &[Span]) -> Result<(), NoMemory>
    ensures { OnOk result (out.new.items ≡ out.old.items ++ flat_map span_line spans.now) }
{
    for span in spans {
        put_span(out, span)?;
    }
    Ok(())
}

// Adds the lines of all entries.
fn put_entries(out: &mut Vec<u8>, entries: &[Entry]) -> Result<(), NoMemory>
    ensures { OnOk result (out.new.items ≡ out.old.items ++ flat_map entry_line entries.now) }
{
    for entry in entries {
        put_entry(out, entry)?;
    }
    Ok(())
}

// The canonical text of a script, as `print` says.
#[tactic(auto, unfolding(format_model::specs::Script::printed))]
fn canonical_text(alloc: Global, script: &Script) -> Result<Vec<u8>, NoMemory>
    ensures { IfOk result (λ text. text.items ≡ printed script.now) }
{
    let mut out = Vec::new(alloc);
    put_clock(&mut out, script.clock)?;
    put_spans(&mut out, &script.sectors)?;
    put_entries(&mut out, &script.entries)?;
    Ok(out)
}

/// The canonical text of a script that a file gives: the clock always, then the sectors, then the entries, each line with
/// its line feed, and all bytes in hexadecimal. It is a file of the same script.
pub fn print(alloc: Global, script: &Script) -> Result<Vec<u8>, NoMemory>
    requires { (file : List ℕ) × IsScript file script.now }
    ensures text { IfOk result (λ text. text.items ≡ printed script.now) }
    // So `parse` of it gives the same script.
    ensures again { IfOk result (λ text. IsScript text.items script.now) }
{
    canonical_text(alloc, script)
}
