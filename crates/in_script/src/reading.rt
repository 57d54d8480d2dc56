//! Reading a script.
ghost use Rattle.std.specs.Prelude.{◌<◌, ◌==◌, length, count_by, IfOk};
ghost use Rattle.machine_model.specs.Script.{Script as Outside};
ghost use Rattle.format_model.specs.Script.{IsScript, texts_of};
ghost use Rattle.format_model.specs.ScriptReading.{nothing, lines_at, script_in};
ghost use Rattle.in_script.specs.Reads.{GivesFile};

use crate::draft::Draft;
use crate::fault::ScriptFault;
use crate::script::Script;
use crate::text::first_line;
use std::alloc::Global;

// What all lines of a file say.
fn lines_of(alloc: Global, file: &[u8]) -> Result<Draft, ScriptFault>
    requires { length (texts_of file.now) < 4294967296 }
    ensures { GivesFile (λ d. d) result (lines_at nothing 1 (texts_of file.now)) }
{
    let mut draft = Draft::new(alloc);
    let mut rest = file;
    let mut number = 0u32;
    while !rest.is_empty() {
        let (text, after) = first_line(rest);
        number += 1;
        let line = match draft.line_at(alloc, text) {
            Ok(line) => line,
            Err(broken) => return Err(broken.at(number)),
        };
        match draft.add(line) {
            Ok(()) => {}
            Err(_) => return Err(ScriptFault::NoMemory),
        }
        rest = after;
    }
    Ok(draft)
}

// The script of a file, as `parse` says.
#[tactic(auto, unfolding(format_model::specs::ScriptReading::script_in))]
fn script_in(alloc: Global, file: &[u8]) -> Result<Script, ScriptFault>
    requires { length (texts_of file.now) < 4294967296 }
    ensures { GivesFile (λ s. s) result (script_in file.now) }
{
    let draft = lines_of(alloc, file)?;
    Ok(draft.finish())
}

/// The script of a file, or the first broken line and what is wrong with it. The file has fewer than 4,294,967,295 line
/// feeds, so that the number of each line fits. It goes over the file once.
pub fn parse(alloc: Global, bytes: &[u8]) -> Result<Script, ScriptFault>
    requires { count_by (λ b. b == 10) bytes.now < 4294967295 }
    // What is read is a script of which these are the bytes.
    ensures found { IfOk result (λ s. IsScript bytes.now s) }
    // A script of which these are the bytes is read, unless there is no memory.
    ensures only { (s : Outside) → IsScript bytes.now s → GivesFile (λ r. r) result (Ok s) }
    // Which fault it is, and of which line.
    ensures exact { GivesFile (λ s. s) result (script_in bytes.now) }
{
    script_in(alloc, bytes)
}
