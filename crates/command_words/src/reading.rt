//! Reading words, one after another.
ghost use Rattle.std.specs.Prelude.{◌≡◌, ◌+◌, ◌<◌, ◌≤◌, List, [], drop, length, map, slice_index_or, string_bytes, Some, None, is_some, OnOk, Err, IfOk, IfErr};
ghost use Rattle.command_words.specs.declared.fault.WordsFault.TheVariants.{Missing};
ghost use Rattle.command_words.specs.Drafts.{ReadsOn, Holds, IsDraft, Refuses, held, spent};
ghost use Rattle.command_words.specs.Jobs.{first_bad_in, job_in, read_as};
ghost use Rattle.command_words.specs.Sound.{IsSoundJob};
ghost use Rattle.command_words.specs.Says.{GivesJob, says};
ghost use Rattle.command_words.specs.Roles.{Role, ends_open, may_stand, meets_plain, option_of, roles};

use crate::assembling::command_of;
use crate::command::Command;
use crate::draft::{Draft, Given};
use crate::fault::WordsFault;
use crate::table::{CommandName, Setting};
use crate::value::{is_option, is_plain, is_value, seed_in, size_in};

// The option of a word, where the command has it and it has no value yet.
#[tactic(auto, unfolding(crate::specs::Roles::option_of))]
fn option_of(draft: &Draft<'_>, command: CommandName, word: &str) -> Option<Setting>
    ensures { result ≡ option_of command (λ setting. is_some (held draft.now setting)) word.now }
{
    let Some(setting) = Setting::of_word(word) else {
        return None;
    };
    if setting.belongs(command) && draft.value(setting).is_none() {
        Some(setting)
    } else {
        None
    }
}

// Whether a word is what the command asks of its plain word after so many others.
fn meets_plain(command: CommandName, before: usize, word: &str) -> bool
    ensures { result ≡ meets_plain command before word.now }
{
    match command {
        CommandName::Load if before == 0 => seed_in(word).is_some(),
        CommandName::Load => size_in(word).is_some(),
        CommandName::Run | CommandName::Record | CommandName::Analyze | CommandName::Show => true,
    }
}

// Whether a plain word may stand after so many others.
#[tactic(auto, unfolding(crate::specs::Roles::may_stand))]
fn may_stand(command: CommandName, before: usize, word: &str) -> bool
    ensures { result ≡ may_stand command before word.now }
{
    before < command.plain_count() && is_plain(word) && meets_plain(command, before, word)
}

// The word at an index.
fn word_at(words: &[String], index: usize) -> &str
    requires { index < length words.now }
    ensures { slice_index_or (map string_bytes words.now) index [] ≡ result.now }
{
    words[index].as_str()
}

// Reads the word at an index, and the value after it where it is an option: answers the index of the next.
fn take_next<'a>(
    draft: &mut Draft<'a>,
    command: CommandName,
    words: &'a [String],
    index: usize,
) -> Result<usize, WordsFault>
    requires there { index < length words.now }
    requires few { index ≤ spent draft.old }
    ensures few { IfOk result (λ next. next ≤ spent draft.new) }
    ensures short { result ≡ Err Missing → length words.now ≤ index + 1 }
    ensures next { IfOk result (λ next. (before : List Role) → Holds before draft.old
        → ReadsOn command (map string_bytes words.now) before index next draft.new) }
    ensures refused { IfErr result (λ fault. (before : List Role) → Holds before draft.old
        → Refuses command before
        (roles (index + 2) None (drop index (map string_bytes words.now))) fault) }
{
    let number = index as u32 + 2;
    let word = word_at(words, index);
    if !is_option(word) {
        if !may_stand(command, draft.plain_count(), word) {
            return Err(WordsFault::Word { number });
        }
        draft.add_plain(word);
        return Ok(index + 1);
    }
    let Some(setting) = option_of(draft, command, word) else {
        return Err(WordsFault::Word { number });
    };
    if index + 1 == words.len() {
        return Err(WordsFault::Missing);
    }
    let text = word_at(words, index + 1);
    let number = number + 1;
    if !is_value(setting, text) {
        return Err(WordsFault::Word { number });
    }
    draft.put(setting, Given { text, number });
    Ok(index + 2)
}

// All that the words after the command say, where none of them is bad.
fn draft_of(command: CommandName, words: &[String]) -> Result<Draft<'_>, WordsFault>
    ensures ok { IfOk result (IsDraft command (roles 2 None (map string_bytes words.now))) }
    ensures err { IfErr result (Refuses command [] (roles 2 None (map string_bytes words.now))) }
    ensures few { IfOk result (λ draft. length words.now ≤ 21) }
    ensures short { result ≡ Err Missing → length words.now ≤ 22 }
{
    let mut draft = Draft::new();
    let mut index = 0;
    while index < words.len() {
        index = match take_next(&mut draft, command, words, index) {
            Ok(next) => next,
            Err(fault) => return Err(fault),
        };
    }
    Ok(draft)
}

// The command with this name, of the words after its own.
#[tactic(auto, unfolding(crate::specs::Jobs::read_as))]
fn read_as(command: CommandName, words: &[String]) -> Result<Command<'_>, WordsFault>
    ensures { GivesJob result (read_as command (roles 2 None (map string_bytes words.now))) }
{
    let draft = match draft_of(command, words) {
        Ok(draft) => draft,
        Err(fault) => return Err(fault),
    };
    if draft.plain_count() < command.plain_count() {
        return Err(WordsFault::Missing);
    }
    command_of(command, &draft)
}

// The command that words are, or what is wrong with them.
#[tactic(auto, unfolding(crate::specs::Jobs::job_in))]
fn command_in(words: &[String]) -> Result<Command<'_>, WordsFault>
    ensures { GivesJob result (job_in (map string_bytes words.now)) }
{
    let [first, later @ ..] = words else {
        return Err(WordsFault::Missing);
    };
    match CommandName::of_word(first.as_str()) {
        Some(command) => read_as(command, later),
        None => Err(WordsFault::Word { number: 1 }),
    }
}

/// The command that words are, with all that they say, or what is wrong with them: the first bad word, or that something
/// is missing, or the first word that does not go with the others. It takes no memory.
#[tactic(auto, using(crate::proofs::SoundLaws::sound_of))]
pub fn read_words(words: &[String]) -> Result<Command<'_>, WordsFault>
    ensures exact { GivesJob result (job_in (map string_bytes words.now)) }
    ensures sound { IfOk result (λ command. IsSoundJob (says command)) }
{
    command_in(words)
}

/// The number of the first bad word among these, whatever stands after them. Values that do not go together, and what is
/// missing, are no bad words here. It takes no memory.
#[tactic(auto, unfolding(crate::specs::Jobs::first_bad_in))]
pub fn first_bad_before(words: &[String]) -> Option<u32>
    ensures first { result ≡ first_bad_in (map string_bytes words.now) }
    ensures few { result ≡ None → length words.now ≤ 23 }
{
    let [first, later @ ..] = words else {
        return None;
    };
    let command = match CommandName::of_word(first.as_str()) {
        Some(command) => command,
        None => return Some(1),
    };
    match draft_of(command, later) {
        Err(WordsFault::Word { number }) => Some(number),
        Ok(_) | Err(WordsFault::Missing) => None,
    }
}
