//! What is kept of the words that were read.
ghost use Rattle.std.specs.Prelude.{◌≡◌, ◌+◌, ◌-◌, ◌<◌, ◌≤◌, ◌==◌, if◌then◌else◌, [], ◌∷◌, ◌++◌, length, count_by, Some, None, is_some, option_map, slice_index_or, option_copied};
ghost use Rattle.command_words.specs.declared.table.Setting.{Setting};
ghost use Rattle.command_words.specs.Table.{place};

use crate::table::Setting;

/// The value of an option, and the number of its word.
#[derive(Clone, Copy)]
pub(crate) struct Given<'a> {
    pub(crate) text: &'a str,
    pub(crate) number: u32,
}

/// The values of options and the plain words so far.
#[derive(Clone, Copy)]
pub(crate) struct Draft<'a> {
    values: [Option<Given<'a>>; 9],
    plain: [&'a str; 3],
    plain_count: usize,
    ghost within: { plain_count ≤ 3 },
    ghost whole: { length values ≡ 9 },
}

impl<'a> Draft<'a> {
    ghost use Rattle.command_words.specs.Drafts.{held, plain_held, seen, spent};

    // Before the first word.
    pub(crate) fn new() -> Draft<'a>
        ensures values { (setting : Setting) → held result setting ≡ None }
        ensures plain { plain_held result ≡ [] }
        ensures spent { spent result ≡ 0 }
    {
        Draft {
            values: [None; 9],
            plain: [""; 3],
            plain_count: 0,
        }
    }

    // The value of an option.
    pub(crate) fn value(&self, setting: Setting) -> Option<Given<'a>>
        ensures { option_map seen result ≡ held self.now setting }
    {
        self.values[setting.place()]
    }

    // Keeps the value of an option that has none.
    pub(crate) fn put(&mut self, setting: Setting, given: Given<'a>)
        requires { held self.old setting ≡ None }
        ensures values { (other : Setting) → held self.new other
            ≡ (if place setting == place other then Some (seen given.entry)
            else held self.old other) }
        ensures plain { plain_held self.new ≡ plain_held self.old }
        ensures spent { spent self.new ≡ spent self.old + 2 }
    {
        self.values[setting.place()] = Some(given);
    }

    // How many plain words there are.
    pub(crate) fn plain_count(&self) -> usize
        ensures number { result ≡ length (plain_held self.now) }
    {
        self.plain_count
    }

    // A plain word.
    pub(crate) fn plain_word(&self, index: usize) -> &'a str
        requires { index < length (plain_held self.now) }
        ensures { slice_index_or (plain_held self.now) index [] ≡ result.now }
    {
        self.plain[index]
    }

    // Keeps the next plain word.
    pub(crate) fn add_plain(&mut self, word: &'a str)
        requires { length (plain_held self.old) < 3 }
        ensures plain { plain_held self.new ≡ plain_held self.old ++ word.now ∷ [] }
        ensures values { (other : Setting) → held self.new other ≡ held self.old other }
        ensures spent { spent self.new ≡ spent self.old + 1 }
    {
        self.plain[self.plain_count] = word;
        self.plain_count += 1;
    }
}
