//! The commands and the options.
ghost use Rattle.std.specs.Prelude.{◌≡◌};
ghost use Rattle.command_words.specs.Table.{belongs, command_named, place, plain_count, setting_named};

/// Which command it is.
#[derive(Clone, Copy)]
pub(crate) enum CommandName {
    Run,
    Record,
    Analyze,
    Show,
    Load,
}

impl CommandName {
    // The command of this name.
    #[tactic(auto, unfolding(crate::specs::Table::command_named))]
    pub(crate) fn of_word(word: &str) -> Option<CommandName>
        ensures { result ≡ command_named word.now }
    {
        if word == "run" {
            Some(CommandName::Run)
        } else if word == "record" {
            Some(CommandName::Record)
        } else if word == "analyze" {
            Some(CommandName::Analyze)
        } else if word == "show" {
            Some(CommandName::Show)
        } else if word == "load" {
            Some(CommandName::Load)
        } else {
            None
        }
    }

    // How many plain words it has.
    pub(crate) fn plain_count(self) -> usize
        ensures { result ≡ plain_count self }
    {
        match self {
            CommandName::Run => 2,
            CommandName::Record => 3,
            CommandName::Analyze => 2,
            CommandName::Show => 1,
            CommandName::Load => 2,
        }
    }
}

/// Which option it is.
#[derive(Clone, Copy)]
pub(crate) enum Setting {
    Disk,
    Mode,
    With,
    Require,
    Ram,
    Steps,
    Log,
    Threads,
    Turns,
}

impl Setting {
    // Its place among the options.
    pub(crate) fn place(self) -> usize
        ensures { result ≡ place self }
    {
        self as usize
    }

    // The option that this word stands for.
    #[tactic(auto, unfolding(crate::specs::Table::setting_named))]
    pub(crate) fn of_word(word: &str) -> Option<Setting>
        ensures { result ≡ setting_named word.now }
    {
        if word == "--disk" {
            Some(Setting::Disk)
        } else if word == "--mode" {
            Some(Setting::Mode)
        } else if word == "--with" {
            Some(Setting::With)
        } else if word == "--require" {
            Some(Setting::Require)
        } else if word == "--ram" {
            Some(Setting::Ram)
        } else if word == "--steps" {
            Some(Setting::Steps)
        } else if word == "--log" {
            Some(Setting::Log)
        } else if word == "--threads" {
            Some(Setting::Threads)
        } else if word == "--turns" {
            Some(Setting::Turns)
        } else {
            None
        }
    }

    // Whether the command has this option.
    pub(crate) fn belongs(self, command: CommandName) -> bool
        ensures { result ≡ belongs self command }
    {
        match self {
            Setting::Disk | Setting::Ram | Setting::Steps => {
                matches!(command, CommandName::Run | CommandName::Record)
            }
            Setting::With => matches!(command, CommandName::Run | CommandName::Analyze),
            Setting::Log | Setting::Threads => {
                matches!(command, CommandName::Run | CommandName::Load)
            }
            Setting::Mode | Setting::Require | Setting::Turns => {
                matches!(command, CommandName::Run)
            }
        }
    }
}
