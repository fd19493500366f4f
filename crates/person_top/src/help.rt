// Help, and the version.
ghost use Rattle.std.specs.Prelude.{option_copied};
ghost use Rattle.person_top.specs.Help.{IsHelp};

use command_help::{about, overview};

const USAGE: u8 = 10;

/// What is said of all commands, or of the one of this name, and the status.
pub fn help(topic: Option<&str>) -> (u8, &'static str)
    ensures { IsHelp (option_copied topic.entry) result.0 result.1.now }
{
    let Some(name) = topic else {
        return (0, overview());
    };
    match about(name) {
        Some(text) => (0, text),
        None => (USAGE, "usage\n"),
    }
}
