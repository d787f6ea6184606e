//! The values of `--confirm`.
ghost use Rattle.pad_server.specs.Confirming.{IsConfirm};

use group_commit::Confirm;

/// The most seconds that a reply waits for the standby: a day.
pub const MAX_SECONDS: u32 = 86_400;

/// The condition that replies wait for, by a word of the command line: `strict`, or a number of seconds, 1 to 86,400.
/// None: it is neither.
pub fn confirm_of(word: &str) -> Option<Confirm>
    ensures { IsConfirm word.now result }
{
    if word == "strict" {
        return Some(Confirm::Strict);
    }
    match word.parse::<u32>() {
        Ok(seconds) if 1 <= seconds && seconds <= MAX_SECONDS => Some(Confirm::Within { seconds }),
        _ => None,
    }
}
