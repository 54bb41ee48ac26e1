//! The command that parses the arguments.
ghost use Rattle.std.specs.Prelude.{◌≡◌, IfOk};
ghost use Rattle.clap.specs.Words.{app_of};
ghost use Rattle.cm_judge_words.specs.Command.{judge_app};

use clap::{ArgAction, Command};
use std::alloc::{AllocError, Global};

/// The command of `cmph_judge`, with its arguments.
pub fn command<'a>(alloc: Global) -> Result<Command<'a>, AllocError>
    ensures app { IfOk result (λ r. app_of r ≡ judge_app) }
{
    let options = [
        ("zero", 'z', ArgAction::SetTrue),
        ("width", 'b', ArgAction::Set),
        ("ratio", 'c', ArgAction::Set),
        ("first", 'k', ArgAction::Set),
    ];
    let files = [("report", true), ("keys", true)];
    cm_words_arguments::command(alloc, "cmph_judge", &options, &files)
}
