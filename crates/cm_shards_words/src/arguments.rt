//! The command that parses the arguments.
ghost use Rattle.std.specs.Prelude.{◌≡◌, IfOk};
ghost use Rattle.clap.specs.Words.{app_of};
ghost use Rattle.cm_shards_words.specs.Command.{files_rule, shards_app};
ghost use Rattle.cm_words_arguments.specs.Command.{with_argument};

use crate::program::PROGRAM;
use clap::{Arg, ArgAction, Command};
use std::alloc::{AllocError, Global};

/// The command with one argument more that belongs to no option, is required, and may be given again.
fn with_many<'a>(
    alloc: Global,
    command: Command<'a>,
    id: &'a str,
) -> Result<Command<'a>, AllocError>
    ensures { IfOk result (λ r. app_of r ≡ with_argument (app_of command.entry) (files_rule id.entry.now)) }
{
    let files = Arg::new(alloc, id).required(true).action(ArgAction::Append);
    command.arg(files)
}

/// The command of `cmph_shards`, with its arguments.
pub fn command<'a>(alloc: Global) -> Result<Command<'a>, AllocError>
    ensures app { IfOk result (λ r. app_of r ≡ shards_app) }
{
    let options = [
        ("join", 'j', ArgAction::SetTrue),
        ("test", 't', ArgAction::SetTrue),
        ("zero", 'z', ArgAction::SetTrue),
        ("dir", 'd', ArgAction::Set),
        ("first", 'k', ArgAction::Set),
        ("manifest", 'm', ArgAction::Set),
        ("shards", 'n', ArgAction::Set),
    ];
    let command = cm_words_arguments::command(alloc, PROGRAM, &options, &[])?;
    with_many(alloc, command, "files")
}
