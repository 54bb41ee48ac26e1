//! The command that parses the arguments.
ghost use Rattle.std.specs.Prelude.{◌≡◌, IfOk};
ghost use Rattle.clap.specs.Words.{app_of};
ghost use Rattle.cm_words.specs.Command.{cmph_app};

use clap::{ArgAction, Command};
use std::alloc::{AllocError, Global};

/// The command of `cmph`, with its arguments.
pub fn command<'a>(alloc: Global) -> Result<Command<'a>, AllocError>
    ensures { IfOk result (λ r. app_of r ≡ cmph_app) }
{
    let options = [
        ("help", 'h', ArgAction::SetTrue),
        ("version", 'V', ArgAction::SetTrue),
        ("verbose", 'v', ArgAction::Count),
        ("generate", 'g', ArgAction::SetTrue),
        ("upgrade", 'u', ArgAction::SetTrue),
        ("zero", 'z', ArgAction::SetTrue),
        ("algorithm", 'a', ArgAction::Set),
        ("bits", 'b', ArgAction::Set),
        ("ratio", 'c', ArgAction::Set),
        ("directory", 'd', ArgAction::Set),
        ("hash", 'f', ArgAction::Set),
        ("buffer", 'M', ArgAction::Set),
        ("count", 'r', ArgAction::Set),
        ("seed", 's', ArgAction::Set),
        ("test", 'T', ArgAction::Set),
        ("first", 'k', ArgAction::Set),
        ("function", 'm', ArgAction::Set),
    ];
    let files = [("keys", false)];
    cm_words_arguments::command(alloc, "cmph", &options, &files)
}
