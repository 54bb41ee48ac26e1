//! The command that parses the arguments.
ghost use Rattle.std.specs.Prelude.{◌≡◌, IfOk, map};
ghost use Rattle.clap.specs.Words.{app_of};
ghost use Rattle.cm_words_arguments.specs.Command.{app_for, bare_app, build_app, file_rule, option_rule, with_argument, with_arguments};

use clap::{Arg, ArgAction, Command};
use std::alloc::{AllocError, Global};

/// The command with one option more, of a name within the program and a letter.
fn with_option<'a>(
    alloc: Global,
    command: Command<'a>,
    id: &'a str,
    letter: char,
    action: ArgAction,
) -> Result<Command<'a>, AllocError>
    ensures { IfOk result (λ r. app_of r ≡ with_argument (app_of command.entry) (option_rule id.entry.now letter action)) }
{
    command.arg(Arg::new(alloc, id).short(letter).action(action))
}

/// The command with one argument more that belongs to no option.
fn with_file<'a>(
    alloc: Global,
    command: Command<'a>,
    id: &'a str,
    required: bool,
) -> Result<Command<'a>, AllocError>
    ensures { IfOk result (λ r. app_of r ≡ with_argument (app_of command.entry) (file_rule id.entry.now required)) }
{
    let file = Arg::new(alloc, id)
        .required(required)
        .action(ArgAction::Set);
    command.arg(file)
}

fn bare<'a>(alloc: Global, name: &'a str) -> Command<'a>
    ensures { app_of result ≡ bare_app name.entry.now }
{
    Command::new(alloc, name)
        .disable_help_flag(true)
        .disable_version_flag(true)
}

/// The command with these options more.
fn with_options<'a>(
    alloc: Global,
    command: Command<'a>,
    options: &[(&'a str, char, ArgAction)],
) -> Result<Command<'a>, AllocError>
    ensures { IfOk result (λ r. app_of r
        ≡ with_arguments (app_of command.entry) (map (λ o. option_rule o.0.now o.1 o.2) options.now)) }
{
    let mut command = command;
    for (id, letter, action) in options {
        command = with_option(alloc, command, id, *letter, *action)?;
    }
    Ok(command)
}

/// The command with these arguments more, which belong to no option.
fn with_files<'a>(
    alloc: Global,
    command: Command<'a>,
    files: &[(&'a str, bool)],
) -> Result<Command<'a>, AllocError>
    ensures { IfOk result (λ r. app_of r
        ≡ with_arguments (app_of command.entry) (map (λ f. file_rule f.0.now f.1) files.now)) }
{
    let mut command = command;
    for (id, required) in files {
        command = with_file(alloc, command, id, *required)?;
    }
    Ok(command)
}

/// The command of this name with these options, each with a name within the program and a letter, and then these arguments that belong to
/// no option, each with whether it is required. It fails if memory runs out.
pub fn command<'a>(
    alloc: Global,
    name: &'a str,
    options: &[(&'a str, char, ArgAction)],
    files: &[(&'a str, bool)],
) -> Result<Command<'a>, AllocError>
    ensures app { IfOk result (λ r. app_of r
        ≡ app_for name.entry.now (map (λ o. option_rule o.0.now o.1 o.2) options.now) (map (λ f. file_rule f.0.now f.1) files.now)) }
{
    let command = with_options(alloc, bare(alloc, name), options)?;
    with_files(alloc, command, files)
}

/// The command of a program that makes a file of another, or asks what was made: with the options `-g`, `-z`, `-c`, `-k`, `-m`, `-r` and `-s`,
/// with one option of its own that has a value, by its name within the program and its letter, and with the file whose lines are read, which
/// is required. It fails if memory runs out.
pub fn build_command<'a>(
    alloc: Global,
    name: &'a str,
    own: &'a str,
    letter: char,
) -> Result<Command<'a>, AllocError>
    ensures app { IfOk result (λ r. app_of r ≡ build_app name.entry.now own.entry.now letter) }
{
    let options = [
        ("generate", 'g', ArgAction::SetTrue),
        ("zero", 'z', ArgAction::SetTrue),
        ("ratio", 'c', ArgAction::Set),
        ("first", 'k', ArgAction::Set),
        ("made", 'm', ArgAction::Set),
        ("count", 'r', ArgAction::Set),
        ("seed", 's', ArgAction::Set),
        (own, letter, ArgAction::Set),
    ];
    let files = [("input", true)];
    command(alloc, name, &options, &files)
}
