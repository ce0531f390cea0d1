//! The words as a command of `clap`.
ghost use Rattle.std.specs.Prelude.{◌≡◌, ◌⊎◌, ◌≢◌, [], map, IfOk, IfErr};
ghost use Rattle.clap.specs.Words.{app_of, fault_of, found_of, kind_of, matches_of, rows_of};
ghost use Rattle.lt_words.specs.Command.{lt_app};

use clap::error::ErrorKind;
use clap::{Arg, ArgAction, ArgMatches, Command, Error};
use std::alloc::{AllocError, Global};
use std::convert::AsStr;

/// The command line of the program.
fn lt_command<'a>(alloc: Global) -> Result<Command<'a>, AllocError>
    ensures { IfOk result (λ c. app_of c ≡ lt_app) }
{
    let mode = Arg::new(alloc, "mode").required(true);
    let file = Arg::new(alloc, "file").action(ArgAction::Append);
    let summary = Arg::new(alloc, "summary")
        .long("summary")
        .action(ArgAction::SetTrue);
    let limit = Arg::new(alloc, "limit").long("limit");
    Command::new(alloc, "lt")
        .no_binary_name(true)
        .disable_help_flag(true)
        .disable_version_flag(true)
        .arg(mode)?
        .arg(file)?
        .arg(summary)?
        .arg(limit)
}

/// What the command makes of the words.
pub(crate) fn matches_in<'a, S: AsStr>(
    alloc: Global,
    words: &'a [S],
) -> Result<ArgMatches<'a>, Error>
    ensures taken { IfOk result (λ m. fault_of lt_app (map S.text words.entry.now) ≡ []) }
    ensures rows { IfOk result (λ m. rows_of (found_of m)
        ≡ matches_of lt_app (map S.text words.entry.now)) }
    ensures refused { IfErr result (λ e. (kind_of e ≡ ErrorKind.OutOfMemory)
        ⊎ (fault_of lt_app (map S.text words.entry.now) ≢ [])) }
{
    let command = lt_command(alloc)?;
    command.try_get_matches_from(words)
}
