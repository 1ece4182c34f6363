//! What `clap` reads of the words.
ghost use Rattle.std.specs.Prelude.{◌≡◌, ◌≢◌, false, List, ℕ, Option, Some, IfOk, map, option_map, codes};
ghost use Rattle.clap.specs.Words.{app_of, rule_of, with_subcommand};
ghost use Rattle.clap.specs.declared.builder.command.Command.TheViews.{out-Command as fields_of};
ghost use Rattle.bz_cli.specs.Inside.Parser.{bz_app, program_app, marks_rule, value_rule, bare_app, work_app, seen_in, Seen, IsReadAs};
ghost use Rattle.bz_cli.specs.Inside.Founds.{seen_of};
ghost use Rattle.clap.specs.Simple.{subcommand_of};

use crate::error::WordsError;
use clap::error::ErrorKind;
use clap::{Arg, ArgAction, Command};
use std::alloc::{AllocError, Global};

/// What `clap` finds: the name of a command, and the texts of its limit on marks and of its values.
#[derive(Clone, Copy)]
pub(crate) struct Found<'a> {
    pub name: &'a str,
    pub marks: Option<&'a str>,
    pub seed: Option<&'a str>,
    pub calls: Option<&'a str>,
    pub workers: Option<&'a str>,
}

// The limit on marks, as an option.
fn marks_option<'a>(alloc: Global) -> Arg<'a>
    ensures rule { rule_of result ≡ marks_rule }
    ensures local { result.global ≡ false }
{
    Arg::new(alloc, "marks")
        .long("marks")
        .action(ArgAction::Set)
}

// A value, under its name.
fn value<'a>(alloc: Global, id: &'a str) -> Arg<'a>
    ensures rule { rule_of result ≡ value_rule id.entry.now }
    ensures local { result.global ≡ false }
{
    Arg::new(alloc, id).action(ArgAction::Set)
}

// A command without values, under its name.
fn bare<'a>(alloc: Global, name: &'a str) -> Result<Command<'a>, AllocError>
    ensures app { IfOk result (λ bare. app_of bare ≡ bare_app name.entry.now) }
    ensures local { IfOk result (λ bare. (fields_of bare).has_globals ≡ false) }
{
    Command::new(alloc, name).arg(marks_option(alloc))
}

fn work<'a>(alloc: Global) -> Result<Command<'a>, AllocError>
    ensures app { IfOk result (λ work. app_of work ≡ work_app) }
    ensures local { IfOk result (λ work. (fields_of work).has_globals ≡ false) }
{
    Command::new(alloc, "work")
        .arg(value(alloc, "seed"))?
        .arg(value(alloc, "calls"))?
        .arg(value(alloc, "workers"))?
        .arg(marks_option(alloc))
}

// The program, with no command yet, and without help and version.
fn program<'a>(alloc: Global) -> Command<'a>
    ensures { app_of result ≡ program_app }
{
    Command::new(alloc, "bz")
        .no_binary_name(true)
        .disable_help_flag(true)
        .disable_help_subcommand(true)
}

// The program with one command more, which has no values.
fn with_bare<'a>(
    alloc: Global,
    program: Command<'a>,
    name: &'a str,
) -> Result<Command<'a>, AllocError>
    ensures { IfOk result (λ made. app_of made ≡ with_subcommand (app_of program.entry) (bare_app name.entry.now).top) }
{
    program.subcommand(bare(alloc, name)?)
}

// One command with one level of subcommands.
fn parser<'a>(alloc: Global) -> Result<Command<'a>, AllocError>
    ensures { IfOk result (λ parser. app_of parser ≡ bz_app) }
{
    let with_run = with_bare(alloc, program(alloc), "run")?;
    let with_dump = with_bare(alloc, with_run, "dump")?;
    let with_load = with_bare(alloc, with_dump, "load")?;
    let with_trace = with_bare(alloc, with_load, "trace")?;
    let with_queue = with_bare(alloc, with_trace, "queue")?;
    with_queue.subcommand(work(alloc)?)
}

/// Reads the words by `clap`.
pub(crate) fn find<'a>(alloc: Global, words: &'a [&'a str]) -> Result<Found<'a>, WordsError>
    ensures found { IfOk result (λ found. seen_in (subcommand_of bz_app (map (λ word. word.now) words.entry.now)) ≡ Some (seen_of found)) }
    ensures usage { result ≡ Err WordsError.Usage → (seen : Seen) → ¬ IsReadAs (map (λ word. word.now) words.entry.now) seen }
{
    let parser = parser(alloc)?;
    let matches = match parser.try_get_matches_from(words) {
        Ok(matches) => matches,
        Err(error) => return Err(refused(error.kind())),
    };
    match matches.subcommand() {
        Some((name, found)) => Ok(Found {
            name,
            marks: found.get_str("marks"),
            seed: found.get_str("seed"),
            calls: found.get_str("calls"),
            workers: found.get_str("workers"),
        }),
        None => Err(WordsError::Usage),
    }
}

// Why `clap` refused.
fn refused(kind: ErrorKind) -> WordsError
    ensures { result ≡ WordsError.Usage → kind ≢ ErrorKind.OutOfMemory }
{
    match kind {
        ErrorKind::OutOfMemory => WordsError::Memory,
        _ => WordsError::Usage,
    }
}
