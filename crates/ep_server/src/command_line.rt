//! The words of the command line.

ghost use Rattle.std.specs.Prelude.{◌≡◌, [], ◌∷◌, Bool, cond, Some, None, codes, is_none};
ghost use Rattle.clap.specs.Matches.{first_value, found_of};
ghost use Rattle.clap.specs.Walk.{Text};
ghost use Rattle.ep_base.specs.Quorums.{size as count_of};
ghost use Rattle.ep_folder.specs.Paths.{generation_in as generation_spelled};
ghost use Rattle.ep_node.specs.declared.begin.Begin.TheVariants as begin;
ghost use Rattle.ep_script.specs.Grammar.{replica_of, size_word};
ghost use Rattle.ep_server.specs.Words.{IsFlag, Takes, go_together, has, numbers_text};
ghost use Rattle.ep_server.specs.declared.asks.Asks.TheVariants as asks;

use crate::asks::Asks;
use crate::collect_names::CollectNames;
use crate::commands::{collect, contents, node};
use crate::folder_options::FolderOptions;
use crate::generation_asked::GenerationAsked;
use crate::options::Options;
use crate::server_asked::ServerAsked;
use clap::error::ErrorKind;
use clap::{ArgMatches, Error};
use ep_base::{Generation, ReplicaId, Size};
use ep_cli::{WordsFault, program};
use ep_folder::generation_in;
use ep_node::Begin;
use ep_script::number_in;
use ep_serve::Mode;
use std::alloc::{AllocError, Global};
use std::convert::AsStr;

/// What the words ask for, of which the first is the program's own name. `Words` where they are none that the program knows.
pub(crate) fn read_words<'a, T: AsStr>(
    alloc: Global,
    words: &'a [T],
) -> Result<ServerAsked<'a>, WordsFault> {
    let command = program(alloc, &[node(), collect(), contents()])?;
    match command.try_get_matches_from(words) {
        Ok(matches) => asked_by(alloc, &matches),
        Err(error) => asked_instead(alloc, &error),
    }
}

/// What is asked for where `clap` finds no matches: the version or help at most.
fn asked_instead<'a>(alloc: Global, error: &Error) -> Result<ServerAsked<'a>, WordsFault> {
    match error.kind() {
        ErrorKind::DisplayVersion => Ok(ServerAsked::Version),
        ErrorKind::DisplayHelp => Ok(ServerAsked::Help(error.to_string(alloc)?)),
        ErrorKind::OutOfMemory => Err(WordsFault::from(AllocError)),
        _ => Err(WordsFault::Words(error.to_string(alloc)?)),
    }
}

fn asked_by<'a>(alloc: Global, matches: &ArgMatches<'a>) -> Result<ServerAsked<'a>, WordsFault> {
    if let Some(options) = matches.subcommand_matches("node") {
        return node_by(alloc, options);
    }
    if let Some(options) = matches.subcommand_matches("collect") {
        return collect_by(alloc, options);
    }
    match matches.subcommand_matches("contents") {
        Some(options) => Ok(ServerAsked::Contents(options.get_str("FOLDER").unwrap_or(""))),
        None => Err(WordsFault::Words(String::new(alloc))),
    }
}

/// Which node is asked for: one with its log in a file, or one in a folder.
fn node_by<'a>(alloc: Global, options: &ArgMatches<'a>) -> Result<ServerAsked<'a>, WordsFault> {
    if let Some(why) = clash(options) {
        return Err(declined(alloc, why));
    }
    let size = size_of(alloc, options)?;
    let me = replica_of(alloc, options, size)?;
    let mode = mode_of(alloc, options)?;
    match options.get_str("dir") {
        Some(folder) => Ok(ServerAsked::Folder(FolderOptions {
            size,
            me,
            folder,
            asks: asks_of(options),
            mode,
        })),
        None => Ok(ServerAsked::Node(Options {
            size,
            me,
            log: options.get_str("log").unwrap_or(""),
            begin: begin_of(options),
            mode,
        })),
    }
}

/// Why these options don't go together: one place is to be named, and what is to be begun or taken goes with it.
fn clash(options: &ArgMatches<'_>) -> Option<&'static str>
    ensures { let f = found_of options.now in
        (new : Bool) → IsFlag f (codes "new") new
        → is_none result ≡ go_together (has f (codes "log")) (has f (codes "dir")) (has f (codes "take")) new }
{
    let has_log = options.get_str("log").is_some();
    let has_folder = options.get_str("dir").is_some();
    let takes = options.get_str("take").is_some();
    if has_log && has_folder {
        Some("'--log' and '--dir' don't go together")
    } else if !has_log && !has_folder {
        Some("'--log' or '--dir' is missing")
    } else if takes && has_log {
        Some("'--take' goes with '--dir' alone")
    } else if takes && options.get_flag("new") {
        Some("'--new' and '--take' don't go together")
    } else {
        None
    }
}

/// What is asked of the folder.
fn asks_of<'a>(options: &ArgMatches<'a>) -> Asks<'a>
    ensures take { (name : Text) → first_value (found_of options.now) (codes "take") ≡ Some name → Takes name result }
    ensures other { let f = found_of options.now in
        (new : Bool) → first_value f (codes "take") ≡ None → IsFlag f (codes "new") new
        → result ≡ cond new asks.New asks.GoOn }
{
    match options.get_str("take") {
        Some(name) => Asks::Take(name),
        None if options.get_flag("new") => Asks::New,
        None => Asks::GoOn,
    }
}

/// Whether the log is to be begun.
fn begin_of(options: &ArgMatches<'_>) -> Begin
    ensures { let f = found_of options.now in
        (new : Bool) → IsFlag f (codes "new") new → result ≡ cond new begin.New begin.Existing }
{
    if options.get_flag("new") {
        Begin::New
    } else {
        Begin::Existing
    }
}

/// What is to be collected: of a generation, where one is named.
fn collect_by<'a>(alloc: Global, options: &ArgMatches<'a>) -> Result<ServerAsked<'a>, WordsFault> {
    match options.get_str("generation") {
        Some(word) => generation_by(alloc, word, options),
        None => Ok(ServerAsked::Collect(names_of(alloc, options)?)),
    }
}

/// The generation that is to be collected, and of which folders.
fn generation_by<'a>(
    alloc: Global,
    word: &str,
    options: &ArgMatches<'a>,
) -> Result<ServerAsked<'a>, WordsFault> {
    let Some(generation) = generation_named(word) else {
        return Err(invalid(
            alloc,
            word,
            "--generation <G>",
            ": it takes a number from 1 to 4294967295",
        ));
    };
    let names = names_of(alloc, options)?;
    Ok(ServerAsked::CollectGeneration(GenerationAsked {
        generation,
        folders: names.logs,
        receipts: names.receipts,
    }))
}

/// The generation that the word spells, in decimal without a zero in front.
fn generation_named(word: &str) -> Option<Generation>
    ensures { result ≡ generation_spelled word.now }
{
    let number = generation_in(word.as_bytes())?;
    Generation::new(number).ok()
}

/// The files that are to be collected.
fn names_of(alloc: Global, options: &ArgMatches<'_>) -> Result<CollectNames, AllocError> {
    let logs = texts_of(alloc, options, "LOG")?;
    let receipts = texts_of(alloc, options, "receipts")?;
    Ok(CollectNames { logs, receipts })
}

/// The words after this option, or in this place.
fn texts_of(
    alloc: Global,
    options: &ArgMatches<'_>,
    name: &str,
) -> Result<Vec<String>, AllocError> {
    let mut texts = Vec::new(alloc);
    for word in options.get_raw(name).unwrap_or(&[]) {
        let text = String::from_str(alloc, word)?;
        texts.push(text)?;
    }
    Ok(texts)
}

/// The cluster's size.
fn size_of(alloc: Global, options: &ArgMatches<'_>) -> Result<Size, WordsFault> {
    let word = options.get_str("replicas").unwrap_or("");
    match size_named(word) {
        Some(size) => Ok(size),
        None => Err(invalid(
            alloc,
            word,
            "--replicas <N>",
            "\n  [possible values: 3, 5, 7]",
        )),
    }
}

/// The size that the word spells, as behind `replicas` in a script.
fn size_named(word: &str) -> Option<Size>
    ensures { result ≡ size_word (word.now ∷ []) }
{
    let count = number_in(word.as_bytes(), 3, 7)?;
    Size::new(count as u8).ok()
}

/// The replica's number, which is below the cluster's size.
fn replica_of(
    alloc: Global,
    options: &ArgMatches<'_>,
    size: Size,
) -> Result<ReplicaId, WordsFault> {
    let word = options.get_str("replica").unwrap_or("");
    match replica_named(word, size) {
        Some(replica) => Ok(replica),
        None => Err(invalid(alloc, word, "--replica <R>", numbers_below(size))),
    }
}

/// The replica of such a cluster that the word spells.
fn replica_named(word: &str, size: Size) -> Option<ReplicaId>
    ensures { result ≡ replica_of (count_of size) word.now }
{
    let index = number_in(word.as_bytes(), 0, u64::from(size.count() - 1))?;
    ReplicaId::new(index as u8).ok()
}

/// Which numbers the replicas of a cluster have.
fn numbers_below(size: Size) -> &'static str
    ensures { result.now ≡ numbers_text size }
{
    match size.count() {
        3 => ": it takes a number from 0 to 2",
        5 => ": it takes a number from 0 to 4",
        _ => ": it takes a number from 0 to 6",
    }
}

/// When answers are written.
fn mode_of(alloc: Global, options: &ArgMatches<'_>) -> Result<Mode, WordsFault> {
    let word = options.get_str("sync").unwrap_or("asked");
    if word == "asked" {
        Ok(Mode::Asked)
    } else if word == "each" {
        Ok(Mode::Each)
    } else {
        Err(invalid(
            alloc,
            word,
            "--sync <WHEN>",
            "\n  [possible values: each, asked]",
        ))
    }
}

/// The words are refused: this one is no value of the option, which takes others.
fn invalid(alloc: Global, word: &str, option: &str, takes: &str) -> WordsFault {
    match format!(in alloc; "invalid value {word:?} for '{option}'{takes}") {
        Ok(why) => declined(alloc, why.as_str()),
        Err(fault) => WordsFault::from(fault),
    }
}

/// The words are refused, for this reason.
fn declined(alloc: Global, why: &str) -> WordsFault {
    match format!(in alloc; "error: {why}\n\nFor more information, try '--help'.\n") {
        Ok(text) => WordsFault::Words(text),
        Err(fault) => WordsFault::from(fault),
    }
}
