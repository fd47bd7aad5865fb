//! `epaxos node`: a replica with its log in a file, which serves requests on standard input. `epaxos collect`: the bundle of
//! logs and receipts. `epaxos contents`: the map of a folder.
//!
//! `main` hands the words to `read_words`, in `command_line.rt`; the commands are tables, in `commands.rt`. For a node of version 2 it opens the
//! log, and hands it and the standard streams to `serve_log`, in `program.rt`, which is all of the node: over any device, source and sinks, so
//! that its contract can say what the bytes and the status mean. It does no more than call `Node::opened` and `ep_serve`'s `serve`.
//! `serve_folder`, in `in_folder.rt`, does the same in the folder of a replica that lives through generations: `staging.rt` says which generation
//! is opened, by `ep_folder`'s plan, and a generation that is closed is gone on from at once. `replaying.rt` reads what a generation opens
//! with, for all commands alike: its file, or the logs before it that references name. `collect_named`, in `collecting.rt`, reads the files
//! of `epaxos collect`, and prints what `ep_assemble`'s `collect_files` makes of them; so do `collect_of` and `show_named` of the files
//! that their commands name.
//!
//! Start with `program.rt` and specs/Served.antt, `collecting.rt` and specs/NamedFiles.antt. A fault has one line on the fault
//! output and one status (`server_fault.rt`, `reporting.rt`, `ep_cli`), as docs/CLI.md, section 6.1, and docs/FORMATS.md, section 10, list them.
#![tactic(auto)]

mod absent;
mod asks;
mod collect_names;
mod collecting;
mod command_line;
mod commands;
mod contents;
mod folder_fault;
mod folder_options;
mod gathered_files;
mod generation_asked;
mod generation_collecting;
mod generation_gathered;
mod generation_start;
mod in_folder;
mod named_file;
mod named_log;
mod named_reference;
mod opened_logs;
mod options;
mod program;
mod replaying;
mod reporting;
mod server_asked;
mod server_fault;
mod staging;
mod unopened;

use crate::asks::Asks;
use crate::collecting::collect_named;
use crate::command_line::read_words;
use crate::contents::show_contents;
use crate::folder_options::FolderOptions;
use crate::generation_collecting::collect_folders;
use crate::in_folder::serve_folder;
use crate::options::Options;
use crate::program::{concluded, serve_log};
use crate::reporting::write_place_fault;
use crate::server_asked::ServerAsked;
use crate::server_fault::ServerFault;
use ep_base::{Noted, Sink, Source};
use ep_cli::{Status, Streams, WordsFault, decline, read_ahead, reported, words};
use ep_device::{DeviceFault, FileDevice, SystemFault};
use ep_folder::{lock_folder, make_place};
use ep_node::OpenFault;
use std::fs::{File, Files};
use std::process::ExitCode;
use std::rt::Env;

fn main(rt: HostRuntime) -> ExitCode {
    let mut fault_writer = Noted::new(rt.stderr());
    let status = match read_ahead(rt.alloc(), rt.stdin()) {
        Ok(reader) => {
            let mut streams = Streams {
                reader,
                writer: Noted::new(rt.stdout()),
                fault_writer,
            };
            run(&rt, &mut streams)
        }
        Err(why) => decline(why, &mut fault_writer),
    };
    ExitCode::from(status.code())
}

/// Does what the words of the command line ask for, and answers how the program ends.
fn run<R: Env + AllocGlobal + Files<File = File>, S: Source, W: Sink, F: Sink>(
    rt: &R,
    streams: &mut Streams<S, W, F>,
) -> Status {
    match words(rt) {
        Ok(words) => obey(rt, &words, streams),
        Err(why) => decline(why, &mut streams.fault_writer),
    }
}

/// Does what these words ask for.
fn obey<R: AllocGlobal + Files<File = File>, S: Source, W: Sink, F: Sink>(
    rt: &R,
    words: &[String],
    streams: &mut Streams<S, W, F>,
) -> Status {
    match read_words(rt.alloc(), words) {
        Ok(asked) => perform(rt, asked, streams),
        Err(why) => decline(why, &mut streams.fault_writer),
    }
}

/// Does what is asked for, and answers how the program ends.
fn perform<R: AllocGlobal + Files<File = File>, S: Source, W: Sink, F: Sink>(
    rt: &R,
    asked: ServerAsked<'_>,
    streams: &mut Streams<S, W, F>,
) -> Status {
    match asked {
        ServerAsked::Node(options) => run_node(rt, &options, streams),
        ServerAsked::Folder(options) => run_folder(rt, &options, streams),
        ServerAsked::Collect(names) => collect_named(rt, &names, streams),
        ServerAsked::CollectGeneration(asked) => collect_folders(rt, asked, streams),
        ServerAsked::Contents(folder) => show_contents(rt, folder, streams),
        ServerAsked::Version => show("epaxos 1.0.0\n", streams),
        ServerAsked::Help(text) => show(text.as_str(), streams),
    }
}

/// Opens the log and serves.
fn run_node<R: AllocGlobal + Files<File = File>, S: Source, W: Sink, F: Sink>(
    rt: &R,
    options: &Options<'_>,
    streams: &mut Streams<S, W, F>,
) -> Status {
    match hold_streams(rt) {
        Ok(held) => {
            let status = serve_node(rt, options, streams);
            drop(held);
            status
        }
        Err(fault) => concluded(Err(fault), &mut streams.fault_writer),
    }
}

/// Serves, as the standard streams are held.
fn serve_node<R: AllocGlobal + Files<File = File>, S: Source, W: Sink, F: Sink>(
    rt: &R,
    options: &Options<'_>,
    streams: &mut Streams<S, W, F>,
) -> Status {
    match FileDevice::open(rt.alloc(), rt, options.log) {
        Ok(device) => serve_log(rt.alloc(), options, device, streams),
        Err(fault) => concluded(
            Err(ServerFault::Open(OpenFault::from(fault))),
            &mut streams.fault_writer,
        ),
    }
}

/// Locks the folder and serves in it.
fn run_folder<R: AllocGlobal + Files<File = File>, S: Source, W: Sink, F: Sink>(
    rt: &R,
    options: &FolderOptions<'_>,
    streams: &mut Streams<S, W, F>,
) -> Status {
    match hold_streams(rt) {
        Ok(held) => {
            let status = serve_locked(rt, options, streams);
            drop(held);
            status
        }
        Err(fault) => concluded(Err(fault), &mut streams.fault_writer),
    }
}

/// Locks the folder and serves in it, as the standard streams are held.
fn serve_locked<R: AllocGlobal + Files<File = File>, S: Source, W: Sink, F: Sink>(
    rt: &R,
    options: &FolderOptions<'_>,
    streams: &mut Streams<S, W, F>,
) -> Status {
    match locked(rt, options) {
        Ok(lock) => {
            let status = serve_folder(rt, options, streams);
            drop(lock);
            status
        }
        Err(fault) => write_place_fault(options.folder, fault, &mut streams.fault_writer),
    }
}

/// The lock of the folder, which is made for a new replica.
fn locked<R: AllocGlobal + Files<File = File>>(
    rt: &R,
    options: &FolderOptions<'_>,
) -> Result<File, DeviceFault> {
    if let Asks::New = options.asks {
        make_place(rt, options.folder)?;
    }
    lock_folder(rt, options.folder)
}

/// Files in the places of standard streams that are closed, so that the log's file takes none of them: answers would be written
/// into it. Of a folder neither a read nor a write succeeds.
fn hold_streams<R: Files<File = File>>(rt: &R) -> Result<(File, File, File), ServerFault> {
    let first = hold_one(rt)?;
    let second = hold_one(rt)?;
    let third = hold_one(rt)?;
    Ok((first, second, third))
}

fn hold_one<R: Files<File = File>>(rt: &R) -> Result<File, ServerFault> {
    match File::open(rt, "/") {
        Ok(file) => Ok(file),
        Err(_) => Err(ServerFault::Open(OpenFault::Failed(SystemFault::Unknown))),
    }
}

/// Prints a text.
fn show<S, W: Sink, F: Sink>(text: &str, streams: &mut Streams<S, W, F>) -> Status {
    match streams.writer.put(text.as_bytes()) {
        Ok(()) => Status::Done,
        Err(_) => reported(
            b"writing failed\n",
            Status::Failed,
            &mut streams.fault_writer,
        ),
    }
}
