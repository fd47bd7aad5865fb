//! A node that lives through generations, in the folder of its replica.

ghost use Rattle.std.specs.Prelude.{◌≡◌, ◌++◌, ℕ, List, Option, None, Some, IfOk, IfErr};
ghost use Rattle.ep_cli.specs.Outputs.{became, turned};
ghost use Rattle.ep_node.specs.Nodes.{IsQuiet, origin_of};
ghost use Rattle.ep_node.specs.declared.cut.Cut.{Cut as CutOff};
ghost use Rattle.ep_opening.specs.Bytes.{file_digest};
ghost use Rattle.ep_server.specs.Replays.{origin_from, HasOpened};
ghost use Rattle.ep_server.specs.Served.{reported_first, IsFolderNode, IsNextOf, IsOfFile, IsUnready, ReportsCut, ReportsCuts};

use crate::folder_fault::FolderFault;
use crate::folder_options::FolderOptions;
use crate::generation_start::GenerationStart;
use crate::named_file::NamedFile;
use crate::program::{concluded, opened_as, served, write_first};
use crate::server_fault::ServerFault;
use crate::staging::{check_stage, first_stage, handed_stage};
use ep_base::{Generation, ReplicaId, Sink, Size, Source};
use ep_cli::{Status, Streams};
use ep_device::{Device, FileDevice};
use ep_folder::{GenerationFolder, leave_earlier, log_path};
use ep_node::{CloseFault, Node, OpenFault, Whose};
use ep_opening::{OpeningFile, SpelledFile};
use std::alloc::Global;
use std::fs::File;
use std::rt::Files;

/// Serves as the replica of this folder, in the generation that it is in, until the source is over or a fault stops it, and answers how the
/// program ends. What was cut off a log is reported by a line on the fault output before anything is answered, and what stops the node by one more;
/// where reporting fails, the status stays.
pub fn serve_folder<'a, R: Files<File = File> + AllocGlobal, S: Source, W: Sink, F: Sink>(
    rt: &'a R,
    options: &FolderOptions<'_>,
    streams: &mut Streams<S, W, F>,
) -> Status
    ensures { (zs : List ℕ) → S.left streams.old.reader ≡ Some zs → IsFolderNode (record { has_failed = ⟦<FileDevice<'a, R> as Device>⟧.has_failed; why = ⟦<FileDevice<'a, R> as Device>⟧.why; seen = ⟦<FileDevice<'a, R> as Device>⟧.seen; moment = ⟦<FileDevice<'a, R> as Device>⟧.moment; left_since = ⟦<FileDevice<'a, R> as Device>⟧.left_since })
        options.now.mode options.now.size options.now.me zs result
        (turned S.has_failed streams.old.reader streams.new.reader) (became W.held W.has_failed streams.old.writer streams.new.writer) (became F.held F.has_failed streams.old.fault_writer streams.new.fault_writer) }
{
    match ready(rt, options, &mut streams.fault_writer) {
        Ok(node) => {
            let outcome = served(rt.alloc(), node, options.mode, streams);
            concluded(outcome, &mut streams.fault_writer)
        }
        Err(fault) => concluded(Err(fault), &mut streams.fault_writer),
    }
}

/// The node of the generation that is served: of the cluster's size, and with the origin that a file has.
#[tactic(auto, using(crate::proofs::InFolders::reports_nothing, crate::proofs::InFolders::one_cut, crate::proofs::InFolders::of_this_size))]
fn ready<'a, R: Files<File = File> + AllocGlobal, F: Sink>(
    rt: &'a R,
    options: &FolderOptions<'_>,
    fault_writer: &mut F,
) -> Result<Node<FileDevice<'a, R>>, ServerFault>
    ensures ok { IfOk result (λ node. IsQuiet node × IsOfFile options.now.size options.now.me node) }
    ensures err { IfErr result IsUnready }
    ensures reported { ReportsCuts (became F.held F.has_failed fault_writer.old fault_writer.new) }
{
    let stage = first_stage(rt, options)?;
    check_stage(options.size, &stage)?;
    let generation = stage.named.file.generation();
    let node = open_stage(rt, options, stage, fault_writer)?;
    match closing(rt.alloc(), options.size, &node) {
        Ok(Some(file)) => {
            drop(node);
            ready_next(rt, options, file, fault_writer)
        }
        Ok(None) => of_size(options.size, generation, node),
        Err(fault) => {
            drop(node);
            Err(ServerFault::Folder(fault))
        }
    }
}

/// The node of the generation that this file opens, which closes the one before.
#[tactic(auto, using(crate::proofs::InFolders::reports_nothing))]
fn ready_next<'a, R: Files<File = File> + AllocGlobal, F: Sink>(
    rt: &'a R,
    options: &FolderOptions<'_>,
    file: OpeningFile,
    fault_writer: &mut F,
) -> Result<Node<FileDevice<'a, R>>, ServerFault>
    ensures ok { IfOk result (λ node. IsQuiet node × IsOfFile options.now.size options.now.me node) }
    ensures origin { IfOk result (λ node. origin_of node ≡ origin_from (record { file = file; digest = file_digest file })) }
    ensures err { IfErr result IsUnready }
    ensures reported { ReportsCut (became F.held F.has_failed fault_writer.old fault_writer.new) }
{
    let stage = closed_stage(rt, options.folder, file)?;
    check_stage(options.size, &stage)?;
    let generation = stage.named.file.generation();
    let node = open_stage(rt, options, stage, fault_writer)?;
    of_size(options.size, generation, node)
}

/// The generation that this file opens, which closes the one before. It is on the disk.
fn closed_stage<R: Files<File = File> + AllocGlobal>(
    rt: &R,
    folder: &str,
    file: OpeningFile,
) -> Result<GenerationStart, FolderFault>
    ensures file { IfOk result (λ s. s.named.file ≡ file) }
    ensures digest { IfOk result (λ s. s.named.digest ≡ file_digest file) }
    ensures opened { IfOk result (λ s. HasOpened s.named) }
{
    let file = SpelledFile::write(rt.alloc(), file)?;
    handed_stage(rt, folder, file, false)
}

/// The node, where its cluster has this size.
fn of_size<D: Device + Drop>(
    size: Size,
    generation: Generation,
    node: Node<D>,
) -> Result<Node<D>, ServerFault>
    ensures ok { IfOk result (λ it. (it ≡ node) × (node.replica.faults ≡ size)) }
    ensures err { IfErr result IsUnready }
{
    let found = node.size();
    if found == size {
        Ok(node)
    } else {
        drop(node);
        Err(ServerFault::Folder(FolderFault::OtherSize(
            generation.number(),
            u32::from(found.count()),
        )))
    }
}

/// The file that the next generation opens with, in a cluster of this size, where the node has executed a seal.
fn closing<D: Device>(
    alloc: Global,
    next: Size,
    node: &Node<D>,
) -> Result<Option<OpeningFile>, FolderFault>
    ensures { IfOk result (IsNextOf node.now.replica next) }
{
    match node.close(alloc, next) {
        Ok(file) => Ok(Some(file)),
        Err(CloseFault::NotSealed) => Ok(None),
        Err(CloseFault::LastGeneration) => Err(FolderFault::Last),
        // (or it isn't quiet, which a node that was just opened is)
        Err(_) => Err(FolderFault::Memory),
    }
}

/// Whose log is that of this generation.
fn whose_of(alloc: Global, named: NamedFile, me: ReplicaId) -> Result<Whose, ServerFault>
    ensures cluster { IfOk result (λ whose. whose.cluster ≡ named.file.faults) }
    ensures me { IfOk result (λ whose. whose.me ≡ me) }
    ensures origin { IfOk result (λ whose. whose.origin ≡ origin_from named) }
    ensures err { IfErr result IsUnready }
{
    let cluster = named.file.size();
    match named.into_origin(alloc) {
        Ok(origin) => Ok(Whose {
            cluster,
            me,
            origin,
        }),
        Err(_) => Err(ServerFault::Open(OpenFault::Memory)),
    }
}

/// The device of the log of a generation.
fn device_of<'a, R: Files<File = File> + AllocGlobal>(
    rt: &'a R,
    folder: &str,
    generation: Generation,
) -> Result<FileDevice<'a, R>, ServerFault>
    ensures { IfErr result IsUnready }
{
    let path = match log_path(rt.alloc(), folder, generation) {
        Ok(path) => path,
        Err(_) => return Err(ServerFault::Folder(FolderFault::Memory)),
    };
    match FileDevice::open(rt.alloc(), rt, path.as_str()) {
        Ok(device) => Ok(device),
        Err(fault) => Err(ServerFault::Open(OpenFault::from(fault))),
    }
}

/// The node of a generation, whose log is on the disk. The generations before it are left then.
#[tactic(auto, using(crate::proofs::InFolders::reports_nothing, crate::proofs::InFolders::reports_cut))]
fn open_stage<'a, R: Files<File = File> + AllocGlobal, F: Sink>(
    rt: &'a R,
    options: &FolderOptions<'_>,
    stage: GenerationStart,
    fault_writer: &mut F,
) -> Result<Node<FileDevice<'a, R>>, ServerFault>
    requires { HasOpened stage.named }
    ensures ok { IfOk result (λ node. IsQuiet node × IsOfFile node.replica.faults options.now.me node) }
    ensures origin { IfOk result (λ node. origin_of node ≡ origin_from stage.named) }
    ensures err { IfErr result IsUnready }
    ensures reported { ReportsCut (became F.held F.has_failed fault_writer.old fault_writer.new) }
{
    let GenerationStart { named, begin, held } = stage;
    let generation = named.file.generation();
    let whose = whose_of(rt.alloc(), named, options.me)?;
    let device = device_of(rt, options.folder, generation)?;
    match opened_as(rt.alloc(), device, whose, begin) {
        Ok(node) => {
            let _ = write_first(node.cut(), fault_writer);
            leaving(rt, options.folder, &held, generation, node)
        }
        Err(fault) => Err(ServerFault::Open(fault)),
    }
}

/// The node, once the generations before its own are marked as left.
fn leaving<R: Files<File = File> + AllocGlobal, D: Device + Drop>(
    rt: &R,
    folder: &str,
    held: &[GenerationFolder],
    generation: Generation,
    node: Node<D>,
) -> Result<Node<D>, ServerFault>
    ensures ok { IfOk result (λ it. it ≡ node) }
    ensures err { IfErr result IsUnready }
{
    match leave_earlier(rt, folder, held, generation) {
        Ok(()) => Ok(node),
        Err(fault) => {
            drop(node);
            Err(ServerFault::Folder(FolderFault::from(fault)))
        }
    }
}
