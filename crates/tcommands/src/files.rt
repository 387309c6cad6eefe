//! The files that a command reads.

ghost use Rattle.std.specs.Prelude.{◌≡◌, IfErr, IfOk, IsErrAnd, IsUtf8, MatchResult, Ok, is_some, length, map};
ghost use Rattle.std.specs.Prelude.{option_copied};
ghost use Rattle.tcommands.specs.Commands.{as_wiring, IsFileFault};
ghost use Rattle.topening.specs.Faults.{IsFaultOf};
ghost use Rattle.twiring.specs.Wirings.{wiring_of_text};

use std::alloc::Global;
use std::{fs, io, str};
use tfiles::{ReadFault, Uncounted, read_whole};
use tnames::{Names, NodeNames, read_names};
use topening::Fault;
use tplan::{FileName, Wiring};
use twiring::read_wiring;
use tword::Items;
use twords::NamesFile;

/// The text of a name that may be left out.
pub fn optional_text(name: &Option<FileName>) -> Option<&str>
    ensures { option_copied result ≡ name.now }
{
    match name {
        Some(name) => Some(name.as_str()),
        None => None,
    }
}

/// The files of a net, as they were read.
#[derive(Drop)]
pub struct NetFiles {
    /// The wiring.
    pub wiring: Wiring,
    /// The bytes of the image of each node, in the order of the nodes.
    pub images: Items<Items<u8>>,
}

/// The files that a command reads which does the events of a log.
#[derive(Drop)]
pub(crate) struct LoggedFiles {
    /// The wiring.
    pub(crate) wiring: Wiring,
    /// The bytes of the image of each node, in the order of the nodes.
    pub(crate) images: Items<Items<u8>>,
    /// The bytes of the log.
    pub(crate) log: Items<u8>,
    /// The names that are asked for.
    pub(crate) names: Items<NodeNames>,
}

/// The files of the net of the wiring file of this name.
///
/// # Errors
/// `File` or `Wiring` for the wiring, `File` for the images in the order of their nodes; else `Memory` where there was
/// none.
pub fn load_net(rt: &HostRuntime, name: &str) -> Result<NetFiles, Fault>
    ensures { IfOk result (λ net. length net.images ≡ length net.wiring.nodes) }
{
    let wiring = load_wiring(rt, name)?;
    let images = load_images(rt, &wiring)?;
    Ok(NetFiles { wiring, images })
}

/// The files of the net of a wiring file, the log of this name, and the names of these files.
///
/// # Errors
/// Those of `load_net`, `File` for the log, `File` or `Names` for each file of names; else `Memory` where there was
/// none.
pub(crate) fn load_logged(
    rt: &HostRuntime,
    wiring: &str,
    log: &str,
    names: &[NamesFile],
) -> Result<LoggedFiles, Fault>
    ensures images { IfOk result (λ files. length files.images ≡ length files.wiring.nodes) }
    ensures names { IfOk result (λ files. map (λ n. n.node) files.names ≡ map (λ f. f.node) names.now) }
{
    let NetFiles { wiring, images } = load_net(rt, wiring)?;
    let log = load(rt, log)?;
    let names = load_names(rt, names)?;
    Ok(LoggedFiles {
        wiring,
        images,
        log,
        names,
    })
}

/// The bytes of a file, at most `LONGEST_FILE`.
pub(crate) fn load(rt: &HostRuntime, name: &str) -> Result<Items<u8>, Fault>
    ensures { IfErr result (IsFileFault name.now) }
{
    let file = match fs::open(rt, name) {
        Ok(file) => file,
        Err(error) if matches!(error.kind(), io::ErrorKind::OutOfMemory) => {
            return Err(Fault::Memory);
        }
        Err(_) => return Err(file_fault(rt.alloc(), name)),
    };
    match read_whole(rt.alloc(), &mut Uncounted(file)) {
        Ok(bytes) => Ok(Items::new(bytes)),
        Err(ReadFault::OutOfMemory) => Err(Fault::Memory),
        Err(ReadFault::Failed | ReadFault::TooLong) => Err(file_fault(rt.alloc(), name)),
    }
}

/// The fault of a file that cannot be read.
pub(crate) fn file_fault(alloc: Global, name: &str) -> Fault
    ensures { IsFileFault name.now result }
{
    match String::from_str(alloc, name) {
        Ok(name) => Fault::File(name),
        Err(_) => Fault::Memory,
    }
}

/// The wiring of a file.
fn load_wiring(rt: &HostRuntime, name: &str) -> Result<Wiring, Fault> {
    let bytes = load(rt, name)?;
    wiring_of(rt.alloc(), name, bytes.as_slice())
}

/// The wiring that the bytes of the file of this name stand for.
///
/// # Errors
/// `File` where they are not UTF-8, else `Wiring` with the lowest fault. `Memory` where the allocator refused.
fn wiring_of(alloc: Global, name: &str, bytes: &[u8]) -> Result<Wiring, Fault>
    ensures text { IsUtf8 bytes.now → MatchResult result
        (λ wiring. wiring_of_text bytes.now ≡ Ok wiring)
        (IsFaultOf (as_wiring (wiring_of_text bytes.now))) }
    ensures no_text { ¬ (IsUtf8 bytes.now) → IsErrAnd result (IsFileFault name.now) }
{
    let Ok(text) = str::from_utf8(bytes) else {
        return Err(file_fault(alloc, name));
    };
    Ok(read_wiring(alloc, text)?)
}

/// The image files of a wiring, in the order of its nodes.
fn load_images(rt: &HostRuntime, wiring: &Wiring) -> Result<Items<Items<u8>>, Fault>
    ensures { IfOk result (λ files. length files ≡ length wiring.now.nodes) }
{
    let mut files = Vec::new(rt.alloc());
    for node in wiring.nodes.as_slice() {
        let file = load(rt, node.image.as_str())?;
        files.push(file)?;
    }
    Ok(Items::new(files))
}

/// The image files of a wiring, in the order of its nodes; none for each that cannot be read.
pub(crate) fn sought_images(
    rt: &HostRuntime,
    wiring: &Wiring,
) -> Result<Items<Option<Items<u8>>>, Fault>
    ensures { IfOk result (λ files. length files ≡ length wiring.now.nodes) }
{
    let mut files = Vec::new(rt.alloc());
    for node in wiring.nodes.as_slice() {
        files.push(sought(rt, node.image.as_str())?)?;
    }
    Ok(Items::new(files))
}

/// The bytes of a file; none where it cannot be read.
fn sought(rt: &HostRuntime, name: &str) -> Result<Option<Items<u8>>, Fault> {
    match load(rt, name) {
        Ok(bytes) => Ok(Some(bytes)),
        Err(Fault::File(_)) => Ok(None),
        Err(fault) => Err(fault),
    }
}

/// The names of the files that are asked for, in their order.
///
/// # Errors
/// `File` or `Names` for each file; else `Memory` where there was none.
pub fn load_names(rt: &HostRuntime, asked: &[NamesFile]) -> Result<Items<NodeNames>, Fault>
    ensures { IfOk result (λ all. map (λ n. n.node) all ≡ map (λ f. f.node) asked.now) }
{
    let mut all = Vec::new(rt.alloc());
    for file in asked {
        let names = names_of_file(rt, file.file.as_str())?;
        all.push(NodeNames {
            node: number_of(file.node),
            names,
        })?;
    }
    Ok(Items::new(all))
}

/// The number of a node, as the names of a node have it.
fn number_of(node: Option<u8>) -> Option<u32>
    ensures { result ≡ node }
{
    match node {
        Some(number) => Some(u32::from(number)),
        None => None,
    }
}

/// The names of the file that labels are asked for by, where one is named.
pub(crate) fn load_labels(rt: &HostRuntime, name: Option<&str>) -> Result<Option<Names>, Fault>
    ensures { IfOk result (λ names. is_some names ≡ is_some name.entry) }
{
    match name {
        Some(name) => Ok(Some(names_of_file(rt, name)?)),
        None => Ok(None),
    }
}

/// The names of a file.
fn names_of_file(rt: &HostRuntime, name: &str) -> Result<Names, Fault> {
    let bytes = load(rt, name)?;
    Ok(read_names(rt.alloc(), bytes.as_slice())?)
}
