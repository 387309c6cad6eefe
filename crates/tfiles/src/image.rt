//! Images: what is loaded into a node, as bytes.

ghost use Rattle.std.specs.Prelude.{◌≡◌, IsErrOf, IsOk, MatchOption, MatchResult, option_map, bytes_eq, take, drop};
ghost use Rattle.std.specs.Prelude.{true, false};
ghost use Rattle.tfiles.specs.Images.{image_of, body_of, magic, word_in, segment_in, process_in, parts_in};
ghost use Rattle.tfiles.specs.Images.{left_over, IsImageAnswer, IsPartFault};
ghost use Rattle.tfiles.specs.declared.image.ImageFault.TheVariants.{OutOfMemory};

use byteorder::{ByteOrder, LittleEndian};
use std::alloc::{AllocError, AllocFailed, Global};
use thiserror::Error;
use tplan::plan::{Image, Process, Segment};
use tword::limits::{MOST_PROCESSES, MOST_SEGMENTS};
use tword::{Items, Word};

/// Why bytes are no image.
#[derive(Clone, Copy, Debug, PartialEq, Eq, Error)]
pub enum ImageFault {
    /// The first eight bytes are not those that every image begins with.
    #[error("the bytes do not begin with `TEMUIMG1`")]
    BadMagic,
    /// There are more than 4,096 segments or more than 512 processes.
    #[error("there are more than 4096 segments or more than 512 processes")]
    TooMany,
    /// The bytes end before the image does.
    #[error("the image ends too soon")]
    Truncated,
    /// There are bytes behind the image.
    #[error("there are bytes behind the image")]
    Trailing,
    /// The allocator refused.
    #[error("out of memory")]
    OutOfMemory,
}

impl<T: Drop> From<AllocFailed<T>> for ImageFault {
    ghost from_gives = { λ _ fault. fault ≡ OutOfMemory };

    fn from(_error: AllocFailed<T>) -> ImageFault {
        ImageFault::OutOfMemory
    }
}

impl From<AllocError> for ImageFault {
    ghost from_gives = { λ _ fault. fault ≡ OutOfMemory };

    fn from(_error: AllocError) -> ImageFault {
        ImageFault::OutOfMemory
    }
}

/// What every image begins with (own choice).
const MAGIC: &[u8] = b"TEMUIMG1";

/// The image that bytes stand for (own choice of format): eight bytes `TEMUIMG1`, the numbers of segments and of
/// processes, each segment as its address, its length and its bytes, and each process as its descriptor and its
/// first address. A number is a word, its lowest byte first.
///
/// No memory is asked for where the bytes are no image.
///
/// # Errors
/// The first of these that holds: `BadMagic`, `TooMany` for a count over its limit (also where the bytes end behind
/// it), `Truncated`, `Trailing`. `OutOfMemory` where the allocator refuses, but never where another fault holds.
#[tactic(auto, unfolding(crate::specs::Images::image_of))]
pub fn read_image(alloc: Global, bytes: &[u8]) -> Result<Image, ImageFault>
    ensures answer { IsImageAnswer (image_of bytes.now) result }

    // memory can be lacking only for an image
    ensures wanted { IsErrOf result OutOfMemory → IsOk (image_of bytes.now) }
{
    let Some(counts) = after_magic(bytes) else {
        return Err(ImageFault::BadMagic);
    };
    let Some((segments, rest)) = word(counts) else {
        return Err(ImageFault::Truncated);
    };
    if segments as usize > MOST_SEGMENTS {
        return Err(ImageFault::TooMany);
    }
    let Some((processes, rest)) = word(rest) else {
        return Err(ImageFault::Truncated);
    };
    if processes as usize > MOST_PROCESSES {
        return Err(ImageFault::TooMany);
    }
    body(alloc, segments, processes, rest)
}

/// Segments and processes, and no byte behind them. A fault is told before memory is asked for.
fn body(
    alloc: Global,
    segment_count: u32,
    process_count: u32,
    bytes: &[u8],
) -> Result<Image, ImageFault>
    ensures answer { IsImageAnswer (body_of segment_count process_count bytes.now) result }
    ensures wanted { IsErrOf result OutOfMemory → IsOk (body_of segment_count process_count bytes.now) }
{
    first_fault(segment_count, process_count, bytes)?;
    let (segments, rest) = segments(alloc, segment_count, bytes)?;
    let (processes, _none) = processes(alloc, process_count, rest)?;
    Ok(Image {
        segments: Items::new(segments),
        processes: Items::new(processes),
    })
}

/// Whether segments and processes are there, and no byte behind them.
///
/// # Errors
/// `Truncated`, `Trailing`.
fn first_fault(segment_count: u32, process_count: u32, bytes: &[u8]) -> Result<(), ImageFault>
    ensures { MatchResult result
        (λ _. IsOk (body_of segment_count process_count bytes.now))
        (λ fault. body_of segment_count process_count bytes.now ≡ Err fault) }
{
    let Some(rest) = behind_segments(segment_count, bytes) else {
        return Err(ImageFault::Truncated);
    };
    let Some(rest) = behind_processes(process_count, rest) else {
        return Err(ImageFault::Truncated);
    };
    if !rest.is_empty() {
        return Err(ImageFault::Trailing);
    }
    Ok(())
}

/// The bytes behind some segments.
fn behind_segments(count: u32, bytes: &[u8]) -> Option<&[u8]>
    ensures { option_map (λ rest. rest.now) result ≡ left_over (parts_in segment_in count bytes.now) }
{
    let mut rest = bytes;
    for _place in 0..count {
        let Some((_address, _held, behind)) = segment_at(rest) else {
            return None;
        };
        rest = behind;
    }
    Some(rest)
}

/// The bytes behind some processes.
fn behind_processes(count: u32, bytes: &[u8]) -> Option<&[u8]>
    ensures { option_map (λ rest. rest.now) result ≡ left_over (parts_in process_in count bytes.now) }
{
    let mut rest = bytes;
    for _place in 0..count {
        let Some((_process, behind)) = process(rest) else {
            return None;
        };
        rest = behind;
    }
    Some(rest)
}

/// What stands behind the magic bytes, if they are there.
fn after_magic(bytes: &[u8]) -> Option<&[u8]>
    ensures { MatchOption result
        (bytes_eq (take 8 bytes.now) magic ≡ false)
        (λ rest. (bytes_eq (take 8 bytes.now) magic ≡ true) × (rest.now ≡ drop 8 bytes.now)) }
{
    if bytes.len() < 8 || &bytes[..8] != MAGIC {
        return None;
    }
    Some(&bytes[8..])
}

/// A word, and the bytes behind it.
fn word(bytes: &[u8]) -> Option<(u32, &[u8])>
    ensures { option_map (λ part. (part.0, part.1.now)) result ≡ word_in bytes.now }
{
    if bytes.len() < 4 {
        return None;
    }
    let (head, rest) = bytes.split_at(4);
    Some((LittleEndian::read_u32(head), rest))
}

/// The address of a segment, its bytes where they stand, and the bytes behind it.
fn segment_at(bytes: &[u8]) -> Option<(u32, &[u8], &[u8])>
    ensures { option_map (λ part. (record { address = part.0; bytes = part.1.now }, part.2.now)) result
        ≡ segment_in bytes.now }
{
    let (address, rest) = word(bytes)?;
    let (size, rest) = word(rest)?;
    let size = size as usize;
    if rest.len() < size {
        return None;
    }
    let (held, rest) = rest.split_at(size);
    Some((address, held, rest))
}

/// A segment, and the bytes behind it.
fn segment(alloc: Global, bytes: &[u8]) -> Result<(Segment, &[u8]), ImageFault>
    ensures { MatchResult result
        (λ part. segment_in bytes.now ≡ Some (part.0, part.1.now))
        (λ fault. IsPartFault (segment_in bytes.now) fault) }
{
    let Some((address, held, rest)) = segment_at(bytes) else {
        return Err(ImageFault::Truncated);
    };
    let bytes = Vec::from_slice(alloc, held)?;
    Ok((
        Segment {
            address: Word::new(address),
            bytes: Items::new(bytes),
        },
        rest,
    ))
}

/// A process, and the bytes behind it.
fn process(bytes: &[u8]) -> Option<(Process, &[u8])>
    ensures { option_map (λ part. (part.0, part.1.now)) result ≡ process_in bytes.now }
{
    let (wdesc, rest) = word(bytes)?;
    let (iptr, rest) = word(rest)?;
    Some((
        Process {
            wdesc: Word::new(wdesc),
            iptr: Word::new(iptr),
        },
        rest,
    ))
}

/// Some segments, and the bytes behind them.
fn segments(alloc: Global, count: u32, bytes: &[u8]) -> Result<(Vec<Segment>, &[u8]), ImageFault>
    ensures { MatchResult result
        (λ part. parts_in segment_in count bytes.now ≡ Some (part.0.items, part.1.now))
        (λ fault. IsPartFault (parts_in segment_in count bytes.now) fault) }
{
    let mut segments = Vec::new(alloc);
    let mut rest = bytes;
    for _place in 0..count {
        let (segment, behind) = segment(alloc, rest)?;
        segments.push(segment)?;
        rest = behind;
    }
    Ok((segments, rest))
}

/// Some processes, and the bytes behind them.
fn processes(alloc: Global, count: u32, bytes: &[u8]) -> Result<(Vec<Process>, &[u8]), ImageFault>
    ensures { MatchResult result
        (λ part. parts_in process_in count bytes.now ≡ Some (part.0.items, part.1.now))
        (λ fault. IsPartFault (parts_in process_in count bytes.now) fault) }
{
    let mut processes = Vec::new(alloc);
    let mut rest = bytes;
    for _place in 0..count {
        let Some((process, behind)) = process(rest) else {
            return Err(ImageFault::Truncated);
        };
        processes.push(process)?;
        rest = behind;
    }
    Ok((processes, rest))
}
