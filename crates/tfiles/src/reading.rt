//! Files that are read whole, up to a length.

ghost use Rattle.std.specs.Prelude.{◌≡◌, ◌<◌, ◌≤◌, IfOk, IfSome, OnOk, length};
ghost use Rattle.std.specs.Result.{IsErrOf};
ghost use Rattle.std.specs.Io.KnownBytes.{IsAtEnd};
ghost use Rattle.tfiles.specs.declared.reading.ReadFault.TheVariants.{Failed, OutOfMemory, TooLong};
ghost use Rattle.tfiles.specs.Failures.{HasRisen, HasStayed};

use crate::counted::CountedRead;
use std::alloc::{AllocError, Global};
use thiserror::Error;
use tword::limits::LONGEST_FILE;

/// How many bytes are asked for at once. The piece is cleared for each file, and most images are shorter.
const PIECE: usize = 2_048;

/// Why a file is not read.
#[derive(Clone, Copy, Debug, PartialEq, Eq, Error)]
pub enum ReadFault {
    /// A read failed.
    #[error("the file cannot be read")]
    Failed,
    /// There are more bytes than a file may have.
    #[error("the file has more than 1073741824 bytes")]
    TooLong,
    /// The allocator refused.
    #[error("out of memory")]
    OutOfMemory,
}

impl From<AllocError> for ReadFault {
    ghost from_gives = { λ _ fault. fault ≡ OutOfMemory };

    fn from(_error: AllocError) -> ReadFault {
        ReadFault::OutOfMemory
    }
}

/// All bytes that a reader has left. It takes memory for the bytes that were read, and none ahead.
///
/// # Errors
/// `Failed` where a read failed, an interrupted one too, `TooLong` where more than `LONGEST_FILE` bytes come,
/// `OutOfMemory` where the allocator refused: whichever is first. What was read until then is dropped.
pub fn read_whole<R: CountedRead>(alloc: Global, reader: &mut R) -> Result<Vec<u8>, ReadFault>
    // just the bytes that the reader had left, where they are known, and none is left now
    ensures whole { IfOk result (λ bytes. IfSome (R.remaining reader.old) (λ left. bytes.items ≡ left)) }
    ensures end { OnOk result (IsAtEnd (R.remaining reader.new)) }
    ensures within { IfOk result (λ bytes. length bytes.items ≤ LONGEST_FILE) }

    // a read is said to have failed just where one has, the last that was made
    ensures failed { IsErrOf result Failed → HasRisen (R.failures reader.old) (R.failures reader.new) }
    ensures stayed { ¬ (IsErrOf result Failed) → HasStayed (R.failures reader.old) (R.failures reader.new) }

    // only more bytes are too many
    ensures too_long { IsErrOf result TooLong → IfSome (R.remaining reader.old) (λ left. LONGEST_FILE < length left) }
{
    let mut piece = [0; PIECE];
    read_by_pieces(alloc, reader, &mut piece)
}

/// All bytes that a reader has left, each piece through this buffer.
fn read_by_pieces<R: CountedRead>(
    alloc: Global,
    reader: &mut R,
    piece: &mut [u8],
) -> Result<Vec<u8>, ReadFault>
    requires { 0 < length piece.old }
    ensures whole { IfOk result (λ bytes. IfSome (R.remaining reader.old) (λ left. bytes.items ≡ left)) }
    ensures end { OnOk result (IsAtEnd (R.remaining reader.new)) }
    ensures within { IfOk result (λ bytes. length bytes.items ≤ LONGEST_FILE) }
    ensures failed { IsErrOf result Failed → HasRisen (R.failures reader.old) (R.failures reader.new) }
    ensures stayed { ¬ (IsErrOf result Failed) → HasStayed (R.failures reader.old) (R.failures reader.new) }
    ensures too_long { IsErrOf result TooLong → IfSome (R.remaining reader.old) (λ left. LONGEST_FILE < length left) }
{
    let mut bytes = Vec::new(alloc);
    loop {
        let Ok(count) = reader.read_counted(piece) else {
            return Err(ReadFault::Failed);
        };
        if count == 0 {
            return Ok(bytes);
        }
        if count > LONGEST_FILE - bytes.len() {
            return Err(ReadFault::TooLong);
        }
        bytes.extend_from_slice(&piece[..count])?;
    }
}
