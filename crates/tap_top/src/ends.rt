//! Reading a source to its end, and writing a text to a sink.

ghost use Rattle.std.specs.Prelude.{◌≡◌, ℕ, ◌<◌, ◌≤◌, List, [], length, IfOk, OnOk, IsErrOf};
ghost use Rattle.std.specs.Io.KnownBytes.{Consumes};
ghost use Rattle.tap_ground.specs.Counts.{one_more};
ghost use Rattle.tap_top.specs.Course.{ReadFails, ReadsPiece, ReadsWell};
ghost use Rattle.tap_top.specs.Top.{Breaks, Stops, TakesInput, Writes, sink_between, source_between};
ghost use Rattle.tap_top.specs.declared.ends.ReadError.TheVariants.{NoMemory, SourceFailed};

use scen_text::MAX_BYTES;
use std::alloc::{AllocError, Global};
use tap_outside::{Failed, Sink, SinkErr, Source};
use thiserror::Error;

/// How many bytes are asked for at once.
const PIECE: usize = 65_536;

/// Why a source wasn't read to its end.
#[derive(Clone, Copy, Debug, PartialEq, Eq, Error)]
pub enum ReadError {
    /// The source failed.
    #[error("the source failed")]
    SourceFailed,
    /// Memory ran out.
    #[error("out of memory")]
    NoMemory,
}

impl From<AllocError> for ReadError {
    ghost from_gives = { λ _ e. e ≡ NoMemory };

    fn from(_e: AllocError) -> ReadError {
        ReadError::NoMemory
    }
}

impl From<Failed> for ReadError {
    ghost from_gives = { λ _ e. e ≡ SourceFailed };

    fn from(_e: Failed) -> ReadError {
        ReadError::SourceFailed
    }
}

// Adds the next piece of the source to the bytes, and answers how long it is.
fn read_piece<S: Source>(
    source: &mut S,
    room: &mut [u8],
    bytes: &mut Vec<u8>,
) -> Result<usize, ReadError>
    requires { 0 < length room.old }
    ensures read { IfOk result (ReadsPiece (S.left source.old) (S.left source.new)
        bytes.old.items bytes.new.items (length room.old)) }
    ensures no_fault { OnOk result (S.faults source.new ≡ S.faults source.old) }
    ensures well { S.ends_well source.old → IfOk result (λ n. 0 < n → S.ends_well source.new) }
    ensures failed { IsErrOf result ReadError.SourceFailed → Consumes (S.left source.old) (S.left source.new) []
        × (S.faults source.new ≡ one_more (S.faults source.old)) × (S.ends_well source.old → ⊥) }
    ensures no_memory { IsErrOf result ReadError.NoMemory → (piece : List ℕ)
        × Consumes (S.left source.old) (S.left source.new) piece × (length piece ≤ length room.old)
        × (S.faults source.new ≡ S.faults source.old) }
{
    let n = source.read(room)?;
    bytes.extend_from_slice(&room[..n])?;
    Ok(n)
}

/// The bytes of the source up to its end, or up to one byte more than the limit of a scenario.
pub fn read_all<S: Source>(alloc: Global, source: &mut S) -> Result<Vec<u8>, ReadError>
    ensures input { IfOk result (λ bytes. TakesInput
        (source_between (S.left source.old) (S.left source.new)
        (S.faults source.old) (S.faults source.new)) bytes.items) }
    ensures no_fault { OnOk result (S.faults source.new ≡ S.faults source.old) }
    ensures failed { IsErrOf result ReadError.SourceFailed → ReadFails (source_between
        (S.left source.old) (S.left source.new) (S.faults source.old) (S.faults source.new)) (S.ends_well source.old) }
    ensures no_memory { IsErrOf result ReadError.NoMemory → (bytes : List ℕ)
        × ReadsWell (source_between (S.left source.old) (S.left source.new)
        (S.faults source.old) (S.faults source.new)) bytes }
{
    let mut room = vec![in alloc; 0u8; PIECE]?;
    let mut bytes = Vec::new(alloc);
    while bytes.len() <= MAX_BYTES {
        let most = room.len().min(MAX_BYTES + 1 - bytes.len());
        if read_piece(source, &mut room[..most], &mut bytes)? == 0 {
            return Ok(bytes);
        }
    }
    Ok(bytes)
}

/// Writes all of the text, in as many pieces as the sink takes.
pub fn write_all<K: Sink>(sink: &mut K, text: &[u8]) -> Result<(), SinkErr>
    ensures all { OnOk result (Writes
        (sink_between (K.written sink.old) (K.written sink.new) (K.faults sink.old) (K.faults sink.new)) text.now) }
    ensures failed { IsErrOf result SinkErr.Failed → Breaks
        (sink_between (K.written sink.old) (K.written sink.new) (K.faults sink.old) (K.faults sink.new)) text.now
        × (K.is_reliable sink.old → ⊥) }
    ensures no_memory { IsErrOf result SinkErr.NoMemory → Stops
        (sink_between (K.written sink.old) (K.written sink.new) (K.faults sink.old) (K.faults sink.new)) text.now }
{
    let mut done = 0;
    while done < text.len() {
        done += sink.write(&text[done..])?;
    }
    Ok(())
}
