//! Reading a whole input, up to a limit: into memory that is taken once, or that grows with what comes.
//!
//! Neither way requests a byte after the limit, or calls the device once the limit is reached. A read fails exactly
//! where the device failed, or was interrupted for the 1,000th time in the call.

ghost use Rattle.std.specs.Prelude.{◌≡◌, ◌<◌, ◌≤◌};
ghost use Rattle.drain_device.specs.Names.{Consumes, IsAtEnd, IfOk, OnErr, IsErrOf, vec_len, vec_capacity};
ghost use Rattle.drain_device.specs.Failing.{ReadFails};
ghost use Rattle.drain_device.specs.Reads.{ReadsUpTo, TakesAtMost};

use crate::patience::Patience;
use crate::read::{BodyFault, read_full};
use crate::source::ByteSource;
use std::alloc::Global;

/// How many bytes one call requests.
pub const CHUNK_BYTES: usize = 16384;

/// Reads what the device has left, up to `limit` bytes. Memory is taken once, for `limit` bytes; if there is none,
/// nothing is read.
pub fn read_body<R: ByteSource>(
    alloc: Global,
    from: &mut R,
    limit: usize,
) -> Result<Vec<u8>, BodyFault>
    ensures bound { IfOk result (λ body. vec_len body ≤ limit) }
    ensures bytes { IfOk result (λ body. ReadsUpTo limit (R.bytes_left from.old) (R.bytes_left from.new) body.items) }
    ensures within { OnErr result (TakesAtMost limit (R.bytes_left from.old) (R.bytes_left from.new)) }
    ensures no_memory { IsErrOf result BodyFault.OutOfMemory → from.new ≡ from.old }
    ensures faults { ReadFails (R.counts from.old) (R.counts from.new) (IsErrOf result BodyFault.ReadFailed) }
{
    match Vec::with_capacity(alloc, limit) {
        Ok(empty) => read_into(empty, from, limit),
        Err(_) => Err(BodyFault::OutOfMemory),
    }
}

/// Reads what the device has left, up to `limit` bytes. Memory grows with what came, to at most about twice as much;
/// `OutOfMemory` comes if there is none for one more chunk.
pub fn read_whole<R: ByteSource>(
    alloc: Global,
    from: &mut R,
    limit: usize,
) -> Result<Vec<u8>, BodyFault>
    ensures bound { IfOk result (λ body. vec_len body ≤ limit) }
    ensures bytes { IfOk result (λ body. ReadsUpTo limit (R.bytes_left from.old) (R.bytes_left from.new) body.items) }
    ensures end { IfOk result (λ body. vec_len body < limit → IsAtEnd (R.bytes_left from.new)) }
    ensures came { IfOk result (λ body. Consumes (R.bytes_left from.old) (R.bytes_left from.new) body.items) }
    ensures within { OnErr result (TakesAtMost limit (R.bytes_left from.old) (R.bytes_left from.new)) }
    ensures faults { ReadFails (R.counts from.old) (R.counts from.new) (IsErrOf result BodyFault.ReadFailed) }
{
    read_into(Vec::new(alloc), from, limit)
}

/// Reads what the device has left, up to `limit` bytes, into a vector that is empty. With room for `limit` bytes it
/// isn't out of memory.
fn read_into<R: ByteSource>(
    mut body: Vec<u8>,
    from: &mut R,
    limit: usize,
) -> Result<Vec<u8>, BodyFault>
    requires { vec_len body ≡ 0 }
    ensures bound { IfOk result (λ whole. vec_len whole ≤ limit) }
    ensures bytes { IfOk result (λ whole. ReadsUpTo limit (R.bytes_left from.old) (R.bytes_left from.new) whole.items) }
    ensures end { IfOk result (λ whole. vec_len whole < limit → IsAtEnd (R.bytes_left from.new)) }
    ensures came { IfOk result (λ whole. Consumes (R.bytes_left from.old) (R.bytes_left from.new) whole.items) }
    ensures within { OnErr result (TakesAtMost limit (R.bytes_left from.old) (R.bytes_left from.new)) }
    ensures faults { ReadFails (R.counts from.old) (R.counts from.new) (IsErrOf result BodyFault.ReadFailed) }
    ensures room { limit ≤ vec_capacity body → ¬ IsErrOf result BodyFault.OutOfMemory }
{
    let mut patience = Patience::new();
    let mut chunk = [0; CHUNK_BYTES];
    'chunks: while body.len() < limit {
        let expected = CHUNK_BYTES.min(limit - body.len());
        let Ok(came) = read_full(from, &mut chunk[..expected], &mut patience) else {
            return Err(BodyFault::ReadFailed);
        };
        let Ok(()) = body.extend_from_slice(&chunk[..came]) else {
            return Err(BodyFault::OutOfMemory);
        };
        if came < expected {
            return Ok(body);
        }
    }
    Ok(body)
}
