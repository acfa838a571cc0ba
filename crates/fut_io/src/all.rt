// Whole texts in and out.
ghost use Rattle.std.specs.Prelude.{◌≡◌, ◌≤◌, ◌+◌, ◌++◌, vec_len, length, IfOk, OnOk, IsOkUnless, OnErr, IsErrOf};
ghost use Rattle.fut_io.specs.Counts.{Rose};
ghost use Rattle.fut_io.specs.Outside.{AllRead, ReadPast, ReadPart, Took, TookPart};

use crate::{Failed, Sink, Source};
use fut_scalar::List;
use std::alloc::Global;

/// Why a source's bytes were not read to their end.
#[derive(Clone, Copy, Debug, PartialEq, Eq)]
pub enum ReadErr {
    /// The source failed, and counted a fault.
    Failed,
    /// More than the allowed bytes were there.
    TooLong,
    /// Memory ran out.
    Memory,
}

// The bytes that one read asks for: enough that the calls cost little, and few enough for any stack.
const ROOM: usize = 16_384;

/// Puts a piece behind the bytes.
fn append(bytes: &mut Vec<u8>, piece: &[u8]) -> Result<(), ReadErr>
    ensures memory { IsOkUnless result ReadErr.Memory }
    ensures items { OnOk result (bytes.new.items ≡ bytes.old.items ++ piece.now) }
    ensures len { OnOk result (vec_len bytes.new ≡ vec_len bytes.old + length piece.now) }
{
    bytes.extend_from_slice(piece).map_err(|_| ReadErr::Memory)
}

/// All the bytes that a source has left, unless they are more than `max`. After a refusal some of them are taken.
pub fn read_all<S: Source>(alloc: Global, src: &mut S, max: u64) -> Result<List<u8>, ReadErr>
    ensures ok { IfOk result (λ bytes. AllRead (S.seen src.old) (S.seen src.new) bytes) }
    ensures short { IfOk result (λ bytes. length bytes ≤ max) }
    ensures failed { IsErrOf result ReadErr.Failed → Rose (S.seen src.old).faults (S.seen src.new).faults }
    ensures too_long { IsErrOf result ReadErr.TooLong → ReadPast (S.seen src.old) (S.seen src.new) max }
    ensures memory { IsErrOf result ReadErr.Memory → (S.seen src.new).faults ≡ (S.seen src.old).faults }
    ensures part { OnErr result (ReadPart (S.seen src.old) (S.seen src.new)) }
{
    let mut bytes: Vec<u8> = Vec::new(alloc);
    let mut buffer = [0u8; ROOM];
    loop {
        let count = match src.read(&mut buffer) {
            Ok(count) => count,
            Err(_) => return Err(ReadErr::Failed),
        };
        if count == 0 {
            return Ok(List::from_vec(bytes));
        }
        let room = max - bytes.len() as u64;
        if room < count {
            return Err(ReadErr::TooLong);
        }
        append(&mut bytes, &buffer[..count as usize])?;
    }
}

/// Writes all the bytes. After a fault a first part of them is taken. It takes no memory.
pub fn write_all<K: Sink>(sink: &mut K, bytes: &[u8]) -> Result<(), Failed>
    ensures ok { OnOk result (Took (K.seen sink.old) (K.seen sink.new) bytes.now) }
    ensures failed { OnErr result (TookPart (K.seen sink.old) (K.seen sink.new) bytes.now) }
{
    let mut done = 0usize;
    while done < bytes.len() {
        let count = sink.write(&bytes[done..])?;
        done += count as usize;
    }
    Ok(())
}
