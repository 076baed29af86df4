//! Reading a file whole.

ghost use Rattle.std.specs.Prelude.{◌≡◌, ℕ, ◌<◌, ◌≤◌, ◌++◌, [], ◌∷◌, length, max, take, IsTrue, IfSome, IfOk};
ghost use Rattle.std.specs.Prelude.{OnOk, OnErr, IsErrOf};
ghost use Rattle.mon_outside.specs.Causes.{Rose};
ghost use Rattle.mon_outside.specs.Files.{ToldFiles, content};
ghost use Rattle.mon_outside.specs.Inputs.{Moves, GaveBytes, GaveAtMost, Loads, IsLonger, StopsIn, asked_more};

use crate::limits::BUFFER;
use crate::{Inputs, LoadFault, ReadFault};
use std::alloc::Global;

/// Reads once, and puts what was given behind the bytes. Answers how many bytes were given: 0 is the
/// file's end.
pub fn read_more<I: Inputs>(
    inputs: &mut I,
    buffer: &mut [u8],
    bytes: &mut Vec<u8>,
) -> Result<usize, ReadFault>
    requires room { 0 < length buffer.old }
    requires opened { IsTrue (I.is_open inputs.old) }
    ensures files { I.files inputs.new ≡ I.files inputs.old }
    ensures stays_open { I.is_open inputs.new ≡ I.is_open inputs.old }
    ensures asks_nothing { I.asked inputs.new ≡ I.asked inputs.old }
    ensures within { IfOk result (λ count. count ≤ length buffer.new) }
    ensures moves { IfOk result (Moves (I.rest inputs.old) (I.rest inputs.new) buffer.new) }
    ensures appended { IfOk result (λ count.
        bytes.new.items ≡ bytes.old.items ++ take count buffer.new) }
    ensures kept { OnErr result (bytes.new.items ≡ bytes.old.items) }
    ensures failed { OnErr result (I.rest inputs.new ≡ I.rest inputs.old) }
    ensures later { I.faults inputs.old ≤ I.faults inputs.new }
    ensures cause { IsErrOf result ReadFault.Failed
        → Rose (I.faults inputs.old) (I.faults inputs.new) }
    ensures memory { IsErrOf result ReadFault.Memory → I.faults inputs.new ≡ I.faults inputs.old }
{
    bytes.reserve(buffer.len())?;
    match inputs.read(buffer) {
        Ok(count) => {
            bytes.extend_from_slice(&buffer[..count]).unwrap();
            Ok(count)
        }
        Err(_) => Err(ReadFault::Failed),
    }
}

/// Reads the open file to its end, and puts all that is given behind the bytes, in each case: also where
/// it errs, `bytes` has what was given before. The limit is one on all of `bytes`.
pub fn read_to_end<I: Inputs>(
    alloc: Global,
    inputs: &mut I,
    bytes: &mut Vec<u8>,
    limit: u64,
) -> Result<(), LoadFault>
    requires { IsTrue (I.is_open inputs.old) }
    ensures files { I.files inputs.new ≡ I.files inputs.old }
    ensures stays_open { I.is_open inputs.new ≡ I.is_open inputs.old }
    ensures asks_nothing { I.asked inputs.new ≡ I.asked inputs.old }
    ensures gave { GaveBytes (I.rest inputs.old) (I.rest inputs.new) bytes.old.items bytes.new.items }
    ensures whole { OnOk result (IfSome (I.rest inputs.old) (λ rest.
        bytes.new.items ≡ bytes.old.items ++ rest)) }
    ensures within { OnOk result (length bytes.new.items ≤ limit) }
    ensures too_long { IsErrOf result LoadFault.TooLong → limit < length bytes.new.items }
    ensures few { IsErrOf result LoadFault.Failed
        → length bytes.new.items ≤ max limit (length bytes.old.items) }
    ensures later { I.faults inputs.old ≤ I.faults inputs.new }
    ensures cause { IsErrOf result LoadFault.Failed
        → Rose (I.faults inputs.old) (I.faults inputs.new) }
{
    let mut buffer = vec![in alloc; 0u8; BUFFER]?;
    read_through(inputs, &mut buffer, bytes, limit)
}

/// Opens the file of this name and reads it whole.
pub fn load<I: Inputs>(
    alloc: Global,
    inputs: &mut I,
    name: &str,
    limit: u64,
) -> Result<Vec<u8>, LoadFault>
    ensures files { I.files inputs.new ≡ I.files inputs.old }
    ensures asks { I.asked inputs.new ≡ asked_more (I.asked inputs.old) (name.now ∷ []) }
    ensures loads { IfOk result (λ bytes. Loads (I.files inputs.old) name.now bytes.items) }
    ensures within { IfOk result (λ bytes. length bytes.items ≤ limit) }
    ensures too_long { IsErrOf result LoadFault.TooLong → IsLonger (I.files inputs.old) name.now limit }
    ensures stops { IsErrOf result LoadFault.Failed → ToldFiles (I.files inputs.old) (λ files.
        StopsIn (I.is_open inputs.new) (I.rest inputs.new) (content files name.now)) }
    ensures few { IsErrOf result LoadFault.Failed → ToldFiles (I.files inputs.old) (λ files.
        GaveAtMost limit (I.is_open inputs.new) (I.rest inputs.new) (content files name.now)) }
    ensures later { I.faults inputs.old ≤ I.faults inputs.new }
    ensures cause { IsErrOf result LoadFault.Failed
        → Rose (I.faults inputs.old) (I.faults inputs.new) }
{
    if inputs.open(name).is_err() {
        return Err(LoadFault::Failed);
    }
    let mut bytes = Vec::new(alloc);
    read_to_end(alloc, inputs, &mut bytes, limit)?;
    Ok(bytes)
}

// Reads to the end through this buffer.
fn read_through<I: Inputs>(
    inputs: &mut I,
    buffer: &mut [u8],
    bytes: &mut Vec<u8>,
    limit: u64,
) -> Result<(), LoadFault>
    requires room { 0 < length buffer.old }
    requires opened { IsTrue (I.is_open inputs.old) }
    ensures files { I.files inputs.new ≡ I.files inputs.old }
    ensures stays_open { I.is_open inputs.new ≡ I.is_open inputs.old }
    ensures asks_nothing { I.asked inputs.new ≡ I.asked inputs.old }
    ensures gave { GaveBytes (I.rest inputs.old) (I.rest inputs.new) bytes.old.items bytes.new.items }
    ensures whole { OnOk result (IfSome (I.rest inputs.old) (λ rest.
        bytes.new.items ≡ bytes.old.items ++ rest)) }
    ensures within { OnOk result (length bytes.new.items ≤ limit) }
    ensures too_long { IsErrOf result LoadFault.TooLong → limit < length bytes.new.items }
    ensures few { IsErrOf result LoadFault.Failed
        → length bytes.new.items ≤ max limit (length bytes.old.items) }
    ensures later { I.faults inputs.old ≤ I.faults inputs.new }
    ensures cause { IsErrOf result LoadFault.Failed
        → Rose (I.faults inputs.old) (I.faults inputs.new) }
{
    'reads: loop {
        match read_more(inputs, buffer, bytes) {
            Ok(count) => {
                if bytes.len() as u64 > limit {
                    return Err(LoadFault::TooLong);
                }
                if count == 0 {
                    return Ok(());
                }
            }
            Err(ReadFault::Failed) => return Err(LoadFault::Failed),
            Err(ReadFault::Memory) => return Err(LoadFault::Memory),
        }
    }
}
