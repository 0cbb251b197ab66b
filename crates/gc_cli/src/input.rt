//! Reading a source to its end, or to the first byte that is too many. Pieces are asked for, and the last one is cut
//! so that no byte is taken past that one. The first fault ends the reading.

ghost use Rattle.std.specs.Prelude.{◌≡◌, ℕ, List, [], ◌≤◌, ◌<◌, length, vec_len, Ok, IfOk, IfSome, IsErrOf};
ghost use Rattle.gc_io.specs.Faults.{HasRisen};
ghost use Rattle.gc_cli.specs.Played.{IsRead, IsTooLong, BreaksOff, TakesMore};

use gc_io::{Source, Taken};
use std::alloc::{AllocError, Global};

/// The most bytes of a script.
const MOST_BYTES: usize = 16_777_216;

/// How many bytes are asked for at once.
const PIECE: usize = 65_536;

/// Why the input wasn't read to its end.
#[derive(Clone, Copy, Debug, PartialEq, Eq)]
pub(crate) enum InputFault {
    /// A fault of the source.
    Fault,
    /// There are more than 16,777,216 bytes.
    Long,
    /// Want of memory.
    NoMemory,
}

/// Whether the input goes on.
#[derive(Clone, Copy, Debug, PartialEq, Eq)]
enum Step {
    More,
    End,
}

/// Reads a source to its end. The reading stops at byte 16,777,217, and at the first fault.
pub(crate) fn read_input<S: Source>(alloc: Global, src: &mut S) -> Result<Vec<u8>, InputFault>
    ensures read { IfOk result (λ bytes. IsRead (S.rest src.old) (S.rest src.new) bytes.items) }
    ensures fault { IsErrOf result InputFault.Fault
        → ((bytes : List ℕ) × BreaksOff (S.rest src.old) (S.rest src.new) (S.faults src.old) (S.faults src.new) bytes) }
    ensures quiet { ¬ IsErrOf result InputFault.Fault → S.faults src.new ≡ S.faults src.old }
    ensures long { IsErrOf result InputFault.Long
        → ((bytes : List ℕ) × IsTooLong (S.rest src.old) (S.rest src.new) bytes) }
    ensures never_falls { S.faults src.old ≤ S.faults src.new }
{
    let mut bytes = Vec::new(alloc);
    let Ok(mut room) = zeros(alloc, PIECE) else {
        return Err(InputFault::NoMemory);
    };
    while bytes.len() <= MOST_BYTES {
        let wanted = PIECE.min(MOST_BYTES + 1 - bytes.len());
        match take_piece(src, &mut room[..wanted], &mut bytes)? {
            Step::More => {}
            Step::End => return Ok(bytes),
        }
    }
    Err(InputFault::Long)
}

/// Takes the next bytes of the source, as many as the room holds at the most, behind the bytes so far.
fn take_piece<S: Source>(
    src: &mut S,
    room: &mut [u8],
    bytes: &mut Vec<u8>,
) -> Result<Step, InputFault>
    requires { 0 < length room.old }
    ensures more { result ≡ Ok Step.More
        → TakesMore (S.rest src.old) (S.rest src.new) (length room.old) bytes.old.items bytes.new.items }
    ensures end { result ≡ Ok Step.End → IfSome (S.rest src.new) (λ rest. rest ≡ []) }
    ensures end_stays { result ≡ Ok Step.End
        → (S.rest src.new ≡ S.rest src.old) × (bytes.new.items ≡ bytes.old.items) }
    ensures fault { IsErrOf result InputFault.Fault → HasRisen (S.faults src.old) (S.faults src.new) }
    ensures fault_stays { IsErrOf result InputFault.Fault → S.rest src.new ≡ S.rest src.old }
    ensures quiet { ¬ IsErrOf result InputFault.Fault → S.faults src.new ≡ S.faults src.old }
    ensures short { ¬ IsErrOf result InputFault.Long }
    ensures never_falls { S.faults src.old ≤ S.faults src.new }
{
    match src.take(room) {
        Taken::Bytes(count) => match bytes.extend_from_slice(&room[..count]) {
            Ok(()) => Ok(Step::More),
            Err(_) => Err(InputFault::NoMemory),
        },
        Taken::End => Ok(Step::End),
        Taken::Failed => Err(InputFault::Fault),
    }
}

/// So many zeros.
fn zeros(alloc: Global, count: usize) -> Result<Vec<u8>, AllocError>
    ensures { IfOk result (λ zeros. vec_len zeros ≡ count) }
{
    vec![in alloc; 0; count]
}
