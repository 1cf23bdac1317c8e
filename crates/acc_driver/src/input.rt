//! Reading to the limit, and the split.

ghost use Rattle.std.specs.Prelude.{◌≡◌, ◌+◌, ◌≤◌, ◌<◌, ◌==◌, not, length, take, OnOk, IfOk, IfErr, IfSome, IsTrue, vec_len};
ghost use Rattle.std.specs.List.{prefix_len};
ghost use Rattle.acc_driver.specs.Inputs.{ReadsTurn, is_split_line, behind_line, parts};
ghost use Rattle.acc_driver.specs.Replays.{IsReaderFault};
ghost use Rattle.acc_driver.specs.inner.Readers.{reader_fault};

use crate::fault::DriverFault;
use acc_token::line_len;
use std::alloc::Global;
use std::io::{ErrorKind, Read};

/// Why a text was not read to its end.
#[derive(Clone, Copy, Debug, PartialEq, Eq)]
pub enum InputFault {
    /// The reader failed, or its turns ended.
    Read,
    Memory,
}

impl InputFault {
    /// The same fault, of a run.
    pub(crate) fn of_reader(self) -> DriverFault
        ensures kind { IsReaderFault result }
        ensures fault { result ≡ reader_fault self }
    {
        match self {
            InputFault::Read => DriverFault::Input,
            InputFault::Memory => DriverFault::Memory,
        }
    }
}

// How many bytes one turn asks for.
const TURN: usize = 4096;

// One turn: a call of `read` into the buffer, whose bytes are put behind the text. Answers whether more may
// follow. A read that a signal interrupted gives none, and more may follow.
fn read_turn<R: Read>(
    reader: &mut R,
    buffer: &mut [u8],
    text: &mut Vec<u8>,
) -> Result<bool, InputFault>
    requires { 0 < length buffer.old }
    ensures { IfOk result (ReadsTurn (R.remaining reader.old)
        (R.remaining reader.new) text.old.items text.new.items (length buffer.old)) }
{
    match reader.read(buffer) {
        Ok(0) => Ok(false),
        Ok(count) => {
            let (part, _) = buffer.split_at(count);
            match text.extend_from_slice(part) {
                Ok(()) => Ok(true),
                Err(_) => Err(InputFault::Memory),
            }
        }
        Err(error) => {
            if error.kind() == ErrorKind::Interrupted {
                Ok(true)
            } else {
                Err(InputFault::Read)
            }
        }
    }
}

/// The bytes that the reader gives, up to its end or the limit. One call of `read` is one turn, an interrupted one
/// too.
///
/// # Errors
///
/// `Read` where the reader fails, or where no turn is left before its end or the limit is seen; `Memory` for want of
/// memory.
pub(crate) fn read_text<R: Read>(
    alloc: Global,
    reader: &mut R,
    limit: usize,
    turns: u32,
) -> Result<Vec<u8>, InputFault>
    ensures bytes { IfOk result (λ text.
        IfSome (R.remaining reader.old) (λ bytes. text.items ≡ take limit bytes)) }
    ensures within { IfOk result (λ text. vec_len text ≤ limit) }
{
    let mut text = Vec::new(alloc);
    let mut buffer = [0u8; TURN];
    for _ in 0..turns {
        let room = limit - text.len();
        if room == 0 {
            return Ok(text);
        }
        let more = read_turn(reader, &mut buffer[..room.min(TURN)], &mut text)?;
        if !more {
            return Ok(text);
        }
    }
    if text.len() == limit {
        Ok(text)
    } else {
        Err(InputFault::Read)
    }
}

// Whether the line that begins here is the one at which a text is split.
fn is_split_line(bytes: &[u8]) -> bool
    ensures { result ≡ is_split_line bytes.now }
{
    match bytes {
        [first, second] => *first == b'%' && *second == b'%',
        [first, second, third, ..] => *first == b'%' && *second == b'%' && *third == b'\n',
        _ => false,
    }
}

// What follows that line.
fn behind_split_line(bytes: &[u8]) -> &[u8]
    requires { IsTrue (is_split_line bytes.now) }
    ensures { result.now ≡ behind_line bytes.now }
{
    match bytes {
        [_, _, _, behind @ ..] => behind,
        _ => &[],
    }
}

/// The script and the schedule of one text: it is split at its first line that is exactly `%%`, and without such a
/// line it is all script.
#[tactic(auto, unfolding(crate::specs::Inputs::parts))]
pub fn split(text: &[u8]) -> (&[u8], &[u8])
    ensures script { result.0.now ≡ (parts text.now).script }
    ensures schedule { result.1.now ≡ (parts text.now).schedule }
{
    let mut start = 0;
    for _ in 0..text.len() {
        let (before, here) = text.split_at(start);
        if is_split_line(here) {
            return (before, behind_split_line(here));
        }
        let len = line_len(here);
        if len == here.len() {
            return (text, &[]);
        }
        start += len + 1;
    }
    (text, &[])
}
