//! The limit of a text, its lines, and how its bytes are shown.

ghost use Rattle.std.specs.Prelude.{◌≡◌, ◌+◌, ◌≤◌, ◌<◌, ◌==◌, not, length, take, OnOk, IfErr};
ghost use Rattle.std.specs.List.{prefix_len};
ghost use Rattle.acc_token.specs.Texts.{line_feeds, shown_byte};

use crate::read_fault::{ReadFault, ReadKind};

/// How many bytes a script or a schedule can have.
pub const MAX_TEXT: usize = 1_048_576;

/// Tests the length of a text.
///
/// # Errors
///
/// `Limit` where it has more than `MAX_TEXT` bytes, in the line that the first `MAX_TEXT` of them end in.
pub fn check_length(text: &[u8]) -> Result<(), ReadFault>
    ensures fits { OnOk result (length text.now ≤ MAX_TEXT) }
    ensures long { IfErr result (λ fault. (MAX_TEXT < length text.now)
        × (fault ≡ record {
          line = 1 + line_feeds
              (take MAX_TEXT text.now);
          kind = ReadKind.Limit;
        })) }
{
    if text.len() <= MAX_TEXT {
        return Ok(());
    }
    let (front, _) = text.split_at(MAX_TEXT);
    let line_feeds = front.iter().filter(|byte| **byte == b'\n').count();
    Err(ReadFault {
        line: 1 + line_feeds as u32,
        kind: ReadKind::Limit,
    })
}

/// How many bytes stand before the first line feed.
pub fn line_len(text: &[u8]) -> usize
    ensures value { result ≡ prefix_len (λ b. not (b == 10)) text.now }
    ensures within { result ≤ length text.now }
{
    text.iter().take_while(|byte| **byte != b'\n').count()
}

/// A byte as it is shown: `?` for one that isn't printed, but for a tab.
pub fn shown(byte: u8) -> u8
    ensures { result ≡ shown_byte byte }
{
    if byte < b' ' && byte != b'\t' || byte == 127 {
        b'?'
    } else {
        byte
    }
}
