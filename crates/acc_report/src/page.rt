//! A page of bytes that wait, so that they are handed on in large pieces.

ghost use Rattle.std.specs.Prelude.{◌≡◌, ◌+◌, ◌<◌, ◌≤◌, [], ◌∷◌, ◌++◌, codes, length, take};
ghost use Rattle.std.specs.Fmt.{signed_decimal};
ghost use Rattle.acc_report.specs.Puts.{sink};
ghost use Rattle.acc_report.specs.declared.page.TheConstants.{NUMBER, PAGE, SPACED};
ghost use Rattle.acc_report.specs.inner.Pages.{IsHandedOn};

use crate::bytes::put;
use itoa::Buffer;
use std::io::Write;

/// The bytes of a page.
pub(crate) const PAGE: usize = 512;

// The most bytes of a number.
const NUMBER: usize = 40;

/// The most bytes of a number with a space before it.
pub(crate) const SPACED: usize = NUMBER + 1;

/// Writes bytes behind those that wait, and gives how many wait then.
pub(crate) fn add(page: &mut [u8], waiting: usize, bytes: &[u8]) -> usize
    requires { waiting + length bytes.now ≤ length page.old }
    ensures text { take result page.new ≡ take waiting page.old ++ bytes.now }
    ensures count { result ≡ waiting + length bytes.now }
    ensures long { length page.new ≡ length page.old }
{
    let end = waiting + bytes.len();
    page[waiting..end].copy_from_slice(bytes);
    end
}

/// Writes a space and a number behind the bytes that wait, and gives how many wait then.
pub(crate) fn add_spaced(page: &mut [u8], waiting: usize, number: i64) -> usize
    requires { waiting + SPACED ≤ length page.old }
    ensures text { take result page.new
        ≡ take waiting page.old ++ (codes " " ++ signed_decimal number) }
    ensures within { result ≤ length page.new }
    ensures long { length page.new ≡ length page.old }
{
    let behind = add_byte(page, waiting, b' ');
    add_decimal(page, behind, number)
}

/// Writes a number behind the bytes that wait, and gives how many wait then.
pub(crate) fn add_number(page: &mut [u8], waiting: usize, number: i64) -> usize
    requires { waiting + SPACED ≤ length page.old }
    ensures text { take result page.new ≡ take waiting page.old ++ signed_decimal number }
    ensures within { result ≤ length page.new }
    ensures long { length page.new ≡ length page.old }
{
    add_decimal(page, waiting, number)
}

// The same. A digit alone takes no buffer.
fn add_decimal(page: &mut [u8], waiting: usize, number: i64) -> usize
    requires { waiting + NUMBER ≤ length page.old }
    ensures text { take result page.new ≡ take waiting page.old ++ signed_decimal number }
    ensures within { result ≤ length page.new }
    ensures long { length page.new ≡ length page.old }
{
    if 0 <= number && number < 10 {
        return add_byte(page, waiting, b'0' + number as u8);
    }
    add(page, waiting, Buffer::new().format(number).as_bytes())
}

// Writes a byte behind those that wait, and gives how many wait then.
fn add_byte(page: &mut [u8], waiting: usize, byte: u8) -> usize
    requires { waiting < length page.old }
    ensures text { take result page.new ≡ take waiting page.old ++ byte ∷ [] }
    ensures count { result ≡ waiting + 1 }
    ensures long { length page.new ≡ length page.old }
{
    page[waiting] = byte;
    waiting + 1
}

/// Puts what waits where there is no room for one number more, and gives how many bytes wait then.
pub(crate) fn hand_on<W: Write>(
    out: &mut W,
    failed: &mut bool,
    page: &[u8],
    waiting: usize,
) -> usize
    requires long { length page.now ≡ PAGE }
    requires within { waiting ≤ PAGE }
    ensures puts { IsHandedOn (sink (W.contents out.old) failed.old)
        (sink (W.contents out.new) failed.new) (take waiting page.now) (take result page.now) }
    ensures room { result + SPACED ≤ PAGE }
{
    if waiting + SPACED <= PAGE {
        return waiting;
    }
    let (text, _) = page.split_at(waiting);
    put(out, failed, text);
    0
}
