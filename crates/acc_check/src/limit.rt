//! The largest number that could stand at a place.

ghost use Rattle.std.specs.Prelude.{◌≡◌, ◌+◌, true, false, decimal, IfOk, IfSome};
ghost use Rattle.acc_base.specs.Faults.{OnlyMemory};
ghost use Rattle.acc_check.specs.Places.{stands};

use crate::language::Language;
use crate::stand::stands;
use acc_base::Fault;
use itoa::Buffer;
use std::alloc::Global;

// Whether this number could stand there.
fn number_stands(
    alloc: Global,
    language: Language,
    before: &[u8],
    number: u64,
) -> Result<bool, Fault>
    ensures answer { IfOk result (λ r. r ≡ stands language before.now (decimal number)) }
    ensures fault { OnlyMemory result }
{
    stands(
        alloc,
        language,
        before,
        Buffer::new().format(number).as_bytes(),
    )
}

/// A number that could stand behind the beginning of a text, where the next one couldn't. It is looked for by halves, above 1.
///
/// # Errors
///
/// `Memory` where memory is refused.
pub fn largest_number(
    alloc: Global,
    language: Language,
    before: &[u8],
) -> Result<Option<u64>, Fault>
    ensures stands { IfOk result (λ found.
        IfSome found (λ n. stands language before.now (decimal n) ≡ true)) }
    ensures largest { IfOk result (λ found.
        IfSome found (λ n. stands language before.now (decimal (n + 1)) ≡ false)) }
    ensures fault { OnlyMemory result }
{
    let mut low = 1u64;
    let mut high = u64::MAX;
    if !number_stands(alloc, language, before, low)? {
        return Ok(None);
    }
    if number_stands(alloc, language, before, high)? {
        return Ok(None);
    }
    while high - low > 1 {
        let middle = low + (high - low) / 2;
        if number_stands(alloc, language, before, middle)? {
            low = middle;
        } else {
            high = middle;
        }
    }
    Ok(Some(low))
}
