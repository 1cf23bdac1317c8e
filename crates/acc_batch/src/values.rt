//! The values of a print, in as few bytes as they need.

ghost use Rattle.std.specs.Prelude.{◌≡◌, ◌*◌, ◌≤◌, [], ◌∷◌, length, vec_capacity, All, IfSome, IfNone};
ghost use Rattle.std.specs.Int.Signed.{mag};
ghost use Rattle.std.specs.Iterator.{YieldsFirst, item_count};
ghost use Rattle.std.specs.List.{flat_map};
ghost use Rattle.acc_batch.specs.Values.{byte_count, bytes_of, values_in, values_kept, FitsIn, HasItsBytes, IsLeastFor};
ghost use Rattle.acc_batch.specs.declared.values.TheConstants.{FEW};

use std::alloc::Global;
use std::marker::Model;
use std::mem::size_of;

/// The values of a print, each in as many bytes as the one that needs most. Contracts see the list of them.
#[derive(Drop)]
pub struct Values {
    form: Form,
}

// Where their bytes are: a few stand in place.
#[derive(Drop)]
enum Form {
    Few {
        width: Width,
        count: u8,
        bytes: [u8; FEW],
    },
    Many {
        width: Width,
        bytes: Vec<u8>,
    },
}

// The most bytes that stand in place.
const FEW: usize = 32;

// How many bytes a value has: the lowest one is the first, the sign is in the last.
#[derive(Clone, Copy)]
enum Width {
    One,
    Two,
    Four,
    Eight,
}

impl Model for Values {
    ghost use Rattle.std.specs.Prelude.{List, ℤ};
    ghost use Rattle.acc_batch.specs.Values.{values_kept, HasItsBytes};

    ghost Value = { List ℤ };

    ghost view = { λ v. values_kept v.form };

    ghost invariant = { λ v. HasItsBytes v.form };
}

impl Values {
    /// None. It takes no memory.
    pub fn none(alloc: Global) -> Self
        ensures { result ≡ [] }
    {
        Values {
            form: Form::Many {
                width: Width::One,
                bytes: Vec::new(alloc),
            },
        }
    }

    /// These values, in room for eight bytes each. It takes no memory, and gives back what the values don't need.
    pub fn of(room: Vec<u8>, cells: &[i64]) -> Self
        requires { length cells.now * 8 ≤ vec_capacity room }
        ensures { result ≡ cells.now }
    {
        let width = width_of(cells);
        let count = cells.len() * width.bytes();
        let form = if count <= FEW {
            few(width, count, cells)
        } else {
            many(room, width, count, cells)
        };
        Values { form }
    }

    /// All values, in their order.
    pub fn iter(&self) -> ValuesIter<'_>
        ensures { result ≡ self.now }
    {
        match &self.form {
            Form::Few {
                width,
                count,
                bytes,
            } => ValuesIter {
                width: *width,
                rest: &bytes[..usize::from(*count)],
            },
            Form::Many { width, bytes } => ValuesIter {
                width: *width,
                rest: bytes.as_slice(),
            },
        }
    }
}

// Values whose bytes stand in place.
fn few(width: Width, count: usize, cells: &[i64]) -> Form
    requires least { IsLeastFor width cells.now }
    requires count { count ≡ length cells.now * byte_count width }
    requires room { count ≤ FEW }
    ensures kept { HasItsBytes result }
    ensures values { values_kept result ≡ cells.now }
{
    let mut bytes = [0; FEW];
    write_all(&mut bytes[..count], width, cells);
    Form::Few {
        width,
        count: count as u8,
        bytes,
    }
}

// Values whose bytes stand in that room. It takes no memory, and gives back what they don't need.
fn many(room: Vec<u8>, width: Width, count: usize, cells: &[i64]) -> Form
    requires least { IsLeastFor width cells.now }
    requires count { count ≡ length cells.now * byte_count width }
    requires room { count ≤ vec_capacity room }
    ensures kept { HasItsBytes result }
    ensures values { values_kept result ≡ cells.now }
{
    let mut bytes = room;
    let _ = bytes.resize(count, 0);
    write_all(&mut bytes, width, cells);
    bytes.shrink_to_fit();
    Form::Many { width, bytes }
}

/// The values of a print that are left, in their order.
#[derive(Drop)]
pub struct ValuesIter<'values> {
    width: Width,
    rest: &'values [u8],
}

impl<'values> Model for ValuesIter<'values> {
    ghost use Rattle.std.specs.Prelude.{List, ℤ};
    ghost use Rattle.acc_batch.specs.Values.{values_in};

    ghost Value = { List ℤ };

    ghost view = { λ it. values_in it.width it.rest.now };
}

impl<'values> Iterator for ValuesIter<'values> {
    type Item = i64;

    ghost next_gives = { YieldsFirst (λ rest. rest) };

    ghost remaining = { item_count (λ rest. rest) };

    #[inline(always)]
    fn next(&mut self) -> Option<i64> {
        let (value, rest) = first_of(self.width, self.rest)?;
        self.rest = rest;
        Some(value)
    }
}

// The first value in bytes, and the bytes behind it.
#[inline(always)]
fn first_of(width: Width, bytes: &[u8]) -> Option<(i64, &[u8])>
    ensures first { IfSome result (λ p. values_in width bytes.now ≡ p.0 ∷ values_in width p.1.now) }
    ensures none { IfNone result (values_in width bytes.now ≡ []) }
{
    match width {
        Width::One => {
            let (first, rest) = bytes.split_first_chunk::<1>()?;
            Some((i64::from(i8::from_le_bytes(*first)), rest))
        }
        Width::Two => {
            let (first, rest) = bytes.split_first_chunk::<2>()?;
            Some((i64::from(i16::from_le_bytes(*first)), rest))
        }
        Width::Four => {
            let (first, rest) = bytes.split_first_chunk::<4>()?;
            Some((i64::from(i32::from_le_bytes(*first)), rest))
        }
        Width::Eight => {
            let (first, rest) = bytes.split_first_chunk::<8>()?;
            Some((i64::from_le_bytes(*first), rest))
        }
    }
}

impl Width {
    fn bytes(self) -> usize
        ensures { result ≡ byte_count self }
    {
        match self {
            Width::One => 1,
            Width::Two => 2,
            Width::Four => 4,
            Width::Eight => 8,
        }
    }
}

// The least width that holds each of the values.
fn width_of(cells: &[i64]) -> Width
    ensures { IsLeastFor result cells.now }
{
    let mut all = 0;
    for cell in cells {
        all |= magnitude(*cell);
    }
    if all < 0x80 {
        Width::One
    } else if all < 0x8000 {
        Width::Two
    } else if all < 0x8000_0000 {
        Width::Four
    } else {
        Width::Eight
    }
}

// The bits of a value but for its sign; of one below 0 those that aren't set.
fn magnitude(value: i64) -> u64
    ensures { result ≡ mag value }
{
    let bits = value.cast_unsigned();
    if value < 0 { !bits } else { bits }
}

// Writes values into their bytes.
fn write_all(bytes: &mut [u8], width: Width, cells: &[i64])
    requires room { length bytes.old ≡ length cells.now * byte_count width }
    requires fit { All (FitsIn width) cells.now }
    ensures { bytes.new ≡ flat_map (bytes_of width) cells.now }
{
    match width {
        Width::One => write_each(bytes, Width::One, cells),
        Width::Two => write_each(bytes, Width::Two, cells),
        Width::Four => write_each(bytes, Width::Four, cells),
        Width::Eight => write_each(bytes, Width::Eight, cells),
    }
}

// The same. Where the width is a constant, the loop doesn't ask for it.
#[inline(always)]
fn write_each(bytes: &mut [u8], width: Width, cells: &[i64])
    requires room { length bytes.old ≡ length cells.now * byte_count width }
    requires fit { All (FitsIn width) cells.now }
    ensures { bytes.new ≡ flat_map (bytes_of width) cells.now }
{
    let count = width.bytes();
    for (i, cell) in cells.iter().enumerate() {
        write(&mut bytes[i * count..i * count + count], width, *cell);
    }
}

#[inline(always)]
fn write(bytes: &mut [u8], width: Width, value: i64)
    requires room { length bytes.old ≡ byte_count width }
    requires fits { FitsIn width value }
    ensures { bytes.new ≡ bytes_of width value }
{
    match width {
        Width::One => bytes.copy_from_slice(&(value as i8).to_le_bytes()),
        Width::Two => bytes.copy_from_slice(&(value as i16).to_le_bytes()),
        Width::Four => bytes.copy_from_slice(&(value as i32).to_le_bytes()),
        Width::Eight => bytes.copy_from_slice(&value.to_le_bytes()),
    }
}

// The log keeps each.
const _: () = prove!(size_of::<Values>() == 40);
