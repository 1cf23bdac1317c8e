//! Where reading has come.

ghost use Rattle.std.specs.Prelude.{◌+◌, ◌<◌, ◌^◌, length};

/// What is left of a text, and the line in which it begins.
#[derive(Clone, Copy)]
pub struct At<'a> {
    pub line: u32,
    pub bytes: &'a [u8],
    ghost short: { line + length bytes.now < 2 ^ 32 },
}
