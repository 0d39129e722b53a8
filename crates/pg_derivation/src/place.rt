//! A place of a text.

ghost use Rattle.std.specs.Prelude.{◌<◌, ◌+◌, ◌^◌, length};

/// A place, and the bytes from there on.
#[derive(Clone, Copy)]
pub struct Place<'a> {
    pub at: u32,
    pub rest: &'a [u8],
    ghost fits: { at + length rest.now < 2 ^ 32 },
}
