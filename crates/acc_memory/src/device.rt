//! A device.

use crate::blocks::Blocks;
use crate::makes::Makes;

/// A device: the blocks that are there, and which were ever made.
#[derive(Drop)]
pub struct Device {
    pub(crate) blocks: Blocks,
    pub(crate) makes: Makes,
}
