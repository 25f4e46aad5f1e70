//! A tile as an input.

use drain_device::ByteList;

/// A tile's name, and where its bytes come from.
#[derive(Drop)]
pub struct TileInput<R> {
    pub name: ByteList,
    pub body: R,
}
