// Which particles stand in a block.
ghost use Rattle.std.specs.Prelude.{◌≡◌, ◌<◌, ◌≤◌, ◌+◌, ◌*◌};
ghost use Rattle.pbd_store.specs.Blocks.{blocks_of};

/// Which particles are in a block.
#[derive(Clone, Copy)]
pub struct Span {
    /// The number of the first.
    pub first: u32,
    /// How many there are: as many as there are lanes, but for the last block.
    pub count: usize,
}

pub(crate) fn particles_in(block: u32, lanes: usize, len: u32) -> Span
    requires some { 0 < lanes }
    requires lanes { lanes ≤ 16 }
    requires size { len ≤ 65536 }
    requires within { block < blocks_of len lanes }
    ensures first { result.first ≡ block * lanes }
    ensures count { result.count ≤ lanes }
    ensures within { result.first + result.count ≤ len }
    ensures last { result.count < lanes → result.first + result.count ≡ len }
{
    let first = block * lanes as u32;
    let count = lanes.min((len - first) as usize);
    Span { first, count }
}
