// Whether bytes have the form of a state.
ghost use Rattle.std.specs.Prelude.{◌≡◌, ◌+◌, ◌*◌, ◌<◌, ◌≤◌, ◌==◌, ◌&&◌, not, nat_lt, nat_le, length, take, slice_index, OnOk};
ghost use Rattle.pbd_sound.specs.Soundness.{first_where};
ghost use Rattle.pbd_log.specs.Laws.{IsBytes};
ghost use Rattle.pbd_encoding.specs.Described.{contacts_at};
ghost use Rattle.pbd_encoding.specs.Encoding.{state_size};
ghost use Rattle.pbd_encoding.specs.Form.{AreCounts, is_foreign, form_checked};

/// Bytes that are no state of a scene.
#[derive(Clone, Copy, Debug, PartialEq, Eq)]
pub struct StateFault {
    /// How many bytes stand before the one that can't stand there, or before the field that is unsound; how many there are,
    /// where the state only goes on behind them.
    pub offset: u64,
}

/// How many particles and links a scene has, at most 65,536 and 524,288.
#[derive(Clone, Copy)]
pub struct Counts {
    pub particles: u32,
    pub links: u32,
}

impl Counts {
    /// Where the contacts stand in a state.
    pub fn contacts_at(&self) -> usize
        requires { AreCounts self.now }
        ensures value { result ≡ contacts_at self.now.particles self.now.links }
        ensures size { result ≤ 3735680 }
    {
        128 + 49 * self.particles as usize + self.links as usize
    }

    fn flags_at(&self) -> usize
        requires { AreCounts self.now }
        ensures { result ≡ 128 + 48 * self.now.particles }
    {
        128 + 48 * self.particles as usize
    }

    /// How many bytes a state has.
    pub fn state_size(&self) -> usize
        requires { AreCounts self.now }
        ensures value { result ≡ state_size self.now.particles self.now.links }
        ensures size { result ≤ 3735972 }
    {
        self.contacts_at() + 292
    }
}

/// Whether byte k can't stand in a state.
fn is_foreign(header: &[u8], counts: &Counts, k: usize, byte: u8) -> bool
    requires header { length header.now ≡ 96 }
    requires counts { AreCounts counts.now }
    ensures { result ≡ is_foreign header.now counts.now.particles counts.now.links k byte }
{
    if k < 96 {
        return byte != header[k];
    }
    counts.flags_at() <= k && k < counts.contacts_at() && 1 < byte
}

/// The first byte that can't stand where it does.
fn first_foreign(header: &[u8], counts: &Counts, bytes: &[u8]) -> Option<usize>
    requires header { length header.now ≡ 96 }
    requires counts { AreCounts counts.now }
    ensures { result ≡ first_where 0 (is_foreign header.now counts.now.particles counts.now.links) bytes.now }
{
    for k in 0..bytes.len() {
        if is_foreign(header, counts, k, bytes[k]) {
            return Some(k);
        }
    }
    None
}

// So many bytes from the front, or all of them.
fn front(bytes: &[u8], size: usize) -> &[u8]
    ensures { result.now ≡ take size bytes.now }
{
    if bytes.len() <= size {
        return bytes;
    }
    &bytes[..size]
}

/// Whether bytes have the form of a state of a scene with this header, else the first byte with which no state of the scene
/// goes on, or the end where bytes are missing or too many.
#[tactic(auto, unfolding(crate::specs::Form::form_checked))]
pub fn check_form(header: &[u8], counts: &Counts, bytes: &[u8]) -> Result<(), StateFault>
    requires header { length header.now ≡ 96 }
    requires counts { AreCounts counts.now }
    ensures value { result ≡ form_checked header.now counts.now.particles counts.now.links bytes.now }
    ensures long { OnOk result (length bytes.now ≡ state_size counts.now.particles counts.now.links) }
    ensures fits { IsBytes bytes.now }
{
    let size = counts.state_size();
    if let Some(k) = first_foreign(header, counts, front(bytes, size)) {
        return Err(StateFault { offset: k as u64 });
    }
    if bytes.len() != size {
        return Err(StateFault {
            offset: bytes.len().min(size) as u64,
        });
    }
    Ok(())
}
