//! What distinguishes short names, with no look at their bytes.
ghost use Rattle.std.specs.Prelude.{◌≡◌, ◌<◌, ◌≤◌, IsTrue, length, slice_index};
ghost use Rattle.doc_tree.specs.Digests.{digest_of, ending_of, number_of_bytes};

/// An odd number whose bits look random. A product by it mixes the bits of a number upwards.
const MIXER: u64 = 0x9E37_79B9_7F4A_7C15;

/// How long a name is, and its last 8 bytes as a number, or all of a shorter one.
#[derive(Clone, Copy, Drop)]
pub(crate) struct Digest {
    /// The first of the bytes is the lowest.
    pub(crate) ending: u64,
    /// At most 255, which also stands for all greater lengths.
    pub(crate) length: u8,
}

impl Digest {
    /// The digest of a name.
    pub(crate) fn of(name: &str) -> Digest
        ensures { result ≡ digest_of name.now }
    {
        let bytes = name.as_bytes();
        Digest {
            ending: ending_of(bytes),
            length: bytes.len().min(255) as u8,
        }
    }

    /// Whether it has all bytes of the name, so that only one name has it.
    pub(crate) fn is_whole(self) -> bool
        ensures { IsTrue result → self.length ≤ 8 }
    {
        self.length <= 8
    }

    /// The slot, among so many, on which names with this digest fall.
    pub(crate) fn slot(self, slots: usize) -> usize {
        let once = (self.ending ^ u64::from(self.length)).wrapping_mul(MIXER);
        let twice = (once ^ (once >> 32)).wrapping_mul(MIXER);
        ((twice >> 32).wrapping_mul(slots as u64) >> 32) as usize
    }
}

/// The last 8 bytes of a name as a number, or all of a shorter one.
fn ending_of(name: &[u8]) -> u64
    ensures { result ≡ number_of_bytes (ending_of name.now) }
{
    if let Some((_, last)) = name.split_last_chunk::<8>() {
        return u64::from_le_bytes(*last);
    }
    if let Some((first, rest)) = name.split_first_chunk::<4>() {
        return u64::from(u32::from_le_bytes(*first)) + short_of(rest) * 4_294_967_296;
    }
    short_of(name)
}

/// Three bytes or fewer as a number.
fn short_of(bytes: &[u8]) -> u64
    requires { length bytes.now < 4 }
    ensures number { result ≡ number_of_bytes bytes.now }
    ensures small { result < 16777216 }
{
    byte_at(bytes, 0) + byte_at(bytes, 1) * 256 + byte_at(bytes, 2) * 65_536
}

/// The byte at this place, or 0 past the end.
fn byte_at(bytes: &[u8], place: usize) -> u64
    ensures byte { result ≡ slice_index bytes.now place }
    ensures small { result < 256 }
{
    match bytes.get(place) {
        Some(byte) => u64::from(*byte),
        None => 0,
    }
}
