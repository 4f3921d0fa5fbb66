//! A chunk: what stands in its head, and whether its body is there.

ghost use Rattle.std.specs.Prelude.{◌≡◌, ◌+◌, ◌<◌, ◌≤◌, ◌^◌, IfSome, IsTrue, is_some, length};
ghost use Rattle.std.proofs.Props.{props};
ghost use Rattle.pcm_wave.specs.Chunks.{body_begin, has_body, has_head, number_at, size_at, stands_at};
ghost use Rattle.pcm_wave.specs.Walks.{place_behind};

// The bytes of a chunk's id and size.
const HEAD_BYTES: usize = 8;

/// A chunk among the bytes of a file, by the place of its head, which is all there.
#[derive(Clone, Copy)]
pub(crate) struct Chunk<'a> {
    pub bytes: &'a [u8],
    pub place: usize,
    ghost head: { IsTrue (has_head bytes.now place) } by { Prim.hlevel props },
}

impl<'a> Chunk<'a> {
    // The chunk whose head stands at a place, if one does.
    pub(crate) fn at(bytes: &'a [u8], place: usize) -> Option<Chunk<'a>>
        ensures some { is_some result ≡ has_head bytes.now place }
        ensures bytes { IfSome result (λ chunk. chunk.bytes.now ≡ bytes.now) }
        ensures place { IfSome result (λ chunk. chunk.place ≡ place) }
    {
        if bytes.len().saturating_sub(place) >= HEAD_BYTES {
            Some(Chunk { bytes, place })
        } else {
            None
        }
    }

    // Whether its id is a word.
    pub(crate) fn is(&self, id: &[u8]) -> bool
        ensures { result ≡ stands_at self.now.bytes.now self.now.place id.now }
    {
        stands_at(self.bytes, self.place, id)
    }

    // Where its body begins.
    pub(crate) fn body_begin(&self) -> usize
        ensures value { result ≡ body_begin self.now.place }
        ensures within { result ≤ length self.now.bytes.now }
    {
        self.place + HEAD_BYTES
    }

    // Its size, as its head states it.
    pub(crate) fn size(&self) -> usize
        ensures value { result ≡ size_at self.now.bytes.now self.now.place }
        ensures range { result < 2 ^ 32 }
    {
        u32_at(self.bytes, self.place + 4) as usize
    }

    // Whether its body is all there.
    pub(crate) fn has_body(&self) -> bool
        ensures { result ≡ has_body self.now.bytes.now self.now.place }
    {
        self.size() <= self.bytes.len() - self.body_begin()
    }

    // The place after it: the end of the bytes, where its body isn't all there.
    pub(crate) fn place_behind(&self) -> usize
        ensures { result ≡ place_behind self.now.bytes.now self.now.place }
    {
        if self.has_body() {
            let size = self.size();
            self.body_begin() + size + size % 2
        } else {
            self.bytes.len()
        }
    }
}

// Whether a word stands at a place.
pub(crate) fn stands_at(bytes: &[u8], place: usize, word: &[u8]) -> bool
    ensures { result ≡ stands_at bytes.now place word.now }
{
    match bytes.get(place..) {
        Some(rest) => rest.starts_with(word),
        None => word.is_empty(),
    }
}

// The number that four bytes spell, from a place on.
pub(crate) fn u32_at(bytes: &[u8], at: usize) -> u32
    requires { at + 4 ≤ length bytes.now }
    ensures { result ≡ number_at bytes.now at 4 }
{
    u32::from_le_bytes([bytes[at], bytes[at + 1], bytes[at + 2], bytes[at + 3]])
}

// The number that two bytes spell, from a place on.
pub(crate) fn u16_at(bytes: &[u8], at: usize) -> u32
    requires { at + 2 ≤ length bytes.now }
    ensures value { result ≡ number_at bytes.now at 2 }
    ensures range { result < 65536 }
{
    u32::from(u16::from_le_bytes([bytes[at], bytes[at + 1]]))
}
