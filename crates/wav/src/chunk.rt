// The parts of a WAV file: 12 bytes that begin it, and then chunks, each a name of 4 bytes, the length
// of its body and the body. A body of odd length is followed by one byte that counts for nothing.
ghost use Rattle.std.specs.Prelude.{◌≡◌};
ghost use Rattle.wav.specs.Chunk.{is_wave, chunk_of, passed};

use values::bytes::u32_at;

// Names of 4 letters, as the numbers of their bytes.
const RIFF: u32 = 0x4646_4952;

const WAVE: u32 = 0x4556_4157;

const FMT: u32 = 0x2074_6d66;

const DATA: u32 = 0x6174_6164;

// What a chunk's body is, by its name.
#[derive(Clone, Copy, Debug, PartialEq, Eq)]
pub enum ChunkKind {
    Format,
    Data,
    Other,
}

// A chunk, and the length of its body.
#[derive(Clone, Copy, Debug, PartialEq, Eq)]
pub struct Chunk {
    pub kind: ChunkKind,
    pub length: u32,
}

// Whether a file begins as a WAV file does: RIFF, a length, WAVE.
pub fn is_wave(head: &[u8; 12]) -> bool
    ensures { result ≡ is_wave head.now }
{
    u32_at(head, 0) == RIFF && u32_at(head, 8) == WAVE
}

// The chunk that begins with these bytes.
pub fn chunk_of(head: &[u8; 8]) -> Chunk
    ensures { result ≡ chunk_of head.now }
{
    let kind = match u32_at(head, 0) {
        FMT => ChunkKind::Format,
        DATA => ChunkKind::Data,
        _ => ChunkKind::Other,
    };
    Chunk {
        kind,
        length: u32_at(head, 4),
    }
}

// The bytes from a body's start to the next chunk.
pub fn passed(length: u32) -> u64
    ensures { result ≡ passed length }
{
    let l = u64::from(length);
    l + l % 2
}
