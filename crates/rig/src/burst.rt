// A burst of noise through the printed board.
ghost use Rattle.std.specs.Prelude.{◌≡◌, OnOk};
ghost use Rattle.std.specs.Io.KnownBytes.{Appends};
ghost use Rattle.rig.specs.Rig.{rig_bytes};

use context::block::block;
use leaves::noise::Noise;
use memory::fresh::fresh;
use std::io::{self, Write};

// The printed board (docs/CARD.md has it as a card), record by record.
const BOARD: [u8; 122] = [
    8, 0, 1, 0, 2, 0, 1, 0, // blocks of 2 samples, the input node is 1
    14, 0, 2, 0, 3, 0, 0, 0, 0, 0, 0, 0, 0, 0, // 0 destination
    14, 0, 2, 0, 1, 0, 0, 0, 0, 0, 0, 0, 0, 0, // 1 pass
    14, 0, 2, 0, 6, 0, 0, 0, 0, 0, 0, 0, 0, 0, // 2 add 0
    14, 0, 2, 0, 7, 0, 1, 0, 0, 0, 0, 0, 0, 0, // 3 delay 1
    14, 0, 2, 0, 5, 0, 0, 0, 0, 0, 0, 0, 0, 63, // 4 mul 0.5
    8, 0, 3, 0, 1, 0, 2, 0, // 1 to 2
    8, 0, 3, 0, 2, 0, 3, 0, // 2 to 3
    8, 0, 3, 0, 3, 0, 4, 0, // 3 to 4
    8, 0, 3, 0, 4, 0, 2, 0, // 4 to 2
    8, 0, 3, 0, 3, 0, 0, 0, // 3 to 0
    4, 0, 4, 0, // end
];

// From the default start, on fresh memory: four blocks, of each the two output blocks, channel 0 first.
// Ruled out, and tried by must-fail edits: a generator that starts anew with each block (noise_restarted) or is a
// step ahead (a_step_ahead), memory made fresh for each block (fresh_each_block), a block too few (three_blocks).
pub fn rig_bytes() -> [u8; 64]
    ensures { result ≡ rig_bytes }
{
    let mut noise = Noise::new();
    let mut memory = [0u8; 112];
    fresh(&BOARD, &mut memory);
    let mut bytes = [0u8; 64];
    for i in 0..4 {
        let mut input = [0u8; 8];
        let mut left = [0u8; 8];
        let mut right = [0u8; 8];
        noise.fill(&mut input);
        let answer = block(&BOARD, &mut memory, &input, &mut left, &mut right);
        prove!(answer.number == 0);
        bytes[16 * i..16 * i + 8].copy_from_slice(&left);
        bytes[16 * i + 8..16 * i + 16].copy_from_slice(&right);
    }
    bytes
}

// Writes them: where that succeeds, what a writer holds has grown by just these bytes. That a writer takes
// what it is given, no contract can say; the stored output shows it.
// Ruled out, and tried by a must-fail edit: all of them twice (written_twice).
pub fn write_burst<W: Write>(out: &mut W) -> io::Result<()>
    ensures { OnOk result (Appends (W.contents out.old) (W.contents out.new) rig_bytes) }
{
    out.write_all(&rig_bytes())
}
