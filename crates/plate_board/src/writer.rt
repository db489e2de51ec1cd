// The plate: its 51 nodes in order of creation and its 68 wires in order of connection, and the writer of
// its bytes.
ghost use Rattle.std.specs.Prelude.{◌≡◌, ◌≤◌, length};
ghost use Rattle.std.proofs.lemmas.List.Edits.{sets};
ghost use Rattle.records.specs.Write.{nodes_bytes, wires_bytes, write_board};
ghost use Rattle.plate_board.specs.Plate.{plate_nodes, plate_wires, plate_card, write_of};

use kinds::types::Kind;
use leaves::onepole::{B_ONE_FIFTH, B_SEVEN_FIFTHS};
use records::answer::Answer;
use records::writer::{put_end, put_head, put_node, put_wire};
use values::float::{finite, to_bits};

// Floats by their bits.
const TENTH: u32 = 0x3dcc_cccd;

const THREE_TENTHS: u32 = 0x3e99_999a;

const HALF: u32 = 0x3f00_0000;

const FIVE_EIGHTHS: u32 = 0x3f20_0000;

const SEVEN_TENTHS: u32 = 0x3f33_3333;

const THREE_QUARTERS: u32 = 0x3f40_0000;

const MINUS_ONE: u32 = 0xbf80_0000;

// 5.5 and 29.5, the milliseconds by which the modulated all-passes swing, and about which.
const SWING: u32 = 0x40b0_0000;

const MIDDLE: u32 = 0x41ec_0000;

// Each node's type, whole number and bits of its float; those of the mix are put in as the plate is
// written.
const NODES: [(Kind, u32, u32); 51] = [
    (Kind::Destination, 0, 0), // 0 destination
    (Kind::Pass, 0, 0), // 1 the context's input, not used
    (Kind::Pass, 0, 0), // 2 input
    (Kind::OnePole, 0, B_SEVEN_FIFTHS), // 3 wet1
    (Kind::Delay, 2205, 0), // 4 wet2, 50 ms
    (Kind::AllPass, 210, THREE_QUARTERS), // 5 wet3, 4.771 ms
    (Kind::AllPass, 158, THREE_QUARTERS), // 6 wet4, 3.595 ms
    (Kind::AllPass, 560, FIVE_EIGHTHS), // 7 wet5, 12.72 ms
    (Kind::AllPass, 410, FIVE_EIGHTHS), // 8 wet6, 9.307 ms
    (Kind::Add, 0, 0), // 9 wet7, where the feedback comes in
    (Kind::AllPass, 4410, SEVEN_TENTHS), // 10 wet8, 100 ms, modulated
    (Kind::Sine, 0, TENTH), // 11 mod1
    (Kind::Mul, 0, SWING), // 12 mod2
    (Kind::Add, 0, MIDDLE), // 13 mod3
    (Kind::Delay, 394, 0), // 14 aa
    (Kind::Delay, 2800, 0), // 15 ab
    (Kind::Delay, 1204, 0), // 16 ac
    (Kind::Delay, 2000, 0), // 17 ba
    (Kind::OnePole, 0, B_ONE_FIFTH), // 18 ba
    (Kind::AllPass, 334, HALF), // 19 ba, 7.596 ms
    (Kind::AllPass, 1577, HALF), // 20 bb, 35.78 ms
    (Kind::AllPass, 4410, HALF), // 21 bc, 100 ms, modulated
    (Kind::Delay, 179, 0), // 22 ca
    (Kind::Delay, 2679, 0), // 23 cb
    (Kind::Delay, 3500, 0), // 24 cc1
    (Kind::Mul, 0, THREE_TENTHS), // 25 cc2
    (Kind::AllPass, 1323, SEVEN_TENTHS), // 26 da1, 30 ms
    (Kind::Delay, 522, 0), // 27 da2
    (Kind::Delay, 2400, 0), // 28 db
    (Kind::Delay, 2400, 0), // 29 dc
    (Kind::OnePole, 0, B_ONE_FIFTH), // 30 ea1
    (Kind::AllPass, 273, SEVEN_TENTHS), // 31 ea2, 6.2 ms
    (Kind::AllPass, 1539, SEVEN_TENTHS), // 32 eb, 34.92 ms
    (Kind::AllPass, 899, SEVEN_TENTHS), // 33 fa1, 20.4 ms
    (Kind::Delay, 1578, 0), // 34 fa2
    (Kind::Delay, 2378, 0), // 35 fb
    (Kind::Delay, 2500, 0), // 36 fb1
    (Kind::Mul, 0, THREE_TENTHS), // 37 fb2
    (Kind::Sum, 0, 0), // 38 left_subtract
    (Kind::Mul, 0, MINUS_ONE), // 39 left_subtract2
    (Kind::Sum, 0, 0), // 40 left
    (Kind::Mul, 0, 0), // 41 leftwet
    (Kind::Sum, 0, 0), // 42 leftmix
    (Kind::Mul, 0, 0), // 43 leftdrymix
    (Kind::Sum, 0, 0), // 44 right_subtract
    (Kind::Mul, 0, MINUS_ONE), // 45 right_subtract2
    (Kind::Sum, 0, 0), // 46 right
    (Kind::Mul, 0, 0), // 47 rightwet
    (Kind::Sum, 0, 0), // 48 rightmix
    (Kind::Mul, 0, 0), // 49 rightdry
    (Kind::Balance, 0, 0), // 50 balance
];

// Each wire's source and target: a pair, as a record has them; a struct of one width would be converted where
// the table of sources has bytes and a walk has indices.
const WIRES: [(u16, u16); 68] = [
    (2, 3),
    (3, 4),
    (4, 5),
    (5, 6),
    (6, 7),
    (7, 8),
    (8, 9),
    (9, 10),
    (11, 12),
    (12, 13),
    (13, 10),
    (10, 14),
    (14, 15),
    (15, 16),
    (17, 18),
    (18, 19),
    (16, 17),
    (19, 20),
    (20, 21),
    (11, 12),
    (12, 13),
    (13, 21),
    (21, 22),
    (22, 23),
    (23, 24),
    (24, 25),
    (25, 26),
    (26, 27),
    (27, 28),
    (28, 29),
    (29, 30),
    (30, 31),
    (31, 32),
    (32, 33),
    (33, 34),
    (34, 35),
    (35, 36),
    (36, 37),
    (37, 9),
    (20, 38),
    (28, 38),
    (31, 38),
    (34, 38),
    (38, 39),
    (14, 40),
    (15, 40),
    (23, 40),
    (39, 40),
    (2, 43),
    (43, 42),
    (40, 41),
    (41, 42),
    (32, 44),
    (15, 44),
    (19, 44),
    (22, 44),
    (44, 45),
    (27, 46),
    (28, 46),
    (35, 46),
    (45, 46),
    (2, 49),
    (49, 48),
    (46, 47),
    (47, 48),
    (42, 50),
    (48, 50),
    (50, 0),
];

// How long the plate's bytes are.
pub const LENGTH: usize = 1270;

// The muls by which the plate mixes its wet and its dry signal, left and right.
pub const WET_LEFT: usize = 41;

pub const WET_RIGHT: usize = 47;

pub const DRY_LEFT: usize = 43;

pub const DRY_RIGHT: usize = 49;

// The nodes' records, behind the head.
fn put_nodes(board: &mut [u8], mix: u32, dry: u32)
    requires { 722 ≤ length board.old }
    ensures { board.new ≡ sets board.old 8 (nodes_bytes (plate_nodes mix dry)) }
{
    let mut nodes = NODES;
    nodes[WET_LEFT].2 = mix;
    nodes[DRY_LEFT].2 = dry;
    nodes[WET_RIGHT].2 = mix;
    nodes[DRY_RIGHT].2 = dry;
    for (i, &(kind, whole, float)) in nodes.iter().enumerate() {
        put_node(board, 8 + 14 * i, u16::from(kind), whole, float);
    }
}

// The wires' records, behind the nodes.
fn put_wires(board: &mut [u8])
    requires { 1266 ≤ length board.old }
    ensures { board.new ≡ sets board.old 722 (wires_bytes plate_wires) }
{
    for (i, &(source, target)) in WIRES.iter().enumerate() {
        put_wire(board, 722 + 8 * i, source, target);
    }
}

// The plate's bytes, for the bits of mix and of 1 − mix.
fn put_plate(board: &mut [u8], size: u16, mix: u32, dry: u32)
    requires { length board.old ≡ 1270 }
    ensures { board.new ≡ write_board (plate_card size mix dry) }
{
    put_head(board, size, 2);
    put_nodes(board, mix, dry);
    put_wires(board);
    put_end(board, 1266);
}

// The plate writer. Checks 3, 12 and 7 come first, so a refusal leaves every byte as found. Each is made here
// and returned at once, so there is nothing for `?` to hand on.
pub fn write(n: u32, mix: f32, board: &mut [u8]) -> Answer
    ensures answered { result ≡ (write_of n mix board.old).0 }
    ensures bytes { board.new ≡ (write_of n mix board.old).1 }
{
    if n < 1 || 128 < n {
        return Answer::new(3, 0);
    }
    if !finite(mix) {
        return Answer::new(12, WET_LEFT);
    }
    if board.len() != LENGTH {
        return Answer::new(7, LENGTH);
    }
    put_plate(board, n as u16, to_bits(mix), to_bits(1.0 - mix));
    Answer::new(0, 0)
}
