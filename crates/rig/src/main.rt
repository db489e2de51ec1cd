// The end-of-line rig: 64 bytes on standard output, which every unit must give when it is driven as here
// before it leaves (docs/FIRMWARE.md, "End of line").
#![tactic(auto)]

mod burst;

use std::io;

fn main(rt: HostRuntime) -> io::Result<()> {
    burst::write_burst(&mut io::writer(&rt))
}
