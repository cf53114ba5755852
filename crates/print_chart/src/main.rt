// The printing program of 01, run on its chart K.
#![tactic(auto)]

use std::io;

fn main(rt: HostRuntime) -> io::Result<()> {
    program_io::printing::run(&rt)
}
