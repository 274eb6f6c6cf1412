// The program verdict: what column.dat and standard input come to. Its own run is job J under sheet T.
#![tactic(auto)]

use std::io;

fn main(rt: HostRuntime) -> io::Result<()> {
    console::run(&rt)
}
