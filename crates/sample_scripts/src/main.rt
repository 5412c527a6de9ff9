//! Prints the sample script of the size on the standard input, a number from 1 to 1,000. The scripts under checks/ compare it with
//! what it has to be.
#![tactic(auto)]

use sample_script::sample_script;
use std::io;
use std::io::Read;

fn main(rt: HostRuntime) -> io::Result<()> {
    let alloc = rt.alloc();
    let mut words = String::new(alloc);
    rt.stdin().take(100).read_to_string(&mut words)?;
    match words.trim().parse::<u32>() {
        Ok(n) if n >= 1 && n <= 1000 => {
            let script = sample_script(alloc, n)?;
            print!(rt; "{script}")
        }
        _ => println!(rt; "a number from 1 to 1,000 is wanted"),
    }
}
