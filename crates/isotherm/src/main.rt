// 01: prepares one isotherm in two lists of its own, asks both searches from both sides for each multiple of 100,000 Pa up to
// 10,000,000, and prints how many of the 200 pairs of answers differ.
#![tactic(auto)]

mod pairs;

use pairs::pairs_that_differ;
use preparation::prepare;
use std::io;

// R-245ca.
const FLUID: u32 = 0;

// Two lists of 1,665 zeros of its own, as 01 asks for them.
fn main(rt: HostRuntime) -> io::Result<()> {
    let mut greatest = [0.0; 1665];
    let mut least = [0.0; 1665];
    match prepare(FLUID, 400.0, 1664, &mut greatest, &mut least) {
        Ok(()) => {
            let count = pairs_that_differ(FLUID, 400.0, 1664, &greatest, &least);
            println!(rt; "{count}")
        }
        Err(r) => println!(rt; "not prepared: refusal {}", u32::from(r)),
    }
}
