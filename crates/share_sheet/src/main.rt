// The sheet program: a network file on standard input, its share sheet on standard output.
#![tactic(auto)]

use network::Network;
use report::{LONGEST_SHEET, report};
use standard_io::run;
use std::io::Write;

// One byte more than the largest file has suffices to judge it.
fn main(rt: HostRuntime) {
    let mut buffer = [0u8; Network::BYTES + 1];
    run(&rt, "share-sheet", 0, &mut buffer, |file, output| {
        let mut text = [0u8; LONGEST_SHEET];
        let length = report(file, &mut text);
        output.write_all(&text[..length])
    });
}
