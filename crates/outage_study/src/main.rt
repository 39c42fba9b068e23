// The outage program: a two-byte line number and a network file on standard input, the changes of all buses when that line goes out on standard output.
#![tactic(auto)]

use network::Network;
use outage_report::{LONGEST_CHANGES, report};
use standard_io::run;
use std::io::Write;

// The bytes of the line number.
const AHEAD: usize = 2;

// The line number and one byte more than the largest file has suffice to judge the input.
fn main(rt: HostRuntime) {
    let mut buffer = [0u8; AHEAD + Network::BYTES + 1];
    run(&rt, "outage", AHEAD, &mut buffer, |input, output| {
        let mut text = [0u8; LONGEST_CHANGES];
        let length = report(input, &mut text);
        output.write_all(&text[..length])
    });
}
