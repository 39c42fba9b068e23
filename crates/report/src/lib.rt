// What the sheet program prints for a network file: its whole sheet, or one line that says why it is refused.
#![tactic(auto)]

ghost use Rattle.std.specs.Prelude.{◌≡◌, ◌≤◌, length};
ghost use Rattle.lists.specs.Lists.{put};
ghost use Rattle.report.specs.Report.{printed};

use network::{HeldNetwork, Network};
use reader::read;
use refused_line::write_refusal;
pub use whole_sheet::LONGEST_SHEET;
use whole_sheet::write_network;

// Writes what the program prints for a file at the front of a buffer, and gives its byte count.
pub fn report(file: &[u8], out: &mut [u8; LONGEST_SHEET]) -> usize
    ensures answer { (result ≡ length (printed file.now)) × (result ≤ length out.new) }
    ensures text { out.new ≡ put out.old 0 (printed file.now) }
{
    let mut table = [0u16; Network::ENTRIES];
    match read(file, &mut table) {
        Ok(_) => write_network(&HeldNetwork::new(&table), out),
        Err(cause) => write_refusal(cause, out),
    }
}
