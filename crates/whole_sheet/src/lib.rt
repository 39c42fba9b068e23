// Whole share sheets: all lines of a network's sheet in one call.
#![tactic(auto)]

ghost use Rattle.std.specs.Prelude.{◌≡◌, ◌≤◌, length};
ghost use Rattle.lists.specs.Lists.{WrittenAt};
ghost use Rattle.refusals.specs.Outcomes.{outcome_of};
ghost use Rattle.table_spec.specs.Holds.{Holds};
ghost use Rattle.two_way.specs.TwoWay.{network_of};
ghost use Rattle.whole_sheet.specs.WholeSheet.{whole_sheet, sheet_outcome, sheet_after};
ghost use Rattle.whole_sheet.specs.SheetRoom.{longest_sheet, Scored};

use network::{HeldNetwork, Network};
use scorer::score_network;
pub use sheet::Refusal;
use sheet::{LONGEST_LINE, copy_text, write_network_bus, write_network_heading};
use table_check::network;

// Bytes that are enough for every sheet: the heading, and a line for each bus.
pub const LONGEST_SHEET: usize = LONGEST_LINE * (1 + Network::BUSES);

// Writes sheet lines 0 to n at the front, and gives the place behind them.
fn write_lines(network: &HeldNetwork, over: u64, numerators: &[u64], out: &mut [u8]) -> usize
    requires { Scored (network_of network.now) over numerators.now × (longest_sheet ≤ length out.old) }
    ensures written_at { WrittenAt (whole_sheet (network_of network.now)) 0 out.old result out.new }
    ensures upper_bound { result ≤ longest_sheet }
{
    let n = network.table().buses();
    let mut end = write_network_heading(network, over, out, 0);
    for bus in 0..n {
        end = write_network_bus(network, over, numerators[bus], bus, out, end);
    }
    end
}

// Writes the sheet of a network, whose L is found once.
pub fn write_network(network: &HeldNetwork, out: &mut [u8]) -> usize
    requires { longest_sheet ≤ length out.old }
    ensures written_at { WrittenAt (whole_sheet (network_of network.now)) 0 out.old result out.new }
    ensures upper_bound { result ≤ longest_sheet }
{
    let mut numerators = [0u64; Network::BUSES];
    let numerators = &mut numerators[..network.table().buses()];
    let over = score_network(network, numerators);
    write_lines(network, over, numerators, out)
}

// The same, of a slice that holds a network.
pub fn write_sheet(table: &[u16], out: &mut [u8]) -> usize
    requires { Holds table.now × (longest_sheet ≤ length out.old) }
    ensures written_at { WrittenAt (whole_sheet (network_of table.now)) 0 out.old result out.new }
    ensures upper_bound { result ≤ longest_sheet }
{
    write_network(&HeldNetwork::new(table), out)
}

// Writes sheet lines 0 to n at the front of a lent slice. They are written aside first, since a refused call changes nothing.
pub fn whole(table: &[u16], out: &mut [u8]) -> Result<usize, Refusal>
    ensures answer { outcome_of result ≡ sheet_outcome (network_of table.now) (length out.old) }
    ensures text { out.new ≡ sheet_after (network_of table.now) out.old }
{
    let network = network(table)?;
    let mut text = [0u8; LONGEST_SHEET];
    let bytes = write_network(&network, &mut text);
    copy_text(&text[..bytes], out)
}
