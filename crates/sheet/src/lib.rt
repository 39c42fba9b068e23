// Share sheets: the text of one line, from a line table.
#![tactic(auto)]

ghost use Rattle.std.specs.Prelude.{◌≡◌, suc, ◌+◌, ◌≤◌, ◌<◌, length};
ghost use Rattle.lists.specs.Lists.{WrittenAt};
ghost use Rattle.refusals.specs.Outcomes.{outcome_of};
ghost use Rattle.table_spec.specs.Layout.{bus_count};
ghost use Rattle.table_spec.specs.Holds.{Holds};
ghost use Rattle.share_spec.specs.Network.{denominator};
ghost use Rattle.share_spec.specs.Formula.{numerator as numeratorOf};
ghost use Rattle.two_way.specs.TwoWay.{network_of};
ghost use Rattle.sheet.specs.Sheet.{sheet_line};
ghost use Rattle.sheet.specs.LineOutcomes.{text_outcome, text_after, line_outcome, line_after};
ghost use Rattle.sheet.specs.LineRoom.{longest_line};

use fraction::reduce;
use network::HeldNetwork;
pub use network::Refusal;
use scorer::{denominator_of, share_in};
use table_check::network;
use text::fill_template;

// Bytes that are enough for every line of a sheet.
pub const LONGEST_LINE: usize = 55;

// Writes the heading, and gives the place behind it.
pub fn write_network_heading(network: &HeldNetwork, over: u64, out: &mut [u8], at: usize) -> usize
    requires { (over ≡ denominator (network_of network.now)) × (at + longest_line ≤ length out.old) }
    ensures written_at { WrittenAt (sheet_line (network_of network.now) 0) at out.old result out.new }
    ensures upper_bound { result ≤ at + longest_line }
{
    let buses = network.table().buses() as u64;
    let lines = network.lines() as u64;
    let numbers = [buses, lines, over];
    fill_template(b"buses # lines # over #\n", &numbers, out, at)
}

// The same, of a slice that holds a network.
pub fn write_heading(table: &[u16], over: u64, out: &mut [u8], at: usize) -> usize
    requires { Holds table.now × (over ≡ denominator (network_of table.now)) × (at + longest_line ≤ length out.old) }
    ensures written_at { WrittenAt (sheet_line (network_of table.now) 0) at out.old result out.new }
    ensures upper_bound { result ≤ at + longest_line }
{
    write_network_heading(&HeldNetwork::new(table), over, out, at)
}

// Writes the line of a bus whose numerator is known, and gives the place behind it.
pub fn write_network_bus(
    network: &HeldNetwork,
    over: u64,
    numerator: u64,
    bus: usize,
    out: &mut [u8],
    at: usize,
) -> usize
    requires bus { (bus < bus_count network.now) × (at + longest_line ≤ length out.old) }
    requires over_value { (over ≡ denominator (network_of network.now)) × (numerator ≡ numeratorOf (network_of network.now) bus) }
    ensures written_at { WrittenAt (sheet_line (network_of network.now) (suc bus)) at out.old result out.new }
    ensures upper_bound { result ≤ at + longest_line }
{
    let table = network.table();
    let need = table.need(bus) as u64;
    let degree = table.neighbours(bus).len() as u64;
    let share = reduce(numerator, over);
    let numbers = [bus as u64, need, degree, numerator, share.top, share.bottom];
    fill_template(b"# # # # #/#\n", &numbers, out, at)
}

// The same, of a slice that holds a network.
pub fn write_bus(
    table: &[u16],
    over: u64,
    numerator: u64,
    bus: usize,
    out: &mut [u8],
    at: usize,
) -> usize
    requires holds { Holds table.now × (bus < bus_count table.now) × (at + longest_line ≤ length out.old) }
    requires over_value { (over ≡ denominator (network_of table.now)) × (numerator ≡ numeratorOf (network_of table.now) bus) }
    ensures written_at { WrittenAt (sheet_line (network_of table.now) (suc bus)) at out.old result out.new }
    ensures upper_bound { result ≤ at + longest_line }
{
    write_network_bus(&HeldNetwork::new(table), over, numerator, bus, out, at)
}

// Writes sheet line i at the front: line 0 is the heading, line i that of bus i - 1.
fn write_line(network: &HeldNetwork, i: usize, out: &mut [u8]) -> usize
    requires { (i ≤ bus_count network.now) × (longest_line ≤ length out.old) }
    ensures written_at { WrittenAt (sheet_line (network_of network.now) i) 0 out.old result out.new }
    ensures upper_bound { result ≤ longest_line }
{
    if i == 0 {
        return write_network_heading(network, denominator_of(network.table()), out, 0);
    }
    let bus = i - 1;
    let share = share_in(network, bus);
    write_network_bus(network, share.over, share.numerator, bus, out, 0)
}

// Copies a text to the front of a lent slice, if that is long enough.
pub fn copy_text(text: &[u8], out: &mut [u8]) -> Result<usize, Refusal>
    ensures result_value { outcome_of result ≡ text_outcome text.now (length out.old) }
    ensures out_after { out.new ≡ text_after text.now out.old }
{
    if out.len() < text.len() {
        return Err(Refusal::TextTooShort);
    }
    out[..text.len()].copy_from_slice(text);
    Ok(text.len())
}

// Writes sheet line i at the front of a lent slice. It is written aside first, since a refused call changes nothing.
pub fn line(table: &[u16], i: usize, out: &mut [u8]) -> Result<usize, Refusal>
    ensures answer { outcome_of result ≡ line_outcome (network_of table.now) i (length out.old) }
    ensures text { out.new ≡ line_after (network_of table.now) i out.old }
{
    let network = network(table)?;
    if network.table().buses() < i {
        return Err(Refusal::NoSuchBus);
    }
    let mut text = [0u8; LONGEST_LINE];
    let bytes = write_line(&network, i, &mut text);
    copy_text(&text[..bytes], out)
}
