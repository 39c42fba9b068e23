// What the outage program prints for its input, a line number and a network file: the change of each bus when that line goes out, or one line that says
// why the input is refused.
#![tactic(auto)]

ghost use Rattle.std.specs.Prelude.{◌≡◌, ◌+◌, ◌≤◌, length};
ghost use Rattle.lists.specs.Lists.{put, WrittenAt};
ghost use Rattle.outage_report.specs.OutageReport.{line_of, lines_of, studied, printed};
ghost use Rattle.outage_report.specs.ChangeRoom.{Small, longest_changes};

use file_sections::word;
use network::{HeldNetwork, Network};
use outage::study_network;
use reader::{Refusal, read};
use refused_line::write_refusal;
use text::{fill_template, signed_decimal};

// Bytes that are enough for the line of a bus.
pub const LONGEST_CHANGE: usize = 20;

// Bytes that are enough for the lines of every network.
pub const LONGEST_CHANGES: usize = LONGEST_CHANGE * Network::BUSES;

// Writes the line of a bus, and gives the place behind it.
fn write_change(bus: usize, change: i64, out: &mut [u8], at: usize) -> usize
    requires { at + length (line_of bus change) ≤ length out.old }
    ensures { WrittenAt (line_of bus change) at out.old result out.new }
{
    let from = fill_template(b"# ", &[bus as u64], out, at);
    let end = signed_decimal(change, out, from);
    out[end] = b'\n';
    end + 1
}

// Writes a line for each change at the front, bus 0 first, and gives the place behind them.
fn write_changes(changes: &[i64], out: &mut [u8]) -> usize
    requires { Small changes.now × (longest_changes ≤ length out.old) }
    ensures written_at { WrittenAt (lines_of changes.now) 0 out.old result out.new }
    ensures upper_bound { result ≤ longest_changes }
{
    let mut end = 0;
    for (bus, change) in changes.iter().enumerate() {
        end = write_change(bus, *change, out, end);
    }
    end
}

// Writes the changes of all buses of a network when a line goes out, or why the line is refused.
fn write_study(network: &HeldNetwork, line: usize, out: &mut [u8]) -> usize
    requires { longest_changes ≤ length out.old }
    ensures written_at { WrittenAt (studied network.now line) 0 out.old result out.new }
    ensures upper_bound { result ≤ longest_changes }
{
    let n = network.table().buses();
    let mut changes = [0i64; Network::BUSES];
    match study_network(network, line, &mut changes) {
        Ok(_) => write_changes(&changes[..n], out),
        Err(cause) => write_refusal(cause, out),
    }
}

// Writes what the program prints for an input at the front of a buffer, and gives its byte count.
pub fn report(input: &[u8], out: &mut [u8; LONGEST_CHANGES]) -> usize
    ensures answer { (result ≡ length (printed input.now)) × (result ≤ length out.new) }
    ensures text { out.new ≡ put out.old 0 (printed input.now) }
{
    if input.len() < 2 {
        return write_refusal(Refusal::FileTooShort, out);
    }
    let line = word(input, 0);
    let mut table = [0u16; Network::ENTRIES];
    match read(&input[2..], &mut table) {
        Ok(_) => write_study(&HeldNetwork::new(&table), line, out),
        Err(cause) => write_refusal(cause, out),
    }
}
