// The file writer: the network file of a line table.
#![tactic(auto)]

ghost use Rattle.std.specs.Prelude.{◌≡◌, ◌+◌, ◌≤◌, ◌<◌, length};
ghost use Rattle.lists.specs.Lists.{WrittenAt};
ghost use Rattle.refusals.specs.Outcomes.{outcome_of};
ghost use Rattle.table_spec.specs.Layout.{bus_count, weights, row};
ghost use Rattle.table_spec.specs.Holds.{NeedsInRange};
ghost use Rattle.write_spec.specs.FileOf.{word, words, pair_records, all_ones, weight_section, file_of};
ghost use Rattle.write_spec.specs.WriteOutcome.{write_outcome, bytes_after};
ghost use Rattle.writer.specs.FileFront.{front_of};
ghost use Rattle.writer.specs.RowRecords.{record_above, row_records};

use network::HeldNetwork;
pub use network::Refusal;
use network::table::Table;
use table_check::network;

// Writes a number in two bytes, low byte first, and gives the place behind it.
fn write_word(number: usize, out: &mut [u8], at: usize) -> usize
    requires { (number < 65536) × (at + 2 ≤ length out.old) }
    ensures { WrittenAt (word number) at out.old result out.new }
{
    let [low, high] = (number as u16).to_le_bytes();
    out[at] = low;
    out[at + 1] = high;
    at + 2
}

// Writes a byte for each need, and gives the place behind them.
fn write_needs(needs: &[u16], out: &mut [u8], at: usize) -> usize
    requires { NeedsInRange needs.now × (at + length needs.now ≤ length out.old) }
    ensures { WrittenAt needs.now at out.old result out.new }
{
    for (bus, need) in needs.iter().enumerate() {
        out[at + bus] = *need as u8;
    }
    at + needs.len()
}

// Writes the record of a bus with a neighbour that is above it, and gives the place behind it; of another neighbour it writes none.
fn write_pair(bus: usize, neighbour: usize, out: &mut [u8], at: usize) -> usize
    requires { (neighbour < 65536) × (at + length (record_above bus neighbour) ≤ length out.old) }
    ensures { WrittenAt (record_above bus neighbour) at out.old result out.new }
{
    if neighbour <= bus {
        return at;
    }
    let middle = write_word(bus, out, at);
    write_word(neighbour, out, middle)
}

// Writes the records of a bus with those of its neighbours that are above it, and gives the place behind them.
fn write_row(row: &[u16], bus: usize, out: &mut [u8], at: usize) -> usize
    requires { at + length (row_records bus row.now) ≤ length out.old }
    ensures { WrittenAt (row_records bus row.now) at out.old result out.new }
{
    let mut end = at;
    for neighbour in row {
        end = write_pair(bus, usize::from(*neighbour), out, end);
    }
    end
}

// Writes the records of a network, and gives the place behind them.
fn write_pairs(table: &Table, out: &mut [u8], at: usize) -> usize
    requires { at + length (pair_records (bus_count table.now) (row table.now)) ≤ length out.old }
    ensures { WrittenAt (pair_records (bus_count table.now) (row table.now)) at out.old result out.new }
{
    let mut end = at;
    for bus in 0..table.buses() {
        end = write_row(table.neighbours(bus), bus, out, end);
    }
    end
}

// Writes the file of a network up to its weights at the front of bytes that are enough, and gives the place behind it.
fn write_front(network: &HeldNetwork, out: &mut [u8]) -> usize
    requires { length (front_of network.now) ≤ length out.old }
    ensures { WrittenAt (front_of network.now) 0 out.old result out.new }
{
    let table = network.table();
    let needs_at = write_word(table.buses(), out, 0);
    let lines_at = write_needs(table.needs(), out, needs_at);
    let pairs_at = write_word(network.lines(), out, lines_at);
    write_pairs(table, out, pairs_at)
}

// Whether all weights are 1.
fn all_ones(weights: &[u16]) -> bool
    ensures { result ≡ all_ones weights.now }
{
    weights.iter().all(|weight| *weight == 1)
}

// Writes each weight in two bytes, and gives the place behind them.
fn write_weights(weights: &[u16], out: &mut [u8], at: usize) -> usize
    requires { at + length (words weights.now) ≤ length out.old }
    ensures { WrittenAt (words weights.now) at out.old result out.new }
{
    let mut end = at;
    for weight in weights {
        end = write_word(usize::from(*weight), out, end);
    }
    end
}

// Writes the section of weights, unless all are 1, and gives the place behind it.
fn write_section(weights: &[u16], ones: bool, out: &mut [u8], at: usize) -> usize
    requires { (ones ≡ all_ones weights.now) × (length weights.now < 65536) × (at + length (weight_section weights.now) ≤ length out.old) }
    ensures { WrittenAt (weight_section weights.now) at out.old result out.new }
{
    if ones {
        return at;
    }
    let weights_at = write_word(weights.len(), out, at);
    write_weights(weights, out, weights_at)
}

// How many bytes the file of a network has; `ones` says whether all weights are 1.
fn byte_count(network: &HeldNetwork, ones: bool) -> usize
    requires { ones ≡ all_ones (weights network.now) }
    ensures { result ≡ length (file_of network.now) }
{
    let n = network.table().buses();
    let front = 2 + n + 2 + 4 * network.lines();
    if ones {
        return front;
    }
    front + 2 + 2 * n
}

// Writes the file of a network at the front of bytes that are enough, and gives its byte count.
fn write_file(network: &HeldNetwork, ones: bool, out: &mut [u8]) -> usize
    requires { (ones ≡ all_ones (weights network.now)) × (length (file_of network.now) ≤ length out.old) }
    ensures { WrittenAt (file_of network.now) 0 out.old result out.new }
{
    let weights = network.table().weights();
    let weights_at = write_front(network, out);
    write_section(weights, ones, out, weights_at)
}

// Writes the file of a network at the front of lent bytes, and gives its byte count.
pub fn write(table: &[u16], out: &mut [u8]) -> Result<usize, Refusal>
    ensures answer { outcome_of result ≡ write_outcome table.now (length out.old) }
    ensures written { out.new ≡ bytes_after table.now out.old }
{
    let network = network(table)?;
    let ones = all_ones(network.table().weights());
    if out.len() < byte_count(&network, ones) {
        return Err(Refusal::BytesTooShort);
    }
    Ok(write_file(&network, ones, out))
}
