// Read: a network file into a lent line table.
#![tactic(auto)]

ghost use Rattle.std.specs.Prelude.{◌∷◌, ◌≡◌, ◌+◌, ◌≤◌, length};
ghost use Rattle.lists.specs.Lists.{put};
ghost use Rattle.lists.specs.Below.{map_below};
ghost use Rattle.refusals.specs.Outcomes.{outcome_of};
ghost use Rattle.table_spec.specs.Limits.{max_buses, max_lines};
ghost use Rattle.table_spec.specs.Layout.{table_entries};
ghost use Rattle.file_spec.specs.FileBytes.{weight_in};
ghost use Rattle.file_spec.specs.SoundSections.{CompleteWeights};
ghost use Rattle.file_spec.specs.Records.{pair_count};
ghost use Rattle.file_records.specs.RecordSteps.{NeighbourCounts};
ghost use Rattle.read_spec.specs.ReadOutcome.{read_outcome, table_after, Recorded};
ghost use Rattle.read_spec.specs.ReadStages.{records_table, LinesDue, RecordsDue};

use file_records::SortedRecords;
pub use file_sections::Counts;
use file_sections::{CountedFile, RecordList, judge, need_bytes, weight_in};
use network::Network;
pub use network::Refusal;
use network::table::{entries, starts_from, weights_from};
use row_builder::{degree_too_high, needs_can_be_met, zero_counts};

// The sections of a file whose records are sound and in order: the needs and the weights of its buses, and the records.
#[derive(Clone, Copy)]
struct Sections<'a> {
    needs: &'a [u8],
    weights: &'a [u8],
    sorted: SortedRecords<'a>,
    ghost counted: { sorted.buses ≡ length needs.now },
    ghost weighed: { CompleteWeights (length needs.now) weights.now },
}

impl Sections<'_> {
    // Writes the bus count and the needs.
    fn store_needs(&self, table: &mut [u16])
        requires { 1 + length self.now.needs.now ≤ length table.old }
        ensures { table.new ≡ put table.old 0 (length self.now.needs.now ∷ self.now.needs.now) }
    {
        table[0] = self.needs.len() as u16;
        for (bus, need) in self.needs.iter().enumerate() {
            table[1 + bus] = u16::from(*need);
        }
    }

    // Writes the weights into the table from place `from` on.
    fn store_weights(&self, table: &mut [u16], from: usize)
        requires { from + length self.now.needs.now ≤ length table.old }
        ensures { table.new ≡ put table.old from (map_below (length self.now.needs.now) (weight_in self.now.weights.now)) }
    {
        for bus in 0..self.needs.len() {
            table[from + bus] = weight_in(self.weights, bus) as u16;
        }
    }

    // Writes their table. `counts` has how many neighbours the records give each bus.
    fn store_table(&self, counts: &mut [u16; Network::BUSES], table: &mut [u16])
        requires counted { let r = self.now.sorted.records in NeighbourCounts (length self.now.needs.now) r.count r.bytes.now counts.old }
        requires room { let r = self.now.sorted.records in table_entries (length self.now.needs.now) (pair_count r.count r.bytes.now) ≤ length table.old }
        ensures { let r = self.now.sorted.records in table.new ≡ put table.old 0 (records_table self.now.needs.now self.now.weights.now r.count r.bytes.now) }
    {
        let n = self.needs.len();
        self.store_needs(table);
        self.store_weights(table, weights_from(n));
        self.sorted.store_rows(counts, table, starts_from(n));
    }

    // Reads the records.
    fn read_lines(&self, table: &mut [u16]) -> Result<Counts, Refusal>
        ensures { let r = self.now.sorted.records in LinesDue self.now.needs.now self.now.weights.now r.count r.bytes.now table.old (outcome_of result) table.new }
    {
        let n = self.needs.len();
        let mut counts = zero_counts();
        let lines = self.sorted.count_neighbours(&mut counts);
        if degree_too_high(&counts, n) {
            return Err(Refusal::DegreeTooHigh);
        }
        if !needs_can_be_met(self.needs, &counts) {
            return Err(Refusal::NeedAboveDegree);
        }
        if table.len() < entries(n, lines) {
            return Err(Refusal::TableTooShort);
        }
        self.store_table(&mut counts, table);
        Ok(Counts { buses: n, lines })
    }
}

// Reads records, of buses with these needs and weights.
fn read_records<'a>(
    needs: &'a [u8],
    weights: &'a [u8],
    records: &RecordList<'a>,
    table: &mut [u16],
) -> Result<Counts, Refusal>
    requires { (length needs.now ≤ max_buses) × CompleteWeights (length needs.now) weights.now × (records.now.count ≤ max_lines) }
    ensures { RecordsDue needs.now weights.now records.now.count records.now.bytes.now table.old (outcome_of result) table.new }
{
    let buses = needs.len();
    if !records.sound_ends(buses) {
        return Err(Refusal::LineEnds);
    }
    if records.out_of_order() {
        return Err(Refusal::OutOfOrder);
    }
    let sorted = SortedRecords {
        records: *records,
        buses,
    };
    let sections = Sections {
        needs,
        weights,
        sorted,
    };
    sections.read_lines(table)
}

// Reads a file into a lent slice. No `?` on the sections' answer: the cause stands here, so that a wrong one can be planted in its place.
pub fn read(file: &[u8], table: &mut [u16]) -> Result<Counts, Refusal>
    ensures answer { outcome_of result ≡ read_outcome file.now (length table.old) }
    ensures stored { table.new ≡ table_after file.now table.old }
    ensures recorded { Recorded file.now table.old (outcome_of result) table.new }
{
    match judge(file) {
        Ok(counts) => {
            let counted = CountedFile {
                file,
                buses: counts.buses,
                lines: counts.lines,
            };
            let needs = need_bytes(file, counts.buses);
            read_records(needs, counted.weight_bytes(), &counted.records(), table)
        }
        Err(cause) => Err(cause),
    }
}
