// The records of a network file, in order: how many neighbours they give each bus, how many different pairs they name, and the rows that they make.
#![tactic(auto)]

ghost use Rattle.std.specs.Prelude.{[], true, false, ◌≡◌, ◌+◌, ◌*◌, ◌≤◌, ◌<◌, length};
ghost use Rattle.lists.specs.Lists.{put};
ghost use Rattle.lists.specs.Below.{join_below};
ghost use Rattle.table_spec.specs.Limits.{max_buses, max_lines};
ghost use Rattle.table_spec.specs.Layout.{laid};
ghost use Rattle.row_builder.specs.GrowingRows.{AllZero, GrowingRows};
ghost use Rattle.file_spec.specs.Sections.{sound_ends};
ghost use Rattle.file_spec.specs.RecordOrder.{out_of_order};
ghost use Rattle.file_spec.specs.Records.{neighbours, pair_count};
ghost use Rattle.file_spec.specs.OrderedRecords.{OrderedRecords};
ghost use Rattle.file_records.specs.RecordSteps.{equals_last, NeighbourCounts};

use file_sections::RecordList;
use network::Network;
use row_builder::{append, increment, store_starts};

// Records of so many buses that are sound and in order.
#[derive(Clone, Copy)]
pub struct SortedRecords<'a> {
    pub records: RecordList<'a>,
    pub buses: usize,
    pub ghost few: { (buses ≤ max_buses) × (records.count ≤ max_lines) },
    pub ghost sound: { sound_ends buses records.count records.bytes.now ≡ true },
    pub ghost sorted: { out_of_order records.count records.bytes.now ≡ false },
}

impl SortedRecords<'_> {
    // Whether record k equals the one before it. Of records in order, only such a one names a pair again.
    fn equals_last(&self, k: usize) -> bool
        requires { k < self.now.records.count }
        ensures { result ≡ equals_last self.now.records.bytes.now k }
    {
        k > 0 && self.records.ends(k) == self.records.ends(k - 1)
    }

    // Counts the neighbours that they give each bus. Gives how many different pairs they name.
    pub fn count_neighbours(&self, counts: &mut [u16; Network::BUSES]) -> usize
        requires { AllZero counts.old }
        ensures { let r = self.now.records in (result ≡ pair_count r.count r.bytes.now) × NeighbourCounts self.now.buses r.count r.bytes.now counts.new }
    {
        let mut pairs = 0;
        for k in 0..self.records.count {
            if !self.equals_last(k) {
                let ends = self.records.ends(k);
                increment(counts, ends.first);
                increment(counts, ends.second);
                pairs += 1;
            }
        }
        pairs
    }

    // Writes the neighbours that they give each bus into its row, where `next` says.
    fn fill_rows(&self, next: &mut [u16; Network::BUSES], rows: &mut [u16])
        requires { let r = self.now.records in GrowingRows self.now.buses (λ i. length (neighbours self.now.buses r.count r.bytes.now i)) (λ i. []) next.old rows.old }
        ensures { let r = self.now.records in rows.new ≡ join_below self.now.buses (neighbours self.now.buses r.count r.bytes.now) }
    {
        for k in 0..self.records.count {
            if !self.equals_last(k) {
                let ends = self.records.ends(k);
                append(rows, next, ends.first, ends.second as u16);
                append(rows, next, ends.second, ends.first as u16);
            }
        }
    }

    // Writes the row starts and the rows that they give the buses, whose neighbours were counted, into the table from place `from` on.
    pub fn store_rows(&self, counts: &mut [u16; Network::BUSES], table: &mut [u16], from: usize)
        requires counted { let r = self.now.records in NeighbourCounts self.now.buses r.count r.bytes.now counts.old }
        requires section_in_bounds { let r = self.now.records in from + length (laid self.now.buses (neighbours self.now.buses r.count r.bytes.now)) ≤ length table.old }
        ensures { let r = self.now.records in table.new ≡ put table.old from (laid self.now.buses (neighbours self.now.buses r.count r.bytes.now)) }
    {
        let numbers = store_starts(counts, self.buses, table, from);
        let first = from + self.buses + 1;
        let end = first + numbers;
        self.fill_rows(counts, &mut table[first..end]);
    }
}

// Of m records of n buses, for callers who have made no `SortedRecords` of them.

// Counts the neighbours that they give each bus. Gives how many different pairs they name.
pub fn count_neighbours(
    section: &[u8],
    n: usize,
    m: usize,
    counts: &mut [u16; Network::BUSES],
) -> usize
    requires { (4 * m ≤ length section.now) × OrderedRecords n m section.now × AllZero counts.old }
    ensures { (result ≡ pair_count m section.now) × NeighbourCounts n m section.now counts.new }
{
    let records = RecordList {
        bytes: section,
        count: m,
    };
    let sorted = SortedRecords { records, buses: n };
    sorted.count_neighbours(counts)
}

// Writes the row starts and the rows that they give the buses, whose neighbours were counted, into the table from place `from` on.
pub fn store_rows(
    section: &[u8],
    n: usize,
    m: usize,
    counts: &mut [u16; Network::BUSES],
    table: &mut [u16],
    from: usize,
)
    requires m_in_bounds { (4 * m ≤ length section.now) × OrderedRecords n m section.now × NeighbourCounts n m section.now counts.old }
    requires section_in_bounds { from + length (laid n (neighbours n m section.now)) ≤ length table.old }
    ensures { table.new ≡ put table.old from (laid n (neighbours n m section.now)) }
{
    let records = RecordList {
        bytes: section,
        count: m,
    };
    let sorted = SortedRecords { records, buses: n };
    sorted.store_rows(counts, table, from);
}
