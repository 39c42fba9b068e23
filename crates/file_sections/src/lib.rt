// The network file: where it has what, whether its counts, its needs, its weights and the ends of its records are sound, and whether its records are in order.
#![tactic(auto)]

ghost use Rattle.std.specs.Prelude.{◌||◌, ◌≡◌, ◌+◌, ◌*◌, ◌≤◌, ◌<◌, length};
ghost use Rattle.lists.specs.Below.{map_below};
ghost use Rattle.refusals.specs.Outcomes.{outcome, outcome_of};
ghost use Rattle.table_spec.specs.Limits.{max_buses, max_lines};
ghost use Rattle.table_spec.specs.Holds.{needs_in_range, weights_in_range};
ghost use Rattle.file_spec.specs.FileBytes.{word_at, file_bus_count, needs_end, need_bytes, file_line_count, records_end, records, first_end, second_end, weight_bytes, weight_in};
ghost use Rattle.file_spec.specs.Sections.{bus_section_causes, line_count_causes, missing_causes, weight_section_causes, end_causes, counts, sections_outcome, two_buses, sound_ends};
ghost use Rattle.file_spec.specs.SoundSections.{SoundSections};
ghost use Rattle.file_spec.specs.RecordOrder.{turned, falls, out_of_order};

pub use network::{Counts, Refusal};
use network::{Network, within};

// The two-byte number at place i, low byte first.
pub fn word(bytes: &[u8], i: usize) -> usize
    requires { i + 1 < length bytes.now }
    ensures { (result ≡ word_at bytes.now i) × (result < 65536) }
{
    usize::from(u16::from_le_bytes([bytes[i], bytes[i + 1]]))
}

// The need bytes of a file of n buses.
pub fn need_bytes(file: &[u8], n: usize) -> &[u8]
    requires { (n ≡ file_bus_count file.now) × (needs_end file.now ≤ length file.now) }
    ensures { result.now ≡ need_bytes file.now }
{
    &file[2..2 + n]
}

// The weight that the bytes of a section of weights give a bus; where there are none, 1.
pub fn weight_in(section: &[u8], bus: usize) -> usize
    requires { 0 < length section.now → 2 * bus + 1 < length section.now }
    ensures { (result ≡ weight_in section.now bus) × (result < 65536) }
{
    if section.is_empty() {
        return 1;
    }
    word(section, 2 * bus)
}

// Whether every need is one that a bus may have.
fn needs_in_range(needs: &[u8]) -> bool
    ensures { result ≡ needs_in_range needs.now }
{
    needs
        .iter()
        .all(|need| within(1, Network::NEED, usize::from(*need)))
}

// The bus count of a file, if that and the needs are sound.
pub fn bus_section(file: &[u8]) -> Result<usize, Refusal>
    ensures { outcome_of result ≡ outcome (bus_section_causes file.now) (file_bus_count file.now) }
{
    if file.len() < 2 {
        return Err(Refusal::FileTooShort);
    }
    let n = word(file, 0);
    if !within(1, Network::BUSES, n) {
        return Err(Refusal::BusCount);
    }
    if file.len() < 2 + n {
        return Err(Refusal::FileTooShort);
    }
    if !needs_in_range(need_bytes(file, n)) {
        return Err(Refusal::Need);
    }
    Ok(n)
}

// The line count of a file of n buses, if it is sound.
pub fn line_count(file: &[u8], n: usize) -> Result<usize, Refusal>
    requires { (n ≡ file_bus_count file.now) × (n ≤ max_buses) }
    ensures { outcome_of result ≡ outcome (line_count_causes file.now) (file_line_count file.now) }
{
    let from = 2 + n;
    if file.len() < from + 2 {
        return Err(Refusal::FileTooShort);
    }
    let m = word(file, from);
    if !within(0, Network::LINES, m) {
        return Err(Refusal::LineCount);
    }
    Ok(m)
}

// Whether every weight that the bytes of a section give n buses is one that a bus may have.
fn weights_in_range(section: &[u8], n: usize) -> bool
    requires { 2 * n ≤ length section.now }
    ensures { result ≡ weights_in_range (map_below n (weight_in section.now)) }
{
    (0..n).all(|bus| within(1, Network::WEIGHT, weight_in(section, bus)))
}

// A file and its two counts, both sound: how many buses it has, and how many records.
#[derive(Clone, Copy)]
pub struct CountedFile<'a> {
    pub file: &'a [u8],
    pub buses: usize,
    pub lines: usize,
    pub ghost counted: { (buses ≡ file_bus_count file.now) × (lines ≡ file_line_count file.now) },
    pub ghost few: { (buses ≤ max_buses) × (lines ≤ max_lines) },
}

impl<'a> CountedFile<'a> {
    // Where its records end, if they are complete.
    pub fn records_end(&self) -> Result<usize, Refusal>
        ensures { outcome_of result ≡ outcome (missing_causes self.now.file.now) (records_end self.now.file.now) }
    {
        let end = 2 + self.buses + 2 + 4 * self.lines;
        if self.file.len() < end {
            return Err(Refusal::FileTooShort);
        }
        Ok(end)
    }

    // Whether its section of weights, behind records that end at place `from`, is sound, and the file ends behind it.
    fn weight_section(&self, from: usize) -> Result<(), Refusal>
        requires { from ≡ records_end self.now.file.now }
        ensures { outcome_of result ≡ outcome (weight_section_causes self.now.file.now) tt }
    {
        let file = self.file;
        let weights_at = from + 2;
        if file.len() < weights_at {
            return Err(Refusal::FileTooShort);
        }
        if word(file, from) != self.buses {
            return Err(Refusal::WeightCount);
        }
        let weights_end = weights_at + 2 * self.buses;
        if file.len() < weights_end {
            return Err(Refusal::FileTooShort);
        }
        if !weights_in_range(&file[weights_at..weights_end], self.buses) {
            return Err(Refusal::Weight);
        }
        if weights_end < file.len() {
            return Err(Refusal::FileTooLong);
        }
        Ok(())
    }

    // Judges what follows its records, which end at place `from`: nothing, or a section of weights.
    pub fn judge_weights(&self, from: usize) -> Result<Counts, Refusal>
        requires { from ≡ records_end self.now.file.now }
        ensures { outcome_of result ≡ outcome (end_causes self.now.file.now) (counts self.now.file.now) }
    {
        if from < self.file.len() {
            self.weight_section(from)?;
        }
        Ok(Counts {
            buses: self.buses,
            lines: self.lines,
        })
    }

    // Its records.
    pub fn records(&self) -> RecordList<'a>
        requires { SoundSections self.now.file.now }
        ensures { (result.bytes.now ≡ records self.now.file.now) × (result.count ≡ file_line_count self.now.file.now) }
    {
        let from = 2 + self.buses + 2;
        let end = from + 4 * self.lines;
        RecordList {
            bytes: &self.file[from..end],
            count: self.lines,
        }
    }

    // The bytes of its weights; none if it ends behind the records.
    pub fn weight_bytes(&self) -> &'a [u8]
        requires { SoundSections self.now.file.now }
        ensures { result.now ≡ weight_bytes self.now.file.now }
    {
        let end = 2 + self.buses + 2 + 4 * self.lines;
        if self.file.len() <= end {
            return &self.file[end..end];
        }
        let from = end + 2;
        &self.file[from..from + 2 * self.buses]
    }
}

// Of a file of n buses and m records, for callers who have made no `CountedFile` of it.

// Where the records end, if they are complete.
pub fn records_end(file: &[u8], n: usize, m: usize) -> Result<usize, Refusal>
    requires { (n ≡ file_bus_count file.now) × (n ≤ max_buses) × (m ≡ file_line_count file.now) × (m ≤ max_lines) }
    ensures { outcome_of result ≡ outcome (missing_causes file.now) (records_end file.now) }
{
    let counted = CountedFile {
        file,
        buses: n,
        lines: m,
    };
    counted.records_end()
}

// Judges what follows the records, which end at place `from`: nothing, or a section of weights.
pub fn judge_weights(file: &[u8], n: usize, m: usize, from: usize) -> Result<Counts, Refusal>
    requires { (n ≡ file_bus_count file.now) × (n ≤ max_buses) × (m ≡ file_line_count file.now) × (m ≤ max_lines) × (from ≡ records_end file.now) }
    ensures { outcome_of result ≡ outcome (end_causes file.now) (counts file.now) }
{
    let counted = CountedFile {
        file,
        buses: n,
        lines: m,
    };
    counted.judge_weights(from)
}

// The bytes of the records.
pub fn records(file: &[u8], n: usize, m: usize) -> &[u8]
    requires { (n ≡ file_bus_count file.now) × (m ≡ file_line_count file.now) × SoundSections file.now }
    ensures { result.now ≡ records file.now }
{
    let counted = CountedFile {
        file,
        buses: n,
        lines: m,
    };
    counted.records().bytes
}

// The bytes of the weights; none if the file ends behind the records.
pub fn weight_bytes(file: &[u8], n: usize, m: usize) -> &[u8]
    requires { (n ≡ file_bus_count file.now) × (m ≡ file_line_count file.now) × SoundSections file.now }
    ensures { result.now ≡ weight_bytes file.now }
{
    let counted = CountedFile {
        file,
        buses: n,
        lines: m,
    };
    counted.weight_bytes()
}

// Judges all of a file but what its records say. Gives its two counts; that of lines is how many records there are.
pub fn judge(file: &[u8]) -> Result<Counts, Refusal>
    ensures { outcome_of result ≡ sections_outcome file.now }
{
    let buses = bus_section(file)?;
    let lines = line_count(file, buses)?;
    let counted = CountedFile { file, buses, lines };
    let end = counted.records_end()?;
    counted.judge_weights(end)
}

// Whether a and b are two different buses below n.
fn two_buses(n: usize, a: usize, b: usize) -> bool
    ensures { result ≡ two_buses n a b }
{
    a < n && b < n && a != b
}

// The two bus numbers of a record.
#[derive(Clone, Copy, PartialEq, Eq)]
pub struct Ends {
    pub first: usize,
    pub second: usize,
}

// Records: how many, and their bytes, four for each.
#[derive(Clone, Copy)]
pub struct RecordList<'a> {
    pub bytes: &'a [u8],
    pub count: usize,
    pub ghost complete: { 4 * count ≤ length bytes.now },
}

impl RecordList<'_> {
    // Record k.
    pub fn ends(&self, k: usize) -> Ends
        requires { k < self.now.count }
        ensures { (result.first ≡ first_end self.now.bytes.now k) × (result.second ≡ second_end self.now.bytes.now k) }
    {
        let from = 4 * k;
        let first = word(self.bytes, from);
        let second = word(self.bytes, from + 2);
        Ends { first, second }
    }

    // Whether each of them names two different buses below n.
    pub fn sound_ends(&self, n: usize) -> bool
        ensures { result ≡ sound_ends n self.now.count self.now.bytes.now }
    {
        // `all` over the records takes longer.
        for k in 0..self.count {
            let ends = self.ends(k);
            if !two_buses(n, ends.first, ends.second) {
                return false;
            }
        }
        true
    }

    // Whether record k is out of order: it names its higher bus first, or is below the one before it.
    fn misplaced(&self, k: usize) -> bool
        requires { k < self.now.count }
        ensures { result ≡ (turned self.now.bytes.now k || falls self.now.bytes.now k) }
    {
        let ends = self.ends(k);
        if ends.second < ends.first {
            return true;
        }
        if k == 0 {
            return false;
        }
        let before = self.ends(k - 1);
        // One test of the pairs, by a derived order or by `||` and `&&`, takes longer.
        if ends.first == before.first {
            return ends.second < before.second;
        }
        ends.first < before.first
    }

    // Whether one of them is out of order. Not inlined, since within Read the loop has too few registers and takes longer.
    #[inline(never)]
    pub fn out_of_order(&self) -> bool
        ensures { result ≡ out_of_order self.now.count self.now.bytes.now }
    {
        // `any` over the records takes longer.
        for k in 0..self.count {
            if self.misplaced(k) {
                return true;
            }
        }
        false
    }
}

// Of a section of m records, for callers who have made no `RecordList` of it.

// Record k.
pub fn ends_of(section: &[u8], k: usize) -> Ends
    requires { 4 * k + 3 < length section.now }
    ensures { (result.first ≡ first_end section.now k) × (result.second ≡ second_end section.now k) }
{
    let records = RecordList {
        bytes: section,
        count: k + 1,
    };
    records.ends(k)
}

// Whether each of m records names two different buses below n.
pub fn sound_ends(section: &[u8], n: usize, m: usize) -> bool
    requires { 4 * m ≤ length section.now }
    ensures { result ≡ sound_ends n m section.now }
{
    let records = RecordList {
        bytes: section,
        count: m,
    };
    records.sound_ends(n)
}

// Whether one of m records is out of order.
pub fn out_of_order(section: &[u8], m: usize) -> bool
    requires { 4 * m ≤ length section.now }
    ensures { result ≡ out_of_order m section.now }
{
    let records = RecordList {
        bytes: section,
        count: m,
    };
    records.out_of_order()
}
