// The library for C, and for languages that call C: each call of the scope, the file writer, the outage study, the whole sheet and the sizes that are enough, on numbers, slices and lent places.
// A call gives a 32-bit status: 0, or the scope's number where it is refused. Values are handed back through lent places, which a refused call leaves as they were.
#![tactic(auto)]

ghost use Rattle.std.specs.Prelude.{◌≡◌, length};
ghost use Rattle.refusals.specs.Numbers.{number_of};
ghost use Rattle.refusals.specs.Outcomes.{outcome_of};
ghost use Rattle.table_spec.specs.Limits.{max_buses, max_entries, max_bytes};
ghost use Rattle.table_spec.specs.TableOutcomes.{degree_outcome, row_place_outcome, RowStands};
ghost use Rattle.read_spec.specs.ReadOutcome.{read_outcome, table_after, Recorded};
ghost use Rattle.write_spec.specs.WriteOutcome.{write_outcome, bytes_after};
ghost use Rattle.two_way.specs.TwoWay.{network_of};
ghost use Rattle.share_spec.specs.ShareOutcomes.{shares_outcome, numerators_after, AllFair, share_outcome, OneFair};
ghost use Rattle.outage_spec.specs.StudyOutcome.{study_outcome, changes_after, AllStudied};
ghost use Rattle.fraction.specs.Cancel.{cancel_outcome, CancelRule};
ghost use Rattle.sheet.specs.LineOutcomes.{line_outcome, line_after};
ghost use Rattle.whole_sheet.specs.WholeSheet.{sheet_outcome, sheet_after};
ghost use Rattle.whole_sheet.specs.SheetRoom.{longest_sheet};
ghost use Rattle.share_sheet_c.specs.Status.{ByStatus, outcome_of_status, counted};

use network::Network;
use refusals::Refusal;
use whole_sheet::LONGEST_SHEET;

// The status of a refused call.
fn status(cause: Refusal) -> u32
    ensures { result ≡ number_of cause }
{
    cause.number() as u32
}

// Hands back what a call gives through a lent place, and gives its status.
fn hand_back<T: Copy>(answer: Result<T, Refusal>, place: &mut T) -> u32
    ensures { ByStatus (outcome_of answer) place.old result place.new }
{
    match answer {
        Ok(value) => {
            *place = value;
            0
        }
        Err(cause) => status(cause),
    }
}

// Reads a file into a lent table, and gives n and m.
#[unsafe(no_mangle)]
pub extern "C" fn share_sheet_read(
    file: &[u8],
    table: &mut [u16],
    buses: &mut usize,
    lines: &mut usize,
) -> u32
    ensures answer { ByStatus (read_outcome file.now (length table.old)) (counted buses.old lines.old) result (counted buses.new lines.new) }
    ensures stored { table.new ≡ table_after file.now table.old }
    ensures recorded { Recorded file.now table.old (outcome_of_status result (counted buses.new lines.new)) table.new }
{
    match reader::read(file, table) {
        Ok(counts) => {
            *buses = counts.buses;
            *lines = counts.lines;
            0
        }
        Err(cause) => status(cause),
    }
}

// Writes the file of a table's network at the front of lent bytes, and gives its byte count.
#[unsafe(no_mangle)]
pub extern "C" fn share_sheet_write(table: &[u16], file: &mut [u8], bytes: &mut usize) -> u32
    ensures answer { ByStatus (write_outcome table.now (length file.old)) bytes.old result bytes.new }
    ensures written { file.new ≡ bytes_after table.now file.old }
{
    hand_back(writer::write(table, file), bytes)
}

// Gives the degree of a bus.
#[unsafe(no_mangle)]
pub extern "C" fn share_sheet_degree(table: &[u16], bus: usize, degree: &mut usize) -> u32
    ensures answer { ByStatus (degree_outcome table.now bus) degree.old result degree.new }
{
    hand_back(table_lookup::degree(table, bus), degree)
}

// Gives where the row of a bus begins in the table, and how many entries it has.
// The scope's Row is that part of the table itself, and where it is refused the empty part. So a caller in C takes the `entries` entries from `start` on where the status is 0, and otherwise none, since both places are then as they were.
#[unsafe(no_mangle)]
pub extern "C" fn share_sheet_row(
    table: &[u16],
    bus: usize,
    start: &mut usize,
    entries: &mut usize,
) -> u32
    ensures answer { ByStatus (row_place_outcome table.now bus) (start.old, entries.old) result (start.new, entries.new) }
    ensures stands { RowStands table.now bus (outcome_of_status result (start.new, entries.new)) }
{
    match table_lookup::row_place(table, bus) {
        Ok(place) => {
            *start = place.start;
            *entries = place.entries;
            0
        }
        Err(cause) => status(cause),
    }
}

// Stores the numerators of all buses, and gives L.
#[unsafe(no_mangle)]
pub extern "C" fn share_sheet_shares(table: &[u16], numerators: &mut [u64], over: &mut u64) -> u32
    ensures answer { ByStatus (shares_outcome (network_of table.now) (length numerators.old)) over.old result over.new }
    ensures stored { numerators.new ≡ numerators_after (network_of table.now) numerators.old }
    ensures fair { AllFair (network_of table.now) (length numerators.old) (outcome_of_status result over.new) numerators.new }
{
    hand_back(scorer::shares(table, numerators), over)
}

// Gives the numerator of one bus, and L.
#[unsafe(no_mangle)]
pub extern "C" fn share_sheet_share(
    table: &[u16],
    bus: usize,
    numerator: &mut u64,
    over: &mut u64,
) -> u32
    ensures answer { ByStatus (share_outcome (network_of table.now) bus) (numerator.old, over.old) result (numerator.new, over.new) }
    ensures fair { OneFair (network_of table.now) bus (outcome_of_status result (numerator.new, over.new)) }
{
    match scorer::share(table, bus) {
        Ok(share) => {
            *numerator = share.numerator;
            *over = share.over;
            0
        }
        Err(cause) => status(cause),
    }
}

// Stores the changes of all buses when a line goes out, and gives L.
#[unsafe(no_mangle)]
pub extern "C" fn share_sheet_outage(
    table: &[u16],
    line: usize,
    changes: &mut [i64],
    over: &mut u64,
) -> u32
    ensures answer { ByStatus (study_outcome table.now line (length changes.old)) over.old result over.new }
    ensures stored { changes.new ≡ changes_after table.now line changes.old }
    ensures fair { AllStudied table.now line (length changes.old) (outcome_of_status result over.new) changes.new }
{
    hand_back(outage::changes(table, line, changes), over)
}

// Gives a fraction in lowest terms.
#[unsafe(no_mangle)]
pub extern "C" fn share_sheet_cancel(
    numerator: u64,
    denominator: u64,
    top: &mut u64,
    bottom: &mut u64,
) -> u32
    ensures answer { ByStatus (cancel_outcome numerator denominator) (top.old, bottom.old) result (top.new, bottom.new) }
    ensures rule { CancelRule numerator denominator (outcome_of_status result (top.new, bottom.new)) }
{
    match fraction::cancel(numerator, denominator) {
        Ok(lowest) => {
            *top = lowest.top;
            *bottom = lowest.bottom;
            0
        }
        Err(cause) => status(cause),
    }
}

// Writes one line of the sheet at the front of a lent text, and gives its byte count.
#[unsafe(no_mangle)]
pub extern "C" fn share_sheet_line(
    table: &[u16],
    line: usize,
    text: &mut [u8],
    bytes: &mut usize,
) -> u32
    ensures answer { ByStatus (line_outcome (network_of table.now) line (length text.old)) bytes.old result bytes.new }
    ensures written { text.new ≡ line_after (network_of table.now) line text.old }
{
    hand_back(sheet::line(table, line, text), bytes)
}

// Writes the whole sheet at the front of a lent text, and gives its byte count.
#[unsafe(no_mangle)]
pub extern "C" fn share_sheet_whole(table: &[u16], text: &mut [u8], bytes: &mut usize) -> u32
    ensures answer { ByStatus (sheet_outcome (network_of table.now) (length text.old)) bytes.old result bytes.new }
    ensures written { text.new ≡ sheet_after (network_of table.now) text.old }
{
    hand_back(whole_sheet::whole(table, text), bytes)
}

// The most buses of a network: as many numerators or changes are enough for each.
#[unsafe(no_mangle)]
pub extern "C" fn share_sheet_max_buses() -> usize
    ensures { result ≡ max_buses }
{
    Network::BUSES
}

// The most entries of a table: as many are enough for each network.
#[unsafe(no_mangle)]
pub extern "C" fn share_sheet_max_entries() -> usize
    ensures { result ≡ max_entries }
{
    Network::ENTRIES
}

// The most bytes of a file.
#[unsafe(no_mangle)]
pub extern "C" fn share_sheet_max_bytes() -> usize
    ensures { result ≡ max_bytes }
{
    Network::BYTES
}

// The most bytes of a file that is written: as many are enough for each network.
#[unsafe(no_mangle)]
pub extern "C" fn share_sheet_max_file() -> usize
    ensures { result ≡ max_bytes }
{
    Network::BYTES
}

// The most bytes of a sheet: as many are enough for each network's, and for each of its lines.
#[unsafe(no_mangle)]
pub extern "C" fn share_sheet_max_text() -> usize
    ensures { result ≡ longest_sheet }
{
    LONGEST_SHEET
}
