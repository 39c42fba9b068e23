// Degree and Row: how many neighbours a bus of a lent table has, which, and where they stand.
#![tactic(auto)]

ghost use Rattle.std.specs.Prelude.{◌≡◌, ◌+◌, ◌*◌, ◌≤◌, length, take, drop};
ghost use Rattle.refusals.specs.Outcomes.{outcome_of};
ghost use Rattle.table_spec.specs.TableOutcomes.{degree_outcome, row_outcome, row_before, row_place_outcome, RowStands};
ghost use Rattle.table_lookup.specs.LookupAnswers.{outcome_of_place};

pub use network::Refusal;
use table_check::network;

// Where a bus's row begins in the lent table, and how many entries it has.
#[derive(Clone, Copy)]
pub struct RowPlace {
    pub start: usize,
    pub entries: usize,
}

// Where the row of a bus stands in the lent table.
pub fn row_place(table: &[u16], bus: usize) -> Result<RowPlace, Refusal>
    ensures answer { outcome_of_place result ≡ row_place_outcome table.now bus }
    ensures stands { RowStands table.now bus (outcome_of_place result) }
{
    let network = network(table)?;
    let table = network.table();
    if table.buses() <= bus {
        return Err(Refusal::NoSuchBus);
    }
    Ok(RowPlace {
        start: table.row_start(bus),
        entries: table.neighbours(bus).len(),
    })
}

// How many neighbours a bus of the lent table has.
pub fn degree(table: &[u16], bus: usize) -> Result<usize, Refusal>
    ensures { outcome_of result ≡ degree_outcome table.now bus }
{
    Ok(row_place(table, bus)?.entries)
}

// The part of a slice that has so many entries from a start on.
fn part(slice: &[u16], start: usize, entries: usize) -> &[u16]
    requires { start + entries ≤ length slice.now }
    ensures result_value { result.now ≡ take entries (drop start slice.now) }
    ensures ref_ptr_value { (result.ref_ptr.0 ≡ slice.entry.ref_ptr.0) × (result.ref_ptr.1 ≡ slice.entry.ref_ptr.1 + start * 2) }
{
    &slice[start..start + entries]
}

// The part of the lent table that holds a bus's neighbours; the empty part at its front where `degree` refuses. It is promised
// by what it holds and by where it stands: in the table's block, so many entries of two bytes behind the table's front.
pub fn row(table: &[u16], bus: usize) -> &[u16]
    ensures contents { result.now ≡ row_outcome table.now bus }
    ensures place { (result.ref_ptr.0 ≡ table.entry.ref_ptr.0) × (result.ref_ptr.1 ≡ table.entry.ref_ptr.1 + row_before table.now bus * 2) }
{
    match row_place(table, bus) {
        Ok(place) => part(table, place.start, place.entries),
        Err(_) => part(table, 0, 0),
    }
}
