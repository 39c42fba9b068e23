// One row of ascending numbers in a slice, and a number inserted into it. Nothing here knows of a network.
#![tactic(auto)]

ghost use Rattle.std.specs.Prelude.{◌≡◌, ◌≤◌, ◌<◌, length, take};
ghost use Rattle.lists.specs.Lists.{Ascending, put};
ghost use Rattle.sorted_row.specs.Insertion.{is_added, RowAfter};
ghost use Rattle.sorted_row.specs.Shifting.{Place, insert_at};

// What inserting a number into a row did.
#[derive(Clone, Copy)]
pub enum Inserted {
    // The number stands in the row now.
    Added,
    // It stood there already.
    Present,
    // It did not, and the row has no slot left.
    Full,
}

impl Inserted {
    // Whether the number was added.
    pub fn added(self) -> bool
        ensures { result ≡ is_added self }
    {
        matches!(self, Inserted::Added)
    }
}

// How many of a row's first `count` numbers, which ascend, are below x. Looks from the end, where x mostly belongs.
fn insertion_place(row: &[u16], count: usize, x: u16) -> usize
    requires { (count ≤ length row.now) × Ascending (take count row.now) }
    ensures { Place x (take count row.now) result }
{
    match row[..count].iter().rposition(|number| *number < x) {
        Some(last) => last + 1,
        None => 0,
    }
}

// Moves the numbers from place p up to `count` one slot on, and writes x at p.
fn shift_in(row: &mut [u16], p: usize, count: usize, x: u16)
    requires { (p ≤ count) × (count < length row.old) }
    ensures { row.new ≡ put row.old 0 (insert_at (take count row.old) p x) }
{
    row.copy_within(p..count, p + 1);
    row[p] = x;
}

// Inserts x into a row whose first `count` slots are taken by numbers that ascend.
pub fn insert(row: &mut [u16], count: usize, x: u16) -> Inserted
    requires { (count ≤ length row.old) × Ascending (take count row.old) }
    ensures { RowAfter result x (take count row.old) row.old row.new }
{
    let p = insertion_place(row, count, x);
    if p < count && row[p] == x {
        return Inserted::Present;
    }
    if row.len() <= count {
        return Inserted::Full;
    }
    shift_in(row, p, count, x);
    Inserted::Added
}
