// Rows of neighbour numbers: the row of a bus is the part of them from its start up to the next one's. Nothing here knows of a table.
ghost use Rattle.std.specs.Prelude.{◌≡◌, ◌+◌, ◌≤◌, ◌<◌, length};
ghost use Rattle.lists.specs.Lists.{at};
ghost use Rattle.table_spec.specs.Layout.{row_at};

// Entry i of a list.
pub fn entry(list: &[u16], i: usize) -> usize
    requires { i < length list.now }
    ensures { (result ≡ at list.now i) × (result < 65536) }
{
    list[i] as usize
}

// The row of a bus.
pub fn row_at<'a>(starts: &[u16], numbers: &'a [u16], bus: usize) -> &'a [u16]
    requires { (bus + 1 < length starts.now) × (at starts.now bus ≤ at starts.now (bus + 1)) × (at starts.now (bus + 1) ≤ length numbers.now) }
    ensures { result.now ≡ row_at starts.now numbers.now bus }
{
    let start = entry(starts, bus);
    let end = entry(starts, bus + 1);
    &numbers[start..end]
}
