// Network files for the cases.
ghost use Rattle.std.specs.Prelude.{◌≡◌, ◌+◌, ◌*◌, ◌≤◌, ◌<◌, length};

// The scope's Path, whose second record joins bus 1 to `end`, and a byte more.
pub fn path_to(end: u8) -> [u8; 16] {
    [3, 0, 1, 1, 1, 2, 0, 0, 0, 1, 0, 1, 0, end, 0, 0]
}

// A number of two bytes, low byte first.
fn write_word(file: &mut [u8], at: usize, number: u16)
    requires { at + 1 < length file.old }
{
    file[at..at + 2].copy_from_slice(&number.to_le_bytes());
}

// The same Path with a weight count, the weights 1, `weight` and 2, and a byte more.
pub fn weighted_path_to(end: u8, count: u16, weight: u16) -> [u8; 24] {
    let mut file = [0u8; 24];
    file[..15].copy_from_slice(&path_to(end)[..15]);
    write_word(&mut file, 15, count);
    write_word(&mut file, 17, 1);
    write_word(&mut file, 19, weight);
    write_word(&mut file, 21, 2);
    file
}

// The bus count, and needs of 1.
fn write_buses(file: &mut [u8], buses: u16)
    requires { 2 + buses ≤ length file.old }
{
    write_word(file, 0, buses);
    file[2..2 + usize::from(buses)].fill(1);
}

// The line count, and records of lines from bus 0 to the buses after it.
fn write_records(file: &mut [u8], lines: u16)
    requires { 2 + 4 * lines ≤ length file.old }
{
    write_word(file, 0, lines);
    for line in 0..lines {
        let record = 2 + 4 * usize::from(line);
        write_word(file, record, 0);
        write_word(file, record + 2, 1 + line);
    }
}

// The file of a star, some of whose buses may stand alone. Gives its byte count.
pub fn write_star(file: &mut [u8], buses: u16, lines: u16) -> usize
    requires { 4 + buses + 4 * lines ≤ length file.old }
    ensures { result ≡ 4 + buses + 4 * lines }
{
    write_buses(file, buses);
    let records = 2 + usize::from(buses);
    write_records(&mut file[records..], lines);
    records + 2 + 4 * usize::from(lines)
}
