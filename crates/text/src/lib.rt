// Text in ASCII, written into a lent slice: numbers in decimal, with a minus sign if below zero, and templates in which each `#` stands for a number.
#![tactic(auto)]

ghost use Rattle.std.specs.Prelude.{◌+◌, ◌≤◌, length};
ghost use Rattle.lists.specs.Lists.{count, WrittenAt};
ghost use Rattle.text.specs.Text.{decimal, signed_decimal, sign, filled};

// Writes a number, and gives the place behind it.
fn decimal(value: u64, out: &mut [u8], at: usize) -> usize
    requires { at + length (decimal value) ≤ length out.old }
    ensures { WrittenAt (decimal value) at out.old result out.new }
{
    if value < 10 {
        out[at] = b'0' + value as u8;
        return at + 1;
    }
    let last = decimal(value / 10, out, at);
    out[last] = b'0' + (value % 10) as u8;
    last + 1
}

// Writes a signed number, and gives the place behind it.
pub fn signed_decimal(value: i64, out: &mut [u8], at: usize) -> usize
    requires { at + length (signed_decimal value) ≤ length out.old }
    ensures { WrittenAt (signed_decimal value) at out.old result out.new }
{
    if value.is_negative() {
        out[at] = b'-';
        return decimal(value.unsigned_abs(), out, at + 1);
    }
    decimal(value.unsigned_abs(), out, at)
}

// Writes a template with its numbers, and gives the place behind it.
pub fn fill_template(template: &[u8], values: &[u64], out: &mut [u8], at: usize) -> usize
    requires { (count sign template.now ≤ length values.now) × (at + length (filled template.now values.now) ≤ length out.old) }
    ensures { WrittenAt (filled template.now values.now) at out.old result out.new }
{
    let mut end = at;
    let mut next = 0;
    for &byte in template {
        if byte == b'#' {
            end = decimal(values[next], out, end);
            next += 1;
        } else {
            out[end] = byte;
            end += 1;
        }
    }
    end
}
