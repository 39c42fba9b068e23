// The scope's bench cases that are not starred, as orders amend them, and cases of weights: a line for each call, printed from
// what it answers and leaves.
ghost use Rattle.std.specs.Prelude.{◌+◌, ◌*◌, ◌≤◌, ◌<◌, length};

use super::files::{path_to, weighted_path_to, write_star};
use super::text::{Answer, Changed, Entries, Over, Pair, Read, Share};
use fraction::cancel;
use reader::read;
use scorer::{share, shares};

// What lent entries hold before a call, and none of these calls stores.
const MARK: u16 = 54321;

const NUMERATOR_MARK: u64 = 54321;

// More entries, numerators and bytes than any case needs.
const ENTRIES: usize = 2048;

const NUMERATORS: usize = 32;

const BYTES: usize = 1024;

// How many of the leaves are given what the first is.
fn equal_leaves(leaves: &[u64]) -> usize {
    leaves.iter().filter(|leaf| **leaf == leaves[0]).count()
}

// How many numerators are what Share gives for their buses.
fn agreeing(table: &[u16], numerators: &[u64]) -> usize {
    numerators
        .iter()
        .enumerate()
        .filter(|(bus, numerator)| {
            share(table, *bus).is_ok_and(|share| share.numerator == **numerator)
        })
        .count()
}

// Read into marked entries: its answer, and up to where they changed.
fn read_marked(file: &[u8], table: &mut [u16]) -> (Answer<Read>, Changed)
    ensures { result.1.0 ≤ length table.new }
{
    let answer = Answer(read(file, table).map(Read));
    (answer, Changed::of(table, MARK))
}

// The same of Shares.
fn shares_marked(table: &[u16], numerators: &mut [u64]) -> (Answer<Over>, Changed) {
    let answer = Answer(shares(table, numerators).map(Over));
    (answer, Changed::of(numerators, NUMERATOR_MARK))
}

fn share_of(table: &[u16], bus: usize) -> Answer<Share> {
    Answer(share(table, bus).map(Share))
}

fn cancel_case(rt: &impl Print) {
    let cancelled = Answer(cancel(0, 0).map(Pair));
    let _ = println!(rt; "Cancel 0/0: {cancelled}");
}

// A file into entries enough.
fn file_case(rt: &impl Print, label: &str, file: &[u8]) {
    let mut table = [MARK; ENTRIES];
    let (answer, changed) = read_marked(file, &mut table);
    let _ = println!(rt; "{label}: {answer}{changed}");
}

// A file into some entries, and what they hold up to where they changed.
fn table_case(rt: &impl Print, label: &str, file: &[u8], table: &mut [u16]) {
    let (answer, changed) = read_marked(file, table);
    let entries = Entries(&table[..changed.0]);
    let _ = println!(rt; "{label}: {answer}{changed}{entries}");
}

// Bus 0 with lines to the first buses after it, all needs 1.
fn star_case(rt: &impl Print, label: &str, buses: u16, lines: u16)
    requires { 4 + buses + 4 * lines ≤ BYTES }
{
    let mut file = [0u8; BYTES];
    let bytes = write_star(&mut file, buses, lines);
    file_case(rt, label, &file[..bytes]);
}

fn star_of_24(rt: &impl Print) {
    let mut file = [0u8; BYTES];
    let bytes = write_star(&mut file, 24, 23);
    let mut table = [MARK; ENTRIES];
    let (answer, changed) = read_marked(&file[..bytes], &mut table);
    let _ = println!(rt; "24-bus star, Read: {answer}{changed}");
    let mut numerators = [NUMERATOR_MARK; NUMERATORS];
    let (answer, changed) = shares_marked(&table, &mut numerators);
    let equal = equal_leaves(&numerators[1..24]);
    let _ = println!(rt;
        "24-bus star, Shares: {answer}{changed}, centre {}, leaf {}, leaves like it {equal}",
        numerators[0], numerators[1]
    );
    let centre = share_of(&table, 0);
    let leaf = share_of(&table, 1);
    let agreeing = agreeing(&table, &numerators[..24]);
    let _ = println!(rt;
        "24-bus star, Share: centre {centre}, leaf {leaf}, buses as in Shares {agreeing}"
    );
}

// Path, with another end of its second record or a byte more, into some entries.
fn path_case(rt: &impl Print, label: &str, end: u8, bytes: usize, lent: usize)
    requires { (bytes ≤ 16) × (lent ≤ ENTRIES) }
{
    let file = path_to(end);
    let mut table = [MARK; ENTRIES];
    table_case(rt, label, &file[..bytes], &mut table[..lent]);
}

// Path with weights, its second record to `end`: up to some byte of the weight count, the weights, of which bus 1 has the one
// given, or a byte more.
fn weights_case(rt: &impl Print, label: &str, end: u8, count: u16, weight: u16, bytes: usize)
    requires { bytes ≤ 24 }
{
    let file = weighted_path_to(end, count, weight);
    let mut table = [MARK; ENTRIES];
    table_case(rt, label, &file[..bytes], &mut table);
}

fn weighted_shares(rt: &impl Print) {
    let file = weighted_path_to(2, 3, 5);
    let mut table = [MARK; ENTRIES];
    table_case(rt, "weights 1, 5, 2, Read", &file[..23], &mut table);
    let mut numerators = [NUMERATOR_MARK; NUMERATORS];
    let (answer, changed) = shares_marked(&table, &mut numerators);
    let agreeing = agreeing(&table, &numerators[..3]);
    let _ = println!(rt;
        "weights 1, 5, 2, Shares: {answer}{changed}: {} {} {}, buses as in Share {agreeing}",
        numerators[0], numerators[1], numerators[2]
    );
}

// A section of weights, cut short or wrong in each of its places; and with a wrong record, which is judged behind it.
fn weight_section(rt: &impl Print) {
    weights_case(rt, "weights 1, 1000, 2", 2, 3, 1000, 23);
    weights_case(rt, "weights 1, 1, 2 and one byte more", 2, 3, 1, 24);
    weights_case(rt, "a weight count and no weights", 2, 3, 5, 17);
    weights_case(rt, "weights without their last byte", 2, 3, 5, 22);
    weights_case(rt, "weight count 2", 2, 2, 5, 23);
    weights_case(rt, "weight count 4 and no weights", 2, 4, 5, 17);
    weights_case(rt, "weight count 259", 2, 259, 5, 23);
    weights_case(rt, "weight 0", 2, 3, 0, 23);
    weights_case(rt, "weight 1001", 2, 3, 1001, 23);
    weights_case(rt, "weight 0 and one byte more", 2, 3, 0, 24);
    weights_case(rt, "weight 0, second record made 1, 1", 1, 3, 0, 23);
    weights_case(rt, "weight 5, second record made 1, 1", 1, 3, 5, 23);
}

fn empty_table_case(rt: &impl Print) {
    let mut numerators = [NUMERATOR_MARK; NUMERATORS];
    let (answer, changed) = shares_marked(&[], &mut numerators);
    let _ = println!(rt; "an empty slice given to Shares: {answer}{changed}");
}

// Runs all of them. A line that cannot be printed keeps none behind it from being tried.
pub fn run(rt: &impl Print) {
    cancel_case(rt);
    star_of_24(rt);
    star_case(rt, "25-bus star", 25, 24);
    star_case(rt, "n = 512", 512, 0);
    file_case(rt, "n = 513 in a file of two bytes", &[1, 2]);
    file_case(rt, "m = 5889 with no records", &[1, 0, 1, 1, 23]);
    file_case(rt, "empty file", &[]);
    path_case(rt, "Path with one byte more", 2, 16, ENTRIES);
    path_case(rt, "second record made 1, 1", 1, 15, ENTRIES);
    path_case(rt, "second record made 1, 3", 3, 15, ENTRIES);
    path_case(rt, "second record made 1, 0", 0, 15, ENTRIES);
    path_case(rt, "Path into 14 entries", 2, 15, 14);
    path_case(rt, "Path into 15 entries", 2, 15, 15);
    empty_table_case(rt);
    weighted_shares(rt);
    weight_section(rt);
}
