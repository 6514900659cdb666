// What the test programs write to standard output: numbers in hexadecimal, tables, and the numbers of an answer. No contract of the kit says
// which bytes a write wrote, so what writes ensures nothing: it is proved not to go wrong, and held to the programs' stored output.
//
// std's `print!` isn't used here: besides `libc::write` it would have these programs assume the two functions of C that tell why a write failed.
#![tactic(auto)]

pub fn space() {
    io::write_all(1, b" ");
}

pub fn line() {
    io::write_all(1, b"\n");
}

// A number of a table or a record, behind a space.
pub fn cell<T: Into<u64>>(x: T) {
    space();
    io::print_hex(1, x.into(), 1);
}

// A table's name and its numbers, on a line.
pub fn table<T: Into<u64> + Copy>(name: &[u8], cells: &[T]) {
    io::write_all(1, name);
    for x in cells {
        cell(*x);
    }
    line();
}

// A number in two digits, before a space.
pub fn short_number(x: u32) {
    io::print_hex(1, u64::from(x), 2);
    space();
}

// A number in eight digits, before a space.
pub fn size(x: usize) {
    io::print_hex(1, x as u64, 8);
    space();
}

// The seven numbers of a reader's answer. One by one, since this crate stands on none that has the answer's type.
pub fn header(
    number: u32,
    reason: u32,
    place: usize,
    tokens: usize,
    steps: usize,
    nodes: usize,
    keys: usize,
) {
    short_number(number);
    short_number(reason);
    size(place);
    size(tokens);
    size(steps);
    size(nodes);
    io::print_hex(1, keys as u64, 8);
    line();
}
