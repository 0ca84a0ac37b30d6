// Words and numbers written to standard output. What cannot be written is left out.
pub fn put(rt: &impl Print, text: &[u8]) {
    let _ = rt.write_all(text);
}

// A number behind a word.
pub fn put_number(rt: &impl Print, before: &[u8], n: u64) {
    put(rt, before);
    let _ = rt.print(n);
}

// A number behind a word, at the end of a line.
pub fn put_line(rt: &impl Print, before: &[u8], n: u64) {
    put_number(rt, before, n);
    put(rt, b"\n");
}

// A line of numbers behind a word.
pub fn put_numbers(rt: &impl Print, word: &[u8], numbers: &[u64]) {
    put(rt, word);
    for n in numbers {
        put_number(rt, b" ", *n);
    }
    put(rt, b"\n");
}
