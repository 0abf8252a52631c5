// Names of files on a sheet, so that no byte of them can pass for something else.
use picture_sheet::Sheet;

// The digit of a number below 16.
fn digit(n: u8) -> u8 {
    match n {
        0..=9 => b'0' + n,
        10..=15 => b'a' + (n - 10),
        _ => b'?',
    }
}

// Two hexadecimal digits.
pub fn put_hex(sheet: &mut Sheet, b: u8) {
    sheet.put(&[digit(b / 16), digit(b % 16)]);
}

// A byte after a mark, in hexadecimal digits.
pub fn put_marked(sheet: &mut Sheet, b: u8, mark: &[u8]) {
    sheet.put(mark);
    put_hex(sheet, b);
}

// A byte of a name: as it is where it is printable ASCII, else after a mark.
fn put_letter(sheet: &mut Sheet, b: u8, mark: &[u8]) {
    match b {
        b'"' => sheet.put(b"\\\""),
        b'\\' => sheet.put(b"\\\\"),
        32..=126 => sheet.put(&[b]),
        _ => put_marked(sheet, b, mark),
    }
}

// A text in quotation marks, a byte that is no printable ASCII being written after a mark.
pub fn put_quoted(sheet: &mut Sheet, s: &[u8], mark: &[u8]) {
    sheet.put(b"\"");
    for &b in s {
        put_letter(sheet, b, mark);
    }
    sheet.put(b"\"");
}

// The eight hexadecimal digits of a number.
pub fn put_word(sheet: &mut Sheet, n: u32) {
    for b in n.to_be_bytes() {
        put_hex(sheet, b);
    }
}
