// Forms: text with marks that numbers replace.
use bench_split::part;
use isdbs_combination::Combination;
use picture_sheet::Sheet;

// A number below a million, with a comma at the thousands.
fn count(sheet: &mut Sheet, n: usize) {
    if n < 1_000 {
        sheet.number(n as u64);
        return;
    }
    sheet.number((n / 1_000) as u64);
    sheet.put(b",");
    sheet.number((n / 100 % 10) as u64);
    sheet.number((n / 10 % 10) as u64);
    sheet.number((n % 10) as u64);
}

// Puts a form: each @ in it is the next of the numbers, and each $ the next one with a comma at the thousands; 0 where there are fewer.
pub fn fill_form(sheet: &mut Sheet, form: &[u8], numbers: &[usize]) {
    let mut rest = numbers.iter();
    for &b in form {
        match b {
            b'@' => sheet.number(rest.next().map_or(0, |&n| n as u64)),
            b'$' => count(sheet, rest.next().map_or(0, |&n| n)),
            _ => sheet.put(&[b]),
        }
    }
}

// Puts part k of a list, whose parts are separated by bars.
pub fn put_one(sheet: &mut Sheet, list: &[u8], k: usize) {
    sheet.put(part(list, b'|', k));
}

// A combination by its name.
pub fn put_combination(sheet: &mut Sheet, c: Combination) {
    let name: &[u8] = match c {
        Combination::Bpsk1_2 => b"BPSK 1/2",
        Combination::Qpsk1_2 => b"QPSK 1/2",
        Combination::Qpsk2_3 => b"QPSK 2/3",
        Combination::Qpsk3_4 => b"QPSK 3/4",
        Combination::Qpsk5_6 => b"QPSK 5/6",
        Combination::Qpsk7_8 => b"QPSK 7/8",
        Combination::Tc8psk2_3 => b"TC8PSK 2/3",
    };
    sheet.put(name);
}

// A byte of a name, as XML has it; a question mark where it is no printable ASCII.
fn letter(sheet: &mut Sheet, b: u8) {
    match b {
        b'&' => sheet.put(b"&amp;"),
        b'<' => sheet.put(b"&lt;"),
        b'>' => sheet.put(b"&gt;"),
        32..=126 => sheet.put(&[b]),
        _ => sheet.put(b"?"),
    }
}

// A file's name.
pub fn name(sheet: &mut Sheet, s: &[u8]) {
    for &b in s {
        letter(sheet, b);
    }
}
