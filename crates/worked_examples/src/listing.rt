// Prints the listing of a text, and what became of a lent array.
use listings::{MOST_LISTING, list_site};
use std::io;

fn print_front(rt: &impl Print, bytes: &[u8; MOST_LISTING], n: usize) -> io::Result<()> {
    match bytes.get(..n) {
        Some(front) => rt.write_all(front),
        None => Ok(()),
    }
}

pub(crate) fn listing(rt: &impl Print, text: &[u8]) -> io::Result<()> {
    let mut out = [0u8; MOST_LISTING];
    let n = list_site(text, &mut out);
    print_front(rt, &out, n)
}

// What stands behind a listing of 12 bytes, `refused 2 0` and a line feed, stays as it was lent: the answer for no text and an
// array of dots, and as many of its bytes then as are asked for.
pub(crate) fn over_dots(rt: &impl Print, shown: usize) -> io::Result<()> {
    let mut out = [b'.'; MOST_LISTING];
    let n = list_site(b"", &mut out);
    println!(rt; "{n} bytes")?;
    rt.print("[")?;
    print_front(rt, &out, shown)?;
    rt.println("]")
}
