// Long texts, of runs of equal bytes.
use crate::texts;
use crate::texts::Shown;
use std::io;

// More bytes than a text may have.
const MOST_BYTES: usize = 5000;

// Each byte and its count, in turn; answers the place after them all.
fn fill_all(text: &mut [u8; MOST_BYTES], runs: &[u32]) -> u32 {
    let mut end: u32 = 0;
    for run in runs.chunks_exact(2) {
        let [byte, count] = run else {
            return end;
        };
        if let Some(rest) = text.get_mut(end as usize..) {
            rest.fill((*byte % 256) as u8);
        }
        end = end.wrapping_add(*count);
    }
    end
}

pub(crate) fn show(rt: &impl Print, shown: Shown, runs: &[u32]) -> io::Result<()> {
    let mut text = [0u8; MOST_BYTES];
    let end = fill_all(&mut text, runs) as usize;
    match text.get(..end) {
        Some(front) => texts::show(rt, shown, front),
        None => Ok(()),
    }
}
