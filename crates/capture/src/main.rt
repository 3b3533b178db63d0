// Reads a capture, hexadecimal words, from standard input, and prints what its packets say.

#![tactic(auto)]

use hex_text::{LONGEST, read_words};
use listing::{Listing, compare_rewritten};
use std::io::{BufWriter, Read, Write};

// Prints the listing of words, and whether they came out the same when they were written again.
fn list(out: &mut impl Write, words: &[u32], again: &mut [u32]) -> anyhow::Result<()> {
    for line in Listing::new(words) {
        writeln!(out, "{line}")?;
    }
    if let Ok(rewritten) = compare_rewritten(words, again) {
        writeln!(out, "{rewritten}")?;
    }
    Ok(())
}

fn capture(rt: &HostRuntime) -> anyhow::Result<()> {
    let heap = rt.alloc();
    let mut text = Vec::new(heap);
    // One byte past the limit shows that a text is too long.
    rt.stdin().take(LONGEST as u64 + 1).read_to_end(&mut text)?;
    let mut words = vec![in heap; 0u32; text.len()]?;
    let mut again = vec![in heap; 0u32; text.len()]?;
    let mut out = BufWriter::new(heap, rt.stdout())?;
    match read_words(&text, &mut words) {
        Ok(count) => {
            words.truncate(count);
            list(&mut out, &words, &mut again)?;
        }
        Err(fault) => writeln!(out, "{fault}")?,
    }
    out.flush()?;
    Ok(())
}

fn main(rt: HostRuntime) -> anyhow::Result<()> {
    capture(&rt)
}
