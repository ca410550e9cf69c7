//! The lines that offsets of a source stand on.

ghost use Rattle.std.specs.Prelude.{◌≡◌, ◌≤◌, ◌+◌, min, length, count_by};
ghost use Rattle.asm_base.specs.ByteClasses.{is_feed};
ghost use Rattle.asm_lines.specs.LineNumbers.{line_of, last_line};

/// How many line feeds the bytes have.
fn feed_count(bytes: &[u8]) -> usize
    ensures { result ≡ count_by is_feed bytes.now }
{
    match bytes {
        // Most pieces have one byte.
        [byte] => usize::from(*byte == b'\n'),
        _ => bytes.iter().filter(|byte| **byte == b'\n').count(),
    }
}

/// The line behind these bytes, which begin on this line.
pub(crate) fn line_behind(line: u32, bytes: &[u8]) -> u32
    ensures { result ≡ min (line + count_by is_feed bytes.now) last_line }
{
    let lines = (feed_count(bytes) as u64).saturating_add(u64::from(line));
    lines.min(u64::from(u32::MAX)) as u32
}

/// The line behind a line feed.
pub(crate) fn line_after(line: u32) -> u32
    ensures { result ≡ min (line + 1) last_line }
{
    line.saturating_add(1)
}

/// The line of an offset, counted from 1.
#[tactic(auto, unfolding(crate::specs::LineNumbers::line_of))]
pub(crate) fn line_of(source: &[u8], offset: usize) -> u32
    requires { offset ≤ length source.now }
    ensures { result ≡ line_of source.now offset }
{
    line_behind(1, &source[..offset])
}
