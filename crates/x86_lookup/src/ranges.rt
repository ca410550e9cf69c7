//! The rows of a name, found by its number.

ghost use Rattle.std.specs.Prelude.{◌≡◌, ◌≤◌, length};
ghost use Rattle.x86_table.specs.declared.forms.Row.{Row};
ghost use Rattle.x86_table.specs.Rows.{the_rows};
ghost use Rattle.x86_lookup.specs.Ranges.{the_spans, span_of, by_name, by_size, IsWithin, AreRowsOf, is_named, is_sized};

use crate::spans::{SPANS, Span};
use x86_insn::Mnemonic;
use x86_table::{ROWS, Row};

/// Rows that stand together, by their indices in the table: from `start` on, before `stop`.
#[derive(Clone, Copy)]
pub struct RowRange {
    pub start: u16,
    pub stop: u16,
}

/// The rows of the table, in order.
#[tactic(auto, unfolding(x86_table::specs::Rows::the_rows))]
pub fn rows() -> &'static [Row]
    ensures { result.now ≡ the_rows }
{
    &ROWS
}

/// Where the rows of the names stand.
#[tactic(auto, unfolding(crate::specs::Ranges::the_spans))]
fn spans() -> &'static [Span]
    ensures { result.now ≡ the_spans }
{
    &SPANS
}

/// Where the rows of the name stand.
#[tactic(auto, unfolding(crate::specs::Ranges::span_of))]
fn span_of(name: Mnemonic) -> Span
    ensures { result ≡ span_of name.0 }
{
    match spans().get(usize::from(name.0)) {
        Some(span) => *span,
        None => Span {
            first: 0,
            sizeless_end: 0,
            byte_end: 0,
            word_end: 0,
            long_end: 0,
            quad_end: 0,
        },
    }
}

/// The rows of the name: none where no row has it.
#[tactic(auto, using(crate::proofs::SpanLaws::name_within, crate::proofs::SpanLaws::name_rows))]
pub fn rows_of(name: &Mnemonic) -> RowRange
    ensures within { IsWithin result }
    ensures just { AreRowsOf (is_named name.now.0) result }
{
    let span = span_of(*name);
    RowRange {
        start: span.first,
        stop: span.quad_end,
    }
}

/// The rows of the name and the operand size in bits, or 0 where the name alone says it: none where
/// no row has them.
#[tactic(auto, using(crate::proofs::SpanLaws::size_within, crate::proofs::SpanLaws::size_rows))]
pub fn rows_of_size(name: &Mnemonic, size: u8) -> RowRange
    ensures within { IsWithin result }
    ensures just { AreRowsOf (is_sized name.now.0 size) result }
{
    by_size(span_of(*name), size)
}

/// The part of a span that has this size.
fn by_size(span: Span, size: u8) -> RowRange
    ensures { result ≡ by_size span size }
{
    let (start, stop) = match size {
        0 => (span.first, span.sizeless_end),
        8 => (span.sizeless_end, span.byte_end),
        16 => (span.byte_end, span.word_end),
        32 => (span.word_end, span.long_end),
        64 => (span.long_end, span.quad_end),
        _ => (0, 0),
    };
    RowRange { start, stop }
}
