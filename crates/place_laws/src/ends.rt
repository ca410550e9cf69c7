//! Where sections end.

ghost use Rattle.place_laws.specs.Ends.{EndsAdd, EndsAreAddresses, EndsAreSizes, EndsMove, LayoutsKeepItems};
ghost use Rattle.place_laws.specs.Low.{LayoutsAreLow};

use asm_relax::{layouts_keep_sections, rows_rise, sizes_add_up};

/// What is put into a section moves its end by its size in the layout.
pub fn ends_move()
    ensures { EndsMove }
{}

/// Whatever is put into a section, its bytes and the sizes of its items in the layout move the end.
pub fn ends_add()
    ensures { EndsAdd }
{}

/// The items of each section are the first ones of its section in the layout: with the same
/// contents, after as many plain bytes, and with sizes that they may have.
pub fn layouts_keep_items()
    ensures { LayoutsKeepItems }
{
    layouts_keep_sections();
}

/// The place after so many bytes and items of a section has the address at which a section of as
/// many ends in the layout.
pub fn ends_are_addresses()
    ensures { EndsAreAddresses }
{
    layouts_keep_sections();
    sizes_add_up();
}

/// In its own layout a section ends after as many bytes as it has there.
pub fn ends_are_sizes()
    ensures { EndsAreSizes }
{
    layouts_keep_sections();
    sizes_add_up();
}

/// Where fields and items stand within their bytes, the items of a layout stand after fewer than
/// 2^64 plain bytes, and no row is moved by as many.
pub fn layouts_are_low()
    ensures { LayoutsAreLow }
{
    layouts_keep_sections();
    rows_rise();
}
