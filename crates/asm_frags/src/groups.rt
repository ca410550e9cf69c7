//! Groups of sections (gABI, chapter 4, "Section Groups").

use asm_base::Text;

/// A group of sections.
#[derive(Drop)]
pub struct Group {
    /// The name of the symbol by which a linker tells groups apart.
    pub signature: Text,
    /// Whether a linker keeps one group alone of those of this signature (`GRP_COMDAT`).
    pub comdat: bool,
}
