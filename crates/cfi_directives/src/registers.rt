//! Registers of frame tables.

ghost use Rattle.std.specs.Prelude.{◌≡◌, ◌<◌, ◌↔◌, IsSome, IfSome};

/// A register by its DWARF number, which is below 64 (psABI for AMD64, "DWARF Register Number Mapping").
#[derive(Clone, Copy, PartialEq, Eq, Debug)]
pub struct DwarfRegister {
    number: u8,
    ghost within: { number < 64 },
}

impl DwarfRegister {
    /// The register of this number, if there is one.
    pub fn new(number: u64) -> Option<DwarfRegister>
        ensures within { IsSome result ↔ (number < 64) }
        ensures number { IfSome result (λ register. register.number ≡ number) }
    {
        if number < 64 {
            Some(DwarfRegister {
                number: number as u8,
            })
        } else {
            None
        }
    }

    /// Its DWARF number.
    pub fn number(self) -> u8
        ensures number { result ≡ self.number }
        ensures within { result < 64 }
    {
        self.number
    }
}
