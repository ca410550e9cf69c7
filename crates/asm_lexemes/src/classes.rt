//! The class of each byte, by one look-up.

ghost use Rattle.std.specs.Prelude.{◌≡◌};
ghost use Rattle.asm_base.specs.Dividing.{is_plain};
ghost use Rattle.asm_base.specs.ByteClasses.{is_name_byte};
ghost use Rattle.asm_lexemes.specs.Classes.{begins_long_operator, begins_token, continues_name, class_of, the_classes, classes_from, is_long_class};

/// What a byte may begin.
#[derive(Clone, Copy, PartialEq, Eq, Debug)]
pub enum ByteClass {
    /// What begins a name.
    NameStart,
    /// A digit.
    Digit,
    /// A `$`.
    Dollar,
    /// What may begin an operator of two bytes.
    LongOperator,
    /// An operator of one byte.
    Operator,
    /// Any other byte.
    Other,
    /// A space or a tab.
    Blank,
    /// A line feed.
    LineFeed,
    /// A `;`.
    Semicolon,
    /// A carriage return.
    CarriageReturn,
    /// A `#`.
    Hash,
    /// A `/`.
    Slash,
    /// A `'`.
    Quote,
    /// A `"`.
    DoubleQuote,
}

// The letters of the table, each for a class.

/// F: a line feed.
const F: ByteClass = ByteClass::LineFeed;

/// E: the end of a statement, `;`.
const E: ByteClass = ByteClass::Semicolon;

/// B: a blank.
const B: ByteClass = ByteClass::Blank;

/// R: a carriage return.
const R: ByteClass = ByteClass::CarriageReturn;

/// H: a hash.
const H: ByteClass = ByteClass::Hash;

/// S: a slash.
const S: ByteClass = ByteClass::Slash;

/// Q: a quote.
const Q: ByteClass = ByteClass::Quote;

/// T: two strokes, a double quote.
const T: ByteClass = ByteClass::DoubleQuote;

/// N: what begins a name.
const N: ByteClass = ByteClass::NameStart;

/// D: a digit.
const D: ByteClass = ByteClass::Digit;

/// M: a dollar, the mark of money.
const M: ByteClass = ByteClass::Dollar;

/// L: what may begin an operator of two bytes, a long one.
const L: ByteClass = ByteClass::LongOperator;

/// P: an operator of one byte, of punctuation.
const P: ByteClass = ByteClass::Operator;

/// O: any other byte.
const O: ByteClass = ByteClass::Other;

/// The classes of all bytes, sixteen a line.
#[rattlefmt::skip]
pub static CLASSES: [ByteClass; 256] = [
    O, O, O, O, O, O, O, O, O, B, F, O, O, R, O, O,
    O, O, O, O, O, O, O, O, O, O, O, O, O, O, O, O,
    B, L, T, H, M, P, L, Q, P, P, P, P, P, P, N, S,
    D, D, D, D, D, D, D, D, D, D, P, E, L, L, L, P,
    P, N, N, N, N, N, N, N, N, N, N, N, N, N, N, N,
    N, N, N, N, N, N, N, N, N, N, N, P, P, P, P, N,
    P, N, N, N, N, N, N, N, N, N, N, N, N, N, N, N,
    N, N, N, N, N, N, N, N, N, N, N, P, L, P, P, O,
    N, N, N, N, N, N, N, N, N, N, N, N, N, N, N, N,
    N, N, N, N, N, N, N, N, N, N, N, N, N, N, N, N,
    N, N, N, N, N, N, N, N, N, N, N, N, N, N, N, N,
    N, N, N, N, N, N, N, N, N, N, N, N, N, N, N, N,
    N, N, N, N, N, N, N, N, N, N, N, N, N, N, N, N,
    N, N, N, N, N, N, N, N, N, N, N, N, N, N, N, N,
    N, N, N, N, N, N, N, N, N, N, N, N, N, N, N, N,
    N, N, N, N, N, N, N, N, N, N, N, N, N, N, N, N,
];

/// The table has the class of each byte.
#[tactic(auto, using(crate::proofs::ClassTable::table_is))]
pub fn every_byte_has_its_class()
    ensures { the_classes ≡ classes_from 256 0 }
{}

/// The table.
#[tactic(auto, unfolding(crate::specs::Classes::the_classes))]
fn classes() -> &'static [ByteClass; 256]
    ensures { result.now ≡ the_classes }
{
    &CLASSES
}

/// The class of a byte.
#[tactic(auto, using(crate::proofs::ClassTable::class_found))]
pub fn class_of(byte: u8) -> ByteClass
    ensures { result ≡ class_of byte }
{
    classes()[byte as usize]
}

impl ByteClass {
    /// Whether a byte of the class is the first of a token, whatever follows it.
    pub fn begins_token(self) -> bool
        ensures { result ≡ begins_token self }
    {
        matches!(
            self,
            ByteClass::NameStart
                | ByteClass::Digit
                | ByteClass::Dollar
                | ByteClass::LongOperator
                | ByteClass::Operator
                | ByteClass::Other
        )
    }

    /// Whether an operator of two bytes may begin with a byte of the class.
    fn begins_long_operator(self) -> bool
        ensures { result ≡ is_long_class self }
    {
        matches!(self, ByteClass::LongOperator)
    }

    /// Whether a byte of the class continues a name.
    pub fn continues_name(self) -> bool
        ensures { result ≡ continues_name self }
    {
        matches!(
            self,
            ByteClass::NameStart | ByteClass::Digit | ByteClass::Dollar
        )
    }
}

/// Whether an operator of two bytes may begin with the byte.
pub fn begins_long_operator(byte: u8) -> bool
    ensures { result ≡ begins_long_operator byte }
{
    class_of(byte).begins_long_operator()
}

/// Whether the byte continues a name.
pub fn is_name_byte(byte: u8) -> bool
    ensures { result ≡ is_name_byte byte }
{
    class_of(byte).continues_name()
}

/// Whether the byte is the first of a token, whatever follows it.
pub fn is_plain(byte: u8) -> bool
    ensures { result ≡ is_plain byte }
{
    class_of(byte).begins_token()
}
