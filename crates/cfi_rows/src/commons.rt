//! The common entries of an `.eh_frame` section.

ghost use Rattle.std.specs.Prelude.{◌≡◌, ◌<◌, ◌+◌, ◌≤◌, ◌++◌, IfSome, IsTrue, length};
ghost use Rattle.std.specs.Option.{option_map, option_and_then};
ghost use Rattle.arrayvec.specs.ArrayVec.{array_vec_len};
ghost use Rattle.cfi_rows.specs.Commons as spec;

use crate::operands::four_bytes;
use crate::pointers::{PointerEncoding, size_if};
use arrayvec::ArrayVec;

/// What a common entry says of the entries that name it: how the pointer to their personality is written, which stands in
/// it, and how those to their LSDAs are, which stand in them.
#[derive(Clone, Copy, PartialEq, Eq, Debug)]
pub struct CommonForm {
    /// None where they have no personality.
    pub personality: Option<PointerEncoding>,
    /// None where they have no LSDA.
    pub lsda: Option<PointerEncoding>,
}

/// Bytes of a common entry.
pub type CommonBytes = ArrayVec<u8, 24>;

/// The instructions of a common entry, and the two nops that some have.
static CODE: [u8; 7] = [0x0c, 0x07, 0x08, 0x90, 0x01, 0x00, 0x00];

/// What follows these bytes, where a list begins with them.
fn behind<'a>(due: &[u8], bytes: &'a [u8]) -> Option<&'a [u8]>
    ensures value { option_map (λ rest. rest.now) result ≡ spec.behind due.now bytes.now }
{
    if due.len() <= bytes.len() && &bytes[..due.len()] == due {
        Some(&bytes[due.len()..])
    } else {
        None
    }
}

/// Whether a letter stands here, and what follows.
fn letter(letter: u8, bytes: &[u8]) -> (bool, &[u8])
    ensures { (result.0, result.1.now) ≡ spec.letter_of letter bytes.now }
{
    match bytes {
        [] => (false, bytes),
        [byte, rest @ ..] => {
            if *byte == letter {
                (true, rest)
            } else {
                (false, bytes)
            }
        }
    }
}

/// An encoding, if one is said, and what follows.
fn encoding_in(said: bool, data: &[u8]) -> Option<(Option<PointerEncoding>, &[u8])>
    ensures { option_map (λ r. (r.0, r.1.now)) result ≡ spec.encoding_in said data.now }
{
    if !said {
        return Some((None, data));
    }
    let (byte, rest) = data.split_first()?;
    let encoding = PointerEncoding::of(*byte as u64)?;
    Some((Some(encoding), rest))
}

/// The encoding of a pointer, if one is said, and what follows the pointer, whatever it is.
fn pointer_in(said: bool, data: &[u8]) -> Option<(Option<PointerEncoding>, &[u8])>
    ensures { option_map (λ r. (r.0, r.1.now)) result
        ≡ option_and_then spec.behind_pointer (spec.encoding_in said data.now) }
{
    let (encoding, rest) = encoding_in(said, data)?;
    let size = size_if(encoding);
    if size <= rest.len() {
        Some((encoding, &rest[size..]))
    } else {
        None
    }
}

/// The form by the augmentation data, where a personality and LSDAs are said or not.
fn form_in(personality: bool, lsda: bool, data: &[u8]) -> Option<CommonForm>
    ensures { result ≡ spec.form_in personality lsda data.now }
{
    let (personality, rest) = pointer_in(personality, data)?;
    let (lsda, rest) = encoding_in(lsda, rest)?;
    if rest == &[0x1b][..] {
        Some(CommonForm { personality, lsda })
    } else {
        None
    }
}

/// Whether these are the instructions of a common entry, with two nops or without.
fn is_common_code(code: &[u8]) -> bool
    ensures value { result ≡ spec.is_common_code code.now }
    ensures short { IsTrue result → length code.now < 8 }
{
    code == &CODE[..5] || code == &CODE[..]
}

/// The form and the instructions by what stands behind the letters: the length of the data, and the data.
fn with_data(personality: bool, lsda: bool, bytes: &[u8]) -> Option<(CommonForm, &[u8])>
    ensures value { option_map (λ r. (r.0, r.1.now)) result ≡ spec.with_data personality lsda bytes.now }
    ensures short { IfSome result (λ r. length r.1.now < 8) }
{
    let (size, rest) = bytes.split_first()?;
    let size = *size as usize;
    if size <= rest.len() && is_common_code(&rest[size..]) {
        let form = form_in(personality, lsda, &rest[..size])?;
        Some((form, &rest[size..]))
    } else {
        None
    }
}

/// The same from the letters on.
fn with_letters(bytes: &[u8]) -> Option<(CommonForm, &[u8])>
    ensures value { option_map (λ r. (r.0, r.1.now)) result ≡ spec.with_letters bytes.now }
    ensures short { IfSome result (λ r. length r.1.now < 8) }
{
    let (personality, rest) = letter(b'P', bytes);
    let (lsda, rest) = letter(b'L', rest);
    let rest = behind(&[b'R', 0x00, 0x01, 0x78, 0x10], rest)?;
    with_data(personality, lsda, rest)
}

/// The form of a common entry, and its instructions.
#[tactic(auto, unfolding(crate::specs::Commons::common_of))]
pub fn common(cie: &[u8]) -> Option<(CommonForm, &[u8])>
    ensures value { option_map (λ r. (r.0, r.1.now)) result ≡ spec.common_of cie.now }
    ensures short { IfSome result (λ r. length r.1.now < 8) }
{
    let (count, rest) = four_bytes(cie)?;
    if count as usize != rest.len() || count % 4 != 0 {
        return None;
    }
    let rest = behind(&[0x00, 0x00, 0x00, 0x00, 0x01, b'z'], rest)?;
    with_letters(rest)
}

/// Appends a letter, where there is an encoding.
fn push_letter(bytes: &mut CommonBytes, letter: u8, encoding: Option<PointerEncoding>)
    requires { array_vec_len bytes.old < 24 }
    ensures value { bytes.new.items ≡ bytes.old.items ++ spec.letter_if letter encoding }
    ensures len { array_vec_len bytes.new ≤ array_vec_len bytes.old + 1 }
{
    if encoding.is_some() {
        bytes.push(letter);
    }
}

/// Appends the byte of an encoding, where there is one.
fn push_encoding(bytes: &mut CommonBytes, encoding: Option<PointerEncoding>)
    requires { array_vec_len bytes.old < 24 }
    ensures value { bytes.new.items ≡ bytes.old.items ++ spec.encoding_bytes_if encoding }
    ensures len { array_vec_len bytes.new ≤ array_vec_len bytes.old + 1 }
{
    if let Some(encoding) = encoding {
        bytes.push(encoding.byte());
    }
}

/// Appends bytes.
fn push_all(bytes: &mut CommonBytes, more: &[u8])
    requires { array_vec_len bytes.old + length more.now ≤ 24 }
    ensures value { bytes.new.items ≡ bytes.old.items ++ more.now }
    ensures len { array_vec_len bytes.new ≡ array_vec_len bytes.old + length more.now }
{
    bytes.try_extend_from_slice(more).unwrap();
}

/// The length of the augmentation data.
fn data_length(form: CommonForm) -> u8
    ensures { result ≡ spec.data_length form }
{
    let size = size_if(form.personality) as u8;
    match (form.personality.is_some(), form.lsda.is_some()) {
        (false, false) => 1,
        (false, true) => 2,
        (true, false) => 2 + size,
        (true, true) => 3 + size,
    }
}

/// The length of a common entry, which does not count its own four bytes.
fn common_length(form: CommonForm) -> u8
    ensures { result ≡ spec.common_length form }
{
    let size = size_if(form.personality) as u8;
    match (form.personality.is_some(), form.lsda.is_some()) {
        (true, true) => 24 + size,
        _ => 20 + size,
    }
}

/// What stands before the pointer to the personality.
pub fn common_head(form: CommonForm) -> CommonBytes
    ensures { result.items ≡ spec.common_head form }
{
    let mut bytes = ArrayVec::new();
    bytes.push(common_length(form));
    push_all(
        &mut bytes,
        &[0x00, 0x00, 0x00, 0x00, 0x00, 0x00, 0x00, 0x01, b'z'],
    );
    push_letter(&mut bytes, b'P', form.personality);
    push_letter(&mut bytes, b'L', form.lsda);
    push_all(&mut bytes, &[b'R', 0x00, 0x01, 0x78, 0x10]);
    bytes.push(data_length(form));
    push_encoding(&mut bytes, form.personality);
    bytes
}

/// What stands behind it.
pub fn common_tail(form: CommonForm) -> CommonBytes
    ensures { result.items ≡ spec.common_tail form }
{
    let mut bytes = ArrayVec::new();
    push_encoding(&mut bytes, form.lsda);
    bytes.push(0x1b);
    let padded = form.personality.is_some() == form.lsda.is_some();
    let code = if padded { &CODE[..] } else { &CODE[..5] };
    push_all(&mut bytes, code);
    bytes
}
