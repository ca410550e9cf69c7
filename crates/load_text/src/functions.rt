//! The text of a source of so many functions.

ghost use Rattle.std.specs.Prelude.{◌≡◌, ◌++◌, ◌<◌, ◌^◌, IfOk, OnOk};
ghost use Rattle.load_text.specs.Load.{before_call, before_label, before_size, entry_text, function_text, load_text, numbered, rest_text};

use asm_base::{NoMemory, Text};
use itoa::Buffer;
use std::alloc::Global;

/// About the bytes of the lines of a function, where there are 100,000.
const FUNCTION_BYTES: usize = 190;

/// From the name of a function behind its `.type` to its label.
#[tactic(auto, unfolding(crate::specs::Load::before_label))]
fn before_label() -> &'static [u8]
    ensures { result.now ≡ before_label }
{
    b",@function\nf"
}

/// From the label of a function to the name of the one that it calls: its frame is set up, and a branch goes round the call.
#[tactic(auto, unfolding(crate::specs::Load::before_call))]
fn before_call() -> &'static [u8]
    ensures { result.now ≡ before_call }
{
    b": push %rbp\nmov %rsp,%rbp\npush %rbx\nmov %edi,%ebx\ntest %ebx,%ebx\nje 1f\ncall f"
}

/// From what is repeated behind the call to the function's size: its frame is left.
#[tactic(auto, unfolding(crate::specs::Load::before_size))]
fn before_size() -> &'static [u8]
    ensures { result.now ≡ before_size }
{
    b"\nmov $4096,%eax\n.endr\n1: pop %rbx\npop %rbp\nret\n.size f"
}

/// Appends the piece, and behind it the number in decimal.
#[tactic(auto, unfolding(crate::specs::Load::numbered))]
fn put_numbered(text: &mut Vec<u8>, piece: &[u8], number: u64) -> Result<(), NoMemory>
    ensures { OnOk result (text.new.items ≡ text.old.items ++ numbered piece.now number) }
{
    let mut buffer = Buffer::new();
    text.extend_from_slice(piece)?;
    text.extend_from_slice(buffer.format(number).as_bytes())
}

/// Appends the lines of a function as far as its call.
#[tactic(auto, unfolding(crate::specs::Load::entry_text))]
fn put_entry(text: &mut Vec<u8>, index: u64, next: u64) -> Result<(), NoMemory>
    ensures { OnOk result (text.new.items ≡ text.old.items ++ entry_text index next) }
{
    put_numbered(text, b".type f", index)?;
    put_numbered(text, before_label(), index)?;
    put_numbered(text, before_call(), next)
}

/// Appends the lines of a function behind its call.
#[tactic(auto, unfolding(crate::specs::Load::rest_text))]
fn put_rest(text: &mut Vec<u8>, index: u64, count: u64) -> Result<(), NoMemory>
    ensures { OnOk result (text.new.items ≡ text.old.items ++ rest_text index count) }
{
    put_numbered(text, b"\n.rept ", count)?;
    put_numbered(text, before_size(), index)?;
    put_numbered(text, b",.-f", index)?;
    text.extend_from_slice(b"\n")
}

/// Appends the lines of the function of this index, of so many functions.
#[tactic(auto, unfolding(crate::specs::Load::function_text))]
fn put_function(text: &mut Vec<u8>, index: u64, functions: u64) -> Result<(), NoMemory>
    requires below { index < functions }
    requires few { functions < 2 ^ 32 }
    ensures { OnOk result (text.new.items ≡ text.old.items ++ function_text functions index) }
{
    put_entry(text, index, (index + 1) % functions)?;
    put_rest(text, index, (5 * index + functions) % 28)
}

/// The source of so many functions, each of which calls the next, and the last the first. Its longest jumps are some 150 bytes.
#[tactic(auto, unfolding(crate::specs::Load::load_text))]
pub fn self_load(alloc: Global, functions: u32) -> Result<Text, NoMemory>
    ensures { IfOk result (λ text. text ≡ load_text functions) }
{
    let mut text = Vec::with_capacity(alloc, functions as usize * FUNCTION_BYTES)?;
    text.extend_from_slice(b".text\n")?;
    let functions = u64::from(functions);
    for index in 0..functions {
        put_function(&mut text, index, functions)?;
    }
    Ok(Text::new(text))
}
