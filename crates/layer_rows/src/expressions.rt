//! Expressions on their own: what they count, how they are shown, and what they name.

ghost use Rattle.std.specs.Prelude.{◌≡◌, ◌<◌};
ghost use Rattle.layer_rows.specs.Numbered.{numbered, instance_of, the_place, first_byte, meant_by};

use asm_base::Tokens;
use asm_expr::{
    Expr, ExprFault, Known, KnownNow, Linear, Look, SymId, Written, constant_form, fold,
    known_value, linear_form, names_of, plus_times, settled, settled_value, symbol_form, value_of,
};
use expr_texts::{parse, shown_text};
use row_texts::{write_count, write_displayed, write_line, write_number, write_text};
use std::alloc::Global;
use std::fmt::Display;
use std::io;

/// The symbol of an instance of a numeric label.
fn instance_of(number: u64, instance: u32) -> SymId
    requires { instance < 16 }
    ensures { result ≡ instance_of number instance }
{
    SymId::new((number % 0x1_0000) as u32 * 16 + instance)
}

/// The first byte of a name, and 0 where there is none.
fn first_byte(text: &[u8]) -> u8
    ensures { result ≡ first_byte text.now }
{
    match text {
        [byte, ..] => *byte,
        [] => 0,
    }
}

/// Each numeric label has three instances before the place, which is behind 100 bytes of stretch 1. No other symbol has a value.
struct Numbered;

impl Known for Numbered {
    ghost told = { λ _ symbol. numbered symbol };

    ghost meant = { λ _ written. meant_by written };

    ghost place = { λ _. the_place };

    fn look(&self, symbol: SymId) -> Look<'_> {
        let index = symbol.index();
        if index == 0x8000_0000 {
            Look::Label {
                stretch: 1,
                at: 100,
            }
        } else if index < 0x4000_0000 {
            Look::Label {
                stretch: u64::from(index / 16),
                at: u64::from(index % 16),
            }
        } else {
            Look::Absent
        }
    }

    fn symbol(&self, written: &Written) -> SymId {
        match written {
            Written::Plain(text) => {
                SymId::new(0x4000_0000 + u32::from(first_byte(text.as_bytes())))
            }
            Written::Back(number) => instance_of(*number, 3),
            Written::Next(number) => instance_of(*number, 4),
        }
    }

    fn here(&self) -> SymId {
        SymId::new(0x8000_0000)
    }
}

/// The tree of a text, and the index of the token behind it.
fn tree(alloc: Global, text: &str, at: usize) -> Result<(Expr, usize), ExprFault> {
    let tokens = Tokens::read(alloc, text.as_bytes())?;
    parse(alloc, &tokens, at)
}

/// A line with the value, or the fault.
fn write_answer<T: Display + Drop>(
    answer: Result<T, ExprFault>,
    out: &mut Vec<u8>,
) -> io::Result<()> {
    match answer {
        Ok(value) => write_displayed(&value, out),
        Err(fault) => write_displayed(&fault, out),
    }
}

/// What the text counts, as the call says it.
fn value(alloc: Global, text: &str) -> Result<u64, ExprFault> {
    let (expr, _next) = tree(alloc, text, 0)?;
    known_value(alloc, &expr, &Numbered)
}

/// What the text counts, as a fold of its tree does.
fn folded_value(alloc: Global, text: &str) -> Result<u64, ExprFault> {
    let (expr, _next) = tree(alloc, text, 0)?;
    let mut visitor = KnownNow {
        alloc,
        known: &Numbered,
    };
    let form = fold(&expr, &mut visitor)?;
    visitor.value(form).map_err(ExprFault::Fault)
}

/// `value TEXT`
pub fn write_value(alloc: Global, text: &str, out: &mut Vec<u8>) -> io::Result<()> {
    write_answer(value(alloc, text), out)
}

/// `fold TEXT`
pub fn write_folded(alloc: Global, text: &str, out: &mut Vec<u8>) -> io::Result<()> {
    write_answer(folded_value(alloc, text), out)
}

/// `parse INDEX TEXT`: the index of the token behind the expression that begins at the index.
pub fn write_parsed(alloc: Global, at: usize, text: &str, out: &mut Vec<u8>) -> io::Result<()> {
    let next = tree(alloc, text, at).map(|(_expr, next)| next);
    write_answer(next, out)
}

/// The names of a text.
fn names(alloc: Global, text: &str) -> Result<Vec<Written>, ExprFault> {
    let (expr, _next) = tree(alloc, text, 0)?;
    Ok(names_of(alloc, &expr)?)
}

/// `names TEXT`: a name a line.
pub fn write_names(alloc: Global, text: &str, out: &mut Vec<u8>) -> io::Result<()> {
    match names(alloc, text) {
        Ok(names) => {
            for name in &names {
                match name {
                    Written::Plain(text) => {
                        out.extend_from_slice(text.as_bytes())?;
                        write_line("", out)?;
                    }
                    Written::Back(number) => write_count(*number, " before", out)?,
                    Written::Next(number) => write_count(*number, " behind", out)?,
                }
            }
            Ok(())
        }
        Err(fault) => write_displayed(&fault, out),
    }
}

/// The text of an expression, shown.
fn shown_again(alloc: Global, text: &str) -> Result<Vec<u8>, ExprFault> {
    let (expr, _next) = tree(alloc, text, 0)?;
    shown_text(alloc, &expr)
}

/// `shown TEXT`
pub fn write_shown(alloc: Global, text: &str, out: &mut Vec<u8>) -> io::Result<()> {
    match shown_again(alloc, text) {
        Ok(shown) => {
            out.extend_from_slice(&shown)?;
            write_line("", out)
        }
        Err(fault) => write_displayed(&fault, out),
    }
}

/// The linear form of a text.
fn form(alloc: Global, text: &str) -> Result<Linear, ExprFault> {
    let (expr, _next) = tree(alloc, text, 0)?;
    linear_form(alloc, &expr, &Numbered)
}

/// `form TEXT`: the constant, and how often each name counts.
pub fn write_form(alloc: Global, text: &str, out: &mut Vec<u8>) -> io::Result<()> {
    match form(alloc, text) {
        Ok(form) => {
            write_number(form.constant(), out)?;
            for term in form.terms() {
                write_text(" ", out)?;
                write_number(term.coefficient, out)?;
            }
            write_line("", out)
        }
        Err(fault) => write_displayed(&fault, out),
    }
}

/// The form plus so often an instance of numeric label 2.
fn plus_label(alloc: Global, made: Linear, factor: u64, instance: u32) -> Result<Linear, ExprFault>
    requires { instance < 16 }
{
    let label = symbol_form(alloc, SymId::new(32 + instance))?;
    Ok(plus_times(made, factor, &label)?)
}

/// So many times instances 7 and 3 of numeric label 2, and 5.
fn two_labels(alloc: Global, first: u64, second: u64) -> Result<Linear, ExprFault> {
    let made = plus_label(alloc, constant_form(alloc, 5), first, 7)?;
    plus_label(alloc, made, second, 3)
}

/// The value of a form, once it is settled.
fn value_settled(alloc: Global, form: Linear) -> Result<u64, ExprFault> {
    let whole = settled(alloc, &Numbered, form)?;
    value_of(&whole).map_err(ExprFault::Fault)
}

/// `settled FIRST SECOND`: the value of 5 and so many times two instances of one label, by two calls.
pub fn write_settled(alloc: Global, first: u64, second: u64, out: &mut Vec<u8>) -> io::Result<()> {
    match two_labels(alloc, first, second) {
        Ok(form) => {
            match settled_value(&Numbered, &form) {
                Some(value) => write_number(value, out)?,
                None => write_text("none", out)?,
            }
            write_text(", ", out)?;
            write_answer(value_settled(alloc, form), out)
        }
        Err(fault) => write_displayed(&fault, out),
    }
}
