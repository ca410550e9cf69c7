//! The expansion of assigned symbols in forms: each is replaced by the expansion of the form that
//! it was assigned last, until none is left.

ghost use Rattle.std.specs.Prelude.{◌≡◌, ◌<◌, ◌≤◌, length, None, IsSome, IfOk, option_map};
ghost use Rattle.asm_symbols.specs.Assigning.{form_at};
ghost use Rattle.assigned_forms.specs.Expanding.{form_or_symbol, Expands};
ghost use Rattle.assigned_forms.specs.Opened.{opened};
ghost use Rattle.asm_expr.specs.Forms.{plus_times};

use crate::opened::{Opened, count_of, form_at, names_assigned, none_leads_back, terms_at};
use asm_base::NoMemory;
use asm_expr::{Linear, Term, constant_form, copied_form, plus_times, symbol_form};
use asm_symbols::leads_is_decided;
use std::alloc::Global;
use std::marker::Model;

/// The form plus the term, with this form in place of the term's symbol, where there is one.
pub(crate) fn plus_replaced(
    alloc: Global,
    made: Linear,
    term: &Term,
    found: Option<&Linear>,
) -> Result<Linear, NoMemory>
    ensures { let there = option_map (λ form. form.now) found.entry in
        IfOk result (λ form. form
        ≡ plus_times made term.now.coefficient (form_or_symbol term.now.symbol there)) }
{
    let sum = match found {
        Some(form) => plus_times(made, term.coefficient, form),
        None => plus_times(made, term.coefficient, &symbol_form(alloc, term.symbol)?),
    };
    Ok(sum?)
}

/// A symbol whose form is being expanded: its index, how many terms of its form are expanded, and
/// the sum of these and the form's constant.
#[derive(Drop)]
struct Visit {
    symbol: usize,
    seen: usize,
    made: Linear,
}

/// The form of the symbol begins to be expanded. One that names no assigned symbol is copied, and
/// no term is left.
fn begun(alloc: Global, view: Opened, at: usize) -> Result<Visit, NoMemory>
    requires there { let all = opened view.symbols.now view.marks.now in at < length all.symbols }
    requires assigned { let all = opened view.symbols.now view.marks.now in
        IsSome (form_at all.symbols at) }
    ensures symbol { IfOk result (λ visit. visit.symbol ≡ at) }
    ensures value { let all = opened view.entry.symbols.now view.entry.marks.now in
        IfOk result (λ visit. Expands all at visit.seen visit.made) }
{
    none_leads_back(view);
    leads_is_decided();
    // The symbol is an assigned one.
    let form = form_at(view, at).unwrap();
    if names_assigned(view, form) {
        return Ok(Visit {
            symbol: at,
            seen: 0,
            made: constant_form(alloc, form.constant()),
        });
    }
    let made = copied_form(alloc, form)?;
    Ok(Visit {
        symbol: at,
        seen: form.terms().len(),
        made,
    })
}

/// The expanded form of a symbol, where it is there.
#[derive(Drop)]
enum Expansion<'a> {
    Absent,
    /// The symbol's own form, which names no assigned symbol.
    Own(&'a Linear),
    /// A form that was made.
    Made(Box<Linear>),
}

/// The expanded forms of all assigned symbols, in a list: for each symbol none, or its expanded form.
///
/// Each symbol is expanded once: its terms are added one after the other, and where one names a
/// symbol whose expanded form is not there, that symbol goes first and the sum so far waits. So a
/// term of a symbol's form is looked up a fixed number of times, however many forms lead to it. The
/// symbols that wait stand in a list on the heap, since a chain of them may be long.
#[derive(Drop)]
pub(crate) struct MadeForms<'a> {
    forms: Vec<Expansion<'a>>,
}

impl<'a> Model for MadeForms<'a> {
    ghost use Rattle.std.specs.Prelude.{List, Option, map};
    ghost use Rattle.asm_expr.specs.Forms.{Form};
    ghost use Rattle.assigned_forms.specs.Expansions.{form_there};

    ghost Value = { List (Option Form) };

    ghost view = { λ made. map form_there made.forms.items };
}

impl<'a> MadeForms<'a> {
    ghost use Rattle.std.specs.Prelude.{◌≡◌, ◌<◌, ◌≤◌, false, length, set, replicate, None, Some, option_map, IsNone, IfOk, OnOk, IfSome};
    ghost use Rattle.asm_expr.specs.Forms.{plus_times};
    ghost use Rattle.asm_symbols.specs.Assigning.{form_at};
    ghost use Rattle.assigned_forms.specs.Expanding.{form_or_symbol, entry_at, awaits, terms_of, Expands, IsAwaited, AreExpansions, ArePartly, KeepsForms};
    ghost use Rattle.assigned_forms.specs.Opened.{opened};

    /// No form for any of so many symbols.
    fn none(alloc: Global, count: usize) -> Result<MadeForms<'a>, NoMemory>
        ensures { IfOk result (λ made. made ≡ replicate count None) }
    {
        let mut forms = Vec::with_capacity(alloc, count)?;
        for _ in 0..count {
            forms.push(Expansion::Absent)?;
        }
        Ok(MadeForms { forms })
    }

    /// The form that is there for the symbol at the index.
    pub(crate) fn entry_at(&self, at: usize) -> Option<&Linear>
        ensures { option_map (λ form. form.now) result ≡ entry_at self.now at }
    {
        match self.forms.get(at) {
            Some(Expansion::Own(form)) => Some(form),
            Some(Expansion::Made(form)) => Some(form),
            _ => None,
        }
    }

    /// Whether the symbol is an assigned one whose expanded form is not there.
    fn awaits(&self, view: Opened, at: usize) -> bool
        ensures { let all = opened view.entry.symbols.now view.entry.marks.now in
            result ≡ awaits all self.now at }
    {
        form_at(view, at).is_some() && self.entry_at(at).is_none()
    }

    /// The form plus the term, with the form that is there for the term's symbol in its place.
    fn plus_term(&self, alloc: Global, made: Linear, term: &Term) -> Result<Linear, NoMemory>
        ensures { let found = entry_at self.now term.now.symbol in
            IfOk result (λ form. form
            ≡ plus_times made term.now.coefficient (form_or_symbol term.now.symbol found)) }
    {
        plus_replaced(
            alloc,
            made,
            term,
            self.entry_at(term.symbol.index() as usize),
        )
    }

    /// Expands terms up to the first of a symbol whose expanded form is not there, and answers that
    /// symbol.
    fn advance(
        &self,
        alloc: Global,
        view: Opened,
        visit: Visit,
    ) -> Result<(Visit, Option<usize>), NoMemory>
        requires there { let all = opened view.symbols.now view.marks.now in
            visit.symbol < length all.symbols }
        requires partly { let all = opened view.symbols.now view.marks.now in
            ArePartly all self.now }
        requires value { let all = opened view.symbols.now view.marks.now in
            Expands all visit.symbol visit.seen visit.made }
        ensures symbol { IfOk result (λ after. after.0.symbol ≡ visit.symbol) }
        ensures value { let all = opened view.entry.symbols.now view.entry.marks.now in
            IfOk result (λ after. Expands all visit.symbol after.0.seen after.0.made) }
        ensures awaited { let all = opened view.entry.symbols.now view.entry.marks.now in
            IfOk result (λ after. IfSome after.1 (IsAwaited all self.now visit.symbol)) }
        ensures all { let all = opened view.entry.symbols.now view.entry.marks.now in
            IfOk result (λ after. IsNone after.1
            → length (terms_of (form_at all.symbols visit.symbol)) ≤ after.0.seen) }
    {
        let Visit {
            symbol,
            mut seen,
            mut made,
        } = visit;
        let terms = terms_at(view, symbol);
        while seen < terms.len() {
            let term = &terms[seen];
            let other = term.symbol.index() as usize;
            if self.awaits(view, other) {
                return Ok((Visit { symbol, seen, made }, Some(other)));
            }
            made = self.plus_term(alloc, made, term)?;
            seen += 1;
        }
        Ok((Visit { symbol, seen, made }, None))
    }

    /// The form is there for the symbol at the index from now on.
    fn put(&mut self, alloc: Global, at: usize, form: Linear) -> Result<(), NoMemory>
        requires { at < length self.old }
        ensures { OnOk result (self.new ≡ set self.old at (Some form)) }
    {
        let form = Box::new(alloc, form)?;
        self.forms[at] = Expansion::Made(form);
        Ok(())
    }

    /// The form is there for the symbol at the index from now on, and not copied.
    fn put_own(&mut self, at: usize, form: &'a Linear)
        requires { at < length self.old }
        ensures { self.new ≡ set self.old at (Some form.now) }
    {
        self.forms[at] = Expansion::Own(form);
    }

    /// The expanded form of the symbol is there from now on, if it is an assigned one, and those
    /// of the symbols that it needs.
    #[inline(never)]
    fn fill_from(&mut self, alloc: Global, view: Opened, at: usize) -> Result<(), NoMemory>
        requires there { let all = opened view.symbols.now view.marks.now in
            at < length all.symbols }
        requires partly { let all = opened view.symbols.now view.marks.now in
            ArePartly all self.old }
        ensures partly { let all = opened view.entry.symbols.now view.entry.marks.now in
            OnOk result (ArePartly all self.new) }
        ensures done { let all = opened view.entry.symbols.now view.entry.marks.now in
            OnOk result (awaits all self.new at ≡ false) }
        ensures kept { let all = opened view.entry.symbols.now view.entry.marks.now in
            OnOk result (KeepsForms all self.old self.new) }
    {
        if !self.awaits(view, at) {
            return Ok(());
        }
        none_leads_back(view);
        leads_is_decided();
        let mut way = Vec::new(alloc);
        way.push(begun(alloc, view, at)?)?;
        'way: while let Some(visit) = way.pop() {
            let (visit, awaited) = self.advance(alloc, view, visit)?;
            match awaited {
                Some(other) => {
                    way.push(visit)?;
                    way.push(begun(alloc, view, other)?)?;
                }
                None => self.put(alloc, visit.symbol, visit.made)?,
            }
        }
        Ok(())
    }

    /// The same: a form that names no assigned symbol stands for itself.
    fn fill(&mut self, alloc: Global, view: Opened<'a, '_>, at: usize) -> Result<(), NoMemory>
        requires there { let all = opened view.symbols.now view.marks.now in
            at < length all.symbols }
        requires partly { let all = opened view.symbols.now view.marks.now in
            ArePartly all self.old }
        ensures partly { let all = opened view.entry.symbols.now view.entry.marks.now in
            OnOk result (ArePartly all self.new) }
        ensures done { let all = opened view.entry.symbols.now view.entry.marks.now in
            OnOk result (awaits all self.new at ≡ false) }
        ensures kept { let all = opened view.entry.symbols.now view.entry.marks.now in
            OnOk result (KeepsForms all self.old self.new) }
    {
        let Some(form) = form_at(view, at) else {
            return Ok(());
        };
        if names_assigned(view, form) {
            return self.fill_from(alloc, view, at);
        }
        self.put_own(at, form);
        Ok(())
    }

    /// The expanded forms of the symbols.
    #[inline(never)]
    pub(crate) fn new(alloc: Global, view: Opened<'a, '_>) -> Result<MadeForms<'a>, NoMemory>
        ensures { let all = opened view.entry.symbols.now view.entry.marks.now in
            IfOk result (AreExpansions all) }
    {
        let count = count_of(view);
        let mut made = MadeForms::none(alloc, count)?;
        for at in 0..count {
            made.fill(alloc, view, at)?;
        }
        Ok(made)
    }
}
