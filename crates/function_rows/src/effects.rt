//! The effect of an item by its word and its numbers.

use insn_effects::{Effect, NONE, Role};

/// A number of a list, from 0 on, with a comma between two.
fn part(text: &str, wanted: usize) -> &str {
    let mut at = 0usize;
    for piece in text.split(',') {
        if at == wanted {
            return piece;
        }
        at = at.saturating_add(1);
    }
    ""
}

fn small(text: &str, at: usize) -> Option<u8> {
    part(text, at).parse::<u8>().ok()
}

fn signed(text: &str, at: usize) -> Option<u64> {
    Some(part(text, at).parse::<i64>().ok()?.cast_unsigned())
}

/// An effect with a register, and the registers that are written.
fn on_register(role: Role, register: u8, written: u8) -> Effect {
    Effect {
        role,
        written,
        register,
        base: NONE,
        size: 0,
        amount: 0,
    }
}

/// `move:TO,BASE,NUMBER`, `store:BASE,NUMBER,SIZE,REGISTER`, `load:REGISTER,BASE,NUMBER,WRITTEN`.
fn access(word: &str, text: &str) -> Option<Effect> {
    match word {
        "move" => Some(Effect {
            role: Role::Move,
            written: 0,
            register: small(text, 0)?,
            base: small(text, 1)?,
            size: 0,
            amount: signed(text, 2)?,
        }),
        "store" => Some(Effect {
            role: Role::Store,
            written: 0,
            register: small(text, 3)?,
            base: small(text, 0)?,
            size: small(text, 2)?,
            amount: signed(text, 1)?,
        }),
        "load" => Some(Effect {
            role: Role::Load,
            written: small(text, 3)?,
            register: small(text, 0)?,
            base: small(text, 1)?,
            size: 0,
            amount: signed(text, 2)?,
        }),
        _ => None,
    }
}

/// `popmemory:BASE,NUMBER`.
fn popped_to(text: &str) -> Option<Effect> {
    Some(Effect {
        role: Role::PopMemory,
        written: 0,
        register: NONE,
        base: small(text, 0)?,
        size: 8,
        amount: signed(text, 1)?,
    })
}

/// Roles of items without numbers.
fn alone(word: &str) -> Option<Role> {
    match word {
        "call" => Some(Role::Call),
        "callthrough" => Some(Role::CallThrough),
        "jmp" => Some(Role::Jump),
        "je" => Some(Role::Branch),
        "jmpthrough" => Some(Role::JumpThrough),
        "ret" => Some(Role::Return),
        "retpop" => Some(Role::ReturnPopping),
        "ud2" => Some(Role::Stop),
        "nop" => Some(Role::Padding),
        "data" => Some(Role::Data),
        "pushword" => Some(Role::PushWord),
        "popstack" => Some(Role::PopStack),
        _ => None,
    }
}

/// The effect of a word and the numbers behind its colon. Registers have their numbers among the seven, and 7 is none.
pub fn effect_by(word: &str, text: &str) -> Option<Effect> {
    match word {
        "push" => Some(on_register(Role::Push, small(text, 0)?, 0)),
        "pop" => Some(on_register(Role::Pop, small(text, 0)?, small(text, 1)?)),
        "leave" => Some(Effect::writing(Role::Leave, 4)),
        "write" => Some(Effect::writing(Role::Other, small(text, 0)?)),
        "popmemory" => popped_to(text),
        "move" | "store" | "load" => access(word, text),
        _ => Some(Effect::plain(alone(word)?)),
    }
}
