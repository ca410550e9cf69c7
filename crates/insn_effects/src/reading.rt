//! The effect of an instruction.

ghost use Rattle.std.specs.Prelude.{◌≡◌, ◌==◌, ◌||◌, not, true, false};
ghost use Rattle.x86_insn.specs.declared.insns.Insn.{Insn};
ghost use Rattle.x86_insn.specs.declared.amounts.Values.{Values};
ghost use Rattle.x86_insn.specs.Views.{seen_at, view_of};
ghost use Rattle.x86_lookup.specs.Writing.{writes_general};
ghost use Rattle.insn_effects.specs.Listed.{writes_of};
ghost use Rattle.insn_effects.specs.Decoding.{by_writes, quad_action, sized_action, jump_to, is_branch, action_of};
ghost use Rattle.insn_effects.specs.Actions.{call, ends};
ghost use Rattle.insn_effects.specs.Effects.{effect_of};
ghost use Rattle.insn_effects.specs.Flows.{onward, calls, returns, jump_flow, call_flow, is_absent, is_unsupported_of, flow_of, is_unsupported};
ghost use Rattle.insn_effects.specs.Followed.{Shows};

use crate::effects::{Effect, Role};
use crate::moving::{add, lea, mov, sub};
use crate::stacking::{leave, pop, pop_word, push};
use crate::writing::{bits, by_writes};
use x86_insn::{Insn, Slot, Values};
use x86_table::mnemonics::integers::{
    ADD, CALL, HLT, JG, JMP, JO, JRCXZ, LEA, LEAVE, LOOPNE, MOV, POP, POPF, PUSH, PUSHF, RET, SUB,
    UD2,
};

/// An instruction of 64 bits that does not jump, call or return.
fn quad(insn: &Insn, values: &Values) -> Effect
    ensures { let view = view_of insn.now values.now in
        let action = quad_action view.name.0 view.first view.second (by_writes view) in
        Shows result (effect_of action) onward (is_unsupported_of view.name.0 true view.first) }
{
    match insn.name.0 {
        PUSH => push(insn, values),
        POP => pop(insn, values),
        PUSHF => Effect::plain(Role::Push),
        POPF => Effect::plain(Role::Pop),
        LEAVE => leave(),
        MOV => mov(insn, values),
        LEA => lea(insn, values),
        ADD => add(insn, values),
        SUB => sub(insn, values),
        _ => by_writes(insn, values),
    }
}

/// One of another size.
fn sized(insn: &Insn, values: &Values) -> Effect
    ensures { let view = view_of insn.now values.now in
        let action = sized_action view.name.0 view.first (by_writes view) in
        Shows result (effect_of action) onward (is_unsupported_of view.name.0 false view.first) }
{
    match insn.name.0 {
        PUSH => Effect::plain(Role::PushWord),
        POP => pop_word(insn.first),
        _ => by_writes(insn, values),
    }
}

/// A jump, which may go on.
fn jump(falls: bool, insn: &Insn, values: &Values) -> Effect
    ensures { let view = view_of insn.now values.now in
        Shows result (effect_of (jump_to view.first falls (writes_general (writes_of view))))
        (jump_flow view.first falls) false }
{
    let _values = *values;
    match insn.first {
        Slot::Target => {
            let role = if falls { Role::Branch } else { Role::Jump };
            Effect::writing(role, bits(insn))
        }
        _ => Effect::plain(Role::JumpThrough),
    }
}

/// A call.
fn call(first: Slot) -> Effect
    ensures { (insn : Insn) (values : Values) →
        Shows result (effect_of call) (call_flow (seen_at insn values first)) false }
{
    match first {
        Slot::Target => Effect::plain(Role::Call),
        _ => Effect::plain(Role::CallThrough),
    }
}

/// A return.
fn returning(first: Slot) -> Effect
    ensures { (insn : Insn) (values : Values) →
        Shows result (effect_of ends) returns (not (is_absent (seen_at insn values first))) }
{
    match first {
        Slot::Absent => Effect::plain(Role::Return),
        _ => Effect::plain(Role::ReturnPopping),
    }
}

/// Whether the name is that of a jump with a condition, or of one that counts in rcx.
fn is_branch(name: u16) -> bool
    ensures { result ≡ is_branch name }
{
    (name >= JO && name <= JG) || (name >= LOOPNE && name <= JRCXZ)
}

/// Whether control goes nowhere from an instruction of the name.
fn is_stop(name: u16) -> bool
    ensures { result ≡ ((name == UD2) || (name == HLT)) }
{
    name == UD2 || name == HLT
}

/// What the instruction does to the stack and to the callee-saved registers, where control goes
/// from it, and whether it uses the stack in a way that is not supported (psABI for AMD64, section
/// 3.2; Intel SDM, volume 2). Numbers that are not known count as any.
#[tactic(auto, using(crate::proofs::Names::by_jmp))]
pub fn effect_of(insn: &Insn, values: &Values) -> Effect
    ensures { let view = view_of insn.now values.now in
        Shows result (effect_of (action_of view)) (flow_of view) (is_unsupported view) }
{
    let name = insn.name.0;
    if name == JMP {
        jump(false, insn, values)
    } else if is_branch(name) {
        jump(true, insn, values)
    } else if name == CALL {
        call(insn.first)
    } else if name == RET {
        returning(insn.first)
    } else if is_stop(name) {
        Effect::plain(Role::Stop)
    } else if insn.size == 64 {
        quad(insn, values)
    } else {
        sized(insn, values)
    }
}
