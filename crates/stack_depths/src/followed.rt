//! What is followed of an item, by its role.

ghost use Rattle.std.specs.Prelude.{◌≡◌, ◌<◌, option_map};
ghost use Rattle.insn_effects.specs.Followed.{moved, moves_by, stored, stores_by, loaded, loads_by, calls_by};
ghost use Rattle.stack_depths.specs.Distances.{has_bit};
ghost use Rattle.stack_depths.specs.Accesses.{move_by, store_by, load_by};

use insn_effects::{Effect, NONE, Role};

/// A register gets what a base holds, and a number more.
#[derive(Clone, Copy)]
pub struct FollowedMove {
    pub to: u8,
    pub base: u8,
    pub add: u64,
}

/// Bytes at a displacement from a base, and the register that is stored there or loaded from there.
#[derive(Clone, Copy)]
pub struct FollowedAccess {
    pub base: u8,
    pub displacement: u64,
    pub size: u8,
    pub register: u8,
}

#[inline(always)]
fn moved(to: u8, base: u8, add: u64) -> Option<FollowedMove>
    ensures { option_map move_by result ≡ moved to base add }
{
    if to == NONE || base == NONE {
        None
    } else {
        Some(FollowedMove { to, base, add })
    }
}

#[inline(always)]
fn stored(base: u8, displacement: u64, size: u8, register: u8) -> Option<FollowedAccess>
    ensures { option_map store_by result ≡ stored base displacement size register }
{
    if base == NONE {
        None
    } else {
        Some(FollowedAccess {
            base,
            displacement,
            size,
            register,
        })
    }
}

#[inline(always)]
fn loaded(base: u8, displacement: u64, register: u8) -> Option<FollowedAccess>
    ensures { option_map load_by result ≡ loaded base displacement register }
{
    if base == NONE || register == NONE {
        None
    } else {
        Some(FollowedAccess {
            base,
            displacement,
            size: 8,
            register,
        })
    }
}

/// The move that an item makes.
#[inline(always)]
pub fn followed_move(effect: &Effect) -> Option<FollowedMove>
    ensures { option_map move_by result ≡ moves_by effect.now.role effect.now }
{
    match effect.role {
        Role::Move => moved(effect.register, effect.base, effect.amount),
        Role::Push | Role::PushWord => moved(0, 0, u64::MAX - 7),
        Role::Pop | Role::PopMemory | Role::PopStack | Role::PopWord => moved(0, 0, 8),
        Role::Leave => moved(0, 2, 8),
        _ => None,
    }
}

/// The store that an item makes, at a displacement from one of the seven.
#[inline(always)]
pub fn followed_store(effect: &Effect) -> Option<FollowedAccess>
    ensures { option_map store_by result ≡ stores_by effect.now.role effect.now }
{
    match effect.role {
        Role::Push => stored(0, u64::MAX - 7, 8, effect.register),
        Role::PushWord | Role::Call | Role::CallThrough => stored(0, u64::MAX - 7, 8, NONE),
        Role::PopMemory => stored(effect.base, effect.amount, 8, NONE),
        Role::Store => stored(effect.base, effect.amount, effect.size, effect.register),
        _ => None,
    }
}

/// The load that an item makes, from a displacement from one of the seven.
#[inline(always)]
pub fn followed_load(effect: &Effect) -> Option<FollowedAccess>
    ensures { option_map load_by result ≡ loads_by effect.now.role effect.now }
{
    match effect.role {
        Role::Pop => loaded(0, 0, effect.register),
        Role::Load => loaded(effect.base, effect.amount, effect.register),
        Role::Leave => loaded(2, 0, 2),
        _ => None,
    }
}

/// Whether an item is a call.
#[inline(always)]
pub fn is_call(effect: &Effect) -> bool
    ensures { result ≡ calls_by effect.now.role }
{
    match effect.role {
        Role::Call | Role::CallThrough => true,
        _ => false,
    }
}

/// Whether an item writes a register of the seven in another way than by its move.
#[inline(always)]
pub fn is_written(effect: &Effect, register: usize) -> bool
    requires { register < 7 }
    ensures { result ≡ has_bit effect.now.written register }
{
    (effect.written >> register) % 2 == 1
}
