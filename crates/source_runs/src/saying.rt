//! All of a text said on a channel of a console, and messages with a summary.

ghost use Rattle.std.specs.Prelude.{◌≡◌, ℕ, ◌≤◌, length, take, OnErr, OnOk};
ghost use Rattle.std.specs.Option.{option_map};
ghost use Rattle.asm_base.specs.Counts.{HasCause};
ghost use Rattle.asm_base.specs.Console.{after_say};
ghost use Rattle.source_runs.specs.Answers.{SaidAll, SaidInPart};

use asm_base::{Channel, Console, Failed};

/// Says the text: all of it, or a front of it where the console fails. It takes no memory.
pub fn say_all<C: Console>(con: &mut C, to: Channel, text: &[u8]) -> Result<(), Failed>
    ensures ok { OnOk result
        (C.said con.new ≡ option_map (after_say to text.now) (C.said con.old)) }
    ensures prefix { (n : ℕ) × (n ≤ length text.now)
        × (C.said con.new ≡ option_map (after_say to (take n text.now)) (C.said con.old)) }
    ensures cause { HasCause (C.faults con.old) (C.faults con.new) result }
{
    let mut at = 0;
    'pieces: while at < text.len() {
        at += con.say(to, &text[at..])?;
    }
    Ok(())
}

/// Says the messages on standard error, and then the summary, if there is one, on standard output. It takes no memory.
#[tactic(auto, using(crate::proofs::Deliveries::front_said))]
pub fn say_report<C: Console>(
    con: &mut C,
    messages: &[u8],
    summary: Option<&[u8]>,
) -> Result<(), Failed>
    ensures ok { OnOk result (SaidAll messages.now
        (option_map (λ text. text.now) summary.entry) (C.said con.old) (C.said con.new)) }
    ensures err { OnErr result (SaidInPart messages.now
        (option_map (λ text. text.now) summary.entry) (C.said con.old) (C.said con.new)) }
    ensures cause { HasCause (C.faults con.old) (C.faults con.new) result }
{
    say_all(con, Channel::Err, messages)?;
    match summary {
        Some(text) => say_all(con, Channel::Out, text),
        None => Ok(()),
    }
}
