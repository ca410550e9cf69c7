//! All of a text said on a channel of a console.

ghost use Rattle.std.specs.Prelude.{OnOk};
ghost use Rattle.asm_base.specs.Counts.{HasCause};
ghost use Rattle.dis_run.specs.Saying.{Says, SaysFront};

use asm_base::{Channel, Console, Failed};

/// Says the text: all of it, or a front of it where the console fails. It takes no memory.
pub fn say_all<C: Console>(con: &mut C, to: Channel, text: &[u8]) -> Result<(), Failed>
    ensures ok { OnOk result (Says to text.now (C.said con.old) (C.said con.new)) }
    ensures front { SaysFront to text.now (C.said con.old) (C.said con.new) }
    ensures cause { HasCause (C.faults con.old) (C.faults con.new) result }
{
    let mut at = 0;
    'pieces: while at < text.len() {
        at += con.say(to, &text[at..])?;
    }
    Ok(())
}
