//! What holds of the whole table, and of all bytes that read.

ghost use Rattle.std.specs.Prelude.{IsTrue};
ghost use Rattle.x86_table.specs.Rows.{the_rows};
ghost use Rattle.x86_table.specs.Heads.{all_apart, all_stand};
ghost use Rattle.x86_table.specs.Leads.{LeadsInOrder, FieldsAreNarrow, HeadsTellRows};
ghost use Rattle.x86_table.specs.Reads.{ReadsOneWay, InstructionLength};
ghost use Rattle.x86_table.specs.Fits.{FieldsHaveBytes};
ghost use Rattle.x86_table.specs.WorkedReadings.{WorkedReadings};
ghost use Rattle.x86_table.specs.WorkedWrites.{WorkedWrites};
ghost use Rattle.x86_table.specs.WorkedOrder.{WorkedOrder};

/// No two rows admit one head.
pub fn rows_are_apart()
    ensures { IsTrue (all_apart the_rows) }
{}

/// No opcode is a prefix, REX or an escape byte.
pub fn opcodes_stand()
    ensures { IsTrue (all_stand the_rows) }
{}

/// The bytes of instructions that were worked out by hand.
pub fn worked_readings()
    ensures { WorkedReadings }
{}

/// No bytes read as two instructions, and none that read begin others that read.
pub fn read_one_way()
    ensures { ReadsOneWay }
{}

/// An instruction has at least one byte, and at most 15 (Intel SDM, volume 2, section 2.3.11).
pub fn instruction_length()
    ensures { InstructionLength }
{}

/// Fields that fit a row of the table have bytes.
pub fn fields_have_bytes()
    ensures { FieldsHaveBytes }
{}

/// Each byte before an opcode has the rank of its place, and the opcode is none of them, for all fields that
/// fit a row of the table.
pub fn leads_in_order()
    ensures { LeadsInOrder }
{}

/// Registers have four bits, of which REX has one, in fields that fit a row.
pub fn fields_are_narrow()
    ensures { FieldsAreNarrow }
{}

/// Rows of the table that share a head are one.
pub fn heads_tell_rows()
    ensures { HeadsTellRows }
{}

/// What some instructions write, by the Intel manual.
pub fn worked_writes()
    ensures { WorkedWrites }
{}

/// Which of two forms of an instruction of two registers comes first, where both have as many bytes: the
/// one that assemblers write.
pub fn worked_order()
    ensures { WorkedOrder }
{}
