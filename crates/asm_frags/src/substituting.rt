//! The substitution of forms in fields, by which layout puts in what only the whole source tells.

ghost use Rattle.std.specs.Prelude.{◌≡◌, IfErr, OnOk, map};
ghost use Rattle.asm_expr.specs.Forms.{Form};
ghost use Rattle.asm_frags.specs.Substituting.{substituted_field};
ghost use Rattle.asm_base.specs.declared.refusals.Refusal.TheVariants.{NoMemory};

use crate::faults::FragFault;
use crate::fields::Field;
use asm_expr::Linear;

/// A substitution of forms.
pub trait Substitution {
    /// The form that replaces a form.
    ghost substitute: { Self → Form → Form };

    /// Puts the form that replaces this one in its place. After an `Err` the form is only dropped.
    fn substitute(&self, form: &mut Linear) -> Result<(), FragFault>
        ensures ok { OnOk result (form.new ≡ substitute self.now form.old) }
        ensures memory { IfErr result (λ fault. fault ≡ NoMemory) };
}

/// Substitutes the form of the field.
fn substitute_field<R: Substitution>(field: &mut Field, substitution: &R) -> Result<(), FragFault>
    ensures ok { OnOk result (
        field.new ≡ substituted_field (R.substitute substitution.now) field.old) }
    ensures memory { IfErr result (λ fault. fault ≡ NoMemory) }
{
    substitution.substitute(&mut field.form)
}

/// Substitutes the form of each field.
pub(crate) fn substitute_fields<R: Substitution>(
    fields: &mut [Field],
    substitution: &R,
) -> Result<(), FragFault>
    ensures ok { OnOk result (
        fields.new ≡ map (substituted_field (R.substitute substitution.now)) fields.old) }
    ensures memory { IfErr result (λ fault. fault ≡ NoMemory) }
{
    for field in fields.iter_mut() {
        substitute_field(field, substitution)?;
    }
    Ok(())
}
