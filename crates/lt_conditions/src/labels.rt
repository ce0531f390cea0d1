//! The labels of the statements that definitions and typedefs add.
ghost use Rattle.std.specs.Prelude.{◌≡◌, ◌++◌, true, IfOk};
ghost use Rattle.std.specs.List.{list_all};
ghost use Rattle.std.specs.Str.{chars};
ghost use Rattle.unicode_ident.specs.Ident.{is_xid_continue};
ghost use Rattle.lt_definitions.specs.Items.{definition_label, rep_label, rep_inverse_label, abs_inverse_label};

use lt_hol::{Memory, Name};
use std::alloc::Global;

/// The label of a definition's statement.
pub fn definition_label(alloc: Global, name: &Name) -> Result<Name, Memory>
    ensures { IfOk result (λ l. l ≡ definition_label name.now) }
{
    with_ending(alloc, name, "_def")
}

/// The label of a typedef's first statement.
pub fn rep_label(alloc: Global, name: &Name) -> Result<Name, Memory>
    ensures { IfOk result (λ l. l ≡ rep_label name.now) }
{
    with_ending(alloc, name, "_rep")
}

/// The label of its second statement.
pub fn rep_inverse_label(alloc: Global, name: &Name) -> Result<Name, Memory>
    ensures { IfOk result (λ l. l ≡ rep_inverse_label name.now) }
{
    with_ending(alloc, name, "_rep_inverse")
}

/// The label of its third statement.
pub fn abs_inverse_label(alloc: Global, name: &Name) -> Result<Name, Memory>
    ensures { IfOk result (λ l. l ≡ abs_inverse_label name.now) }
{
    with_ending(alloc, name, "_abs_inverse")
}

/// The name with an ending, all characters of which may go on a name.
fn with_ending(alloc: Global, name: &Name, ending: &str) -> Result<Name, Memory>
    requires { list_all is_xid_continue (chars ending.now) ≡ true }
    ensures { IfOk result (λ l. l ≡ name.now ++ chars ending.now) }
{
    let mut label = String::from_str(alloc, name.text())?;
    label.push_str(ending)?;
    Ok(Name::word(alloc, label.as_str())?)
}
