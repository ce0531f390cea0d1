//! Correspondences by the declared types of their constants.
ghost use Rattle.std.specs.Prelude.{◌≡◌, option_map, IfOk};
ghost use Rattle.lt_transport_definitions.specs.Forms.{correspondence_form, declared_correspondence};
ghost use Rattle.lt_relations.specs.Told.{correspondence_told};
ghost use Rattle.lt_relations.specs.Registering.{Registers};
ghost use Rattle.lt_relations.specs.Reading.{corr_fault, with_declared, correspondence_over, is_over, may_have};

use crate::entries::Correspondence;
use crate::rel_fault::RelFault;
use crate::relations::Relations;
use lt_forms::{are_among, are_distinct, constructor_of, relation_sides, type_names};
use lt_hol::{Memory, Name, Names, RelatorPart, Signature, TryCopy, Ty, variables};
use std::alloc::Global;

impl Relations {
    /// Registers the correspondence that a constant is by its declared type: `raw ~ q 'b1 .. 'bn`
    /// over distinct type variables, `q` not `fun`, in which all variables of `raw` are.
    ///
    /// `RelatorShape(Corr)` where the constant isn't declared or its type hasn't this form, then
    /// `Duplicate` where the name is a relation constructor already. It takes time linear in the
    /// type, where a look-up counts as one.
    pub fn register_corr(
        &mut self,
        alloc: Global,
        sig: &Signature,
        name: &Name,
    ) -> Result<(), RelFault>
        ensures { Registers (corr_fault (declared_correspondence sig.now name.now) self.old)
            self.old self.new (with_declared (declared_correspondence sig.now name.now) self.old)
            result }
    {
        match declared_correspondence(alloc, sig, name)? {
            Some(corr) => self.add_corr(alloc, corr),
            None => Err(RelFault::RelatorShape(RelatorPart::Corr)),
        }
    }
}

/// The correspondence that a constant is by its declared type; None where it is none.
pub(crate) fn declared_correspondence(
    alloc: Global,
    sig: &Signature,
    name: &Name,
) -> Result<Option<Correspondence>, Memory>
    ensures { IfOk result (λ o. option_map correspondence_told o
        ≡ declared_correspondence sig.now name.now) }
{
    match sig.const_type(name) {
        Some(ty) => Ok(correspondence_form(alloc, name, ty)?),
        None => Ok(None),
    }
}

/// The correspondence that a constant of a type is; None where the type hasn't the form.
fn correspondence_form(
    alloc: Global,
    name: &Name,
    ty: &Ty,
) -> Result<Option<Correspondence>, Memory>
    ensures { IfOk result (λ o. option_map correspondence_told o
        ≡ correspondence_form name.now ty.now) }
{
    match relation_sides(alloc, ty)? {
        Some((raw, over)) => Ok(correspondence_over(alloc, name, raw, over)?),
        None => Ok(None),
    }
}

/// The correspondence that a constant is which relates these types; None where these haven't the
/// form.
fn correspondence_over(
    alloc: Global,
    name: &Name,
    raw: Ty,
    over: Ty,
) -> Result<Option<Correspondence>, Memory>
    ensures { IfOk result (λ o. option_map correspondence_told o
        ≡ correspondence_over name.now (raw, over)) }
{
    let Some(con) = constructor_of(&over) else {
        return Ok(None);
    };
    let parameters = type_names(alloc, &over)?;
    let formed = may_have(alloc, &raw, &over, con, &parameters)?;
    if !formed {
        return Ok(None);
    }
    Ok(Some(correspondence_of(alloc, name, raw, con, parameters)?))
}

/// The correspondence of these parts.
fn correspondence_of(
    alloc: Global,
    name: &Name,
    raw: Ty,
    con: &Name,
    parameters: Names,
) -> Result<Correspondence, Memory>
    ensures { IfOk result (λ d. correspondence_told d
        ≡ record { name = name.now; raw = raw; con = con.now; parameters = parameters }) }
{
    Ok(Correspondence {
        name: name.copy(alloc)?,
        raw,
        con: con.copy(alloc)?,
        parameters,
    })
}

/// Whether a correspondence may relate these types, where the constructor and the variables of the
/// second are told.
fn may_have(
    alloc: Global,
    raw: &Ty,
    over: &Ty,
    con: &Name,
    parameters: &Names,
) -> Result<bool, Memory>
    ensures { IfOk result (λ b. b ≡ may_have raw.now over.now con.now parameters.now) }
{
    let plain = is_over(alloc, over, con, parameters)?;
    let among = are_among(
        alloc,
        type_names(alloc, raw)?.as_slice(),
        parameters.as_slice(),
    )?;
    let function = con.is_word("fun");
    Ok(plain && !function && among)
}

/// Whether a type is the constructor over these variables, of which none stands twice.
fn is_over(alloc: Global, ty: &Ty, con: &Name, parameters: &Names) -> Result<bool, Memory>
    ensures { IfOk result (λ b. b ≡ is_over ty.now con.now parameters.now) }
{
    let args = variables(alloc, parameters.as_slice())?;
    let plain = Ty::con(alloc, con.copy(alloc)?, args)?;
    let distinct = are_distinct(alloc, parameters.as_slice())?;
    Ok(*ty == plain && distinct)
}
