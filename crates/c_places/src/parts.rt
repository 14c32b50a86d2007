// Parts of what stands in memory.
ghost use Rattle.std.specs.Prelude.{◌≡◌};
ghost use Rattle.c_types.specs.declared.tree.COp.TheVariants as op;
ghost use Rattle.c_types.specs.Forms as forms;
ghost use Rattle.c_typing.specs.Types.{CType};
ghost use Rattle.c_typing.specs.Judgements.{means};
ghost use Rattle.c_typing.specs.Expressions.{expression};
ghost use Rattle.c_type_ids.specs.Ids.{Known, Names};
ghost use Rattle.c_constants.specs.Constants.{constant_of};
ghost use Rattle.c_values.specs.Typings.{form_of};
ghost use Rattle.c_places.specs.Places.{IsAnswer};

use c_answers::Refusal;
use c_constants::Constant;
use c_types::{COp, Expr, TypeId};
use c_values::{Form, Type, Typing, binary};
use std::alloc::Global;

/// What has this type, behind an address.
pub fn part(
    alloc: Global,
    id: TypeId,
    form: Form,
    base: Expr,
    offset: Expr,
    constant: Constant,
) -> Result<Typing, Refusal>
    ensures { (k : Known) (t : CType) → Names k id t →
        IsAnswer k result (means (expression (record { type = t; form = form_of form; code = forms.binary op.AddU base offset; constant = constant_of constant }))) }
{
    let code = binary(alloc, COp::AddU, base, offset)?;
    Ok(Typing {
        kind: Type::Known(id),
        form,
        constant,
        code,
    })
}
