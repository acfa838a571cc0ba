// The nodes of expressions.
ghost use Rattle.std.specs.Prelude.{◌≡◌, IfOk, [], ◌∷◌, None};
ghost use Rattle.fut_ast.specs.Nodes.{bound, exp_at, let_one, node, round_exp_of, use_of};
ghost use Rattle.fut_ast.specs.Sorts.{SourceExp};
ghost use Rattle.fut_ast.specs.declared.exp.Form.TheVariants as form;
ghost use Rattle.fut_tree.specs.Exps.{bind_of, binds_of, exp_fields, ixs_of};
ghost use Rattle.fut_tree.specs.Names.{all, maybe, names};

use bumpalo::Bump;
use fut_ast::{End, Oper};
use fut_scalar::{IntType, NoMemory, Place};
use fut_tree::{Bind, Exp, ExpField, Form, Held, Ix, Pat, TypeExp};
use parse_types::pat_nodes;

/// An expression that the arena holds. A form is handed over inside its expression alone: by itself it is dear to prove.
pub fn held<'a>(bump: &'a Bump, e: Exp<'a>) -> Result<&'a Exp<'a>, NoMemory>
    ensures { IfOk result (λ x. x.now ≡ e.entry) }
{
    match bump.try_alloc(e) {
        Ok(made) => Ok(made),
        Err(_) => Err(NoMemory),
    }
}

// ---- of one token or in brackets

/// A path of names.
pub fn path<'a>(bump: &'a Bump, place: Place, path: &'a [&'a str]) -> Result<&'a Exp<'a>, NoMemory>
    ensures { IfOk result (λ e. e.now ≡ exp_at place (form.Path (names path.now))) }
{
    held(
        bump,
        Exp {
            place,
            mark: place,
            form: Form::Path(path),
        },
    )
}

/// An integer.
pub fn integer<'a>(
    bump: &'a Bump,
    place: Place,
    value: u64,
    ty: Option<IntType>,
) -> Result<&'a Exp<'a>, NoMemory>
    ensures { IfOk result (λ e. e.now ≡ exp_at place (form.Int value ty)) }
{
    held(
        bump,
        Exp {
            place,
            mark: place,
            form: Form::Int { value, ty },
        },
    )
}

/// `true` or `false`
pub fn truth<'a>(bump: &'a Bump, place: Place, value: bool) -> Result<&'a Exp<'a>, NoMemory>
    ensures { IfOk result (λ e. e.now ≡ exp_at place (form.Bool value)) }
{
    held(
        bump,
        Exp {
            place,
            mark: place,
            form: Form::Bool(value),
        },
    )
}

/// `()`
pub fn unit<'a>(bump: &'a Bump, place: Place) -> Result<&'a Exp<'a>, NoMemory>
    ensures { IfOk result (λ e. e.now ≡ exp_at place form.Unit) }
{
    held(
        bump,
        Exp {
            place,
            mark: place,
            form: Form::Unit,
        },
    )
}

/// Expressions in parentheses: one alone is that expression.
pub fn round<'a>(
    bump: &'a Bump,
    place: Place,
    expressions: &'a [Held<'a, Exp<'a>>],
) -> Result<&'a Exp<'a>, NoMemory>
    ensures { IfOk result (λ e. e.now ≡ round_exp_of place (all expressions.now)) }
{
    match expressions {
        [] => unit(bump, place),
        [only] => Ok(only.at),
        [_, _, ..] => held(
            bump,
            Exp {
                place,
                mark: place,
                form: Form::Tuple(expressions),
            },
        ),
    }
}

/// The elements of an array.
pub fn array<'a>(
    bump: &'a Bump,
    place: Place,
    elements: &'a [Held<'a, Exp<'a>>],
) -> Result<&'a Exp<'a>, NoMemory>
    ensures { IfOk result (λ e. e.now ≡ exp_at place (form.Array (all elements.now))) }
{
    held(
        bump,
        Exp {
            place,
            mark: place,
            form: Form::Array(elements),
        },
    )
}

/// The fields of a record.
pub fn record<'a>(
    bump: &'a Bump,
    place: Place,
    fields: &'a [ExpField<'a>],
) -> Result<&'a Exp<'a>, NoMemory>
    ensures { IfOk result (λ e. e.now ≡ exp_at place (form.Record (exp_fields fields.now))) }
{
    held(
        bump,
        Exp {
            place,
            mark: place,
            form: Form::Record(fields),
        },
    )
}

/// A use of a name.
pub fn name_used<'a>(bump: &'a Bump, place: Place, name: &'a str) -> Result<&'a Exp<'a>, NoMemory>
    ensures { IfOk result (λ e. e.now ≡ use_of place name.now) }
{
    match bump.try_alloc_slice_copy(&[name]) {
        Ok(names) => path(bump, place, names),
        Err(_) => Err(NoMemory),
    }
}

// ---- rows of lets, functions and calls

/// A `let` of one name.
pub fn name_let<'a>(
    bump: &'a Bump,
    place: Place,
    name: &'a str,
    value: &'a Exp<'a>,
) -> Result<Bind<'a>, NoMemory>
    ensures { IfOk result (λ b. bind_of b ≡ let_one (bound place name.now) value.now) }
{
    match pat_nodes::name(bump, place, name) {
        Ok(pat) => Ok(Bind {
            sizes: &[],
            pat,
            is_function: false,
            heads: &[],
            value,
        }),
        Err(none) => Err(none),
    }
}

/// A `let` of one name before a body, if there was memory for the body.
pub fn let_name<'a>(
    bump: &'a Bump,
    from: Place,
    mark: Place,
    name: &'a str,
    value: &'a Exp<'a>,
    body: Result<&'a Exp<'a>, NoMemory>,
) -> Result<&'a Exp<'a>, NoMemory>
    ensures { (b : SourceExp) → IfOk body.entry (λ x. x.now ≡ b) → IfOk result (λ e. e.now ≡ node from mark (form.Lets (let_one (bound mark name.now) value.now ∷ []) b)) }
{
    match body {
        Ok(body) => match name_let(bump, mark, name, value) {
            Ok(bind) => match bump.try_alloc_slice_copy(&[bind]) {
                Ok(row) => lets(bump, from, mark, row, body),
                Err(_) => Err(NoMemory),
            },
            Err(none) => Err(none),
        },
        Err(none) => Err(none),
    }
}

/// A row of `let`s before a body.
pub fn lets<'a>(
    bump: &'a Bump,
    place: Place,
    mark: Place,
    row: &'a [Bind<'a>],
    body: &'a Exp<'a>,
) -> Result<&'a Exp<'a>, NoMemory>
    ensures { IfOk result (λ e. e.now ≡ node place mark (form.Lets (binds_of row.now) body.now)) }
{
    held(
        bump,
        Exp {
            place,
            mark,
            form: Form::Lets(row, body),
        },
    )
}

/// A function with a type behind its parameters, or none.
pub fn function<'a>(
    bump: &'a Bump,
    place: Place,
    params: &'a [Held<'a, Pat<'a>>],
    ty: Option<&'a TypeExp<'a>>,
    body: &'a Exp<'a>,
) -> Result<&'a Exp<'a>, NoMemory>
    ensures { IfOk result (λ e. e.now ≡ exp_at place (form.Lambda (all params.now) (maybe ty.entry) body.now)) }
{
    held(
        bump,
        Exp {
            place,
            mark: place,
            form: Form::Lambda(params, ty, body),
        },
    )
}

/// A function of one name, if there was memory for its body.
pub fn function_of_name<'a>(
    bump: &'a Bump,
    place: Place,
    at: Place,
    name: &'a str,
    body: Result<&'a Exp<'a>, NoMemory>,
) -> Result<&'a Exp<'a>, NoMemory>
    ensures { (b : SourceExp) → IfOk body.entry (λ x. x.now ≡ b) → IfOk result (λ e. e.now ≡ exp_at place (form.Lambda (bound at name.now ∷ []) None b)) }
{
    match body {
        Ok(body) => match pat_nodes::name(bump, at, name) {
            Ok(param) => match bump.try_alloc_slice_copy(&[Held { at: param }]) {
                Ok(params) => function(bump, place, params, None, body),
                Err(_) => Err(NoMemory),
            },
            Err(none) => Err(none),
        },
        Err(none) => Err(none),
    }
}

/// A function and its argument.
pub fn call<'a>(
    bump: &'a Bump,
    place: Place,
    mark: Place,
    callee: &'a Exp<'a>,
    argument: &'a Exp<'a>,
) -> Result<&'a Exp<'a>, NoMemory>
    ensures { IfOk result (λ e. e.now ≡ node place mark (form.Apply callee.now argument.now)) }
{
    held(
        bump,
        Exp {
            place,
            mark,
            form: Form::Apply(callee, argument),
        },
    )
}

// ---- forms that begin with a keyword or an operator

/// `if`
pub fn choice<'a>(
    bump: &'a Bump,
    place: Place,
    mark: Place,
    test: &'a Exp<'a>,
    yes: &'a Exp<'a>,
    no: &'a Exp<'a>,
) -> Result<&'a Exp<'a>, NoMemory>
    ensures { IfOk result (λ e. e.now ≡ node place mark (form.If test.now yes.now no.now)) }
{
    held(
        bump,
        Exp {
            place,
            mark,
            form: Form::If(test, yes, no),
        },
    )
}

/// An operator before its operand.
pub fn unary<'a>(
    bump: &'a Bump,
    place: Place,
    operator: Oper,
    operand: &'a Exp<'a>,
) -> Result<&'a Exp<'a>, NoMemory>
    ensures { IfOk result (λ e. e.now ≡ exp_at place (form.Unary operator operand.now)) }
{
    held(
        bump,
        Exp {
            place,
            mark: place,
            form: Form::Unary(operator, operand),
        },
    )
}

/// `assert`
pub fn assertion<'a>(
    bump: &'a Bump,
    place: Place,
    test: &'a Exp<'a>,
    value: &'a Exp<'a>,
) -> Result<&'a Exp<'a>, NoMemory>
    ensures { IfOk result (λ e. e.now ≡ exp_at place (form.Assert test.now value.now)) }
{
    held(
        bump,
        Exp {
            place,
            mark: place,
            form: Form::Assert(test, value),
        },
    )
}

// ---- what stands behind an expression

/// An element of an array.
pub fn index<'a>(
    bump: &'a Bump,
    place: Place,
    mark: Place,
    array: &'a Exp<'a>,
    parts: &'a [Ix<'a>],
) -> Result<&'a Exp<'a>, NoMemory>
    ensures { IfOk result (λ e. e.now ≡ node place mark (form.Index array.now (ixs_of parts.now))) }
{
    held(
        bump,
        Exp {
            place,
            mark,
            form: Form::Index(array, parts),
        },
    )
}

/// A field of a record.
pub fn field<'a>(
    bump: &'a Bump,
    place: Place,
    holder: &'a Exp<'a>,
    name: &'a str,
) -> Result<&'a Exp<'a>, NoMemory>
    ensures { IfOk result (λ e. e.now ≡ exp_at place (form.Field holder.now name.now)) }
{
    held(
        bump,
        Exp {
            place,
            mark: place,
            form: Form::Field(holder, name),
        },
    )
}

/// A range, of its first value, its second where one is told, and its end.
pub fn range<'a>(
    bump: &'a Bump,
    place: Place,
    mark: Place,
    from: &'a Exp<'a>,
    next: Option<&'a Exp<'a>>,
    end: End,
    to: &'a Exp<'a>,
) -> Result<&'a Exp<'a>, NoMemory>
    ensures { IfOk result (λ e. e.now ≡ node place mark (form.Range from.now (maybe next.entry) end to.now)) }
{
    held(
        bump,
        Exp {
            place,
            mark,
            form: Form::Range {
                from,
                next,
                end,
                to,
            },
        },
    )
}

/// An array with another element.
pub fn updated<'a>(
    bump: &'a Bump,
    place: Place,
    mark: Place,
    array: &'a Exp<'a>,
    indices: &'a [Held<'a, Exp<'a>>],
    value: &'a Exp<'a>,
) -> Result<&'a Exp<'a>, NoMemory>
    ensures { IfOk result (λ e. e.now ≡ node place mark (form.Update array.now (all indices.now) value.now)) }
{
    held(
        bump,
        Exp {
            place,
            mark,
            form: Form::Update(array, indices, value),
        },
    )
}

/// An expression and its type.
pub fn ascribed<'a>(
    bump: &'a Bump,
    place: Place,
    e: &'a Exp<'a>,
    ty: &'a TypeExp<'a>,
) -> Result<&'a Exp<'a>, NoMemory>
    ensures { IfOk result (λ t. t.now ≡ exp_at place (form.Ascribe e.now ty.now)) }
{
    held(
        bump,
        Exp {
            place,
            mark: place,
            form: Form::Ascribe(e, ty),
        },
    )
}

/// An expression and the type that it is given.
pub fn coerced<'a>(
    bump: &'a Bump,
    place: Place,
    mark: Place,
    e: &'a Exp<'a>,
    ty: &'a TypeExp<'a>,
) -> Result<&'a Exp<'a>, NoMemory>
    ensures { IfOk result (λ t. t.now ≡ node place mark (form.Coerce e.now ty.now)) }
{
    held(
        bump,
        Exp {
            place,
            mark,
            form: Form::Coerce(e, ty),
        },
    )
}
