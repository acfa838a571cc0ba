// What is known of values before a program runs.
ghost use Rattle.std.specs.Prelude.{◌≡◌, IfErr, IfOk, map};
ghost use Rattle.fut_meaning.specs.Knowns.{Data, all_data, is_data};
ghost use Rattle.unfold_measure.specs.Held.{known_of, knowns};
ghost use Rattle.unfold_measure.specs.declared.stop.Stop.TheVariants as stop;

use crate::stop::Stop;
use bumpalo::Bump;
use fut_flat::{Exp, Pat, Primitive};
use fut_scalar::BindId;

/// What is known of a value. It is one reference, so it is handed on at little cost.
#[cycle(known)]
#[derive(Clone, Copy)]
pub struct Known<'a> {
    pub form: &'a KnownForm<'a>,
}

#[cycle(known)]
#[derive(Clone, Copy)]
pub enum KnownForm<'a> {
    Data,
    /// A tuple that holds a function.
    Tuple(&'a [Known<'a>]),
    /// A record that holds a function: its names as they are written, and what is known of each part.
    Record(&'a [&'a str], &'a [Known<'a>]),
    Function(&'a Closure<'a>),
    /// A primitive and the arguments that it has.
    Primitive(Primitive, &'a [Known<'a>]),
}

/// A function: parameters, body, and the names that it captured.
#[cycle(known)]
#[derive(Clone, Copy)]
pub struct Closure<'a> {
    pub params: &'a [Pat<'a>],
    pub body: &'a Exp<'a>,
    pub scope: &'a Scope<'a>,
}

/// Local names with what is known of them, as a digital search tree: below a name stand first those whose number goes on with
/// a zero, by its binary digits from the last one on, and then those that go on with a one.
#[cycle(known)]
#[derive(Clone, Copy)]
pub enum Scope<'a> {
    Empty,
    Bind(BindId, Known<'a>, &'a Scope<'a>, &'a Scope<'a>),
}

static DATA: KnownForm<'static> = KnownForm::Data;

/// What is known of data.
pub fn known_data<'a>() -> Known<'a>
    ensures { known_of result ≡ Data }
{
    Known { form: &DATA }
}

/// What has this form, in the arena.
pub fn held<'a>(bump: &'a Bump, form: KnownForm<'a>) -> Result<Known<'a>, Stop>
    ensures ok { IfOk result (λ known. known.form.now ≡ form.entry) }
    ensures err { IfErr result (λ e. e ≡ stop.Memory) }
{
    match bump.try_alloc(form) {
        Ok(form) => Ok(Known { form }),
        Err(_) => Err(Stop::Memory),
    }
}

/// Whether a value is data: no function, and nothing that holds one.
pub fn is_data(known: Known<'_>) -> bool
    ensures { result ≡ is_data (known_of known.entry) }
{
    match *known.form {
        KnownForm::Data => true,
        _ => false,
    }
}

/// Whether each of several values is data.
pub fn all_data(parts: &[Known<'_>]) -> bool
    ensures { result ≡ all_data (knowns (map known_of parts.now)) }
{
    for known in parts {
        if is_data(*known) {
            continue;
        }
        return false;
    }
    true
}
