// Flat programs as text: the definitions of files behind the prelude.
use crate::flat::expressions::show_exp;
use crate::flat::patterns::show_heads;
use crate::flat::refs::show_bind;
use crate::line::{Before, Shown};
use fut_flat::{Definition, Flat};

fn show_definition<'a>(definition: &Definition<'a>, names: &[&str], shown: &mut Shown) {
    shown.push(if definition.is_entry {
        " (entry "
    } else {
        " (def "
    });
    show_bind(definition.bind, names, shown);
    show_heads(definition.heads, names, shown);
    show_exp(definition.value, Before::Equals, names, shown);
    shown.close();
}

/// The definitions of all files but the prelude, each behind a blank. What is shown is compared with rows of data, so no
/// clause says it.
pub fn show_flat(flat: &Flat<'_>, shown: &mut Shown) {
    for definition in flat.definitions {
        if definition.file > 0 {
            show_definition(definition, flat.names, shown);
        }
    }
}
