//! Calls that load a model, and calls on its points where no variable has a value.

ghost use Rattle.std.specs.Prelude.{◌<◌, length};
ghost use Rattle.fz_model.specs.Meaning.{IsPartial, points};

use crate::outside::{file, tell, tell_all, tell_error};
use crate::reading;
use fz_base::Value;
use fz_model::{
    Found, LoadError, Model, ModelError, Partial, Scalar, Term, What, forced, load, load_text,
    state,
};
use fz_syntax::{Ast, Limits, parse};

/// Makes a call on a model.
pub fn make_call(rt: &HostRuntime, call: &str, operands: &[String]) -> Option<()> {
    let source = file(rt, operands, 0)?;
    if call == "load_text" {
        tell_loaded_text(rt, &source);
        return Some(());
    }
    match parse(rt.alloc(), &source) {
        Ok(tree) => call_on_tree(rt, call, &tree),
        Err(_) => None,
    }
}

fn call_on_tree(rt: &HostRuntime, call: &str, tree: &Ast<'_>) -> Option<()> {
    if call == "load" {
        tell_loaded(rt, tree);
        return Some(());
    }
    match load(rt.alloc(), tree) {
        Ok(model) => call_on_model(rt, call, &model),
        Err(_) => None,
    }
}

fn call_on_model(rt: &HostRuntime, call: &str, model: &Model<'_>) -> Option<()> {
    if call == "new_partial" {
        tell_new_partial(rt, model);
        return Some(());
    }
    match Partial::new(rt.alloc(), model) {
        Ok(partial) => {
            call_on_nothing(rt, call, model, partial);
            Some(())
        }
        Err(_) => None,
    }
}

fn tell_model(rt: &HostRuntime, model: &Model<'_>) {
    tell_all(rt, model.variables());
    tell_all(rt, model.constraints().posted);
    tell(rt, model.goal());
    tell(rt, &model.points());
}

fn load_lacks_memory(rt: &HostRuntime, tree: &Ast<'_>) -> bool {
    match load(rt.alloc(), tree) {
        Ok(model) => {
            tell_model(rt, &model);
            false
        }
        Err(error) => is_memory(rt, error),
    }
}

fn is_memory(rt: &HostRuntime, error: ModelError) -> bool {
    tell_error(rt, &error);
    matches!(error, ModelError::Memory)
}

fn load_text_lacks_memory(rt: &HostRuntime, source: &[u8]) -> bool {
    match load_text(rt.alloc(), source, Limits::STANDARD) {
        Ok(model) => {
            tell_model(rt, &model);
            false
        }
        Err(LoadError::Text(error)) => reading::is_memory(rt, error),
        Err(LoadError::Names(error)) => is_memory(rt, error),
    }
}

fn tell_loaded_text(rt: &HostRuntime, source: &[u8]) {
    for _ in 0..2 {
        if !load_text_lacks_memory(rt, source) {
            break;
        }
    }
}

fn tell_loaded(rt: &HostRuntime, tree: &Ast<'_>) {
    for _ in 0..2 {
        if !load_lacks_memory(rt, tree) {
            break;
        }
    }
}

fn has_room(rt: &HostRuntime, model: &Model<'_>) -> bool {
    match Partial::new(rt.alloc(), model) {
        Ok(partial) => {
            tell(rt, &partial.values());
            true
        }
        Err(error) => {
            tell_error(rt, &error);
            false
        }
    }
}

fn tell_new_partial(rt: &HostRuntime, model: &Model<'_>) {
    for _ in 0..2 {
        if has_room(rt, model) {
            break;
        }
    }
}

/// Makes a call on a model and a partial assignment without values.
fn call_on_nothing(rt: &HostRuntime, call: &str, model: &Model<'_>, mut partial: Partial)
    requires fits { IsPartial model.now partial }
{
    if call == "ask" {
        ask(rt, model, &mut partial);
    } else {
        tell_points(rt, model, &partial);
    }
}

/// Prints what a name stands for: the number of a variable, or the kind and the length of an array.
fn tell_found(rt: &HostRuntime, found: Option<Found<'_, '_>>) {
    let Some(found) = found else {
        tell(rt, &"nothing");
        return;
    };
    match found.what {
        What::Scalar(Scalar::Variable(number)) => tell(rt, &number),
        What::Scalar(_) => tell(rt, &"a constant"),
        What::Array(kind, elements) => tell(rt, &(kind, elements.len())),
    }
}

/// Prints the answers of the calls that look up the first variable.
fn tell_first(rt: &HostRuntime, partial: &Partial) {
    let read = (partial.number(0), partial.truth(0));
    tell(rt, &(partial.unset(), partial.has(0), read));
    tell(rt, &(partial.get(0), partial.value(&Term::Var(0))));
}

/// Prints the answers of the calls that look something up in a model or a partial assignment. The
/// first variable is given a value and loses it again.
fn ask(rt: &HostRuntime, model: &Model<'_>, partial: &mut Partial) {
    tell_model(rt, model);
    for variable in model.variables() {
        tell_found(rt, model.find(variable.name));
    }
    for array in model.constraints().arrays {
        tell_found(rt, model.find(array.name));
    }
    tell_found(rt, model.find(b"no such"));
    for number in 0..model.points() {
        let point = model.point(number);
        tell(rt, &point);
    }
    tell_first(rt, partial);
    if !partial.values().is_empty() && partial.get(0).is_none() {
        partial.set(0, Value::Int(4));
    }
    tell_first(rt, partial);
    partial.clear();
    tell_first(rt, partial);
}

fn tell_state(rt: &HostRuntime, model: &Model<'_>, number: usize, partial: &Partial)
    requires in_range { number < length (points model.now) }
{
    for _ in 0..2 {
        let found = state(rt.alloc(), model, number, partial);
        tell(rt, &found);
        if found.is_ok() {
            break;
        }
    }
}

fn tell_step(rt: &HostRuntime, model: &Model<'_>, number: usize, partial: &Partial)
    requires in_range { number < length (points model.now) }
    requires fits { IsPartial model.now partial.now }
{
    for _ in 0..2 {
        let step = forced(rt.alloc(), model, number, partial);
        tell(rt, &step);
        if step.is_ok() {
            break;
        }
    }
}

/// Prints each point, its state and the step that it forces.
pub fn tell_points(rt: &HostRuntime, model: &Model<'_>, partial: &Partial)
    requires fits { IsPartial model.now partial.now }
{
    for number in 0..model.points() {
        tell(rt, &model.point(number));
        tell_state(rt, model, number, partial);
        tell_step(rt, model, number, partial);
    }
}
