//! Copies of the forms and processes of a program.

ghost use Rattle.std.specs.Prelude.{◌≡◌, IfOk};

use mp_base::{List, Name};
use mp_program::{Branch, Form, FormKind, Label, Pin, Process};
use std::alloc::{AllocError, Global};

pub fn name(alloc: Global, name: &Name) -> Result<Name, AllocError>
    ensures { IfOk result (λ copy. copy ≡ name.now) }
{
    Name::from_slice(alloc, name.bytes())
}

pub fn indices(alloc: Global, list: &List<u32>) -> Result<List<u32>, AllocError>
    ensures { IfOk result (λ copy. copy ≡ list.now) }
{
    Ok(List::from_vec(Vec::from_slice(alloc, list.as_slice())?))
}

pub fn pins(alloc: Global, list: &List<Pin>) -> Result<List<Pin>, AllocError>
    ensures { IfOk result (λ copy. copy ≡ list.now) }
{
    Ok(List::from_vec(Vec::from_slice(alloc, list.as_slice())?))
}

fn branch(alloc: Global, branch: &Branch) -> Result<Branch, AllocError>
    ensures { IfOk result (λ copy. copy ≡ branch.now) }
{
    Ok(Branch {
        guard: branch.guard,
        body: indices(alloc, &branch.body)?,
    })
}

fn branches(alloc: Global, list: &List<Branch>) -> Result<List<Branch>, AllocError>
    ensures { IfOk result (λ copy. copy ≡ list.now) }
{
    let mut copy = List::new(alloc);
    for item in list.as_slice() {
        copy.push(branch(alloc, item)?)?;
    }
    Ok(copy)
}

fn form_kind(alloc: Global, kind: &FormKind) -> Result<FormKind, AllocError>
    ensures { IfOk result (λ copy. copy ≡ kind.now) }
{
    match kind {
        FormKind::Set { target, at, value } => Ok(FormKind::Set {
            target: name(alloc, target)?,
            at: *at,
            value: *value,
        }),
        FormKind::Cond(list) => Ok(FormKind::Cond(branches(alloc, list)?)),
        FormKind::Par(list) => Ok(FormKind::Par(indices(alloc, list)?)),
        FormKind::Go(label) => Ok(FormKind::Go(name(alloc, label)?)),
        FormKind::Call(label) => Ok(FormKind::Call(name(alloc, label)?)),
        FormKind::Return => Ok(FormKind::Return),
    }
}

fn form(alloc: Global, form: &Form) -> Result<Form, AllocError>
    ensures { IfOk result (λ copy. copy ≡ form.now) }
{
    Ok(Form {
        place: form.place,
        kind: form_kind(alloc, &form.kind)?,
    })
}

pub fn forms(alloc: Global, list: &List<Form>) -> Result<List<Form>, AllocError>
    ensures { IfOk result (λ copy. copy ≡ list.now) }
{
    let mut copy = List::new(alloc);
    for item in list.as_slice() {
        copy.push(form(alloc, item)?)?;
    }
    Ok(copy)
}

fn label(alloc: Global, label: &Label) -> Result<Label, AllocError>
    ensures { IfOk result (λ copy. copy ≡ label.now) }
{
    Ok(Label {
        place: label.place,
        name: name(alloc, &label.name)?,
        before: label.before,
    })
}

fn labels(alloc: Global, list: &List<Label>) -> Result<List<Label>, AllocError>
    ensures { IfOk result (λ copy. copy ≡ list.now) }
{
    let mut copy = List::new(alloc);
    for item in list.as_slice() {
        copy.push(label(alloc, item)?)?;
    }
    Ok(copy)
}

fn process(alloc: Global, process: &Process) -> Result<Process, AllocError>
    ensures { IfOk result (λ copy. copy ≡ process.now) }
{
    let name = name(alloc, &process.name)?;
    let labels = labels(alloc, &process.labels)?;
    Ok(Process {
        place: process.place,
        name,
        depth: process.depth,
        depth_at: process.depth_at,
        labels,
        forms: indices(alloc, &process.forms)?,
    })
}

pub fn processes(alloc: Global, list: &List<Process>) -> Result<List<Process>, AllocError>
    ensures { IfOk result (λ copy. copy ≡ list.now) }
{
    let mut copy = List::new(alloc);
    for item in list.as_slice() {
        copy.push(process(alloc, item)?)?;
    }
    Ok(copy)
}
