//! What the names of a program mean, found once.

ghost use Rattle.std.specs.Prelude.{◌≡◌, ◌<◌, ◌≤◌, [], false, length, map, position, slice_index, slice_index_or};
ghost use Rattle.std.specs.Prelude.{IfOk, IfSome};
ghost use Rattle.std.specs.List.{list_any};
ghost use Rattle.mp_program.specs.declared.program.Def.{Def};
ghost use Rattle.mp_program.specs.declared.program.Expr.{Expr};
ghost use Rattle.mp_program.specs.declared.program.Form.{Form};
ghost use Rattle.mp_program.specs.Names.{index_of, is_reset, pad_number};
ghost use Rattle.mp_program.specs.Sound.{AllBetween, BranchesFit};
ghost use Rattle.mp_program.specs.Reads.{sets, branches_set};
ghost use Rattle.form_effects.specs.Linked.{AreLinks, AreQuiet, AllQuiet, named, target, setters_of, reset_pad};
ghost use Rattle.form_effects.specs.Linked.{is_kind, indices_where};

use crate::landing::landings;
use crate::link::{Kind, Links};
use mp_base::List;
use mp_program::{Branch, Def, ExprKind, FormKind, Program, laws};
use std::alloc::{AllocError, Global};

/// The index of the first definition of a name, or the number of definitions where there is none.
fn index_of(defs: &[Def], name: &[u8]) -> usize
    ensures { result ≡ index_of defs.now name.now }
{
    for (i, def) in defs.iter().enumerate() {
        if def.name.bytes() == name {
            return i;
        }
    }
    defs.len()
}

fn named(defs: &[Def], kind: &ExprKind) -> usize
    ensures { result ≡ named defs.now kind.now }
{
    match kind {
        ExprKind::Named(name) => index_of(defs, name.bytes()),
        _ => 0,
    }
}

fn named_by(alloc: Global, program: &Program) -> Result<Vec<usize>, AllocError>
    ensures { IfOk result (λ list. list.items ≡ map (λ (x : Expr). named program.now.defs x.kind) program.now.exprs) }
{
    let mut list = Vec::new(alloc);
    for expr in program.exprs.as_slice() {
        list.push(named(program.defs.as_slice(), &expr.kind))?;
    }
    Ok(list)
}

fn target(defs: &[Def], kind: &FormKind) -> usize
    ensures { result ≡ target defs.now kind.now }
{
    match kind {
        FormKind::Set {
            target: name,
            at: _,
            value: _,
        } => index_of(defs, name.bytes()),
        _ => 0,
    }
}

fn set_by(alloc: Global, program: &Program) -> Result<Vec<usize>, AllocError>
    ensures { IfOk result (λ list. list.items ≡ map (λ (x : Form). target program.now.defs x.kind) program.now.forms) }
{
    let mut list = Vec::new(alloc);
    for form in program.forms.as_slice() {
        list.push(target(program.defs.as_slice(), &form.kind))?;
    }
    Ok(list)
}

fn firsts(alloc: Global, program: &Program) -> Result<Vec<usize>, AllocError>
    ensures { IfOk result (λ list. list.items ≡ map (λ (x : Def). index_of program.now.defs x.name) program.now.defs) }
{
    let mut list = Vec::new(alloc);
    for def in program.defs.as_slice() {
        list.push(index_of(program.defs.as_slice(), def.name.bytes()))?;
    }
    Ok(list)
}

/// Whether a form sets a name.
#[cycle(sets)]
fn sets(program: &Program, name: &[u8], form: u32) -> bool
    requires { form < length program.now.forms }
    ensures { result ≡ sets program.now name.now form }
{
    laws::sound(program);
    laws::sets(program);
    let found = program.forms.at(form);
    match &found.kind {
        FormKind::Set {
            target: other,
            at: _,
            value: _,
        } => other.bytes() == name,
        FormKind::Cond(branches) => sets_in(program, name, form, branches.as_slice()),
        FormKind::Par(forms) => sets_one(program, name, form, forms.as_slice()),
        FormKind::Go(_) => false,
        FormKind::Call(_) => false,
        FormKind::Return => false,
    }
}

/// Whether a form in these branches does.
#[cycle(sets)]
fn sets_in(program: &Program, name: &[u8], before: u32, branches: &[Branch]) -> bool
    requires { BranchesFit (length program.now.exprs) before (length program.now.forms) branches.now }
    ensures { result ≡ branches_set branches.now (sets program.now name.now) }
{
    for branch in branches {
        if sets_one(program, name, before, branch.body.as_slice()) {
            return true;
        }
    }
    false
}

/// Whether one of these forms does.
#[cycle(sets)]
fn sets_one(program: &Program, name: &[u8], before: u32, forms: &[u32]) -> bool
    requires { AllBetween before (length program.now.forms) forms.now }
    ensures { result ≡ list_any (sets program.now name.now) forms.now }
{
    for form in forms {
        if sets(program, name, *form) {
            return true;
        }
    }
    false
}

/// The forms that are always active and set a name.
fn setters_of(alloc: Global, program: &Program, name: &[u8]) -> Result<List<u32>, AllocError>
    ensures { IfOk result (λ list. list ≡ setters_of program.now name.now) }
{
    laws::sound(program);
    let mut list = List::new(alloc);
    for form in program.always.as_slice() {
        if sets(program, name, *form) {
            list.push(*form)?;
        }
    }
    Ok(list)
}

fn setters(alloc: Global, program: &Program) -> Result<List<List<u32>>, AllocError>
    ensures { IfOk result (λ list. list ≡ map (λ (x : Def). setters_of program.now x.name) program.now.defs) }
{
    let mut list = List::new(alloc);
    for def in program.defs.as_slice() {
        list.push(setters_of(alloc, program, def.name.bytes())?)?;
    }
    Ok(list)
}

/// Which forms don't set a name.
fn quiet_for(alloc: Global, program: &Program, name: &[u8]) -> Result<List<bool>, AllocError>
    ensures { IfOk result (AreQuiet program.now name.now) }
{
    let mut marks = List::new(alloc);
    for (i, _) in program.forms.as_slice().iter().enumerate() {
        let quiet = match u32::try_from(i) {
            Ok(form) => !sets(program, name, form),
            Err(_) => false,
        };
        marks.push(quiet)?;
    }
    Ok(marks)
}

fn quiet(alloc: Global, program: &Program) -> Result<List<List<bool>>, AllocError>
    ensures { IfOk result (AllQuiet program.now) }
{
    let mut list = List::new(alloc);
    for def in program.defs.as_slice() {
        list.push(quiet_for(alloc, program, def.name.bytes())?)?;
    }
    Ok(list)
}

/// The definitions of a kind, by their indices.
fn indices_of(alloc: Global, defs: &[Def], kind: Kind) -> Result<Vec<usize>, AllocError>
    ensures { IfOk result (λ list. list.items ≡ indices_where (is_kind kind) defs.now) }
{
    let mut list = Vec::new(alloc);
    for (i, def) in defs.iter().enumerate() {
        if !kind.holds(def.what) {
            continue;
        }
        list.push(i)?;
    }
    Ok(list)
}

/// The first definition that is the signal input `reset`.
fn reset_at(defs: &[Def]) -> Option<usize>
    ensures found { result ≡ position is_reset defs.now }
    ensures inside { IfSome result (λ d. d < length defs.now) }
{
    defs.iter().position(Def::is_reset)
}

fn pads_before(defs: &[Def], end: usize) -> usize
    requires { end ≤ length defs.now }
    ensures { result ≡ pad_number defs.now end }
{
    defs[..end].iter().filter(|def| def.what.is_input()).count()
}

/// The input pad of `reset`.
fn reset_pad(defs: &[Def]) -> Option<usize>
    ensures { result ≡ reset_pad defs.now }
{
    match reset_at(defs) {
        Some(found) => Some(pads_before(defs, found)),
        None => None,
    }
}

impl Links {
    /// Finds what the names of a program mean.
    pub fn find(alloc: Global, program: &Program) -> Result<Links, AllocError>
        ensures { IfOk result (AreLinks program.now) }
    {
        let defs = program.defs.as_slice();
        Ok(Links {
            exprs: named_by(alloc, program)?,
            forms: set_by(alloc, program)?,
            landings: landings(alloc, program)?,
            defs: firsts(alloc, program)?,
            setters: setters(alloc, program)?,
            quiet: quiet(alloc, program)?,
            inputs: indices_of(alloc, defs, Kind::Given)?,
            stored: indices_of(alloc, defs, Kind::Stored)?,
            outputs: indices_of(alloc, defs, Kind::Shown)?,
            reset: reset_pad(defs),
        })
    }

    /// The place to which a form jumps in the process at an index.
    pub(crate) fn landing(&self, index: usize, form: u32) -> usize
        ensures { result ≡ slice_index (slice_index_or self.now.landings index []) form }
    {
        match self.landings.as_slice().get(index) {
            Some(places) => match places.as_slice().get(form as usize) {
                Some(place) => *place,
                None => 0,
            },
            None => 0,
        }
    }

    /// Whether it is known that a form doesn't set a definition.
    pub(crate) fn is_quiet(&self, target: usize, form: u32) -> bool
        ensures { result ≡ slice_index_or (slice_index_or self.now.quiet target []) form false }
    {
        match self.quiet.as_slice().get(target) {
            Some(marks) => match marks.as_slice().get(form as usize) {
                Some(mark) => *mark,
                None => false,
            },
            None => false,
        }
    }
}
